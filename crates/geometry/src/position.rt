// The positions of a mark's label and the sides of the line, with the numbers that stand for them in lent lists.
ghost use Rattle.std.specs.Prelude.{◌≡◌};
ghost use Rattle.geometry.specs.Position.{code, side_code, labelled, own_reach, above_after, below_after};
ghost use Rattle.geometry.specs.inner.Positions.{position_of, side_of, lies_on_lem, direction_at, points_left};

#[derive(Clone, Copy, Debug, PartialEq, Eq)]
pub enum Side {
    Above = 0,
    Below = 1,
}

impl From<Side> for u8 {
    ghost from_gives = { λ side number. number ≡ side_code (side_of side) };

    fn from(side: Side) -> u8 {
        side as u8
    }
}

// What there is once for each side, such as the reaches of the two.
#[derive(Clone, Copy, Debug, PartialEq, Eq)]
pub struct Sides<T> {
    pub above: T,
    pub below: T,
}

impl<T: Copy> Sides<T> {
    pub fn on(self, side: Side) -> T
        ensures { result ≡ own_reach (side_of side) self.above self.below }
    {
        match side {
            Side::Above => self.above,
            Side::Below => self.below,
        }
    }

    // The same with another value on a side.
    pub fn with(self, side: Side, value: T) -> Sides<T>
        ensures above { result.above ≡ above_after (side_of side) value self.above }
        ensures below { result.below ≡ below_after (side_of side) value self.below }
    {
        match side {
            Side::Above => Sides {
                above: value,
                ..self
            },
            Side::Below => Sides {
                below: value,
                ..self
            },
        }
    }
}

#[derive(Clone, Copy, Debug, PartialEq, Eq)]
pub enum Position {
    Unlabelled = 0,
    AboveRight = 1,
    AboveLeft = 2,
    BelowLeft = 3,
    BelowRight = 4,
}

impl From<Position> for u8 {
    ghost from_gives = { λ position number. number ≡ code (position_of position) };

    fn from(position: Position) -> u8 {
        position as u8
    }
}

// The labelled positions, in the order in which they are tried.
pub const RANKED: [Position; 4] = [
    Position::AboveLeft,
    Position::BelowLeft,
    Position::AboveRight,
    Position::BelowRight,
];

impl Position {
    pub fn is_labelled(self) -> bool
        ensures { result ≡ labelled (position_of self) }
    {
        !matches!(self, Position::Unlabelled)
    }

    // Whether the label lies on a side; an unlabelled mark has none there.
    pub fn lies_on(self, side: Side) -> bool
        ensures { result ≡ lies_on_lem (side_of side) (position_of self) }
    {
        match self {
            Position::Unlabelled => false,
            Position::AboveRight | Position::AboveLeft => matches!(side, Side::Above),
            Position::BelowLeft | Position::BelowRight => matches!(side, Side::Below),
        }
    }

    pub fn is_leftward(self) -> bool
        ensures { result ≡ points_left (direction_at (position_of self)) }
    {
        matches!(self, Position::AboveLeft | Position::BelowLeft)
    }
}
