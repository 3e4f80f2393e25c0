// Sides and positions of labels, with document 01's numbers. They are the test's own, since geometry's are part of what is tested.

// A number that stands for no side or position, or a digit that a model does not have.
#[derive(Clone, Copy)]
pub struct Unknown;

#[derive(Clone, Copy, PartialEq)]
pub enum Side {
    Above = 0,
    Below = 1,
}

impl TryFrom<u8> for Side {
    type Error = Unknown;

    fn try_from(number: u8) -> Result<Side, Unknown> {
        match number {
            0 => Ok(Side::Above),
            1 => Ok(Side::Below),
            _ => Err(Unknown),
        }
    }
}

#[derive(Clone, Copy)]
pub enum Position {
    AboveRight = 1,
    AboveLeft = 2,
    BelowLeft = 3,
    BelowRight = 4,
}

impl TryFrom<u8> for Position {
    type Error = Unknown;

    fn try_from(number: u8) -> Result<Position, Unknown> {
        match number {
            1 => Ok(Position::AboveRight),
            2 => Ok(Position::AboveLeft),
            3 => Ok(Position::BelowLeft),
            4 => Ok(Position::BelowRight),
            _ => Err(Unknown),
        }
    }
}
