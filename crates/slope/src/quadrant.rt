// The four positions of a square.
ghost use Rattle.std.specs.Prelude.{◌≡◌};
ghost use Rattle.slope.specs.Square.{quadrant_number};

// The quadrants about a mark in which its square may lie, x to the right and y upwards.
#[derive(Clone, Copy)]
pub enum Quadrant {
    AboveRight = 1,
    AboveLeft = 2,
    BelowLeft = 3,
    BelowRight = 4,
}

impl From<Quadrant> for u8 {
    ghost from_gives = { λ quadrant number. number ≡ quadrant_number quadrant };

    fn from(quadrant: Quadrant) -> u8 {
        quadrant as u8
    }
}
