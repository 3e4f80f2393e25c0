// How far apart two marks are along one axis, counted in sides: it decides which of their squares share more than an end point there.
ghost use Rattle.std.specs.Prelude.{◌≤◌};

use crate::distance::distance;

// How many whole sides, and 2 for more. A number and no enum: it is the sum of two comparisons, and an index, without a jump.
#[derive(Clone, Copy)]
pub struct Spread {
    pub sides: u8,
    ghost few: { sides ≤ 2 },
}

// The spread of marks whose squares never overlap.
pub const FAR: Spread = Spread { sides: 2 };

impl Spread {
    ghost use Rattle.std.specs.Prelude.{◌≡◌, true};
    ghost use Rattle.std.specs.Int.Signed.{lt_z};
    ghost use Rattle.slope.specs.inner.Spreads.{SpreadIs};

    // From a coordinate to a greater one.
    pub fn between(from: i16, to: i16, side: u8) -> Spread
        requires { lt_z from to ≡ true }
        ensures { SpreadIs side from to result.sides }
    {
        let distance = distance(from, to);
        let side = side as u16;
        Spread {
            sides: (side <= distance) as u8 + (2 * side <= distance) as u8,
        }
    }
}
