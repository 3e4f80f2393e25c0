// Places as loggers measure them: the whole dot of a number of dots or of millimetres that a logger has stored in 32 bits.
#![tactic(auto)]

mod floor;

ghost use Rattle.std.specs.Prelude.{◌≡◌};
ghost use Rattle.logger.specs.Value.{given_lem};
ghost use Rattle.logger.specs.inner.Dots.{in_dots_lem, in_range_lem};
ghost use Rattle.logger.specs.Place.{place_answer, PlaceContract};

use crate::floor::floor;
use geometry::limits::{LEAST_PLACE, MOST_PLACE};
use geometry::refusal::{Refusal, check};

// A power of two above 1, so that a product by it is exact wherever it is finite.
const DOTS_A_MILLIMETRE: f32 = 8.0;

// A place is in range where the number of dots is at least the least place and below the one behind the last.
const LEAST: f32 = LEAST_PLACE as f32;

const BEYOND: f32 = (MOST_PLACE + 1) as f32;

// What a logger has stored.
#[derive(Clone, Copy)]
pub enum Logged {
    Dots(f32),
    Millimetres(f32),
}

impl Logged {
    // The number as it came.
    fn given(self) -> f32
        ensures { result ≡ given_lem self }
    {
        match self {
            Logged::Dots(dots) => dots,
            Logged::Millimetres(millimetres) => millimetres,
        }
    }

    // The number of dots, infinite where 32 bits cannot hold it.
    fn in_dots(self) -> f32
        ensures { result ≡ in_dots_lem self }
    {
        match self {
            Logged::Dots(dots) => dots,
            Logged::Millimetres(millimetres) => millimetres * DOTS_A_MILLIMETRE,
        }
    }
}

// Whether the place of so many dots is in range. No NaN is, and no infinity.
fn in_range(dots: f32) -> bool
    ensures { result ≡ in_range_lem dots }
{
    LEAST <= dots && dots < BEYOND
}

// The place of a mark: the largest whole number of dots not above what is stored; 15 if that is not finite, else 8 if the place is out of
// range. What came is tested and not the product, which may be infinite where it is not.
pub fn place(logged: Logged) -> Result<i16, Refusal>
    ensures { PlaceContract logged (place_answer result) }
{
    let given = logged.given();
    let dots = logged.in_dots();
    if in_range(dots) {
        return Ok(floor(dots));
    }
    check(given.is_finite(), Refusal::NotFinite)?;
    Err(Refusal::BadMark)
}
