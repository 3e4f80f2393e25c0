// Places and their dots, counted from −32,768: sums and differences of dots are unsigned.
ghost use Rattle.std.specs.Prelude.{◌≡◌};
ghost use Rattle.geometry.specs.Dot.{dot};
ghost use Rattle.geometry.specs.inner.Place.{place_of_lem};

use crate::limits::{LEAST_PLACE, MOST_PLACE};
use crate::outside;

const SHIFT: i32 = 32768;

// The dot of place 0, and those of the least and the greatest place.
pub const ZERO_DOT: u16 = SHIFT as u16;

pub const LEAST_DOT: u16 = (LEAST_PLACE as i32 + SHIFT) as u16;

pub const MOST_DOT: u16 = (MOST_PLACE as i32 + SHIFT) as u16;

// The reach of a side without labels, and a bound that every reach meets.
pub const EMPTY_REACH: u16 = (outside::EMPTY_REACH as i32 + SHIFT) as u16;

pub const NO_BOUND: u16 = (outside::NO_BOUND as i32 + SHIFT) as u16;

// The dot of a place.
pub fn dot_of(place: i16) -> u16
    ensures { result ≡ dot place }
{
    (place as i32 + SHIFT) as u16
}

// The place of a dot.
pub fn place_of(dot: u16) -> i16
    ensures { result ≡ place_of_lem dot }
{
    (dot as i32 - SHIFT) as i16
}
