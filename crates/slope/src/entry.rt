// The checks on entry: 6 lists of unequal length, then 7 over 4,000 marks, 8 a value out of range or a coordinate not rising, 7 over 60 marks,
// 18 not on one line, 9 a position list shorter than the count.
ghost use Rattle.std.specs.Prelude.{◌≡◌};
ghost use Rattle.geometry.specs.Refusal.{verdict_of, first_failure};
ghost use Rattle.slope.specs.Track.{lists_of, good_coordinates_lem, good_values_lem};
ghost use Rattle.slope.specs.Slope.{list_checks, mark_checks, last_checks, slope_checks};
ghost use Rattle.slope.specs.inner.Marks.{Checked};

use crate::line::on_one_line;
use crate::track::Track;
use geometry::entry::{length_in_range, places_in_range, places_rise};
use geometry::limits::{MOST_MARKS, MOST_SHORT};
use geometry::refusal::{Refusal, check};

// Whether coordinates are in their range and rise strictly.
fn good_coordinates(coordinates: &[i16]) -> bool
    ensures { result ≡ good_coordinates_lem coordinates.now }
{
    places_in_range(coordinates) && places_rise(coordinates)
}

fn good_values(track: Track, side: u8) -> bool
    ensures { result ≡ good_values_lem (lists_of track.entry) side }
{
    length_in_range(side) && good_coordinates(track.xs) && good_coordinates(track.ys)
}

// 6, 7 over 4,000 marks.
fn check_lists(track: Track) -> Result<(), Refusal>
    ensures { verdict_of result ≡ first_failure (list_checks (lists_of track.entry)) }
{
    let equal = check(track.xs.len() == track.ys.len(), Refusal::ListsUnequal);
    equal.and(check(track.xs.len() <= MOST_MARKS, Refusal::TooManyMarks))
}

// 8, 7 over 60 marks.
fn check_marks(track: Track, side: u8) -> Result<(), Refusal>
    ensures { verdict_of result ≡ first_failure (mark_checks (lists_of track.entry) side) }
{
    let good = check(good_values(track, side), Refusal::BadMark);
    good.and(check(track.xs.len() <= MOST_SHORT, Refusal::TooManyMarks))
}

// 18, 9, for a position list of `lent` elements.
fn check_last(track: Track, lent: usize) -> Result<(), Refusal>
    requires { Checked track.xs.now track.ys.now }
    ensures { verdict_of result ≡ first_failure (last_checks (lists_of track.entry) lent) }
{
    let straight = check(on_one_line(track.xs, track.ys), Refusal::NotOnOneLine);
    straight.and(check(track.xs.len() <= lent, Refusal::ListTooShort))
}

// The first check that is not passed. The values of over 4,000 marks are not looked at, nor the line of over 60.
pub fn check_track(track: Track, side: u8, lent: usize) -> Result<(), Refusal>
    ensures { verdict_of result ≡ slope_checks (lists_of track.entry) side lent }
{
    check_lists(track)?;
    check_marks(track, side)?;
    check_last(track, lent)
}
