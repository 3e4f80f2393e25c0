// The checks on entry: 6 mark lists of unequal length, then 12 a gap over 8, which only the passes test, then 7 over 4,000 marks, then 8 a
// value out of range or places not rising, then 7 more marks than the call takes.
ghost use Rattle.std.specs.Prelude.{◌≡◌, Bool};
ghost use Rattle.std.specs.List.{list_all};
ghost use Rattle.std.specs.Int.Signed.{lt_z};
ghost use Rattle.geometry.specs.Mark.{place_in_range_lem, length_in_range_lem, weight_in_range_lem, rising};
ghost use Rattle.geometry.specs.Strip.{lists_of, most_marks};
ghost use Rattle.geometry.specs.Entry.{same_lengths_lem, good_places_lem, good_labels_lem, good_marks_lem, entry};
ghost use Rattle.geometry.specs.Pass.{pass_verdict};
ghost use Rattle.geometry.specs.Refusal.{verdict_of};
ghost use Rattle.geometry.specs.inner.OnEntry.{VerdictOnEntry};

use crate::limits::{LEAST_PLACE, MOST_GAP, MOST_LENGTH, MOST_MARKS, MOST_PLACE, MOST_WEIGHT};
use crate::refusal::{Refusal, check};
use crate::strip::Strip;

// Here and below two comparisons, as the definitions have them.
pub fn place_in_range(place: i16) -> bool
    ensures { result ≡ place_in_range_lem place }
{
    LEAST_PLACE <= place && place <= MOST_PLACE
}

pub fn length_in_range(length: u8) -> bool
    ensures { result ≡ length_in_range_lem length }
{
    1 <= length && length <= MOST_LENGTH
}

pub fn weight_in_range(weight: u16) -> bool
    ensures { result ≡ weight_in_range_lem weight }
{
    1 <= weight && weight <= MOST_WEIGHT
}

// Whether every element passes a test. A list is looked at whole, with no jump at an element that fails, so that the compiler tests several
// elements at once: `all` of an iterator stops there.
pub fn every_passes<T: Copy, F: Fn(T) -> bool>(list: &[T], test: F) -> bool
    requires { F.IsAlwaysCallable test }
    ensures { (passes : T → Bool) → ((x : T) (r : Bool) → F.post test x r → r ≡ passes x) → result ≡ list_all passes list.now }
{
    let mut good = true;
    for x in list {
        good &= test(*x);
    }
    good
}

// Whether all places, or coordinates of a track, are in their range.
pub fn places_in_range(places: &[i16]) -> bool
    ensures { result ≡ list_all place_in_range_lem places.now }
{
    every_passes(places, place_in_range)
}

// Whether a mark at y may follow one at x.
fn rises(x: i16, y: i16) -> bool
    ensures { result ≡ lt_z x y }
{
    x < y
}

// Whether each place, or coordinate of a track, is below the next. The list is looked at whole here too: `is_sorted_by` stops at the first that
// is not, and `windows` gives slices, whose two elements are looked up by index again.
pub fn places_rise(places: &[i16]) -> bool
    ensures { result ≡ rising places.now }
{
    let mut good = true;
    for i in 1..places.len() {
        good &= rises(places[i - 1], places[i]);
    }
    good
}

fn same_lengths(strip: Strip) -> bool
    ensures { result ≡ same_lengths_lem (lists_of strip.entry) }
{
    strip.places.len() == strip.lengths.len() && strip.places.len() == strip.weights.len()
}

// Whether the places are in their range and rise.
fn good_places(places: &[i16]) -> bool
    ensures { result ≡ good_places_lem places.now }
{
    places_in_range(places) && places_rise(places)
}

// Whether lengths and weights are in their ranges.
fn good_labels(lengths: &[u8], weights: &[u16]) -> bool
    ensures { result ≡ good_labels_lem lengths.now weights.now }
{
    every_passes(lengths, length_in_range) && every_passes(weights, weight_in_range)
}

fn good_marks(strip: Strip) -> bool
    ensures { result ≡ good_marks_lem (lists_of strip.entry) }
{
    good_places(strip.places) && good_labels(strip.lengths, strip.weights)
}

// The first check on entry that is not passed, for a call that takes at most `limit` marks. `own` is what the checks that the call makes
// right after 6 have given; a call that makes none hands over `Ok`. The values of a strip that no call takes are not looked at.
fn check_marks(strip: Strip, own: Result<(), Refusal>, limit: usize) -> Result<(), Refusal>
    ensures { VerdictOnEntry (verdict_of own) limit (lists_of strip.entry) (verdict_of result) }
{
    check(same_lengths(strip), Refusal::ListsUnequal).and(own)?;
    check(strip.places.len() <= MOST_MARKS, Refusal::TooManyMarks)?;
    let values = check(good_marks(strip), Refusal::BadMark);
    values.and(check(strip.places.len() <= limit, Refusal::TooManyMarks))
}

// The checks on entry of the writer, which has none of its own.
pub fn check_strip(strip: Strip) -> Result<(), Refusal>
    ensures { verdict_of result ≡ entry most_marks (lists_of strip.entry) }
{
    check_marks(strip, Ok(()), MOST_MARKS)
}

// Those of a pass, whose own is that of the gap, and behind them the checks on lent memory: 9 where the shortest answer list, of
// `shortest` elements, is shorter than the count of marks, then 10 where the work area, of `lent` elements, is shorter than `named`.
pub fn check_pass(
    strip: Strip,
    gap: u8,
    limit: usize,
    shortest: usize,
    named: usize,
    lent: usize,
) -> Result<(), Refusal>
    ensures { verdict_of result ≡ pass_verdict limit (lists_of strip.entry) gap shortest named lent }
{
    check_marks(strip, check(gap <= MOST_GAP, Refusal::GapTooWide), limit)?;
    check(strip.places.len() <= shortest, Refusal::ListTooShort)?;
    check(named <= lent, Refusal::WorkTooShort)
}
