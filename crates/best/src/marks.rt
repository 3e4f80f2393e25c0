// The marks of a strip that passed the checks on entry.
ghost use Rattle.std.specs.Prelude.{◌≡◌, leb};
ghost use Rattle.geometry.specs.Strip.{strip};
ghost use Rattle.best.specs.inner.Checked.{Checked};

use crate::name::{LastLabels, NAMES};
use geometry::dot::{EMPTY_REACH, dot_of};
use geometry::position::{Position, Side};

// Their lists, and the gap.
#[derive(Clone, Copy)]
pub struct Marks<'a> {
    pub places: &'a [i16],
    pub lengths: &'a [u8],
    pub weights: &'a [u16],
    pub gap: u8,
    ghost checked: { Checked gap (strip places.now lengths.now weights.now) },
}

// Whether a label that begins at `begin` overlaps nothing on a side that reaches to `reach`: it may begin right there.
fn is_clear(reach: u16, begin: u16) -> bool
    ensures { result ≡ leb reach begin }
{
    reach <= begin
}

impl<'a> Marks<'a> {
    ghost use Rattle.std.specs.Prelude.{◌≤◌, ◌<◌, ◌/◌, length, get_or};
    ghost use Rattle.geometry.specs.Overlap.{left_end};
    ghost use Rattle.geometry.specs.inner.At.{mark_at};
    ghost use Rattle.geometry.specs.inner.Positions.{position_of, direction_at};
    ghost use Rattle.best.specs.inner.Handed.{strip_of};
    ghost use Rattle.best.specs.inner.Names.{reach_at, Reaches};
    ghost use Rattle.best.specs.inner.Trial.{BeforeMark, room_at};
    ghost use Rattle.best.specs.inner.Worth.{earned_by};

    // The place of mark k, counted from 0, as a dot.
    fn place_at(self, k: usize) -> u16
        requires { k < length self.places.now }
        ensures { result ≡ (mark_at (strip_of self.entry) k).place }
    {
        dot_of(self.places[k])
    }

    // Where the label of mark k begins at p, as a dot.
    pub fn begin_of(self, k: usize, p: Position) -> u16
        requires { k < length self.places.now }
        ensures { result ≡ left_end (mark_at (strip_of self.entry) k) (direction_at (position_of p)) }
    {
        let place = self.place_at(k);
        if p.is_leftward() {
            place - self.lengths[k] as u16
        } else {
            place
        }
    }

    // The reach, as a dot, of a side whose last label has this name: the label's right end with the gap, which counts here and nowhere else.
    pub fn reach_of(self, name: usize) -> u16
        requires { name / 2 ≤ length self.places.now }
        ensures { result ≡ reach_at self.entry.gap (strip_of self.entry) name }
    {
        if name < 2 {
            return EMPTY_REACH;
        }
        let i = name / 2 - 1;
        let place = self.place_at(i);
        let end = if name % 2 == 0 {
            place
        } else {
            place + self.lengths[i] as u16
        };
        end + self.gap as u16
    }

    // Puts the reach of every name into a list, so that the loops of the table look it up. The walk, which needs few, finds each by `reach_of`.
    // By index: behind the last mark's a name has no reach. A list given back by value would take its bytes of stack twice.
    pub fn set_reaches(self, reaches: &mut [u16; NAMES])
        ensures { Reaches self.entry.gap (strip_of self.entry) reaches.new }
    {
        for name in 0..2 * self.places.len() + 2 {
            reaches[name] = self.reach_of(name);
        }
    }

    // Whether mark k at p has room beside the last labels.
    pub fn has_room(self, k: usize, p: Position, last: LastLabels) -> bool
        requires { BeforeMark (strip_of self) k last.above last.below }
        ensures { result ≡ room_at self.entry.gap (strip_of self.entry) k last.above last.below (position_of p) }
    {
        let begin = self.begin_of(k, p);
        if p.lies_on(Side::Above) {
            is_clear(self.reach_of(last.above), begin)
        } else if p.lies_on(Side::Below) {
            is_clear(self.reach_of(last.below), begin)
        } else {
            true
        }
    }

    // What mark k earns at p.
    pub fn earned(self, k: usize, p: Position) -> u16
        requires { k < length self.weights.now }
        ensures { result ≡ earned_by (get_or self.entry.weights.now k 0) (position_of p) }
    {
        if p.is_labelled() { self.weights[k] } else { 0 }
    }
}
