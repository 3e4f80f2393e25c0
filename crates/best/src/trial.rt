// A mark that is tried at a position, beside the last labels, by the table.
ghost use Rattle.best.specs.inner.Handed.{strip_of};
ghost use Rattle.best.specs.inner.Trial.{TrialAsked};

use crate::marks::Marks;
use crate::name::{LastLabels, NAMES, after};
use geometry::position::{Position, RANKED};

// Mark k, counted from 0.
#[derive(Clone, Copy)]
pub struct Trial<'a> {
    pub marks: Marks<'a>,
    pub work: &'a [u32],
    pub k: usize,
    pub last: LastLabels,
    ghost asked: { TrialAsked (strip_of marks) work.now k last.above last.below },
}

impl<'a> Trial<'a> {
    ghost use Rattle.std.specs.Prelude.{◌≡◌};
    ghost use Rattle.geometry.specs.inner.Positions.{position_of};
    ghost use Rattle.best.specs.inner.Tried.{gain_of, attains_of, picked_of};

    // What the mark at p and the marks after it earn.
    pub fn gain(self, p: Position) -> u32
        ensures { result ≡ gain_of self.entry (position_of p) }
    {
        let last = after(self.last, self.k, p);
        self.marks.earned(self.k, p) as u32 + self.work[last.above * NAMES + last.below]
    }

    // Whether it has room at p and they earn exactly `target`.
    fn attains(self, p: Position, target: u32) -> bool
        ensures { result ≡ attains_of self.entry target (position_of p) }
    {
        self.marks.has_room(self.k, p, self.last) && self.gain(p) == target
    }

    // The position of the mark, where it and those after it are to earn `target`.
    pub fn choose(self, target: u32) -> Position
        ensures { position_of result ≡ picked_of self.entry target }
    {
        RANKED
            .iter()
            .find(|p| self.attains(**p, target))
            .copied()
            .unwrap_or(Position::Unlabelled)
    }
}
