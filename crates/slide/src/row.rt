// A mark and its row of the table.
ghost use Rattle.std.specs.Prelude.{◌<◌, length};

use crate::mark::Mark;
use geometry::position::{Side, Sides};

// The row is what the cells begin with: a cell for each number of dots by which the label may slide.
#[derive(Clone, Copy)]
pub struct Row<'a> {
    pub mark: Mark,
    pub cells: &'a [u16],
    ghost long: { mark.length < length cells.now },
}

impl Row<'_> {
    ghost use Rattle.std.specs.Prelude.{◌≡◌, ◌≤◌};
    ghost use Rattle.geometry.specs.inner.Positions.{side_of};
    ghost use Rattle.slide.specs.inner.Handed.{mark_of};
    ghost use Rattle.slide.specs.inner.Room.{own_side_lem, furthest};
    ghost use Rattle.slide.specs.inner.Table.{cell_in};
    ghost use Rattle.slide.specs.inner.Walk.{takes_above, side_if};

    // The cell of the label on the side of the reach; 0 for none, as in a cell, where the reach is beyond the mark.
    pub fn own_side(self, reach: u16) -> u16
        ensures { result ≡ own_side_lem (mark_of self.entry.mark) reach (cell_in self.entry.cells.now) }
    {
        if self.mark.place < reach {
            return 0;
        }
        self.cells[self.mark.slid(reach) as usize]
    }

    // One more than the greatest slide below `count` whose cell lies beyond the reach, or 0.
    // The loop counts down as `furthest` of the specifications does.
    pub fn furthest_slide(self, reach: u16, count: usize) -> usize
        requires { count ≤ length self.cells.now }
        ensures { result ≡ furthest (cell_in self.entry.cells.now) reach count }
    {
        for d in (0..count).rev() {
            if reach < self.cells[d] {
                return d + 1;
            }
        }
        0
    }

    // The side that the walk takes: above if the label's edge is not beyond the mark there and the rest goes with the reach below, else below.
    pub fn next_side(self, reaches: Sides<u16>) -> Side
        ensures { side_of result ≡ side_if (takes_above reaches.above reaches.below (mark_of self.entry.mark) (cell_in self.entry.cells.now)) }
    {
        if reaches.below < self.own_side(reaches.above) {
            Side::Above
        } else {
            Side::Below
        }
    }
}
