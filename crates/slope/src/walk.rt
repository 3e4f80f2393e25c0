// The walk from the left: each mark gets a quadrant from which the marks behind it can be placed.
ghost use Rattle.slope.specs.Track.{points_of_lists};
ghost use Rattle.slope.specs.Slope.{Placed};
ghost use Rattle.slope.specs.inner.Table.{WalkReady};

use crate::marks::Marks;
use crate::pairs::{EVERY_QUADRANT, apart, behind, one_of};
use crate::table::Table;

// Writes the position of every mark. The quadrants that a mark may take are those from which the rest can be placed beside the mark before it,
// and which the mark before that one leaves free.
pub fn walk(marks: Marks, table: &Table, first: u16, positions: &mut [u8])
    requires { WalkReady marks.side marks.xs.now marks.ys.now table.now first positions.old }
    ensures { Placed marks.entry.side (points_of_lists marks.entry.xs.now marks.entry.ys.now) positions.old positions.new }
{
    let mut allowed = first;
    let mut free_next = EVERY_QUADRANT;
    for k in 0..marks.xs.len() {
        let q = one_of(allowed);
        positions[k] = u8::from(q);
        allowed = behind(table[k], q) & free_next;
        let far = marks.spreads(k, k + 2);
        free_next = behind(apart(far.x, far.y), q);
    }
}
