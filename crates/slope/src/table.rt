// The table of what the rest of a track can still take: a number for each mark, the set of the pairs of quadrants, of it and the next one, from
// which the marks behind them can be placed. It is filled from the last mark to the first.
ghost use Rattle.std.specs.Prelude.{◌+◌, ◌<◌, length};
ghost use Rattle.slope.specs.inner.Table.{RowIs, Filled};

use crate::marks::Marks;
use crate::pairs::{EVERY_PAIR, apart, begun, ending_with, ends_apart};
use geometry::limits::MOST_SHORT;

pub type Table = [u16; MOST_SHORT];

// The row of mark k by that of the next one. Of the triples of quadrants, of mark k and the next two, those stay whose last two stand in that row
// and whose first and last squares do not overlap; of the pairs with which these begin, those whose squares do not overlap.
fn row(marks: Marks, k: usize, next: u16) -> u16
    requires within { k < length marks.xs.now }
    requires behind { RowIs marks.side marks.xs.now marks.ys.now (k + 1) next }
    ensures { RowIs marks.entry.side marks.entry.xs.now marks.entry.ys.now k result }
{
    let near = marks.spreads(k, k + 1);
    let far = marks.spreads(k, k + 2);
    let triples = ending_with(next) & ends_apart(far.x, far.y);
    apart(near.x, near.y) & begun(triples)
}

// Fills the rows of all marks and gives back that of the first. Where there is no mark behind, any pair will do.
pub fn fill(marks: Marks, table: &mut Table) -> u16
    ensures { Filled marks.entry.side marks.entry.xs.now marks.entry.ys.now table.new result }
{
    let mut next = EVERY_PAIR;
    for k in (0..marks.xs.len()).rev() {
        next = row(marks, k, next);
        table[k] = next;
    }
    next
}
