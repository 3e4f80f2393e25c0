// The table of what the rest of the strip can still take: for each mark, and each number of dots by which its label may slide, the
// greatest reach of the other side with which the marks after it can all be placed. A cell holds 0 for none, else one more than that
// reach's dot: a number and no `Option`, since it stands in lent memory (C interface), and the greater of two is found without a test.
// Rows are found by index, for the reason in full's table.rt.
// A side reaches as far as its last label and the gap behind it, so the gap is in every reach and in no test.
ghost use Rattle.std.specs.Prelude.{◌≡◌, ◌||◌, ◌+◌, ◌≤◌, ◌<◌, ltb, eqb, length, get_or};
ghost use Rattle.geometry.specs.Dot.{empty_reach};
ghost use Rattle.geometry.specs.Pass.{most_gap};
ghost use Rattle.slide.specs.Slide.{work_named};
ghost use Rattle.slide.specs.inner.Handed.{mark_of, plain_of};
ghost use Rattle.slide.specs.inner.Table.{cell_in, CellsAre, row_before, RowReady, TableFrom};

use crate::mark::Mark;
use crate::marks::Marks;
use crate::row::Row;
use geometry::dot::{EMPTY_REACH, NO_BOUND};
use geometry::limits::MOST_LENGTH;

// Cells of a row: a label slides by 0 to MOST_LENGTH dots.
pub const ROW_CELLS: usize = MOST_LENGTH as usize + 1;

// The cells of a mark from the row of the next one. The label that does not slide reaches least, and each dot further adds one. The bounds
// fall as the reach grows, so each scan goes on where the last one stopped.
fn fill_cells(cells: &mut [u16], mark: Mark, gap: u8, next: Row)
    requires count { length cells.old ≡ mark.length + 1 }
    requires narrow { gap ≤ most_gap }
    ensures { CellsAre cells.new (row_before gap (mark_of mark) (mark_of next.entry.mark) (cell_in next.entry.cells.now)) }
{
    let least_reach = mark.place + gap as u16;
    let mut slides = next.mark.length as usize + 1;
    for (d, cell) in cells.iter_mut().enumerate() {
        let reach = least_reach + d as u16;
        slides = next.furthest_slide(reach, slides);
        let own = next.own_side(reach);
        let other = next.mark.other_side(slides);
        *cell = own.max(other);
    }
}

// The row of mark k, from the rows of the marks after it. Whatever the last mark does, the rest goes.
fn fill_mark(marks: Marks, work: &mut [u16], k: usize)
    requires { RowReady marks.places.now marks.lengths.now marks.gap work.old k }
    ensures { TableFrom marks.entry.gap work.old work.new k (plain_of marks.entry) }
{
    let mark = marks.at(k);
    let row = k * ROW_CELLS;
    let (filled, behind) = work.split_at_mut(row + ROW_CELLS);
    let cells = &mut filled[row..row + mark.length as usize + 1];
    if k + 1 == marks.places.len() {
        cells.fill(NO_BOUND);
        return;
    }
    let next = Row {
        mark: marks.at(k + 1),
        cells: behind,
    };
    fill_cells(cells, mark, marks.gap, next);
}

// The rows of all marks, from the last to the first.
pub fn fill(marks: Marks, work: &mut [u16])
    requires { work_named ≤ length work.old }
    ensures { TableFrom marks.entry.gap work.old work.new 0 (plain_of marks.entry) }
{
    for k in (0..marks.places.len()).rev() {
        fill_mark(marks, work, k);
    }
}

// Whether the strip has a placing: both sides are empty at first, so the first mark's first cell decides.
pub fn fits(marks: Marks, work: &[u16]) -> bool
    requires { 0 < length work.now }
    ensures { result ≡ (eqb (length marks.entry.places.now) 0 || ltb empty_reach (get_or work.now 0 0)) }
{
    marks.places.is_empty() || EMPTY_REACH < work[0]
}
