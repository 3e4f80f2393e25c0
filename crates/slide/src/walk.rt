// The walk from the left, which takes at each mark the first side that the table allows.
ghost use Rattle.geometry.specs.inner.Positions.{side_of};
ghost use Rattle.slide.specs.Slide.{slide_lent};
ghost use Rattle.slide.specs.inner.Handed.{mark_of};
ghost use Rattle.slide.specs.inner.Table.{cell_in};
ghost use Rattle.slide.specs.inner.Walk.{takes_above, side_if, LabelOn, StepReady, WalkReady, Walked};

use crate::marks::Marks;
use crate::row::Row;
use crate::table;
use geometry::dot::{EMPTY_REACH, place_of};
use geometry::position::{Side, Sides};

// A label's side and left edge, as a dot, and the reaches after it: its own side reaches to its right end and the gap behind it.
#[derive(Clone, Copy)]
struct Label {
    side: Side,
    edge: u16,
    after: Sides<u16>,
}

// The next label of the walk. From its left edge on, its length and the gap are taken on its side.
fn place_label(row: Row, gap: u8, reaches: Sides<u16>) -> Label
    requires { StepReady row.cells.now (mark_of row.mark) gap reaches.above reaches.below }
    ensures { LabelOn gap (side_if (takes_above reaches.above reaches.below (mark_of row.entry.mark) (cell_in row.entry.cells.now)))
        (mark_of row.entry.mark) reaches.above reaches.below (side_of result.side) result.edge result.after.above result.after.below }
{
    let mark = row.mark;
    let side = row.next_side(reaches);
    let edge = mark.leftmost(reaches.on(side));
    let reach = edge + (mark.length as u16 + gap as u16);
    Label {
        side,
        edge,
        after: reaches.with(side, reach),
    }
}

// Sides and left edges for all marks of a strip that has a placing. By index, which the row, the mark and both lists have.
pub fn walk(marks: Marks, work: &[u16], sides: &mut [u8], edges: &mut [i16])
    requires { WalkReady marks.places.now marks.lengths.now marks.gap (slide_lent sides.old edges.old work.now) }
    ensures { Walked marks.entry.places.now marks.entry.lengths.now marks.entry.gap
        (slide_lent sides.old edges.old work.now)
        (slide_lent sides.new edges.new work.now) }
{
    let mut reaches = Sides {
        above: EMPTY_REACH,
        below: EMPTY_REACH,
    };
    for i in 0..marks.places.len() {
        let row = Row {
            mark: marks.at(i),
            cells: &work[i * table::ROW_CELLS..],
        };
        let label = place_label(row, marks.gap, reaches);
        sides[i] = u8::from(label.side);
        edges[i] = place_of(label.edge);
        reaches = label.after;
    }
}
