// The table: for each pair of last labels, one above and one below, the most that the marks after them can still earn. Its cells are found by
// index, for the reason in full's table.rt.
ghost use Rattle.std.specs.Prelude.{◌≡◌, suc, ◌*◌, ◌<◌, ◌≤◌, length, set, drop};
ghost use Rattle.best.specs.Best.{work_named};
ghost use Rattle.best.specs.inner.Handed.{strip_of};
ghost use Rattle.best.specs.inner.Names.{names, names_before};
ghost use Rattle.best.specs.inner.Table.{cell_of, Filled, Renewing, Renewed};
ghost use Rattle.best.specs.inner.Trial.{TrialAsked};
ghost use Rattle.best.specs.inner.Row.{RowOf, CellAsked, cell_by};

use crate::WORK_NAMED;
use crate::marks::Marks;
use crate::name::NAMES;
use crate::row::Row;
use crate::trial::Trial;
use geometry::position::{Position, Sides};
use geometry::work::clear;

// What the cells of the row of `above` share for mark k. A label below becomes the last one there, whatever the last one was: 0 stands
// for it.
fn row_of(marks: Marks, reaches: &[u16; NAMES], work: &[u32], k: usize, above: usize) -> Row
    requires { TrialAsked (strip_of marks) work.now k above 0 }
    ensures { RowOf (strip_of marks.entry) reaches.now work.now k above result }
{
    let trial = Trial {
        marks,
        work,
        k,
        last: Sides { above, below: 0 },
    };
    Row {
        reach: reaches[above],
        left: marks.begin_of(k, Position::BelowLeft),
        place: marks.begin_of(k, Position::BelowRight),
        weight: marks.weights[k] as u32,
        leftward: trial.gain(Position::BelowLeft),
        rightward: trial.gain(Position::BelowRight),
    }
}

// One cell for one mark more, by what its row shares.
fn renew_cell(
    reaches: &[u16; NAMES],
    work: &mut [u32],
    k: usize,
    above: usize,
    below: usize,
    row: Row,
)
    requires { CellAsked work.old k above below }
    ensures { work.new ≡ set work.old (cell_of above below)
        (cell_by row reaches.now work.old k above below) }
{
    let stay = work[above * NAMES + below];
    let above_left = work[(2 * k + 2) * NAMES + below];
    let above_right = work[(2 * k + 3) * NAMES + below];
    work[above * NAMES + below] = row.cell(reaches[below], stay, above_left, above_right);
}

// The row of one last label above, for one mark more (the work area is written here, so it is a parameter, where `Trial` has it as a field): its cells with a last label below of mark k or later stay as they are.
fn renew_row(marks: Marks, reaches: &[u16; NAMES], work: &mut [u32], k: usize, above: usize)
    requires renewing { Renewing marks.gap (strip_of marks) reaches.now work.old k (above * names) }
    requires above_before { above < names_before k }
    ensures { Renewed marks.entry.gap (strip_of marks.entry) k (suc above * names) work.old work.new }
{
    let row = row_of(marks, reaches, work, k, above);
    for below in 0..2 * k + 2 {
        renew_cell(reaches, work, k, above, below, row);
    }
}

// The whole table for one mark more: the rows of last labels above of marks before mark k.
fn renew(marks: Marks, reaches: &[u16; NAMES], work: &mut [u32], k: usize)
    requires { Renewing marks.gap (strip_of marks) reaches.now work.old k 0 }
    ensures { Renewed marks.entry.gap (strip_of marks.entry) k (names_before k * names) work.old work.new }
{
    for above in 0..2 * k + 2 {
        renew_row(marks, reaches, work, k, above);
    }
}

// The table, from the last mark to the first.
pub fn fill(marks: Marks, work: &mut [u32])
    requires { work_named ≤ length work.old }
    ensures filled { Filled marks.entry.gap (strip_of marks.entry) 0 work.new }
    ensures rest_kept { drop work_named work.new ≡ drop work_named work.old }
{
    let mut reaches = [0; NAMES];
    marks.set_reaches(&mut reaches);
    clear(work, WORK_NAMED, 0);
    for k in (0..marks.places.len()).rev() {
        renew(marks, &reaches, work, k);
    }
}
