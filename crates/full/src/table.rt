// The table of kept part layouts in the work area: four numbers a mark, filled from the last mark to the first. They are found by index, as
// in the other passes' tables: of the rows that `as_chunks_mut` gives nothing is said of what the area ends as.
ghost use Rattle.std.specs.Prelude.{◌≡◌, ◌+◌, ◌*◌, ◌≤◌, ◌<◌, length};
ghost use Rattle.std.proofs.lemmas.List.Edits.{sets};
ghost use Rattle.geometry.specs.Strip.{most_marks};
ghost use Rattle.full.specs.Full.{work_named};
ghost use Rattle.full.specs.inner.OneMark.{four};
ghost use Rattle.full.specs.inner.Table.{Filled};

use crate::kept::{Kept, kept_before};
use crate::marks::Marks;
use geometry::outside::NO_BOUND;

// Puts the four reaches of the mark with index i into the table. Four writes: with `copy_from_slice` the pass took 1.12 times as long.
fn store(work: &mut [i16], i: usize, kept: Kept)
    requires { (i < most_marks) × (4 * i + 4 ≤ length work.old) }
    ensures { work.new ≡ sets work.old (4 * i) (four kept.reaches) }
{
    let reaches = kept.reaches;
    let at = 4 * i;
    work[at] = reaches[0];
    work[at + 1] = reaches[1];
    work[at + 2] = reaches[2];
    work[at + 3] = reaches[3];
}

// Fills the table from the last mark to the first and returns the count of the first mark's kept part layouts; an empty strip,
// which has nothing left to place, counts as one that keeps all four. Where a mark keeps none, no mark before it does, and the rest
// of the table is left as it is.
pub fn fill(marks: Marks, work: &mut [i16]) -> u8
    requires { work_named ≤ length work.old }
    ensures { Filled marks.entry.places.now marks.entry.lengths.now marks.entry.gap work.old work.new result }
{
    let Some(last) = marks.places.len().checked_sub(1) else {
        return 4;
    };
    // Carried from turn to turn: with the next mark read again the pass took 1.24 times as long.
    let mut next = marks.at(last);
    let mut kept = Kept {
        reaches: [NO_BOUND; 4],
        count: 4,
    };
    store(work, last, kept);
    for i in (0..last).rev() {
        let mark = marks.at(i);
        kept = kept_before(mark, next, kept);
        if kept.count == 0 {
            return 0;
        }
        store(work, i, kept);
        next = mark;
    }
    kept.count
}
