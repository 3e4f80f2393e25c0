// The full pass: one position for every mark, the first placing in the order 2, 3, 1, 4.
//
// A table, filled from the last mark to the first, says for each position of a mark how far the other side may reach so that
// all later marks can still be placed; one walk from the left then takes at each mark the first position that the table
// allows. One step a mark in each direction, and no step looks at more than one row. Every coordinate is a signed 16-bit number, in a
// range that specs/inner/SixteenBits.antt states.
#![tactic(auto)]

mod kept;
mod mark;
mod marks;
mod passed;
mod table;
mod walk;

ghost use Rattle.std.specs.Prelude.{◌≡◌};
ghost use Rattle.geometry.specs.Strip.{lists_of};
ghost use Rattle.geometry.specs.Refusal.{answer_number, verdict_of};
ghost use Rattle.full.specs.Full.{full_lent, full_checks, FullContract};

use crate::marks::Marks;
use geometry::entry::check_pass;
use geometry::limits::MOST_MARKS;
use geometry::refusal::Refusal;
use geometry::strip::Strip;
use geometry::work::clear;

// The part of the work area that is named, and ends as zeros also at 11.
pub const WORK_NAMED: usize = 20000;

// The checks on entry: those of a pass that takes 4,000 marks, on these lent lists.
pub fn check(strip: Strip, gap: u8, positions: &[u8], work: &[i16]) -> Result<(), Refusal>
    ensures { verdict_of result ≡ full_checks (lists_of strip.entry) gap (full_lent positions.now work.now) }
{
    check_pass(
        strip,
        gap,
        MOST_MARKS,
        positions.len(),
        WORK_NAMED,
        work.len(),
    )
}

// The first placing of the strip at a gap of so many dots, or 11 if there is none. The lent lists are parameters of their own, here and in
// every call, as a C host lends them; 6 to 10 or 12 if a check is not passed.
pub fn full(strip: Strip, gap: u8, positions: &mut [u8], work: &mut [i16]) -> Result<(), Refusal>
    ensures { FullContract
        (lists_of strip.entry) gap
        (full_lent positions.old work.old)
        (full_lent positions.new work.new) (answer_number result) }
{
    check(strip, gap, positions, work)?;
    let marks = Marks {
        places: strip.places,
        lengths: strip.lengths,
        gap,
    };
    let kept = table::fill(marks, work);
    if kept == 0 {
        clear(work, WORK_NAMED, 0);
        return Err(Refusal::NoPlacing);
    }
    walk::walk(marks, work, positions);
    clear(work, WORK_NAMED, 0);
    Ok(())
}
