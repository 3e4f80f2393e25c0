// The best pass: labels in four positions for marks that may go without one, with the greatest sum of weights.
#![tactic(auto)]

pub mod choice;
mod left_out;
mod marks;
mod name;
mod row;
mod table;
mod trial;
mod walk;

ghost use Rattle.std.specs.Prelude.{◌≡◌, ◌≤◌, length};
ghost use Rattle.geometry.specs.Refusal.{verdict_of};
ghost use Rattle.geometry.specs.Strip.{lists_of};
ghost use Rattle.best.specs.Best.{BestContract, best_lent, best_checks, best_answer, work_named};
ghost use Rattle.best.specs.inner.Checked.{Labelled};
ghost use Rattle.best.specs.inner.Handed.{strip_of};

use crate::marks::Marks;
use choice::Choice;
use geometry::entry::check_pass;
use geometry::limits::MOST_SHORT;
use geometry::refusal::Refusal;
use geometry::strip::Strip;
use geometry::work::clear;

// How many numbers of the work area document 01 names.
pub const WORK_NAMED: usize = 15000;

// The checks on entry. The shorter of the two answer lists is the one that 9 is about. The lists are handed over for their lengths alone,
// because the contract is about what is lent.
fn check_entry(
    strip: Strip,
    gap: u8,
    positions: &[u8],
    left_out: &[u16],
    work: &[u32],
) -> Result<(), Refusal>
    ensures { verdict_of result ≡ best_checks
        (lists_of strip.entry) gap
        (best_lent positions.now left_out.now work.now) }
{
    let shortest = positions.len().min(left_out.len());
    check_pass(strip, gap, MOST_SHORT, shortest, WORK_NAMED, work.len())
}

// The positions and their sum, by the table and the walk; leaves zeros in the work area.
fn label_marks(marks: Marks, positions: &mut [u8], work: &mut [u32]) -> u32
    requires one_each { length positions.old ≡ length marks.places.now }
    requires roomy { work_named ≤ length work.old }
    ensures { Labelled marks.entry.gap (strip_of marks.entry) positions.new work.old work.new result }
{
    table::fill(marks, work);
    walk::place_labels(marks, positions, work);
    let sum = work[0];
    clear(work, WORK_NAMED, 0);
    sum
}

// A choice with the greatest sum of an overlap-free choice, at a gap of 0 to 8 dots. `positions` gets a position for each mark, 0 for
// none; `left_out` the numbers of the marks at 0, heaviest first. The named part of `work` ends as zeros. A refusal changes nothing.
//
// Steps for n marks: the cells renewed for mark k, counted from 0, are (2k + 2)², in all 2n(n + 1)(2n + 1) / 3, with five offers
// each; for each of their n(n + 1) rows the two offers that its cells share are made once; besides these there are 4n for the checks,
// the work area is cleared twice, 2n + 2 reaches are set, the walk tries at most 4n times and finds a reach each time, and the listing
// takes n(n + 1) / 2, as a mark may go before all that are listed. At 60 marks that is
// 5 · 295,240 + 2 · 3,660 + 240 + 2 · 15,000 + 122 + 2 · 240 + 1,830 = 1,516,192.
pub fn best(
    strip: Strip,
    gap: u8,
    positions: &mut [u8],
    left_out: &mut [u16],
    work: &mut [u32],
) -> Result<Choice, Refusal>
    ensures { BestContract
        (lists_of strip.entry) gap
        (best_lent positions.old left_out.old work.old)
        (best_lent positions.new left_out.new work.new) (best_answer result) }
{
    check_entry(strip, gap, positions, left_out, work)?;
    let marks = Marks {
        places: strip.places,
        lengths: strip.lengths,
        weights: strip.weights,
        gap,
    };
    let used = &mut positions[..strip.places.len()];
    let sum = label_marks(marks, used, work);
    let count = left_out::list(marks, used, left_out);
    Ok(Choice { sum, count })
}
