// The largest letters that still fit: lengths come in letter cells, and the greatest width of a cell is found at which the full pass
// places every label, from 30 dots down to 1.
#![tactic(auto)]

mod scaled;
mod widths;

ghost use Rattle.geometry.specs.Strip.{lists_of};
ghost use Rattle.full.specs.Full.{full_lent};
ghost use Rattle.largest.specs.Largest.{LargestContract, largest_answer};

use full::check;
use geometry::refusal::Refusal;
use geometry::strip::Strip;

// The greatest width at which the strip fits at a gap of so many dots, with the full pass's positions at it, or 11 if none does; 6 to 10
// or 12 if a check is not passed. The strip has cells in place of lengths, and the checks are the full pass's.
pub fn largest(strip: Strip, gap: u8, positions: &mut [u8], work: &mut [i16]) -> Result<u8, Refusal>
    ensures { LargestContract
        (lists_of strip.entry) gap
        (full_lent positions.old work.old)
        (full_lent positions.new work.new) (largest_answer result) }
{
    check(strip, gap, positions, work)?;
    widths::first_fitting(strip, gap, positions, work)
}
