// The widths in turn, each tried by a call of the full pass.
ghost use Rattle.std.specs.Prelude.{◌≡◌};
ghost use Rattle.geometry.specs.Refusal.{accepted};
ghost use Rattle.geometry.specs.Strip.{lists_of};
ghost use Rattle.full.specs.Full.{full_lent, full_checks};
ghost use Rattle.largest.specs.Largest.{LargestContract, largest_answer};
ghost use Rattle.largest.specs.inner.Trial.{TrialReady, Tried};

use crate::scaled::{most_cells, scale, within};
use full::full;
use geometry::limits::MOST_MARKS;
use geometry::refusal::Refusal;
use geometry::strip::Strip;

const WIDEST: u8 = 30;

const NARROWEST: u8 = 1;

// Whether the strip, with cells in place of lengths, fits at a width, `most` being its greatest cell count. Only where it does are the
// positions written.
fn fits_at(
    strip: Strip,
    gap: u8,
    most: u8,
    width: u8,
    positions: &mut [u8],
    work: &mut [i16],
) -> bool
    requires { TrialReady (lists_of strip) gap most width (full_lent positions.old work.old) }
    ensures { Tried
        (lists_of strip.entry) gap width
        (full_lent positions.old work.old)
        (full_lent positions.new work.new) result }
{
    if !within(most, width) {
        return false;
    }
    let cells = strip.lengths;
    let mut lengths = [0; MOST_MARKS];
    scale(cells, width, &mut lengths);
    let scaled = Strip {
        lengths: &lengths[..cells.len()],
        ..strip
    };
    full(scaled, gap, positions, work).is_ok()
}

// The first width that fits, from the widest down. Where none does the last one tried is 1 dot, at which no length is over 240: so the
// full pass has been called in either case, and the work area is cleared. A `loop` and no `for`: document 01 asks for one that yields its
// answer by `break`.
pub fn first_fitting(
    strip: Strip,
    gap: u8,
    positions: &mut [u8],
    work: &mut [i16],
) -> Result<u8, Refusal>
    requires { full_checks (lists_of strip) gap (full_lent positions.old work.old) ≡ accepted }
    ensures { LargestContract
        (lists_of strip.entry) gap
        (full_lent positions.old work.old)
        (full_lent positions.new work.new) (largest_answer result) }
{
    let most = most_cells(strip.lengths);
    let mut width = WIDEST;
    loop {
        if fits_at(strip, gap, most, width, positions, work) {
            break Ok(width);
        }
        if width == NARROWEST {
            break Err(Refusal::NoPlacing);
        }
        width -= 1;
    }
}
