// The largest letters for a C host.
ghost use Rattle.geometry.specs.Strip.{strip};
ghost use Rattle.full.specs.Full.{full_lent};
ghost use Rattle.largest.specs.Largest.{LargestContract};

use crate::handed::hand_over;
use geometry::strip::Strip;

// The greatest width of a letter cell, 30 dots down to 1, at which full places labels of so many cells, in `width`, and its positions
// at that width in `positions`, or 11; 6 to 10 or 12 if a check is not passed. `width` is set at every return, to 0 at a refusal.
#[unsafe(no_mangle)]
pub extern "C" fn strip_largest(
    places: &[i16],
    cells: &[u8],
    weights: &[u16],
    gap: u8,
    positions: &mut [u8],
    work: &mut [i16],
    width: &mut u8,
) -> u8
    ensures { LargestContract
        (strip places.now cells.now weights.now) gap
        (full_lent positions.old work.old)
        (full_lent positions.new work.new)
        (record { number = result; width = width.new }) }
{
    let strip = Strip {
        places,
        lengths: cells,
        weights,
    };
    hand_over(largest::largest(strip, gap, positions, work), 0, width)
}
