// The three passes for a C host, each at a gap of 0 to 8 dots.
ghost use Rattle.geometry.specs.Strip.{strip};
ghost use Rattle.full.specs.Full.{full_lent, FullContract};
ghost use Rattle.slide.specs.Slide.{slide_lent, SlideContract};
ghost use Rattle.best.specs.Best.{best_lent, BestContract};

use geometry::refusal::number;
use geometry::strip::Strip;

// The position of every mark in `positions`, or 11; 6 to 10 or 12 if a check is not passed.
#[unsafe(no_mangle)]
pub extern "C" fn strip_full(
    places: &[i16],
    lengths: &[u8],
    weights: &[u16],
    gap: u8,
    positions: &mut [u8],
    work: &mut [i16],
) -> u8
    ensures { FullContract
        (strip places.now lengths.now weights.now) gap
        (full_lent positions.old work.old)
        (full_lent positions.new work.new) result }
{
    let strip = Strip {
        places,
        lengths,
        weights,
    };
    number(&full::full(strip, gap, positions, work))
}

// The side of every mark in `sides` and its left edge in `edges`, or 11; 6 to 10 or 12 if a check is not passed.
#[unsafe(no_mangle)]
pub extern "C" fn strip_slide(
    places: &[i16],
    lengths: &[u8],
    weights: &[u16],
    gap: u8,
    sides: &mut [u8],
    edges: &mut [i16],
    work: &mut [u16],
) -> u8
    ensures { SlideContract
        (strip places.now lengths.now weights.now) gap
        (slide_lent sides.old edges.old work.old)
        (slide_lent sides.new edges.new work.new) result }
{
    let strip = Strip {
        places,
        lengths,
        weights,
    };
    number(&slide::slide(strip, gap, sides, edges, work))
}

// A position for every mark in `positions`, 0 for none, and the marks at 0 in `left_out`, heaviest first; 6 to 10 or 12 if a check
// is not passed. `sum` and `count` are set at every return, to 0 at a refusal: two values, so not by `hand_over`.
#[unsafe(no_mangle)]
pub extern "C" fn strip_best(
    places: &[i16],
    lengths: &[u8],
    weights: &[u16],
    gap: u8,
    positions: &mut [u8],
    left_out: &mut [u16],
    work: &mut [u32],
    sum: &mut u32,
    count: &mut usize,
) -> u8
    ensures { BestContract
        (strip places.now lengths.now weights.now) gap
        (best_lent positions.old left_out.old work.old)
        (best_lent positions.new left_out.new work.new)
        (record { number = result; sum = sum.new; count = count.new }) }
{
    let strip = Strip {
        places,
        lengths,
        weights,
    };
    let answer = best::best(strip, gap, positions, left_out, work);
    *sum = answer.map_or(0, |choice| choice.sum);
    *count = answer.map_or(0, |choice| choice.count);
    number(&answer)
}
