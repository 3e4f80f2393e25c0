// The best pass against the full pass, on the same strip and at the same gap.
ghost use Rattle.geometry.specs.Strip.{lists_of};
ghost use Rattle.full.specs.Full.{full_lent};
ghost use Rattle.best.specs.Best.{best_lent};
ghost use Rattle.demands.specs.Compare.{compared, BestAgainstFull};

use geometry::refusal::Refusal;
use geometry::strip::Strip;

// What the two passes say of a strip that both accept: whether the full pass fits it, and the best sum.
#[derive(Clone, Copy, Debug, PartialEq, Eq)]
pub struct Comparison {
    pub fits: bool,
    pub sum: u32,
}

// The comparison of the two passes at a gap, where both accept the strip. The refusal is matched by itself: in the arm behind a nested
// pattern the proof would know nothing of it.
pub fn best_against_full(
    strip: Strip,
    gap: u8,
    full_positions: &mut [u8],
    full_work: &mut [i16],
    best_positions: &mut [u8],
    left_out: &mut [u16],
    best_work: &mut [u32],
) -> Option<Comparison>
    ensures { BestAgainstFull
        (lists_of strip.entry) gap
        (full_lent full_positions.old full_work.old)
        (full_lent full_positions.new full_work.new)
        (best_lent best_positions.old left_out.old best_work.old)
        (best_lent best_positions.new left_out.new best_work.new)
        (compared result) }
{
    let placed = full::full(strip, gap, full_positions, full_work);
    let chosen = best::best(strip, gap, best_positions, left_out, best_work);
    let Ok(choice) = chosen else {
        return None;
    };
    let sum = choice.sum;
    match placed {
        Ok(()) => Some(Comparison { fits: true, sum }),
        Err(refusal) => match refusal {
            Refusal::NoPlacing => Some(Comparison { fits: false, sum }),
            _ => None,
        },
    }
}
