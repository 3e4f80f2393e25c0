// The weights that the labels of a choice of the model Best earn.
ghost use Rattle.std.specs.Prelude.{◌<◌};

use crate::choices::Model;
use crate::labels;
use crate::search::{TURNS, Unfinished};
use crate::strip::{Drawn, MOST, Mark};

// The weight of a mark if it has a label.
fn earned(mark: &Mark, digit: u8) -> u32
    ensures { result < 65536 }
{
    if digit == 0 {
        0
    } else {
        u32::from(mark.weight)
    }
}

// The sum of the weights of the marks that have a label. (Tried: `sum`, whose bound over a `zip` is not found.)
pub fn sum_of(drawn: &Drawn, digits: &[u8]) -> u32 {
    let labelled = drawn.marks().iter().zip(digits);
    labelled.fold(
        0,
        |sum, (mark, digit)| sum.wrapping_add(earned(mark, *digit)),
    )
}

// The larger of a sum so far and that of a choice, if no two of its labels overlap.
fn offered(drawn: &Drawn, digits: &[u8], greatest: u32) -> u32 {
    let sum = sum_of(drawn, digits);
    if greatest < sum && labels::clash(Model::Best, drawn, digits).is_none() {
        sum
    } else {
        greatest
    }
}

// The greatest sum of a choice that is overlap-free at the strip's gap.
pub fn greatest_sum(drawn: &Drawn) -> Result<u32, Unfinished> {
    let n = drawn.marks().len();
    let mut digits = [0; MOST];
    let mut greatest = 0;
    for _ in 0..TURNS {
        greatest = offered(drawn, &digits, greatest);
        if !Model::Best.advance(&mut digits[..n]) {
            return Ok(greatest);
        }
    }
    Err(Unfinished)
}
