// The largest letters on random strips against all widths from 1 to 30, each with the plain search: number, width and positions.
// The lengths of such a strip are in cells.
use crate::answer::Answer;
use crate::choices::{Digits, Model};
use crate::random::Outcome;
use crate::search;
use crate::search::{Placing, Unfinished};
use crate::strip::Drawn;

const WIDTHS: u8 = 30;

// The first placing with cells so many dots wide, if no label is over 240 dots.
fn placing(drawn: &Drawn, width: u8) -> Placing {
    match drawn.widened(width) {
        Some(wide) => search::first_placing(Model::Full, &wide),
        None => Ok(None),
    }
}

// The greatest width with a placing, and the placing. Every width is tried, from 1 on, whatever the one before has given.
fn widest(drawn: &Drawn) -> Result<Option<(u8, Digits)>, Unfinished> {
    let mut widest = None;
    for width in 1..=WIDTHS {
        if let Some(digits) = placing(drawn, width)? {
            widest = Some((width, digits));
        }
    }
    Ok(widest)
}

// One strip.
pub fn compared(drawn: &Drawn) -> Outcome {
    let widest = widest(drawn).ok()?;
    Answer::new(drawn, largest::largest).compared(drawn, widest)
}
