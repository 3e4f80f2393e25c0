// A plain search through all choices.
use crate::choices::{Digits, Model};
use crate::labels;
use crate::strip::{Drawn, MOST};

// The turns of a search were used up.
#[derive(Clone, Copy, PartialEq)]
pub struct Unfinished;

// What a search gives: the first placing, if there is one.
pub type Placing = Result<Option<Digits>, Unfinished>;

// More turns than any of the strips takes; a search that used them up would count as a disagreement.
pub const TURNS: u32 = 4000000;

// The first choice that is a placing at the strip's gap.
pub fn first_placing(model: Model, drawn: &Drawn) -> Placing {
    let n = drawn.marks().len();
    let mut digits = [0; MOST];
    for _ in 0..TURNS {
        let Some(k) = labels::clash(model, drawn, &digits) else {
            return Ok(Some(digits));
        };
        if !model.go_on(&mut digits[..n], k) {
            return Ok(None);
        }
    }
    Err(Unfinished)
}
