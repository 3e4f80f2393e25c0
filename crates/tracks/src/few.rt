// The plain search: all choices of a position for each mark, one after the other, of which each is tried whole.
use crate::squares::Squares;
use agreed::lists::first;

// The turns of a search were used up.
#[derive(Clone, Copy)]
pub struct Unfinished;

// The choices that 7 marks have, 4 to the 7th.
const CHOICES: u32 = 16384;

// Puts the next choice in the place of one, or the first in that of the last, and says whether there was a next one.
fn advance(positions: &mut [u8]) -> bool {
    for position in positions.iter_mut().rev() {
        if *position < 4 {
            *position += 1;
            return true;
        }
        *position = 1;
    }
    false
}

// Whether there is a placing of up to 7 marks.
pub fn has_placing(squares: Squares) -> Result<bool, Unfinished> {
    let mut all = [1; 7];
    let positions = first(&mut all, squares.xs.len());
    for _ in 0..CHOICES {
        if squares.is_placing(positions) {
            return Ok(true);
        }
        if !advance(positions) {
            return Ok(false);
        }
    }
    Err(Unfinished)
}
