// The slide pass's answer as the digits of a choice of the model Slide.
use crate::choices::{Digits, Slid};
use crate::sides::Side;
use crate::strip::{Drawn, MOST, Mark};

// By how many dots a left edge lies right of the leftmost of its mark, if it does.
fn slid_by(mark: Mark, edge: i16) -> Option<u8> {
    let leftmost = i32::from(mark.place()) - i32::from(mark.length);
    u8::try_from(i32::from(edge) - leftmost).ok()
}

// The digit of a side and a left edge, if the model has one.
fn digit_of(mark: Mark, side: u8, edge: i16) -> Option<u8> {
    let side = Side::try_from(side).ok()?;
    let by = slid_by(mark, edge)?;
    Slid { side, by }.digit()
}

// The digits of all marks, if the model has each.
pub fn digits_of(drawn: &Drawn, sides: &[u8], edges: &[i16]) -> Option<Digits> {
    let mut digits = [0; MOST];
    let answers = sides.iter().zip(edges);
    for (digit, (mark, (side, edge))) in digits.iter_mut().zip(drawn.marks().iter().zip(answers)) {
        *digit = digit_of(*mark, *side, *edge)?;
    }
    Some(digits)
}
