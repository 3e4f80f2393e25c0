// The left-out list of the best pass against its positions: the heaviest mark first, and of equals the one with the lowest number.
use crate::lists::{UNWRITTEN, UNWRITTEN_NUMBER, are_all};
use std::cmp::Reverse;

// What the pass was given and what it wrote, for each mark.
#[derive(Clone, Copy)]
struct Marks<'a> {
    weights: &'a [u16],
    positions: &'a [u8],
}

impl Marks<'_> {
    // What orders the left-out marks, for the mark with this number, from 1 on; none if there is no such mark, or it is not left out.
    fn rank(self, number: u16) -> Option<(Reverse<u16>, u16)> {
        let i = usize::from(number).checked_sub(1)?;
        let weight = *self.weights.get(i)?;
        let position = *self.positions.get(i)?;
        (position == 0).then_some((Reverse(weight), number))
    }

    fn left_out(self) -> usize {
        self.positions
            .iter()
            .filter(|&&position| position == 0)
            .count()
    }

    // Whether these are the numbers of all left-out marks, in their order. Where each stands before the next none stands there twice.
    fn are_left_out(self, numbers: &[u16]) -> bool {
        numbers.len() == self.left_out()
            && numbers.iter().all(|&number| self.rank(number).is_some())
            && numbers.is_sorted_by(|&number, &next| self.rank(number) < self.rank(next))
    }
}

// Whether the first `count` numbers of the list are those of the marks at 0, heaviest first, and the rest of both lists is as it was.
pub fn is_left_out_list(
    positions: &[u8; 8],
    weights: &[u16],
    left_out: &[u16; 8],
    count: usize,
) -> bool {
    let Some((positions, behind)) = positions.split_at_checked(weights.len()) else {
        return false;
    };
    let Some((numbers, rest)) = left_out.split_at_checked(count) else {
        return false;
    };
    Marks { weights, positions }.are_left_out(numbers)
        && are_all(behind, UNWRITTEN)
        && are_all(rest, UNWRITTEN_NUMBER)
}
