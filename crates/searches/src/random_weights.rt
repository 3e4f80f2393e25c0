// The best pass on random strips against itself on the same strip with one mark's weight changed, or with one mark taken out. No search is
// needed: document 02 says how the two sums stand.
use crate::random::Counts;
use crate::strip::Drawn;
use crate::{random, random_best};

// How far a sum moves where a weight is changed by so much, or a mark of so much taken out.
#[derive(Clone, Copy)]
struct Move {
    weight: u32,
    sum: u32,
}

// What the kinds of moves are called: by all of the weight that is changed or taken out, by a part of it, or not at all.
pub const MOVES: [&str; 3] = ["moved by all of it", "by a part of it", "by nothing"];

impl Move {
    // "taking a mark out [..] lowers the best sum by no more than its weight and never raises it"
    fn down(weight: u16, sum: u32, rest: u32) -> Option<Move> {
        let weight = u32::from(weight);
        let sum = sum.checked_sub(rest)?;
        (sum <= weight).then_some(Move { weight, sum })
    }

    // Sums "differ by at most the difference of those weights, and do not move the other way".
    fn along(weight: u16, new_weight: u16, sum: u32, new_sum: u32) -> Option<Move> {
        match new_weight.checked_sub(weight) {
            Some(more) => Move::down(more, new_sum, sum),
            None => Move::down(weight - new_weight, sum, new_sum),
        }
    }

    // The kind, as a count of one.
    fn counts(self) -> Counts {
        if self.sum == 0 {
            [0, 0, 1]
        } else if self.sum < self.weight {
            [0, 1, 0]
        } else {
            [1, 0, 0]
        }
    }
}

// The sum that the best pass reports, which it has for each strip here.
fn best_sum(drawn: &Drawn) -> Option<u32> {
    let chosen = random_best::answered(drawn).ok()?;
    Some(chosen.choice.sum)
}

// The least and the greatest weight, and those beside this one; of a weight at an end one of them is itself, and is passed over.
fn new_weights(weight: u16) -> [u16; 4] {
    let less = weight.saturating_sub(1).max(1);
    let more = weight.saturating_add(1).min(1000);
    [1, less, more, 1000]
}

// One strip: each of its marks with each of these weights.
pub fn reweighed(drawn: &Drawn) -> Option<Counts> {
    let sum = best_sum(drawn)?;
    let mut counts = [0; 3];
    for (k, mark) in drawn.marks().iter().enumerate() {
        for weight in new_weights(mark.weight) {
            if weight != mark.weight {
                let new_sum = best_sum(&drawn.with_weight(k, weight))?;
                let moved = Move::along(mark.weight, weight, sum, new_sum)?;
                random::add(&mut counts, moved.counts());
            }
        }
    }
    Some(counts)
}

// One strip: without each of its marks.
pub fn without_one(drawn: &Drawn) -> Option<Counts> {
    let sum = best_sum(drawn)?;
    let mut counts = [0; 3];
    for (k, mark) in drawn.marks().iter().enumerate() {
        let rest = best_sum(&drawn.without(k))?;
        let moved = Move::down(mark.weight, sum, rest)?;
        random::add(&mut counts, moved.counts());
    }
    Some(counts)
}
