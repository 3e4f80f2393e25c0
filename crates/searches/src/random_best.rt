// The best pass on random strips: the greatest sum over all overlap-free choices, that the listed choice is overlap-free and
// earns the sum, and the left-out list.
use crate::choices::Model;
use crate::random::{Labelled, Outcome};
use crate::strip::Drawn;
use crate::{labels, sums};
use agreed::{left_out, lists};
use best::choice::Choice;
use geometry::refusal::Refusal;

// What the pass hands back where it is not refused.
#[derive(Clone, Copy)]
pub struct Chosen {
    pub choice: Choice,
    positions: [u8; 8],
    left_out: [u16; 8],
}

impl Chosen {
    // Whether the positions are an overlap-free choice that earns the sum, and it is the greatest.
    fn earns(&self, drawn: &Drawn) -> bool {
        labels::clash(Model::Best, drawn, &self.positions).is_none()
            && sums::sum_of(drawn, &self.positions) == self.choice.sum
            && sums::greatest_sum(drawn) == Ok(self.choice.sum)
    }

    // Whether all that the pass gave is right.
    fn agrees(&self, drawn: &Drawn) -> bool {
        self.earns(drawn)
            && drawn.with_lists(|strip| {
                left_out::is_left_out_list(
                    &self.positions,
                    strip.weights,
                    &self.left_out,
                    self.choice.count,
                )
            })
    }

    fn labelled(&self) -> Labelled {
        match self.choice.count {
            0 => Labelled::Every,
            _ => Labelled::NotEvery,
        }
    }
}

// The call of the pass.
pub fn answered(drawn: &Drawn) -> Result<Chosen, Refusal> {
    let mut positions = [lists::UNWRITTEN; 8];
    let mut left_out = [lists::UNWRITTEN_NUMBER; 8];
    let mut work = [0u32; best::WORK_NAMED];
    let choice = drawn.with_lists(|strip| {
        best::best(strip, drawn.gap, &mut positions, &mut left_out, &mut work)
    })?;
    Ok(Chosen {
        choice,
        positions,
        left_out,
    })
}

// One strip. The best pass has an answer for each, so a refusal disagrees.
pub fn compared(drawn: &Drawn) -> Outcome {
    let answer = answered(drawn).ok()?;
    answer.agrees(drawn).then_some(answer.labelled())
}
