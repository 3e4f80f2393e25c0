// The answer of a pass that looks for positions of all marks, against what the plain search finds.
use crate::choices;
use crate::choices::Digits;
use crate::random::{Labelled, Outcome};
use crate::strip::Drawn;
use agreed::lists;
use geometry::refusal::Refusal;
use geometry::strip::Strip;

// What the pass hands back, with what it gives beside the positions.
#[derive(Clone, Copy, PartialEq)]
pub struct Answer<T> {
    given: Result<T, Refusal>,
    positions: [u8; 8],
}

// The position list that a choice asks for: the position of each mark, and behind the last what stood there.
fn positions_of(drawn: &Drawn, digits: &Digits) -> [u8; 8] {
    let mut positions = [lists::UNWRITTEN; 8];
    for (position, (_, digit)) in positions.iter_mut().zip(drawn.marks().iter().zip(digits)) {
        *position = choices::ranked(*digit) as u8;
    }
    positions
}

impl<T: Copy + PartialEq> Answer<T> {
    // What a pass answers for a strip.
    pub fn new<F: FnOnce(Strip, u8, &mut [u8], &mut [i16]) -> Result<T, Refusal>>(
        drawn: &Drawn,
        pass: F,
    ) -> Answer<T>
        requires { F.IsAlwaysCallable pass }
    {
        let mut positions = [lists::UNWRITTEN; 8];
        let mut work = [0i16; full::WORK_NAMED];
        let given = drawn.with_lists(|strip| pass(strip, drawn.gap, &mut positions, &mut work));
        Answer { given, positions }
    }

    // The answer that a placing asks for, with what the pass gives beside it.
    fn placed(drawn: &Drawn, (value, digits): (T, Digits)) -> Answer<T> {
        Answer {
            given: Ok(value),
            positions: positions_of(drawn, &digits),
        }
    }

    // The answer where there is no placing: no position is written.
    fn refused() -> Answer<T> {
        Answer {
            given: Err(Refusal::NoPlacing),
            positions: [lists::UNWRITTEN; 8],
        }
    }

    // Whether it is the answer that the search's find asks for.
    pub fn compared(self, drawn: &Drawn, found: Option<(T, Digits)>) -> Outcome {
        match found {
            Some(found) => (self == Answer::placed(drawn, found)).then_some(Labelled::Every),
            None => (self == Answer::refused()).then_some(Labelled::NotEvery),
        }
    }
}
