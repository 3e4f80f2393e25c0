// The full pass on random strips against the first placing of the plain search: number and positions.
use crate::answer::Answer;
use crate::choices::Model;
use crate::random::Outcome;
use crate::search;
use crate::strip::Drawn;

// One strip.
pub fn compared(drawn: &Drawn) -> Outcome {
    let found = search::first_placing(Model::Full, drawn).ok()?;
    let wanted = found.map(|digits| ((), digits));
    Answer::new(drawn, full::full).compared(drawn, wanted)
}
