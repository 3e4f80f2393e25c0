// The slide pass on random strips. Whether a strip fits is decided by the plain search over all sides and all left edges at
// whole and at half dots. The pass's own answer is tested pairwise, and each of its labels for being as far left as it goes.
ghost use Rattle.std.specs.Prelude.{◌≤◌};

use crate::choices::Model;
use crate::random::{Labelled, Outcome};
use crate::strip::Drawn;
use crate::{labels, leftmost, search, slid};
use agreed::lists;
use geometry::refusal::Refusal;

// The lists that the pass writes.
#[derive(Clone, Copy)]
struct Written {
    sides: [u8; 8],
    edges: [i16; 8],
}

impl Written {
    // Whether both lists are as they were behind so many marks.
    fn is_kept_behind(&self, marks: usize) -> bool
        requires { marks ≤ 8 }
    {
        lists::are_all(&self.sides[marks..], lists::UNWRITTEN)
            && lists::are_all(&self.edges[marks..], lists::UNWRITTEN_EDGE)
    }

    // Whether the lists are a placing with every label as far left as it goes, and nothing is written behind the last mark.
    fn is_leftmost_placing(&self, drawn: &Drawn) -> bool {
        let Some(digits) = slid::digits_of(drawn, &self.sides, &self.edges) else {
            return false;
        };
        labels::clash(Model::Slide, drawn, &digits).is_none()
            && leftmost::are_leftmost(drawn, &digits)
            && self.is_kept_behind(drawn.marks().len())
    }
}

// The call of the pass.
fn answered(drawn: &Drawn) -> (Result<(), Refusal>, Written) {
    let mut sides = [lists::UNWRITTEN; 8];
    let mut edges = [lists::UNWRITTEN_EDGE; 8];
    let mut work = [0u16; slide::WORK_NAMED];
    let given = drawn.with_lists(|strip| slide::slide(
        strip, drawn.gap, &mut sides, &mut edges, &mut work,
    ));
    (given, Written { sides, edges })
}

// Whether the strip fits, as the searches at whole and at half dots find, if they find the same.
fn fits(drawn: &Drawn) -> Option<bool> {
    let whole = search::first_placing(Model::Slide, drawn).ok()?.is_some();
    let halves = search::first_placing(Model::Halves, drawn).ok()?.is_some();
    (whole == halves).then_some(whole)
}

// One strip.
pub fn compared(drawn: &Drawn) -> Outcome {
    let (given, written) = answered(drawn);
    match (given, fits(drawn)?) {
        (Ok(()), true) => written
            .is_leftmost_placing(drawn)
            .then_some(Labelled::Every),
        (Err(Refusal::NoPlacing), false) => written.is_kept_behind(0).then_some(Labelled::NotEvery),
        _ => None,
    }
}
