// Whether the labels of a choice of the model Slide are as far left as they go, given their sides and taking marks from left to right.
use crate::choices::Slid;
use crate::sides::Side;
use crate::strip::{Drawn, Mark};

// How far the labels on each side reach, with the gap; the test's own, as its sides are (sides.rt). Dots are counted from 256 dots left of dot 0.
#[derive(Clone, Copy)]
struct Reaches {
    above: u32,
    below: u32,
}

impl Reaches {
    fn on(&mut self, side: Side) -> &mut u32 {
        match side {
            Side::Above => &mut self.above,
            Side::Below => &mut self.below,
        }
    }
}

// The reach of a side after a label that lies so many dots right of its leftmost edge, if it is as far left as the reach before it lets it
// go.
fn reach_after(reach: u32, mark: Mark, gap: u8, by: u8) -> Option<u32> {
    let length = u32::from(mark.length);
    let leftmost = u32::from(mark.dot) + 256 - length;
    let left = leftmost + u32::from(by);
    (left == reach.max(leftmost)).then_some(left + length + u32::from(gap))
}

// Whether all labels are as far left as they go.
pub fn are_leftmost(drawn: &Drawn, digits: &[u8]) -> bool {
    let mut reaches = Reaches { above: 0, below: 0 };
    for (mark, digit) in drawn.marks().iter().zip(digits) {
        let slid = Slid::from(*digit);
        let reach = reaches.on(slid.side);
        let Some(after) = reach_after(*reach, *mark, drawn.gap, slid.by) else {
            return false;
        };
        *reach = after;
    }
    true
}
