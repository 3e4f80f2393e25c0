// Strips drawn from pseudo-random numbers.
ghost use Rattle.std.specs.Prelude.{◌<◌};

use crate::strip::{Drawn, MOST, Mark};
use agreed::source::Source;
use std::array;

// Often the least or the greatest weight, so that equal ones are many.
fn weight(source: &mut Source) -> u16 {
    match source.below(9) {
        0..=2 => 1,
        3..=5 => 1000,
        other => u16::from(other),
    }
}

// What marks are drawn from: steps of 1 to `steps` dots, and one of `spread` lengths from `shortest` on.
#[derive(Clone, Copy)]
pub struct Draw {
    pub steps: u8,
    pub shortest: u8,
    pub spread: u8,
    ghost moves: { 0 < steps },
    ghost spreads: { 0 < spread },
}

impl Draw {
    // The mark behind the one at a dot.
    fn mark(self, source: &mut Source, before: u8) -> Mark {
        let step = source.below(self.steps);
        let more = source.below(self.spread);
        Mark {
            dot: before.wrapping_add(1).wrapping_add(step),
            length: self.shortest.wrapping_add(more),
            weight: weight(source),
        }
    }

    // The next strip.
    pub fn strip(self, source: &mut Source, gap: u8) -> Drawn {
        let count = usize::from(source.below(MOST as u8 + 1));
        let mut dot = 40;
        let all = array::from_fn(|_| {
            let mark = self.mark(source, dot);
            dot = mark.dot;
            mark
        });
        Drawn::new(all, count, gap)
    }
}
