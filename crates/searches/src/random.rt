// Random strips, at gaps of 0 to 8 dots, on each of which a pass must agree with a plain search through all choices, or with itself on a strip
// that is alike but for one mark.
use crate::draw::Draw;
use crate::strip::Drawn;
use agreed::output::Output;
use agreed::source::Source;
use agreed::tally::Tally;
use std::fmt::Write;

// How many of each of up to three kinds a strip shows, or all strips of a group.
pub type Counts = [u32; 3];

pub fn add(counts: &mut Counts, more: Counts) {
    for (count, more) in counts.iter_mut().zip(more) {
        *count = count.wrapping_add(more);
    }
}

// Whether every mark of a strip has a label.
#[derive(Clone, Copy)]
pub enum Labelled {
    Every,
    NotEvery,
}

// The kind that is counted of these.
const LABELLED: [&str; 1] = ["every mark labelled in"];

impl From<Labelled> for Counts {
    fn from(labelled: Labelled) -> Counts {
        match labelled {
            Labelled::Every => [1, 0, 0],
            Labelled::NotEvery => [0; 3],
        }
    }
}

// What a strip shows of a pass: what both give it if the pass agrees with the search, or nothing.
pub type Outcome = Option<Labelled>;

// How many strips of a group agree, and what they show.
#[derive(Clone, Copy)]
struct Strips {
    tally: Tally,
    counts: Counts,
}

impl Strips {
    fn new() -> Strips {
        Strips {
            tally: Tally::new(),
            counts: [0; 3],
        }
    }

    fn count<T: Into<Counts>>(&mut self, outcome: Option<T>) {
        self.tally.count(outcome.is_some());
        if let Some(shown) = outcome {
            add(&mut self.counts, shown.into());
        }
    }

    fn print(&self, name: &str, kinds: &[&str]) {
        self.tally.print(name);
        for (kind, count) in kinds.iter().zip(self.counts) {
            let _ = writeln!(Output, "  {kind} {count}");
        }
    }
}

// The gaps are 0 to 8 in turn.
const GAPS: u8 = 9;

// How many strips a group has: 500 at each gap.
const STRIPS: usize = 500 * GAPS as usize;

// A group: the strips from a seed on, each given to what says whether a pass agrees, and what the strip shows.
pub fn group<T: Copy + Into<Counts>, F: Fn(&Drawn) -> Option<T> + Drop>(
    name: &str,
    kinds: &[&str],
    seed: u64,
    draw: Draw,
    compared: F,
)
    requires { F.IsAlwaysCallable compared }
{
    let mut source = Source::new(seed);
    let mut strips = Strips::new();
    for gap in (0..GAPS).cycle().take(STRIPS) {
        let drawn = draw.strip(&mut source, gap);
        let outcome = compared(&drawn);
        if outcome.is_none() {
            let _ = writeln!(Output, "{name} disagrees at {drawn}");
        }
        strips.count(outcome);
    }
    strips.print(name, kinds);
}

// A group of which it is shown how often every mark has a label.
pub fn random<F: Fn(&Drawn) -> Outcome + Drop>(name: &str, seed: u64, draw: Draw, compared: F)
    requires { F.IsAlwaysCallable compared }
{
    group(name, &LABELLED, seed, draw, compared);
}
