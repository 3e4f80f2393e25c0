// Strips of up to 6 marks, and the lists of one that the passes take.
ghost use Rattle.std.specs.Prelude.{◌≤◌, length};
ghost use Rattle.searches.specs.declared.strip.TheConstants.{MOST};

use geometry::strip::Strip;
use std::fmt;

// The most marks that a strip has.
pub const MOST: usize = 6;

// A mark stands at a dot from 0 to 255.
#[derive(Clone, Copy)]
pub struct Mark {
    pub dot: u8,
    pub length: u8,
    pub weight: u16,
}

impl Mark {
    // The place is the dot less 64, so that places of both signs occur.
    pub fn place(self) -> i16 {
        i16::from(self.dot) - 64
    }
}

// Place, length and weight.
impl fmt::Display for Mark {
    fn fmt<W: fmt::Write>(&self, f: &mut fmt::Formatter<W>) -> fmt::Result {
        let place = self.place();
        let length = self.length;
        let weight = self.weight;
        write!(f, "{place} {length} {weight}")
    }
}

// The length of a label of so many cells, if it is not over 240 dots.
fn length_in_dots(cells: u8, width: u8) -> Option<u8> {
    let length = cells.checked_mul(width)?;
    (length <= 240).then_some(length)
}

// A strip and the gap at which it is to be labelled. (An `ArrayVec` of marks has no `map`, by which the lists for the passes are made.)
#[derive(Clone, Copy)]
pub struct Drawn {
    all: [Mark; MOST],
    count: usize,
    pub gap: u8,
    ghost fits: { count ≤ MOST },
}

// The gap, and place, length and weight of each mark.
impl fmt::Display for Drawn {
    fn fmt<W: fmt::Write>(&self, f: &mut fmt::Formatter<W>) -> fmt::Result {
        let gap = self.gap;
        write!(f, "gap {gap} on")?;
        for mark in self.marks() {
            write!(f, " {mark},")?;
        }
        Ok(())
    }
}

impl Drawn {
    // The strip of the first so many of these marks.
    pub fn new(all: [Mark; MOST], count: usize, gap: u8) -> Drawn
        requires { count ≤ MOST }
    {
        Drawn { all, count, gap }
    }

    pub fn marks(&self) -> &[Mark]
        ensures { length result.now ≤ MOST }
    {
        &self.all[..self.count]
    }

    // The strip with cells so many dots wide, where its lengths are in cells, if no label is then over 240 dots.
    pub fn widened(&self, width: u8) -> Option<Drawn> {
        let mut wide = *self;
        for mark in wide.all[..self.count].iter_mut() {
            mark.length = length_in_dots(mark.length, width)?;
        }
        Some(wide)
    }

    // The strip with another weight for the mark at index `k`.
    pub fn with_weight(&self, k: usize, weight: u16) -> Drawn {
        let mut other = *self;
        if let Some(mark) = other.all[..self.count].get_mut(k) {
            mark.weight = weight;
        }
        other
    }

    // The strip without the mark at index `k`.
    pub fn without(&self, k: usize) -> Drawn {
        let mut rest = *self;
        if k < self.count {
            rest.all[k..self.count].rotate_left(1);
            rest.count -= 1;
        }
        rest
    }

    // What a call gives with the strip as the lists that the passes take.
    pub fn with_lists<R, F: FnOnce(Strip) -> R>(&self, call: F) -> R
        requires { F.IsAlwaysCallable call }
    {
        let places = self.all.map(Mark::place);
        let lengths = self.all.map(|mark| mark.length);
        let weights = self.all.map(|mark| mark.weight);
        call(Strip {
            places: &places[..self.count],
            lengths: &lengths[..self.count],
            weights: &weights[..self.count],
        })
    }
}
