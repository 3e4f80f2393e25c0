// Random tracks, on each of which the pass must agree with a search: a placing where the search finds one, and 11 where it finds none.
use crate::draw::Draw;
use crate::few::Unfinished;
use crate::squares::Squares;
use crate::{depth, few};
use agreed::lists::{UNWRITTEN, are_all};
use agreed::output::Output;
use agreed::source::Source;
use agreed::tally::Tally;
use geometry::refusal::Refusal;
use slope::slope;
use std::fmt::Write;

// How many tracks a group has.
const TRACKS: u32 = 2000;

// More positions than any of the tracks has marks.
const LENT: usize = 64;

// The search for up to 7 marks, or that for many.
#[derive(Clone, Copy)]
pub enum Search {
    Few,
    Many,
}

impl Search {
    fn has_placing(self, squares: Squares) -> Result<bool, Unfinished> {
        match self {
            Search::Few => few::has_placing(squares),
            Search::Many => depth::has_placing(squares),
        }
    }
}

// Whether what the pass gives and writes is right by what the search has found.
fn agrees(squares: Squares, found: bool) -> bool {
    let mut positions = [UNWRITTEN; LENT];
    match slope(squares.track(), squares.side, &mut positions) {
        Ok(()) => found && squares.is_written(&positions),
        Err(Refusal::NoPlacing) => !found && are_all(&positions, UNWRITTEN),
        Err(_) => false,
    }
}

// A group: the tracks from a seed on. A line says how many of them have a placing, and so that neither answer is rare.
pub fn random(name: &str, seed: u64, draw: Draw, search: Search) {
    let mut source = Source::new(seed);
    let mut tally = Tally::new();
    let mut placed = 0u32;
    for number in 0..TRACKS {
        let drawn = draw.track(&mut source);
        let squares = drawn.squares();
        let (agreed, found) = match search.has_placing(squares) {
            Ok(found) => (agrees(squares, found), found),
            Err(Unfinished) => (false, false),
        };
        if !agreed {
            let _ = writeln!(Output, "{name} disagrees at track {number}");
        }
        tally.count(agreed);
        placed = placed.wrapping_add(u32::from(found));
    }
    tally.print(name);
    let _ = writeln!(Output, "  a placing in {placed}");
}
