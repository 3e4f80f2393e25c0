// One call with what it must give: the number of the answer, and a placing or nothing in the position list.
use crate::squares::Squares;
use agreed::lists::{UNWRITTEN, are_all, first};
use agreed::tally::Tally;
use geometry::limits::MOST_MARKS;
use slope::slope;
use std::array;

pub type Wanted = Result<(), u8>;

// One mark more than is ever looked at.
pub const TOO_MANY: usize = MOST_MARKS + 1;

// The call with so many positions of an unwritten list. Which placing it writes is open.
fn gives_in(tally: &mut Tally, squares: Squares, list: &mut [u8], lent: usize, wanted: Wanted) {
    let got = slope(squares.track(), squares.side, first(list, lent));
    tally.same_number(got, wanted);
    tally.holds(match wanted {
        Ok(()) => squares.is_written(list),
        Err(_) => are_all(list, UNWRITTEN),
    });
}

// The call with so many positions, of a list that has one for each of many marks.
pub fn gives_with(tally: &mut Tally, squares: Squares, lent: usize, wanted: Wanted) {
    gives_in(tally, squares, &mut [UNWRITTEN; TOO_MANY], lent, wanted);
}

// The call with a list that has more positions than any short track needs.
fn gives(tally: &mut Tally, squares: Squares, wanted: Wanted) {
    gives_in(tally, squares, &mut [UNWRITTEN; 64], 64, wanted);
}

// Marks with these coordinates, a side, and what the call must give.
pub type Case<'a> = (u32, &'a [i16], &'a [i16], u8, Wanted);

pub fn all_give(tally: &mut Tally, cases: &[Case]) {
    for &(case, xs, ys, side, wanted) in cases {
        gives(tally.at(case), Squares { xs, ys, side }, wanted);
    }
}

// What is added to the number of a case where its axes are exchanged.
const EXCHANGED: u32 = 10000;

// The same with the axes exchanged too: x and y are alike, so what must be given is the same.
pub fn both_ways_give(tally: &mut Tally, cases: &[Case]) {
    for &(case, xs, ys, side, wanted) in cases {
        gives(tally.at(case), Squares { xs, ys, side }, wanted);
        let exchanged = Squares {
            xs: ys,
            ys: xs,
            side,
        };
        gives(tally.at(case.wrapping_add(EXCHANGED)), exchanged, wanted);
    }
}

// Coordinates from one on, each so many dots behind the one before it.
pub fn spaced<const COUNT: usize>(from: i16, step: i16) -> [i16; COUNT] {
    let mut next = from;
    array::from_fn(|_| {
        let own = next;
        next = own.wrapping_add(step);
        own
    })
}
