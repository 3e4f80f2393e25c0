// Two faults at once: the check that comes first says its number. What so many marks give is in counts.rt.
use crate::call;
use crate::call::{TOO_MANY, Wanted};
use crate::squares::Squares;
use agreed::tally::Tally;

// The coordinates, a side and how many positions are lent.
type Faulty<'a> = (u32, &'a [i16], &'a [i16], u8, usize, Wanted);

const NONE: &[i16] = &[];

const LONG: &[i16] = &[0; TOO_MANY];

// Lists of unequal length first, whatever else is wrong.
const UNEQUAL: [Faulty; 7] = [
    (2101, LONG, &[0; TOO_MANY - 1], 1, TOO_MANY, Err(6)),
    (2102, &[0; TOO_MANY - 1], LONG, 1, TOO_MANY, Err(6)),
    (2103, LONG, NONE, 0, 0, Err(6)),
    (2104, &[0, 1], &[0], 0, 2, Err(6)),
    (2105, &[0, 0], &[0, 1, 2], 1, 3, Err(6)),
    (2106, &[0, 1, 2, 3], &[0, 1, 3], 1, 4, Err(6)),
    (2107, &[0, 1, 2], &[0, 1], 1, 0, Err(6)),
];

// Then over 4,000 marks, before a side out of range, coordinates that do not rise, and a list that is too short.
const TOO_LONG: [Faulty; 3] = [
    (2111, LONG, LONG, 1, TOO_MANY, Err(7)),
    (2112, LONG, LONG, 0, TOO_MANY, Err(7)),
    (2113, LONG, LONG, 241, 0, Err(7)),
];

// Then a bad mark or side, before over 60 marks, marks off the line, and a list that is too short. The first two rows have all marks at one point.
const BAD: [Faulty; 7] = [
    (2121, &[0; 61], &[0; 61], 1, 61, Err(8)),
    (2122, &[0; 4000], &[0; 4000], 1, 4000, Err(8)),
    (2123, &[0, 1, 2], &[0, 1, 3], 241, 3, Err(8)),
    (2124, &[0, 1, 2, 2], &[0, 1, 3, 4], 1, 4, Err(8)),
    (2125, &[0, 1, 2, 3], &[0, 1, 3, 30001], 1, 4, Err(8)),
    (2126, &[0], &[0], 0, 0, Err(8)),
    (2127, &[0, 0], &[0, 1], 1, 0, Err(8)),
];

// Then the line, before a list that is too short and five marks that have no placing.
const OFF: [Faulty; 4] = [
    (2131, &[0, 1, 2], &[0, 1, 3], 1, 2, Err(18)),
    (2132, &[0, 1, 2], &[0, 1, 3], 1, 0, Err(18)),
    (2133, &[0, 1, 2, 3, 4], &[0, 1, 2, 3, 5], 240, 5, Err(18)),
    (2134, &[0, 1, 2, 3, 4], &[0, 1, 2, 3, 5], 240, 4, Err(18)),
];

// Then a list that is too short, before five marks that have no placing.
const SHORT: [Faulty; 4] = [
    (2141, &[0, 1, 2, 3, 4], &[0, 1, 2, 3, 4], 240, 0, Err(9)),
    (2142, &[0, 1, 2, 3, 4], &[0, 1, 2, 3, 4], 240, 4, Err(9)),
    (2143, &[0, 1, 2, 3, 4], &[0, 1, 2, 3, 4], 240, 5, Err(11)),
    (2144, &[0, 1, 2, 3, 4], &[0, 1, 2, 3, 4], 240, 6, Err(11)),
];

fn all_give(tally: &mut Tally, cases: &[Faulty]) {
    for &(case, xs, ys, side, lent, wanted) in cases {
        let squares = Squares { xs, ys, side };
        call::gives_with(tally.at(case), squares, lent, wanted);
    }
}

// Over 60 marks, before marks off the line, a list that is too short, and a crowd that has no placing.
fn over_60(tally: &mut Tally) {
    let xs: [i16; 61] = call::spaced(0, 1);
    let mut off = xs;
    off[60] = 61;
    let (xs, off) = (&xs, &off);
    all_give(
        tally,
        &[
            (2151, xs, off, 1, 61, Err(7)),
            (2152, off, xs, 1, 61, Err(7)),
            (2153, xs, xs, 1, 60, Err(7)),
            (2154, xs, xs, 240, 61, Err(7)),
            (2155, xs, off, 240, 0, Err(7)),
        ],
    );
}

pub fn order(tally: &mut Tally) {
    all_give(tally, &UNEQUAL);
    all_give(tally, &TOO_LONG);
    all_give(tally, &BAD);
    over_60(tally);
    all_give(tally, &OFF);
    all_give(tally, &SHORT);
}
