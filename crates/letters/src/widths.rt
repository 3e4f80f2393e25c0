// Strips and the greatest width that each has, with a reason that can be followed by hand.
use crate::call;
use crate::call::{NO_MARKS, Wanted};
use agreed::tally::Tally;
use geometry::strip::Strip;

// "An empty strip has width 30."
fn no_marks(tally: &mut Tally) {
    for (case, gap) in [(901, 0), (902, 8)] {
        call::gives(tally.at(case), NO_MARKS, gap, Ok((30, &[])));
    }
}

// A single mark has room at every length, so the width is the greatest with which its cells are at most 240 dots.
fn one_mark(tally: &mut Tally) {
    for (case, cells, width) in [
        (911, 1, 30),
        (912, 8, 30),
        (913, 9, 26),
        (914, 10, 24),
        (915, 16, 15),
        (916, 80, 3),
        (917, 120, 2),
        (918, 121, 1),
        (919, 240, 1),
    ] {
        let strip = Strip {
            places: &[-30000],
            lengths: &[cells],
            weights: &[1],
        };
        call::gives(tally.at(case), strip, 8, Ok((width, &[2])));
    }
}

// The greatest count decides, wherever it stands: two labels at most on each side of marks far apart.
fn two_marks(tally: &mut Tally) {
    for (case, cells, width) in [(921, [1, 120], 2), (922, [120, 1], 2), (923, [8, 8], 30)] {
        let strip = Strip {
            places: &[0, 1000],
            lengths: &cells,
            weights: &[1; 2],
        };
        call::gives(tally.at(case), strip, 0, Ok((width, &[2, 2])));
    }
}

// Marks at 0, 1, 2, 3 and a last one, with so many cells each, and a gap.
type FiveMarks<'a> = (u32, i16, u8, u8, Wanted<'a>);

fn five_marks(tally: &mut Tally, cases: &[FiveMarks]) {
    for &(case, last, cells, gap, wanted) in cases {
        let strip = Strip {
            places: &[0, 1, 2, 3, last],
            lengths: &[cells; 5],
            weights: &[1; 5],
        };
        call::gives(tally.at(case), strip, gap, wanted);
    }
}

// A label of mark 2 to the right ends a dot further left than one of mark 3. So at 12 a label finds room above beside labels of 11 dots only
// if mark 2 has that one, as in document 01's strip 8; beside labels of 10 and 9 also if mark 3 has it, as in strip 7, and 2 3 1 4 1
// comes first. At gap 1 labels have to be a dot shorter.
const TOUCHING: [FiveMarks; 5] = [
    (931, 12, 1, 0, Ok((11, &[2, 1, 3, 4, 1]))),
    (932, 12, 1, 1, Ok((10, &[2, 1, 3, 4, 1]))),
    (933, 12, 2, 0, Ok((5, &[2, 3, 1, 4, 1]))),
    (934, 12, 3, 0, Ok((3, &[2, 3, 1, 4, 1]))),
    (935, 12, 10, 0, Ok((1, &[2, 3, 1, 4, 1]))),
];

// Document 01's strips 9 and 5 have no placing with 10 dots, so none with 10 cells; at 8 dots of gap each side has room for one of the
// first four.
const NONE_FITS: [FiveMarks; 5] = [
    (941, 10, 10, 0, Err(11)),
    (942, 10, 9, 0, Ok((1, &[2, 1, 3, 4, 1]))),
    (943, 10, 240, 0, Err(11)),
    (944, 4, 10, 0, Err(11)),
    (945, 12, 1, 8, Err(11)),
];

pub fn widths(tally: &mut Tally) {
    no_marks(tally);
    one_mark(tally);
    two_marks(tally);
    five_marks(tally, &TOUCHING);
    five_marks(tally, &NONE_FITS);
}
