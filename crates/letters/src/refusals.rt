// Each refusal of the checks, at its boundary and before the one behind it. Every refusal gives no width, and all but 11 change nothing.
use crate::call;
use crate::call::{ALL, Lent, NO_MARKS, Wanted};
use agreed::tally::Tally;
use geometry::strip::Strip;

// Two marks that fit at every width.
const FITS: Wanted = Ok((30, &[2, 2]));

// 6 for each list, also with a gap that is too wide.
fn unequal_lists(tally: &mut Tally) {
    let cases: [(u32, &[i16], &[u8], &[u16], u8); 4] = [
        (951, &[0], &[1; 2], &[1; 2], 0),
        (952, &[0, 1000], &[1], &[1; 2], 0),
        (953, &[0, 1000], &[1; 2], &[1], 0),
        (954, &[0, 1000], &[1], &[1; 2], 9),
    ];
    for (case, places, lengths, weights, gap) in cases {
        let strip = Strip {
            places,
            lengths,
            weights,
        };
        call::gives(tally.at(case), strip, gap, Err(6));
    }
}

// A mark at 0, and one at a place with so many cells and this weight, and a gap.
type TwoMarks<'a> = (u32, i16, u8, u16, u8, Wanted<'a>);

fn two_marks(tally: &mut Tally, cases: &[TwoMarks]) {
    for &(case, second, cells, weight, gap, wanted) in cases {
        let strip = Strip {
            places: &[0, second],
            lengths: &[1, cells],
            weights: &[1, weight],
        };
        call::gives(tally.at(case), strip, gap, wanted);
    }
}

// Gap 8 is taken, and no wider one; 12 comes before 8.
const WIDE_GAPS: [TwoMarks; 4] = [
    (955, 1000, 1, 1, 8, FITS),
    (956, 1000, 1, 1, 9, Err(12)),
    (957, 1000, 1, 1, 255, Err(12)),
    (958, 1000, 241, 1, 9, Err(12)),
];

fn wide_gaps(tally: &mut Tally) {
    two_marks(tally, &WIDE_GAPS);
    call::gives(tally.at(959), NO_MARKS, 9, Err(12));
}

const TOO_MANY: usize = 4001;

// One mark more than full takes: 12 comes before it, and the cells and places behind it.
fn too_many_marks(tally: &mut Tally) {
    let strip = Strip {
        places: &[0; TOO_MANY],
        lengths: &[0; TOO_MANY],
        weights: &[1; TOO_MANY],
    };
    call::gives(tally.at(961), strip, 8, Err(7));
    call::gives(tally.at(962), strip, 9, Err(12));
}

// Cells have the range of lengths, 1 to 240; places and weights have theirs, and places rise.
const BAD_MARKS: [TwoMarks; 10] = [
    (971, 1000, 0, 1, 0, Err(8)),
    (972, 1000, 240, 1, 0, Ok((1, &[2, 2]))),
    (973, 1000, 241, 1, 0, Err(8)),
    (974, 1000, 255, 1, 0, Err(8)),
    (975, 30000, 1, 1, 0, FITS),
    (976, 30001, 1, 1, 0, Err(8)),
    (977, 0, 1, 1, 0, Err(8)),
    (978, 1000, 1, 1000, 0, FITS),
    (979, 1000, 1, 1001, 0, Err(8)),
    (980, 1000, 1, 0, 0, Err(8)),
];

const NAMED: usize = full::WORK_NAMED;

// Two marks, the second with so many cells. A position for each mark and the named part of the work area are enough; 8 comes before 9, and 9
// before 10.
fn short_lists(tally: &mut Tally) {
    let cases: [(u32, u8, usize, usize, Wanted); 6] = [
        (981, 1, 2, NAMED, FITS),
        (982, 1, 1, NAMED, Err(9)),
        (983, 1, 2, NAMED - 1, Err(10)),
        (984, 1, 1, NAMED - 1, Err(9)),
        (985, 241, 1, NAMED - 1, Err(8)),
        (986, 1, 0, ALL.work, Err(9)),
    ];
    for (case, cells, positions, work, wanted) in cases {
        let strip = Strip {
            places: &[0, 1000],
            lengths: &[1, cells],
            weights: &[1; 2],
        };
        let lent = Lent { positions, work };
        call::gives_with(tally.at(case), strip, 0, lent, wanted);
    }
}

// Five marks that fit at no width: 10 comes before 11.
fn last_of_all(tally: &mut Tally) {
    let strip = Strip {
        places: &[0, 1, 2, 3, 4],
        lengths: &[10; 5],
        weights: &[1; 5],
    };
    let short = Lent {
        positions: 5,
        work: NAMED - 1,
    };
    call::gives_with(tally.at(991), strip, 0, short, Err(10));
    call::gives(tally.at(992), strip, 0, Err(11));
}

pub fn refusals(tally: &mut Tally) {
    unequal_lists(tally);
    wide_gaps(tally);
    too_many_marks(tally);
    two_marks(tally, &BAD_MARKS);
    short_lists(tally);
    last_of_all(tally);
}
