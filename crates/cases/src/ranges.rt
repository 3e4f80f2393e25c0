// The ranges of a mark at each boundary, strip 13, and the lists of a strip, for the three passes and the writer.
use crate::passes;
use crate::passes::Wanted;
use agreed::tally::Tally;
use geometry::strip::Strip;

// One mark: its place, length and weight.
type OneMark = (u32, i16, u8, u16, Result<(), u8>);

const LENGTHS: [OneMark; 5] = [
    (101, 0, 240, 1, Ok(())),
    (102, 0, 241, 1, Err(8)),
    (103, 0, 255, 1, Err(8)),
    (104, 0, 0, 1, Err(8)),
    (105, 0, 1, 1, Ok(())),
];

const PLACES: [OneMark; 6] = [
    (111, 30000, 10, 1, Ok(())),
    (112, 30001, 10, 1, Err(8)),
    (113, -30000, 10, 1, Ok(())),
    (114, -30001, 10, 1, Err(8)),
    (115, 32767, 10, 1, Err(8)),
    (116, -32768, 10, 1, Err(8)),
];

const WEIGHTS: [OneMark; 5] = [
    (121, 0, 10, 0, Err(8)),
    (122, 0, 10, 1, Ok(())),
    (123, 0, 10, 1000, Ok(())),
    (124, 0, 10, 1001, Err(8)),
    (125, 0, 10, 65535, Err(8)),
];

fn one_mark(tally: &mut Tally, cases: &[OneMark]) {
    for &(case, place, length, weight, wanted) in cases {
        let strip = Strip {
            places: &[place],
            lengths: &[length],
            weights: &[weight],
        };
        passes::calls_give(tally.at(case), strip, Wanted::all(wanted));
    }
}

// Places that do not rise, lists of unequal length, and no marks.
fn lists(tally: &mut Tally) {
    let cases: [(u32, &[i16], &[u8], &[u16], Result<(), u8>); 7] = [
        (131, &[5, 5], &[10; 2], &[1; 2], Err(8)),
        (132, &[5, 4], &[10; 2], &[1; 2], Err(8)),
        (133, &[-5, 5], &[10; 2], &[1; 2], Ok(())),
        (134, &[5, 5], &[10; 1], &[1; 2], Err(6)),
        (135, &[5, 6], &[10; 2], &[1; 3], Err(6)),
        (136, &[5], &[10; 2], &[1; 2], Err(6)),
        (137, &[], &[], &[], Ok(())),
    ];
    for (case, places, lengths, weights, wanted) in cases {
        let strip = Strip {
            places,
            lengths,
            weights,
        };
        passes::calls_give(tally.at(case), strip, Wanted::all(wanted));
    }
}

pub fn ranges(tally: &mut Tally) {
    one_mark(tally, &LENGTHS);
    one_mark(tally, &PLACES);
    one_mark(tally, &WEIGHTS);
    lists(tally);
}
