// The gap: document 01's strips 7, 8, 9 and 11 with a clear dot between neighbours, strips at the widest gap, and gaps that are too wide
// beside each other refusal of the checks on entry.
use crate::passes::{TOO_MANY, Wanted};
use crate::worked::Worked;
use crate::{passes, worked};
use agreed::tally::Tally;
use geometry::strip::Strip;

// At gap 1 mark 3 of strip 7 no longer leaves room above for the mark at 12, but mark 2 does; at 11 neither does, and one mark goes
// without a label. Where labels slide, each side has two of the first four; the second of them begins at 1 at the least, and with the gap
// its side reaches to 12: too far for the mark at 10.
const STRIPS: [Worked; 3] = [
    (
        607,
        1,
        &[0, 1, 2, 3, 12],
        Some(Ok(&[2, 1, 3, 4, 1])),
        Some(Ok(())),
        Some((5, 0)),
    ),
    (
        608,
        1,
        &[0, 1, 2, 3, 11],
        Some(Err(11)),
        Some(Err(11)),
        Some((4, 1)),
    ),
    (
        609,
        1,
        &[0, 1, 2, 3, 10],
        Some(Err(11)),
        Some(Err(11)),
        None,
    ),
];

// Behind labels that end at 0 and at 1 the next may begin at 8 and at 9, and not a dot sooner.
fn widest(tally: &mut Tally) {
    let cases: [(u32, &[i16], Result<&[u8], u8>); 3] = [
        (621, &[0, 1, 8, 9], Ok(&[2, 3, 1, 4])),
        (622, &[0, 1, 7, 9], Err(11)),
        (623, &[0, 1, 7, 8], Err(11)),
    ];
    for (case, places, wanted) in cases {
        passes::full_gives(tally.at(case), passes::even(places), 8, wanted);
    }
}

// A gap of 8 is taken, and no wider one; 12 comes before 8, and before anything where there are no marks.
fn bounds(tally: &mut Tally) {
    let cases: [(u32, &[i16], u8, Result<(), u8>); 8] = [
        (631, &[5, 25], 8, Ok(())),
        (632, &[5, 25], 9, Err(12)),
        (633, &[5, 25], 255, Err(12)),
        (634, &[5, 5], 8, Err(8)),
        (635, &[5, 5], 9, Err(12)),
        (636, &[5, 5], 255, Err(12)),
        (637, &[], 8, Ok(())),
        (638, &[], 9, Err(12)),
    ];
    for (case, places, gap, wanted) in cases {
        let strip = passes::even(places);
        passes::passes_give(tally.at(case), strip, gap, Wanted::all(wanted));
    }
}

// A list of one length for two places: 6 at every gap.
fn unequal_lists(tally: &mut Tally) {
    let strip = Strip {
        places: &[5, 25],
        lengths: &[10; 1],
        weights: &[1; 2],
    };
    for (case, gap) in [(641, 8), (642, 9), (643, 255)] {
        passes::passes_give(tally.at(case), strip, gap, Wanted::all(Err(6)));
    }
}

// One mark more than any pass takes: 7 if the gap is not too wide.
fn too_many_marks(tally: &mut Tally) {
    let strip = Strip {
        places: &[0; TOO_MANY],
        lengths: &[10; TOO_MANY],
        weights: &[1; TOO_MANY],
    };
    for (case, gap, number) in [(651, 8, 7), (652, 9, 12), (653, 255, 12)] {
        passes::passes_give(tally.at(case), strip, gap, Wanted::all(Err(number)));
    }
}

pub fn gaps(tally: &mut Tally) {
    worked::all_give(tally, &STRIPS);
    worked::leaves_out(tally.at(611), 1, 10, [9, 2, 9, 9, 9], 36, 2);
    widest(tally);
    bounds(tally);
    unequal_lists(tally);
    too_many_marks(tally);
}
