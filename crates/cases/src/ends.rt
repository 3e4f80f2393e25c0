// The longest labels at both ends of the coordinates, at the widest gap and at gap 0: the full pass's left edges and reaches at their bounds.
use crate::passes;
use agreed::tally::Tally;
use geometry::strip::Strip;

// The places of four marks and a gap, with the positions of full.
type FourMarks<'a> = (u32, &'a [i16; 4], u8, Result<&'a [u8], u8>);

// Left edges from −30,240 on. Behind the labels that end at −30,000 and at −29,999 the next may begin 8 dots further, and not a dot sooner.
const LEFTMOST: [FourMarks; 3] = [
    (661, &[-30000, -29999, -29992, -29991], 8, Ok(&[2, 3, 1, 4])),
    (662, &[-30000, -29999, -29993, -29991], 8, Err(11)),
    (663, &[-30000, -29999, -29998, -29997], 0, Ok(&[2, 3, 1, 4])),
];

// Right ends to 30,240, with the gap to 30,248.
const RIGHTMOST: [FourMarks; 3] = [
    (664, &[29991, 29992, 29999, 30000], 8, Ok(&[2, 3, 1, 4])),
    (665, &[29991, 29992, 29998, 30000], 8, Err(11)),
    (666, &[29997, 29998, 29999, 30000], 0, Ok(&[2, 3, 1, 4])),
];

// Both ends on one strip: they are far apart, so the last two marks have their labels to the left too.
const BOTH: [FourMarks; 1] = [(667, &[-30000, -29999, 29999, 30000], 8, Ok(&[2, 3, 2, 3]))];

fn four_marks(tally: &mut Tally, cases: &[FourMarks]) {
    for &(case, places, gap, wanted) in cases {
        let strip = Strip {
            places,
            lengths: &[240; 4],
            weights: &[1; 4],
        };
        passes::full_gives(tally.at(case), strip, gap, wanted);
    }
}

pub fn ends(tally: &mut Tally) {
    four_marks(tally, &LEFTMOST);
    four_marks(tally, &RIGHTMOST);
    four_marks(tally, &BOTH);
}
