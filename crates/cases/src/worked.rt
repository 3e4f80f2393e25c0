// Document 01's strips 1 to 11, run at gap 0: lengths are 10, and weights 1 unless said.
use crate::passes;
use agreed::tally::Tally;
use best::choice::Choice;
use geometry::strip::Strip;

// Places and a gap, with the positions of full, what slide gives, and the sum of best with its count of left-out marks, as far as each is said.
// A tuple, since a struct's literal stands on as many lines as it has fields.
pub type Worked<'a> = (
    u32,
    u8,
    &'a [i16],
    Option<Result<&'a [u8], u8>>,
    Option<Result<(), u8>>,
    Option<(u32, usize)>,
);

pub fn all_give(tally: &mut Tally, cases: &[Worked]) {
    for &(case, gap, places, full, slide, best) in cases {
        let strip = passes::even(places);
        tally.at(case);
        if let Some(wanted) = full {
            passes::full_gives(tally, strip, gap, wanted);
        }
        if let Some(wanted) = slide {
            tally.same_number(passes::any_slide(strip, gap), wanted);
        }
        if let Some((sum, count)) = best {
            let got = passes::any_best(strip, gap);
            tally.same_number(got, Ok(()));
            passes::same_choice(tally, got, Choice { sum, count });
        }
    }
}

// No marks; the first marks, whose labels all find room; five marks side by side; touching at 12, and the left position that must not be
// taken at 11; what sliding gains at 10, and not at 9.
const STRIPS: [Worked; 9] = [
    (1, 0, &[], Some(Ok(&[])), Some(Ok(())), Some((0, 0))),
    (2, 0, &[0], Some(Ok(&[2])), None, None),
    (3, 0, &[0, 1], Some(Ok(&[2, 3])), None, None),
    (4, 0, &[0, 1, 2, 3], Some(Ok(&[2, 3, 1, 4])), None, None),
    (
        5,
        0,
        &[0, 1, 2, 3, 4],
        Some(Err(11)),
        Some(Err(11)),
        Some((4, 1)),
    ),
    (
        7,
        0,
        &[0, 1, 2, 3, 12],
        Some(Ok(&[2, 3, 1, 4, 1])),
        None,
        None,
    ),
    (
        8,
        0,
        &[0, 1, 2, 3, 11],
        Some(Ok(&[2, 1, 3, 4, 1])),
        None,
        None,
    ),
    (9, 0, &[0, 1, 2, 3, 10], Some(Err(11)), Some(Ok(())), None),
    (10, 0, &[0, 1, 2, 3, 9], None, Some(Err(11)), None),
];

// Of marks at 0, 1, 2, 3 and a last one with these weights, the best pass must leave out this one alone, and give this sum.
pub fn leaves_out(tally: &mut Tally, gap: u8, last: i16, weights: [u16; 5], sum: u32, mark: u16) {
    let strip = Strip {
        places: &[0, 1, 2, 3, last],
        lengths: &[10; 5],
        weights: &weights,
    };
    let got = passes::best::<8>(strip, gap);
    passes::same_choice(tally, got.choice, Choice { sum, count: 1 });
    tally.same(got.left_out[0], mark);
}

pub fn worked(tally: &mut Tally) {
    all_give(tally, &STRIPS);
    leaves_out(tally.at(6), 0, 4, [1, 9, 9, 9, 9], 36, 1);
    leaves_out(tally.at(11), 0, 10, [9, 2, 9, 9, 9], 36, 2);
}
