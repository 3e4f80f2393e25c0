// Answer lists and work areas that are too short by one, or just long enough, for a strip of three marks; 12 comes before 9 and 10.
use crate::passes;
use agreed::lists::first;
use agreed::tally::Tally;
use best::choice::Choice;
use geometry::refusal::Refusal;

const PLACES: [i16; 3] = [0, 1, 2];

// A gap and the lengths of the lent lists, with what a pass must give.
type Lent<Lengths> = (u32, u8, Lengths, Result<(), u8>);

// One comparison for each row: what the best pass chooses is not said.
fn gives<Lengths: Copy, T: Copy, F: FnMut(u8, Lengths) -> Result<T, Refusal>>(
    tally: &mut Tally,
    cases: &[Lent<Lengths>],
    mut pass: F,
)
    requires { F.IsAlwaysCallable pass }
{
    for &(case, gap, lengths, wanted) in cases {
        tally.at(case).same_number(pass(gap, lengths), wanted);
    }
}

// A position list and a work area.
const FULL: [Lent<[usize; 2]>; 5] = [
    (201, 0, [3, 20000], Ok(())),
    (202, 0, [2, 20000], Err(9)),
    (203, 0, [3, 19999], Err(10)),
    (204, 0, [2, 19999], Err(9)),
    (205, 9, [2, 19999], Err(12)),
];

fn full(gap: u8, [positions, work]: [usize; 2]) -> Result<(), Refusal> {
    full::full(
        passes::even(&PLACES),
        gap,
        first(&mut [0; 3], positions),
        first(&mut [0; full::WORK_NAMED], work),
    )
}

// A side list, a left edge list and a work area.
const SLIDE: [Lent<[usize; 3]>; 6] = [
    (211, 0, [3, 3, 30000], Ok(())),
    (212, 0, [2, 3, 30000], Err(9)),
    (213, 0, [3, 2, 30000], Err(9)),
    (214, 0, [3, 3, 29999], Err(10)),
    (215, 0, [3, 2, 29999], Err(9)),
    (216, 9, [3, 2, 29999], Err(12)),
];

fn slide(gap: u8, [sides, edges, work]: [usize; 3]) -> Result<(), Refusal> {
    slide::slide(
        passes::even(&PLACES),
        gap,
        first(&mut [0; 3], sides),
        first(&mut [0; 3], edges),
        first(&mut [0; slide::WORK_NAMED], work),
    )
}

// A position list, a left-out list and a work area.
const BEST: [Lent<[usize; 3]>; 6] = [
    (221, 0, [3, 3, 15000], Ok(())),
    (222, 0, [2, 3, 15000], Err(9)),
    (223, 0, [3, 2, 15000], Err(9)),
    (224, 0, [3, 3, 14999], Err(10)),
    (225, 0, [2, 3, 14999], Err(9)),
    (226, 9, [2, 3, 14999], Err(12)),
];

fn best(gap: u8, [positions, left_out, work]: [usize; 3]) -> Result<Choice, Refusal> {
    best::best(
        passes::even(&PLACES),
        gap,
        first(&mut [0; 3], positions),
        first(&mut [0; 3], left_out),
        first(&mut [0; best::WORK_NAMED], work),
    )
}

pub fn lent(tally: &mut Tally) {
    gives(tally, &FULL, full);
    gives(tally, &SLIDE, slide);
    gives(tally, &BEST, best);
}
