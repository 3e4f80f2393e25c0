// One call with what it must give: number, width, position list and work area.
use agreed::lists::{UNWRITTEN, are_all, first, is_written};
use agreed::tally::Tally;
use geometry::strip::Strip;

// What stands in the work area before a call, which has elements behind its named part.
const USED: i16 = 7;

const BEHIND: usize = 8;

const WHOLE: usize = full::WORK_NAMED + BEHIND;

// The named part is cleared at 0 and at 11, and nothing is changed at every other refusal.
fn is_left_so(work: &[i16; WHOLE], wanted: Wanted) -> bool {
    let named = match wanted {
        Ok(_) | Err(11) => 0,
        Err(_) => USED,
    };
    let (front, behind) = work.split_at(full::WORK_NAMED);
    are_all(front, named) && are_all(behind, USED)
}

pub const NO_MARKS: Strip = Strip {
    places: &[],
    lengths: &[],
    weights: &[],
};

// What a call must give: the width, and the positions that it writes.
pub type Wanted<'a> = Result<(u8, &'a [u8]), u8>;

// How much of a position list of 8 and of the work area is lent.
#[derive(Clone, Copy)]
pub struct Lent {
    pub positions: usize,
    pub work: usize,
}

pub const ALL: Lent = Lent {
    positions: 8,
    work: WHOLE,
};

// The call with these parts of both. The lengths of a strip are in cells here.
pub fn gives_with(tally: &mut Tally, strip: Strip, gap: u8, lent: Lent, wanted: Wanted) {
    let mut positions = [UNWRITTEN; 8];
    let mut work = [USED; WHOLE];
    let got = largest::largest(
        strip,
        gap,
        first(&mut positions, lent.positions),
        first(&mut work, lent.work),
    );
    tally.same_answer(got, wanted.map(|(width, _)| width));
    let written = wanted.map_or(&[] as &[u8], |(_, positions)| positions);
    tally.holds(is_written(&positions, written));
    tally.holds(is_left_so(&work, wanted));
}

// The same with all of both.
pub fn gives(tally: &mut Tally, strip: Strip, gap: u8, wanted: Wanted) {
    gives_with(tally, strip, gap, ALL, wanted);
}
