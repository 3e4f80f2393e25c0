// Marks exactly a side apart, or two sides, so that squares touch, and the same with a side that is greater by one or marks that are nearer by
// one, so that they overlap. Close marks are those of worked.rt.
use crate::call;
use crate::call::{Case, Wanted};
use agreed::tally::Tally;

// Five marks of which the second to the fourth are close to each other, and the fourth to the fifth. If the first is close to the second,
// there is no placing. If it is a side away along one axis, 3 3 2 4 1 is one, in which the first two touch.
const FIRST_AWAY: [Case; 6] = [
    (1701, &[0, 10, 12, 14, 16], &[0, 5, 6, 7, 8], 10, Ok(())),
    (1702, &[0, 10, 12, 14, 16], &[0, 5, 6, 7, 8], 11, Err(11)),
    (1703, &[0, 10, 11, 12, 13], &[0, 10, 11, 12, 13], 10, Ok(())),
    (
        1704,
        &[0, 10, 11, 12, 13],
        &[0, 10, 11, 12, 13],
        11,
        Err(11),
    ),
    (
        1705,
        &[-30000, -29760, -29759, -29758, -29757],
        &[0, 240, 241, 242, 243],
        240,
        Ok(()),
    ),
    (
        1706,
        &[-30000, -29761, -29760, -29759, -29758],
        &[0, 239, 240, 241, 242],
        240,
        Err(11),
    ),
];

// The same from the other end, with 3 2 4 1 1.
const LAST_AWAY: [Case; 6] = [
    (1711, &[0, 2, 4, 6, 16], &[0, 1, 2, 3, 8], 10, Ok(())),
    (1712, &[0, 2, 4, 6, 16], &[0, 1, 2, 3, 8], 11, Err(11)),
    (1713, &[0, 1, 2, 3, 13], &[0, 1, 2, 3, 13], 10, Ok(())),
    (1714, &[0, 1, 2, 3, 13], &[0, 1, 2, 3, 13], 11, Err(11)),
    (
        1715,
        &[29757, 29758, 29759, 29760, 30000],
        &[0, 1, 2, 3, 243],
        240,
        Ok(()),
    ),
    (
        1716,
        &[29758, 29759, 29760, 29761, 30000],
        &[0, 1, 2, 3, 242],
        240,
        Err(11),
    ),
];

// Four close marks are at 3, 2 and 4 in some order, and 1. So of two such groups the last mark of the first one, at 1, faces the first mark of
// the second one, at 3: they touch where they are two sides apart along one axis, and overlap where they are nearer along both.
const TWO_SIDES: [Case; 6] = [
    (
        1721,
        &[0, 2, 4, 6, 26, 28, 30, 32],
        &[0, 1, 2, 3, 13, 14, 15, 16],
        10,
        Ok(()),
    ),
    (
        1722,
        &[0, 2, 4, 6, 26, 28, 30, 32],
        &[0, 1, 2, 3, 13, 14, 15, 16],
        11,
        Err(11),
    ),
    (
        1723,
        &[0, 1, 2, 3, 23, 24, 25, 26],
        &[0, 1, 2, 3, 23, 24, 25, 26],
        10,
        Ok(()),
    ),
    (
        1724,
        &[0, 1, 2, 3, 22, 23, 24, 25],
        &[0, 1, 2, 3, 22, 23, 24, 25],
        10,
        Err(11),
    ),
    (
        1725,
        &[0, 1, 2, 3, 483, 484, 485, 486],
        &[0, 1, 2, 3, 483, 484, 485, 486],
        240,
        Ok(()),
    ),
    (
        1726,
        &[0, 1, 2, 3, 482, 483, 484, 485],
        &[0, 1, 2, 3, 482, 483, 484, 485],
        240,
        Err(11),
    ),
];

// So many dots from mark to mark along both axes, and a side.
type Even = (u32, i16, i16, u8, Wanted);

// Where each mark is a side away along one axis from the mark after the next, 2 4 2 4 .. is a placing, in which squares at one position touch
// if it is no more than a side. Where it is less along both, all marks but the two at the ends are at 2 or 4, and each three neighbours are
// close to each other, so that there is no placing.
const EVEN: [Even; 9] = [
    (1731, 120, 1, 240, Ok(())),
    (1732, 119, 1, 240, Err(11)),
    (1733, 120, 120, 240, Ok(())),
    (1734, 119, 119, 240, Err(11)),
    (1735, 1, 1, 2, Ok(())),
    (1736, 1, 1, 3, Err(11)),
    (1737, 5, 3, 10, Ok(())),
    (1738, 5, 3, 11, Err(11)),
    (1739, 1, 1, 1, Ok(())),
];

// 60 marks, with the axes as they are and exchanged.
fn even(tally: &mut Tally) {
    for (case, across, up, side, wanted) in EVEN {
        let xs: [i16; 60] = call::spaced(-30000, across);
        let ys: [i16; 60] = call::spaced(-20, up);
        call::both_ways_give(tally, &[(case, &xs, &ys, side, wanted)]);
    }
}

pub fn touching(tally: &mut Tally) {
    call::both_ways_give(tally, &FIRST_AWAY);
    call::both_ways_give(tally, &LAST_AWAY);
    call::both_ways_give(tally, &TWO_SIDES);
    even(tally);
}
