// Marks on one line, and the same with one of them off it, if only by a dot.
use crate::call;
use crate::call::{Case, Wanted};
use agreed::tally::Tally;

// No two marks are off their line, however steep it is.
const TWO: [Case; 4] = [
    (2001, &[0, 1], &[0, 1], 1, Ok(())),
    (2002, &[0, 1], &[-30000, 30000], 1, Ok(())),
    (2003, &[-30000, 29999], &[17, 18], 1, Ok(())),
    (2004, &[-7, 12345], &[-29999, 4321], 1, Ok(())),
];

// The first, the second and the third of three a dot below the line of the other two, and a dot above it.
const THREE: [Case; 9] = [
    (2011, &[0, 10, 20], &[0, 10, 20], 1, Ok(())),
    (2012, &[0, 10, 20], &[-1, 10, 20], 1, Err(18)),
    (2013, &[0, 10, 20], &[1, 10, 20], 1, Err(18)),
    (2014, &[0, 10, 20], &[0, 9, 20], 1, Err(18)),
    (2015, &[0, 10, 20], &[0, 11, 20], 1, Err(18)),
    (2016, &[0, 10, 20], &[0, 10, 19], 1, Err(18)),
    (2017, &[0, 10, 20], &[0, 10, 21], 1, Err(18)),
    (2018, &[-3, 0, 6], &[-2, 0, 4], 1, Ok(())),
    (2019, &[-3, 0, 6], &[-2, 0, 3], 1, Err(18)),
];

// Marks far apart, whose differences have products up to 60,000 times 60,000. From the first mark of 2023 to the others it is 59,999 across
// and 59,998 up, and 60,000 and 59,999: the products differ by 1. Those of 2024, 3,000,000,000 and 2,950,000,000, are both over the greatest
// signed number of 32 bits. Those of 2025 differ by 65,536, and those of 2026 by 256, which 16 and 8 bits have no room for.
const FAR: [Case; 9] = [
    (
        2021,
        &[-30000, 29999, 30000],
        &[-30000, 29999, 30000],
        1,
        Ok(()),
    ),
    (2022, &[-30000, 0, 30000], &[-30000, 0, 29999], 1, Err(18)),
    (
        2023,
        &[-30000, 29999, 30000],
        &[-30000, 29998, 29999],
        1,
        Err(18),
    ),
    (
        2024,
        &[-30000, 20000, 30000],
        &[-30000, 20000, 29000],
        1,
        Err(18),
    ),
    (2025, &[0, 256, 1000], &[0, 256, 744], 1, Err(18)),
    (2026, &[0, 16, 100], &[0, 16, 84], 1, Err(18)),
    (
        2027,
        &[-30000, -10000, 30000],
        &[-30000, -29998, -29994],
        1,
        Ok(()),
    ),
    (
        2028,
        &[-30000, -10000, 30000],
        &[-30000, -29998, -29993],
        1,
        Err(18),
    ),
    (
        2029,
        &[-30000, -29999, 30000],
        &[-30000, -29999, 29999],
        1,
        Err(18),
    ),
];

// Straight parts with a bend between them, at the last mark but one, at the second and at the third, and with two bends.
const BENT: [Case; 4] = [
    (2031, &[0, 1, 2, 3, 4], &[0, 1, 2, 3, 5], 1, Err(18)),
    (2032, &[0, 1, 2, 3, 4], &[0, 2, 3, 4, 5], 1, Err(18)),
    (2033, &[0, 1, 2, 3, 4], &[0, 1, 2, 4, 6], 1, Err(18)),
    (2034, &[0, 1, 2, 3], &[0, 1, 3, 4], 1, Err(18)),
];

// Which of 60 marks is a dot to the right of the line; none if there is no such mark.
const MANY: [(u32, usize, Wanted); 9] = [
    (2041, 0, Err(18)),
    (2042, 1, Err(18)),
    (2043, 2, Err(18)),
    (2044, 3, Err(18)),
    (2045, 29, Err(18)),
    (2046, 30, Err(18)),
    (2047, 58, Err(18)),
    (2048, 59, Err(18)),
    (2049, 60, Ok(())),
];

fn many(tally: &mut Tally) {
    for (case, off, wanted) in MANY {
        let mut xs: [i16; 60] = call::spaced(-29000, 900);
        let ys: [i16; 60] = call::spaced(-30000, 1000);
        if let Some(x) = xs.get_mut(off) {
            *x = x.wrapping_add(1);
        }
        let (xs, ys) = (&xs, &ys);
        call::both_ways_give(tally, &[(case, xs, ys, 240, wanted)]);
    }
}

pub fn line(tally: &mut Tally) {
    call::both_ways_give(tally, &TWO);
    call::both_ways_give(tally, &THREE);
    call::both_ways_give(tally, &FAR);
    call::both_ways_give(tally, &BENT);
    many(tally);
}
