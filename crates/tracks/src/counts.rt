// 60 and 61 marks, 4,000 and 4,001, all good or with one fault; lists of unequal length; position lists that are too short by one, or long enough.
use crate::call;
use crate::call::{TOO_MANY, Wanted};
use crate::squares::Squares;
use agreed::lists::first;
use agreed::tally::Tally;

// Each 15th dot from −30,000 on, which makes 4,001 of them up to 30,000.
fn spaced() -> [i16; TOO_MANY] {
    call::spaced(-30000, 15)
}

// So many coordinates, of which the last one is moved by so many dots.
fn moved(coordinates: &mut [i16; TOO_MANY], count: usize, by: i16) -> &[i16] {
    let coordinates = first(coordinates, count);
    if let Some(last) = coordinates.last_mut() {
        *last = last.wrapping_add(by);
    }
    coordinates
}

// So many x and y, with the last x and y moved, a side, and so many positions.
#[derive(Clone, Copy)]
struct Lists {
    counts: [usize; 2],
    by: [i16; 2],
    side: u8,
    lent: usize,
}

fn gives(tally: &mut Tally, lists: Lists, wanted: Wanted) {
    let [across, up] = lists.counts;
    let [right, higher] = lists.by;
    let mut xs = spaced();
    let mut ys = spaced();
    let squares = Squares {
        xs: moved(&mut xs, across, right),
        ys: moved(&mut ys, up, higher),
        side: lists.side,
    };
    call::gives_with(tally, squares, lists.lent, wanted);
}

// How many marks, how far the last x and the last y are moved, and a side.
type Counted = (u32, usize, [i16; 2], u8, Wanted);

// The last mark good, a dot off the line, at a coordinate of the one before it, and far below that one; and a side out of range.
const AT_60: [Counted; 9] = [
    (1901, 60, [0, 0], 15, Ok(())),
    (1902, 60, [-1, 0], 15, Err(18)),
    (1903, 60, [0, -1], 15, Err(18)),
    (1904, 60, [-15, 0], 15, Err(8)),
    (1905, 60, [0, -15], 15, Err(8)),
    (1906, 60, [-300, 0], 15, Err(8)),
    (1907, 60, [0, -300], 15, Err(8)),
    (1908, 60, [0, 0], 0, Err(8)),
    (1909, 60, [0, 0], 241, Err(8)),
];

// A bad mark comes before over 60 marks, and that before the line.
const AT_61: [Counted; 9] = [
    (1911, 61, [0, 0], 15, Err(7)),
    (1912, 61, [-1, 0], 15, Err(7)),
    (1913, 61, [0, -1], 15, Err(7)),
    (1914, 61, [-15, 0], 15, Err(8)),
    (1915, 61, [0, -15], 15, Err(8)),
    (1916, 61, [-300, 0], 15, Err(8)),
    (1917, 61, [0, -300], 15, Err(8)),
    (1918, 61, [0, 0], 0, Err(8)),
    (1919, 61, [0, 0], 241, Err(8)),
];

const AT_4000: [Counted; 9] = [
    (1921, 4000, [0, 0], 15, Err(7)),
    (1922, 4000, [-1, 0], 15, Err(7)),
    (1923, 4000, [0, -1], 15, Err(7)),
    (1924, 4000, [-15, 0], 15, Err(8)),
    (1925, 4000, [0, -15], 15, Err(8)),
    (1926, 4000, [-3000, 0], 15, Err(8)),
    (1927, 4000, [0, -3000], 15, Err(8)),
    (1928, 4000, [0, 0], 0, Err(8)),
    (1929, 4000, [0, 0], 241, Err(8)),
];

// Over 4,000 marks come before all of these.
const AT_4001: [Counted; 5] = [
    (1931, 4001, [0, 0], 15, Err(7)),
    (1932, 4001, [-1, 0], 15, Err(7)),
    (1933, 4001, [-15, 0], 15, Err(7)),
    (1934, 4001, [0, -3000], 15, Err(7)),
    (1935, 4001, [0, 0], 241, Err(7)),
];

fn counted(tally: &mut Tally, cases: &[Counted]) {
    for &(case, count, by, side, wanted) in cases {
        let lists = Lists {
            counts: [count; 2],
            by,
            side,
            lent: TOO_MANY,
        };
        gives(tally.at(case), lists, wanted);
    }
}

// How many x and y, and how many positions are lent: lists of unequal length, then position lists too short by one, or long enough.
const COUNTS: [(u32, [usize; 2], usize, Wanted); 22] = [
    (1941, [0, 1], TOO_MANY, Err(6)),
    (1942, [1, 0], TOO_MANY, Err(6)),
    (1943, [2, 3], TOO_MANY, Err(6)),
    (1944, [3, 2], TOO_MANY, Err(6)),
    (1945, [60, 61], TOO_MANY, Err(6)),
    (1946, [61, 60], TOO_MANY, Err(6)),
    (1947, [4000, 4001], TOO_MANY, Err(6)),
    (1948, [4001, 4000], TOO_MANY, Err(6)),
    (1949, [0, 4001], TOO_MANY, Err(6)),
    (1950, [4001, 0], TOO_MANY, Err(6)),
    (1951, [0, 0], 0, Ok(())),
    (1952, [0, 0], 1, Ok(())),
    (1953, [1, 1], 0, Err(9)),
    (1954, [1, 1], 1, Ok(())),
    (1955, [1, 1], 2, Ok(())),
    (1956, [3, 3], 2, Err(9)),
    (1957, [3, 3], 3, Ok(())),
    (1958, [3, 3], 4, Ok(())),
    (1959, [60, 60], 0, Err(9)),
    (1960, [60, 60], 59, Err(9)),
    (1961, [60, 60], 60, Ok(())),
    (1962, [60, 60], 61, Ok(())),
];

fn short_or_unequal(tally: &mut Tally) {
    for (case, counts, lent, wanted) in COUNTS {
        let lists = Lists {
            counts,
            by: [0; 2],
            side: 15,
            lent,
        };
        gives(tally.at(case), lists, wanted);
    }
}

pub fn counts(tally: &mut Tally) {
    counted(tally, &AT_60);
    counted(tally, &AT_61);
    counted(tally, &AT_4000);
    counted(tally, &AT_4001);
    short_or_unequal(tally);
}
