// Tracks with a placing that a wrong pass misses or spoils, for a reason that few random tracks show, and of the others only those that are named.
//
// What such a pass does wrong stands above each row. "2 3 at 1": of a mark at 2 and the one after the next at 3, with one whole side between them
// along x, it takes the squares for overlapping, in the call as it stands or in that with the axes exchanged. 0 is less than a side, 2 is two sides
// or more. It does so where it looks for what the rest of a track can take, or, if the row says so, in the walk from the left that writes.
use crate::squares::Squares;
use crate::{call, depth};
use agreed::tally::Tally;

// The coordinates and a side.
type Fitting<'a> = (u32, &'a [i16], &'a [i16], u8);

const RARE: [Fitting; 17] = [
    // In the walk: it looks at neighbours alone.
    (
        2201,
        &[0, 3, 8, 13, 14, 15, 16],
        &[0, 9, 24, 39, 42, 45, 48],
        13,
    ),
    // In the walk: 3 3 at 2; 2206 and 2216 show it too.
    (2202, &[0, 12, 27, 30, 36, 48], &[0, 4, 9, 10, 12, 16], 13),
    // 2 3 at 1; 2207 and 2210 show it too.
    (
        2203,
        &[0, 6, 12, 24, 27, 33, 39],
        &[0, 4, 8, 16, 18, 22, 26],
        12,
    ),
    // 1 1 at 1; and 2 1 at 0 of neighbours, which 2205 shows too.
    (
        2204,
        &[0, 1, 3, 4, 8, 9, 14, 17],
        &[0, 3, 9, 12, 24, 27, 42, 51],
        10,
    ),
    // 1 4 at 1, and 2 1 at 0.
    (
        2205,
        &[0, 6, 9, 15, 39, 42, 54, 75, 87],
        &[0, 4, 6, 10, 26, 28, 36, 50, 58],
        17,
    ),
    // 2 2 at 2.
    (
        2206,
        &[0, 24, 30, 72, 84, 114, 126, 132, 150],
        &[0, 8, 10, 24, 28, 38, 42, 44, 50],
        24,
    ),
    // 3 4 at 0; 2208 and 2210 show it too.
    (
        2207,
        &[0, 48, 60, 84, 132, 138, 174, 216, 264],
        &[0, 64, 80, 112, 176, 184, 232, 288, 352],
        61,
    ),
    // 4 3 at 2; 2209 shows it too.
    (
        2208,
        &[0, 18, 99, 135, 162, 225, 288, 360, 369, 387, 414],
        &[0, 6, 33, 45, 54, 75, 96, 120, 123, 129, 138],
        66,
    ),
    // 2 4 at 0, and 1 4 at 2; and 4 4 at 1 of neighbours.
    (
        2209,
        &[0, 42, 66, 84, 96, 144, 186, 204, 252, 270, 276, 300],
        &[0, 14, 22, 28, 32, 48, 62, 68, 84, 90, 92, 100],
        33,
    ),
    // 2 4 at 1; 2205 and 2208 show it too.
    (
        2210,
        &[0, 6, 22, 30, 36, 48, 54, 58, 72, 76, 80, 90],
        &[0, 9, 33, 45, 54, 72, 81, 87, 108, 114, 120, 135],
        17,
    ),
    // 1 3 at 2.
    (
        2211,
        &[0, 7, 70, 84, 98, 105, 168, 217, 224, 259, 273, 280],
        &[0, 9, 90, 108, 126, 135, 216, 279, 288, 333, 351, 360],
        62,
    ),
    // In the walk: 2 2 at 2, but along y.
    (2212, &[0, 1, 3, 4], &[0, 4, 12, 16], 6),
    // In the walk: 2 3 at 2.
    (2213, &[0, 44, 88, 99, 110, 132], &[0, 4, 8, 9, 10, 12], 32),
    // 1 2 at 2: this row and the next one.
    (
        2214,
        &[0, 3, 6, 12, 27, 39, 42],
        &[0, 1, 2, 4, 9, 13, 14],
        13,
    ),
    (
        2215,
        &[0, 3, 4, 6, 11, 15, 19],
        &[0, 9, 12, 18, 33, 45, 57],
        13,
    ),
    // 2 2 at 1, where the mark between is at 3: this row and the next one.
    (
        2216,
        &[0, 3, 7, 8, 12, 13, 14, 17],
        &[0, 18, 42, 48, 72, 78, 84, 102],
        19,
    ),
    (
        2217,
        &[0, 8, 20, 24, 34, 36, 38, 46],
        &[0, 4, 10, 12, 17, 18, 19, 23],
        9,
    ),
];

// That there is a placing is what the search finds, too.
pub fn rare(tally: &mut Tally) {
    for (case, xs, ys, side) in RARE {
        call::both_ways_give(tally, &[(case, xs, ys, side, Ok(()))]);
        let found = depth::has_placing(Squares { xs, ys, side });
        tally.at(case).holds(matches!(found, Ok(true)));
    }
}
