// Tracks of a few marks, with a reason that can be followed by hand.
//
// The first mark at 3 and the last one at 1 are apart from all others, and two marks between them at 2 and 4 from each other. So up to 4 marks
// have a placing. Two marks are called close where they are less than a side apart along both axes: then they are not at one position, the
// first of them is not at 1, and the second not at 3. So a mark with a close one before it and a close one behind it is at 2 or 4, and of
// such marks no three are close to each other.
use crate::call;
use crate::call::Case;
use agreed::tally::Tally;

// No mark, and one at each corner of the range.
const UP_TO_ONE: [Case; 9] = [
    (1601, &[], &[], 1, Ok(())),
    (1602, &[], &[], 240, Ok(())),
    (1603, &[0], &[0], 1, Ok(())),
    (1604, &[0], &[0], 240, Ok(())),
    (1605, &[-30000], &[-30000], 240, Ok(())),
    (1606, &[-30000], &[30000], 240, Ok(())),
    (1607, &[30000], &[-30000], 240, Ok(())),
    (1608, &[30000], &[30000], 240, Ok(())),
    (1609, &[30000], &[30000], 1, Ok(())),
];

// Two, three and four marks, side by side and over all of the range.
const UP_TO_FOUR: [Case; 13] = [
    (1611, &[0, 1], &[0, 1], 240, Ok(())),
    (1612, &[0, 1], &[-30000, 30000], 240, Ok(())),
    (1613, &[-30000, 30000], &[-30000, 30000], 240, Ok(())),
    (1614, &[-30000, 30000], &[-30000, 30000], 1, Ok(())),
    (1615, &[0, 1, 2], &[0, 1, 2], 3, Ok(())),
    (1616, &[0, 1, 2], &[0, 1, 2], 240, Ok(())),
    (1617, &[0, 1, 2], &[0, 1000, 2000], 240, Ok(())),
    (1618, &[-1, 0, 1], &[-30000, 0, 30000], 240, Ok(())),
    (1619, &[-30000, 0, 30000], &[-30000, 0, 30000], 1, Ok(())),
    (1620, &[0, 1, 2, 3], &[0, 1, 2, 3], 4, Ok(())),
    (1621, &[0, 1, 2, 3], &[0, 70, 140, 210], 240, Ok(())),
    (
        1622,
        &[-30000, -29999, 29999, 30000],
        &[-30000, -29999, 29999, 30000],
        240,
        Ok(()),
    ),
    (1623, &[0, 1, 2, 3], &[5, 7, 9, 11], 1, Ok(())),
];

// Five neighbours of which the second, the third and the fourth are close to each other, the first to the second, and the fifth to the fourth:
// alone, at both ends of the range, and behind or before another mark.
const NONE: [Case; 10] = [
    (1631, &[0, 1, 2, 3, 4], &[0, 1, 2, 3, 4], 240, Err(11)),
    (1632, &[0, 1, 2, 3, 4], &[0, 1, 2, 3, 4], 5, Err(11)),
    (1633, &[0, 1, 2, 3, 4], &[0, 1, 2, 3, 4], 4, Err(11)),
    (1634, &[0, 1, 2, 3, 4], &[0, 1, 2, 3, 4], 3, Err(11)),
    (
        1635,
        &[0, 1, 2, 3, 4],
        &[0, 50, 100, 150, 200],
        240,
        Err(11),
    ),
    (
        1636,
        &[0, 1, 2, 3, 4],
        &[0, 119, 238, 357, 476],
        240,
        Err(11),
    ),
    (
        1637,
        &[-30000, -29999, -29998, -29997, -29996],
        &[-30000, -29998, -29996, -29994, -29992],
        240,
        Err(11),
    ),
    (
        1638,
        &[29996, 29997, 29998, 29999, 30000],
        &[29992, 29994, 29996, 29998, 30000],
        240,
        Err(11),
    ),
    (
        1639,
        &[-30000, 0, 1, 2, 3, 4],
        &[-30000, 0, 1, 2, 3, 4],
        10,
        Err(11),
    ),
    (
        1640,
        &[0, 1, 2, 3, 4, 30000],
        &[0, 1, 2, 3, 4, 30000],
        10,
        Err(11),
    ),
];

pub fn worked(tally: &mut Tally) {
    call::all_give(tally, &UP_TO_ONE);
    call::both_ways_give(tally, &UP_TO_FOUR);
    call::both_ways_give(tally, &NONE);
}
