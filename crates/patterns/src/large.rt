// Numbers far out of range, and what is no number. What is given is judged: a number of millimetres is finite, though eight times as many
// dots may be too large for 32 bits.
use crate::call;
use crate::call::Pattern;
use agreed::tally::Tally;

// The greatest number whose eightfold is finite, 2^125, of which the eightfold is 2^128 and infinite, and the greatest finite number.
const FINITE: [Pattern; 6] = [
    (1401, 0x7dff_ffff, Err(8)),
    (1402, 0xfdff_ffff, Err(8)),
    (1403, 0x7e00_0000, Err(8)),
    (1404, 0xfe00_0000, Err(8)),
    (1405, 0x7f7f_ffff, Err(8)),
    (1406, 0xff7f_ffff, Err(8)),
];

const INFINITE: [Pattern; 2] = [(1411, 0x7f80_0000, Err(15)), (1412, 0xff80_0000, Err(15))];

// The patterns of NaNs, quiet where the first bit of the fraction is set and signalling elsewhere. In the language all of them are one.
const NOT_A_NUMBER: [Pattern; 8] = [
    (1421, 0x7fc0_0000, Err(15)),
    (1422, 0xffc0_0000, Err(15)),
    (1423, 0x7fff_ffff, Err(15)),
    (1424, 0xffff_ffff, Err(15)),
    (1425, 0x7f80_0001, Err(15)),
    (1426, 0xff80_0001, Err(15)),
    (1427, 0x7fbf_ffff, Err(15)),
    (1428, 0xffbf_ffff, Err(15)),
];

pub fn large(tally: &mut Tally) {
    call::either_unit(tally, &FINITE);
    call::either_unit(tally, &INFINITE);
    call::either_unit(tally, &NOT_A_NUMBER);
}
