// Numbers between -1 and 1 dot: those above 0 have the place 0, those below it -1, however near to 0 they lie. Zero has the place 0, whatever
// its sign.
use crate::call;
use crate::call::{Pattern, Spot};
use agreed::tally::Tally;

// Zero with both signs, and numbers of which eight are far less than a dot: 2^-149, the least that there is; the patterns around 2^-129,
// 2^-128 and 2^-127, at which the eightfold gets another exponent; 2^-126 and the pattern before it, at which the number itself does.
const NEAR_0: [Pattern; 20] = [
    (1001, 0x0000_0000, Ok(0)),
    (1002, 0x8000_0000, Ok(0)),
    (1003, 0x0000_0001, Ok(0)),
    (1004, 0x8000_0001, Ok(-1)),
    (1005, 0x000f_ffff, Ok(0)),
    (1006, 0x800f_ffff, Ok(-1)),
    (1007, 0x0010_0000, Ok(0)),
    (1008, 0x8010_0000, Ok(-1)),
    (1009, 0x001f_ffff, Ok(0)),
    (1010, 0x801f_ffff, Ok(-1)),
    (1011, 0x0020_0000, Ok(0)),
    (1012, 0x8020_0000, Ok(-1)),
    (1013, 0x003f_ffff, Ok(0)),
    (1014, 0x803f_ffff, Ok(-1)),
    (1015, 0x0040_0000, Ok(0)),
    (1016, 0x8040_0000, Ok(-1)),
    (1017, 0x007f_ffff, Ok(0)),
    (1018, 0x807f_ffff, Ok(-1)),
    (1019, 0x0080_0000, Ok(0)),
    (1020, 0x8080_0000, Ok(-1)),
];

// A half, a quarter and three quarters. The fraction of a half and of a quarter is 0, though neither is whole.
const PARTS: [Spot<f32>; 6] = [
    (1031, 0.5, 0.0625, Ok(0)),
    (1032, -0.5, -0.0625, Ok(-1)),
    (1033, 0.25, 0.03125, Ok(0)),
    (1034, -0.25, -0.03125, Ok(-1)),
    (1035, 0.75, 0.09375, Ok(0)),
    (1036, -0.75, -0.09375, Ok(-1)),
];

pub fn parts(tally: &mut Tally) {
    call::either_unit(tally, &NEAR_0);
    call::spots(tally, &PARTS);
}
