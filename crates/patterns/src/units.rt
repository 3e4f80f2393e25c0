// A number of millimetres, and eight times as many dots: both are refused by one number, or have one place, whatever it is.
use agreed::tally::Tally;
use logger::{Logged, place};
use std::num::f32_from_bits_with_nan;

const MINUS: u32 = 0x8000_0000;

// The patterns of a number and of its eightfold.
type Eightfold = (u32, u32, u32);

// Up to 2^24 a pattern counts its number in units of 2^-149. From 2^23 on a pattern that grows by 0x0080_0000, and so an exponent that grows
// by 1, doubles the number.
const SMALL: [Eightfold; 10] = [
    (1501, 0x0000_0000, 0x0000_0000),
    (1502, 0x0000_0001, 0x0000_0008),
    (1503, 0x000f_ffff, 0x007f_fff8),
    (1504, 0x0010_0000, 0x0080_0000),
    (1505, 0x001f_ffff, 0x00ff_fff8),
    (1506, 0x0020_0000, 0x0100_0000),
    (1507, 0x003f_ffff, 0x017f_fffc),
    (1508, 0x0040_0000, 0x0180_0000),
    (1509, 0x007f_ffff, 0x01ff_fffe),
    (1510, 0x0080_0000, 0x0200_0000),
];

// Three doublings are 0x0180_0000. The last three are out of range, and behind the last one no number has a finite eightfold.
const LARGE: [Eightfold; 12] = [
    (1521, 0x0123_4567, 0x02a3_4567),
    (1522, 0x3cff_ffff, 0x3e7f_ffff),
    (1523, 0x3df5_c28f, 0x3f75_c28f),
    (1524, 0x3e4c_cccd, 0x3fcc_cccd),
    (1525, 0x3f9d_70a4, 0x411d_70a4),
    (1526, 0x4048_f5c3, 0x41c8_f5c3),
    (1527, 0x42f6_e979, 0x4476_e979),
    (1528, 0x449a_5225, 0x461a_5225),
    (1529, 0x456a_6000, 0x46ea_6000),
    (1530, 0x457f_ffff, 0x46ff_ffff),
    (1531, 0x4eff_ffff, 0x507f_ffff),
    (1532, 0x7dff_ffff, 0x7f7f_ffff),
];

fn agree(tally: &mut Tally, millimetres: u32, dots: u32) {
    let millimetres = place(Logged::Millimetres(f32_from_bits_with_nan(millimetres)));
    let dots = place(Logged::Dots(f32_from_bits_with_nan(dots)));
    tally.same_answer(millimetres, dots.map_err(u8::from));
}

fn with_both_signs(tally: &mut Tally, cases: &[Eightfold]) {
    for &(case, millimetres, dots) in cases {
        agree(tally.at(case), millimetres, dots);
        agree(tally, millimetres | MINUS, dots | MINUS);
    }
}

pub fn units(tally: &mut Tally) {
    with_both_signs(tally, &SMALL);
    with_both_signs(tally, &LARGE);
}
