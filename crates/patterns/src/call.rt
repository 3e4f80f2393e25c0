// The call with a number of dots and with one of millimetres, and the place that each must give.
use agreed::tally::Tally;
use logger::{Logged, place};
use std::num::f32_from_bits_with_nan;

// A place, or the number of a refusal.
pub type Wanted = Result<i16, u8>;

// One spot in dots and in millimetres, of which there are an eighth as many, and its place.
pub type Spot<Number> = (u32, Number, Number, Wanted);

pub fn spots(tally: &mut Tally, cases: &[Spot<f32>]) {
    for &(case, dots, millimetres, wanted) in cases {
        tally.at(case);
        tally.same_answer(place(Logged::Dots(dots)), wanted);
        tally.same_answer(place(Logged::Millimetres(millimetres)), wanted);
    }
}

// The same where both numbers are given by their bit patterns.
pub fn spots_by_pattern(tally: &mut Tally, cases: &[Spot<u32>]) {
    for &(case, dots, millimetres, wanted) in cases {
        let dots = f32_from_bits_with_nan(dots);
        let millimetres = f32_from_bits_with_nan(millimetres);
        spots(tally, &[(case, dots, millimetres, wanted)]);
    }
}

// A bit pattern with one answer, whether it stands for dots or for millimetres.
pub type Pattern = (u32, u32, Wanted);

pub fn either_unit(tally: &mut Tally, cases: &[Pattern]) {
    for &(case, pattern, wanted) in cases {
        spots_by_pattern(tally, &[(case, pattern, pattern, wanted)]);
    }
}
