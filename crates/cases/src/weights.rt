// One weight of strip 11 changed, also to the least and the greatest; then marks taken out of it. Any four of its marks find room and all five do not,
// so the best sum is that of all weights but the least, and that of all weights where a mark is out. demands/specs/OneWeight.antt computes the same.
use crate::passes;
use agreed::tally::Tally;
use geometry::strip::Strip;

// The best pass must give this sum for marks at these places with these weights, each label 10 long, at gap 0.
fn sum_is<const MARKS: usize>(
    tally: &mut Tally,
    places: [i16; MARKS],
    weights: [u16; MARKS],
    sum: u32,
) {
    let strip = Strip {
        places: &places,
        lengths: &[10; MARKS],
        weights: &weights,
    };
    let got = passes::any_best(strip, 0);
    tally.same_answer(got.map(|choice| choice.sum), Ok(sum));
}

pub fn weights(tally: &mut Tally) {
    let places = [0, 1, 2, 3, 10];
    sum_is(tally.at(801), places, [9, 2, 9, 9, 9], 36);
    sum_is(tally.at(802), places, [12, 2, 9, 9, 9], 39);
    sum_is(tally.at(803), places, [9, 9, 9, 9, 9], 36);
    sum_is(tally.at(804), places, [9, 12, 9, 9, 9], 39);
    sum_is(tally.at(805), places, [1, 2, 9, 9, 9], 29);
    sum_is(tally.at(806), places, [1000, 2, 9, 9, 9], 1027);
    sum_is(tally.at(807), places, [9, 1, 9, 9, 9], 36);
    sum_is(tally.at(808), places, [9, 1000, 9, 9, 9], 1027);
    sum_is(tally.at(811), [0, 2, 3, 10], [9, 9, 9, 9], 36);
    sum_is(tally.at(812), [1, 2, 3, 10], [2, 9, 9, 9], 29);
    sum_is(tally.at(813), [2, 3, 10], [9, 9, 9], 27);
    sum_is(tally.at(814), [3, 10], [9, 9], 18);
    sum_is(tally.at(815), [10], [9], 9);
    sum_is(tally.at(816), [], [], 0);
}
