// Strips on which several marks are left out, and the best pass must list them heaviest first.
use crate::passes;
use agreed::left_out;
use agreed::lists::UNWRITTEN_NUMBER;
use agreed::tally::Tally;
use best::choice::Choice;
use geometry::strip::Strip;

// The best pass must give this sum and leave out these three marks, in this order, and write no fourth.
fn leaves_out(tally: &mut Tally, strip: Strip, sum: u32, [a, b, c]: [u16; 3]) {
    let got = passes::best::<12>(strip, 0);
    tally.same_number(got.choice, Ok(()));
    passes::same_choice(tally, got.choice, Choice { sum, count: 3 });
    tally.holds(got.left_out.starts_with(&[a, b, c, UNWRITTEN_NUMBER]));
}

// Seven marks side by side: the four of weight 9 find room, and of the others two weigh 5 and one weighs 1.
fn side_by_side(tally: &mut Tally) {
    let strip = Strip {
        places: &[0, 1, 2, 3, 4, 5, 6],
        lengths: &[10; 7],
        weights: &[9, 5, 1, 9, 5, 9, 9],
    };
    leaves_out(tally.at(501), strip, 36, [2, 5, 3]);
}

// Between four marks and four marks of weight 1,000 three whose labels are so long that each would cost two of these: two of the
// three weigh 1,000, and the one between them weighs 1.
fn long_labels(tally: &mut Tally) {
    let strip = Strip {
        places: &[0, 1, 2, 3, 40, 41, 42, 80, 81, 82, 83],
        lengths: &[10, 10, 10, 10, 240, 240, 240, 10, 10, 10, 10],
        weights: &[
            1000, 1000, 1000, 1000, 1000, 1, 1000, 1000, 1000, 1000, 1000,
        ],
    };
    leaves_out(tally.at(502), strip, 8000, [5, 7, 6]);
}

// Eight marks side by side, of which no more than four find room. The best pass must give this sum, and list the other four by the
// positions that it gives.
fn crowd(tally: &mut Tally, weights: [u16; 8], sum: u32) {
    let strip = Strip {
        places: &[0, 1, 2, 3, 4, 5, 6, 7],
        lengths: &[10; 8],
        weights: &weights,
    };
    let got = passes::best::<8>(strip, 0);
    passes::same_choice(tally, got.choice, Choice { sum, count: 4 });
    let is_list = left_out::is_left_out_list(&got.positions, &weights, &got.left_out, 4);
    tally.holds(is_list);
}

pub fn crowds(tally: &mut Tally) {
    side_by_side(tally);
    long_labels(tally);
    for (case, weights, sum) in [
        (503, [1; 8], 4),
        (504, [1000; 8], 4000),
        (505, [1, 1000, 1000, 1, 1000, 1000, 1000, 1], 4000),
        (506, [1, 2, 3, 4, 5, 6, 7, 8], 26),
    ] {
        crowd(tally.at(case), weights, sum);
    }
}
