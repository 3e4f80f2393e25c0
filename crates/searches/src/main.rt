// A test program: random strips, at gaps of 0 to 8 dots, against a plain search through all choices, and the best pass against itself. It
// prints a few lines for each group, and a line for each strip that disagrees.
#![tactic(auto)]

mod answer;
mod choices;
mod draw;
mod labels;
mod leftmost;
mod random;
mod random_best;
mod random_full;
mod random_largest;
mod random_slide;
mod random_weights;
mod search;
mod sides;
mod slid;
mod strip;
mod sums;

use draw::Draw;
use random_weights::MOVES;

// Strips of up to 6 marks: at gap 0 some one in six of them cannot have a label for every mark, at gap 8 more than half.
fn random_corners() {
    let draw = Draw {
        steps: 3,
        shortest: 1,
        spread: 24,
    };
    random::random("full random", 1, draw, random_full::compared);
    random::random("best random", 2, draw, random_best::compared);
}

// Marks side by side with labels longer than all of them lie apart: of 6 marks two or more are left out.
fn random_crowds() {
    let crowd = Draw {
        steps: 1,
        shortest: 12,
        spread: 24,
    };
    random::random("best random, crowded", 5, crowd, random_best::compared);
    random::group(
        "best, one weight changed",
        &MOVES,
        8,
        crowd,
        random_weights::reweighed,
    );
    random::group(
        "best, one mark taken out",
        &MOVES,
        9,
        crowd,
        random_weights::without_one,
    );
}

// Labels of up to 4 dots, with which 6 marks always fit at gap 0, and of 4 to 7.
fn random_slides() {
    let short = Draw {
        steps: 2,
        shortest: 1,
        spread: 4,
    };
    random::random("slide random", 3, short, random_slide::compared);
    let long = Draw {
        steps: 2,
        shortest: 4,
        spread: 4,
    };
    random::random("slide random, long labels", 4, long, random_slide::compared);
}

// Labels of 1 to 6 cells, with which each width from 1 to 30 is found, and of 1 to 12, of which many have room at widths at which they
// would be over 240 dots.
fn random_letters() {
    let short = Draw {
        steps: 20,
        shortest: 1,
        spread: 6,
    };
    random::random("largest random", 6, short, random_largest::compared);
    let long = Draw {
        steps: 12,
        shortest: 1,
        spread: 12,
    };
    random::random(
        "largest random, long labels",
        7,
        long,
        random_largest::compared,
    );
}

fn main() {
    random_corners();
    random_letters();
    random_crowds();
    random_slides();
}
