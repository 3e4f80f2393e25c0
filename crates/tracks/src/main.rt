// A test program: tracks that slope, at each boundary, and random ones against a plain search. It prints a line for each group, and a line for
// each case that disagrees.
#![tactic(auto)]

mod call;
mod counts;
mod depth;
mod draw;
mod few;
mod line;
mod order;
mod random;
mod ranges;
mod rare;
mod squares;
mod touching;
mod worked;

use agreed::tally::{Cases, group};
use draw::Draw;
use random::Search;

// Tracks of up to 7 marks, of which the search tries each choice.
fn few_marks() {
    let even = Draw {
        marks: 7,
        across: 1,
        up: 1,
        steps: 4,
        least: 3,
        spread: 9,
    };
    random::random("random, 45 degrees", 1, even, Search::Few);
    let any = Draw {
        marks: 7,
        across: 5,
        up: 5,
        steps: 4,
        least: 4,
        spread: 30,
    };
    random::random("random, any slope", 2, any, Search::Few);
}

// The same where mostly all squares share more than an end point along one axis.
fn few_steep_or_flat() {
    let flat = Draw {
        marks: 7,
        across: 60,
        up: 1,
        steps: 2,
        least: 20,
        spread: 180,
    };
    random::random("random, flat", 3, flat, Search::Few);
    let steep = Draw {
        marks: 7,
        across: 1,
        up: 60,
        steps: 2,
        least: 20,
        spread: 180,
    };
    random::random("random, steep", 4, steep, Search::Few);
}

// Tracks of up to 60 marks.
fn many_marks() {
    let even = Draw {
        marks: 60,
        across: 1,
        up: 1,
        steps: 6,
        least: 4,
        spread: 4,
    };
    random::random("random, many at 45 degrees", 5, even, Search::Many);
    let any = Draw {
        marks: 60,
        across: 12,
        up: 12,
        steps: 7,
        least: 10,
        spread: 40,
    };
    random::random("random, many at any slope", 6, any, Search::Many);
}

fn main() {
    group(Cases {
        name: "worked tracks",
        run: worked::worked,
    });
    group(Cases {
        name: "touching squares",
        run: touching::touching,
    });
    group(Cases {
        name: "tracks that fit by little",
        run: rare::rare,
    });
    group(Cases {
        name: "ranges",
        run: ranges::ranges,
    });
    group(Cases {
        name: "counts and lists",
        run: counts::counts,
    });
    group(Cases {
        name: "one line",
        run: line::line,
    });
    group(Cases {
        name: "order of the checks",
        run: order::order,
    });
    few_marks();
    few_steep_or_flat();
    many_marks();
}
