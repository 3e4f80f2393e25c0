// A test program: the numbers that loggers store, many by their bit patterns, at each boundary and in both units. It prints a line for each
// group, and a line for each case that disagrees.
#![tactic(auto)]

mod call;
mod large;
mod parts;
mod powers;
mod ranges;
mod units;
mod whole;

use agreed::tally::{Cases, group};

fn main() {
    group(Cases {
        name: "parts of a dot",
        run: parts::parts,
    });
    group(Cases {
        name: "whole dots and halves",
        run: whole::whole,
    });
    group(Cases {
        name: "powers of two",
        run: powers::powers,
    });
    group(Cases {
        name: "ranges",
        run: ranges::ranges,
    });
    group(Cases {
        name: "large and not finite",
        run: large::large,
    });
    group(Cases {
        name: "both units",
        run: units::units,
    });
}
