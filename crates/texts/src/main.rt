// A test program: texts at each boundary of the three calls on them. It prints a line for each group, and a line for each case that
// disagrees.
#![tactic(auto)]

mod beginnings;
mod fillings;
mod widths;

use agreed::tally::{Cases, group};

fn main() {
    group(Cases {
        name: "widths",
        run: widths::widths,
    });
    group(Cases {
        name: "beginnings",
        run: beginnings::beginnings,
    });
    group(Cases {
        name: "length lists",
        run: fillings::fillings,
    });
}
