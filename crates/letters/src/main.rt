// A test program: the largest letters at each boundary. It prints a line for each group, and a line for each case that disagrees.
#![tactic(auto)]

mod call;
mod refusals;
mod widths;

use agreed::tally::{Cases, group};

fn main() {
    group(Cases {
        name: "widths",
        run: widths::widths,
    });
    group(Cases {
        name: "refusals",
        run: refusals::refusals,
    });
}
