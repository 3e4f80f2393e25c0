// A test program: document 01's strips, each boundary, jobs and listings. It prints a line for each group, and a line for each case that
// disagrees.
#![tactic(auto)]

mod counts;
mod crowds;
mod ends;
mod gaps;
mod jobs;
mod lent;
mod listings;
mod passes;
mod ranges;
mod weights;
mod worked;

use agreed::tally::{Cases, group};

fn main() {
    group(Cases {
        name: "worked strips",
        run: worked::worked,
    });
    group(Cases {
        name: "ranges",
        run: ranges::ranges,
    });
    group(Cases {
        name: "counts of marks",
        run: counts::counts,
    });
    group(Cases {
        name: "lent memory",
        run: lent::lent,
    });
    group(Cases {
        name: "gaps",
        run: gaps::gaps,
    });
    group(Cases {
        name: "ends of the coordinates",
        run: ends::ends,
    });
    group(Cases {
        name: "job bytes",
        run: jobs::jobs,
    });
    group(Cases {
        name: "left-out lists",
        run: crowds::crowds,
    });
    group(Cases {
        name: "one weight",
        run: weights::weights,
    });
    group(Cases {
        name: "listings",
        run: listings::listings,
    });
}
