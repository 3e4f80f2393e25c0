// What the test programs share: how many comparisons agree and the lines that say so, lists that are lent or written, left-out lists, and
// pseudo-random numbers.
#![tactic(auto)]

pub mod left_out;
pub mod lists;
pub mod output;
pub mod source;
pub mod tally;
