// What the passes and the job calls share: numbers of document 01, strips, the checks on entry and their refusals, positions, dots,
// comparisons of coordinates, and clearing of work areas. In all crates a number is widened by `as`, which is proved to lose nothing.
#![tactic(auto)]

pub mod dot;
pub mod entry;
pub mod limits;
pub mod order;
pub mod outside;
pub mod position;
pub mod refusal;
pub mod strip;
pub mod work;
