// Small functions over the public calls whose contracts are the user's sentences: their proofs lean on the contracts of
// the calls and on the theorems about the definitions, so they show that the contracts suffice. specs/Demands.antt states the three
// demands whole, of every call that meets its contract; specs/OneWeight.antt says how much one weight can do to the sums of two calls, and
// specs/Runs.antt how calls of a pass find a smallest run of marks that does not fit.
#![tactic(auto)]

pub mod compare;
pub mod trips;
