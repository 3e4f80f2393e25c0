// Three numbers outside the coordinates: no label of an accepted mark begins or ends there. Their dots are `no_reach`, `empty_reach` and
// `no_bound` of the specifications. Numbers and no variants of an enum: they stand in lent memory, whose elements are numbers of 16 bits
// (C interface), and are compared with coordinates without a jump.

// A bound that no reach meets.
pub const NO_REACH: i16 = -32768;

// The reach of a side without labels.
pub const EMPTY_REACH: i16 = -32767;

// A bound that every reach meets.
pub const NO_BOUND: i16 = 32767;
