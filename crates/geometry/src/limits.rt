// The ranges of a mark, how many marks a strip may have, and the widest gap. A short strip is one that the slide and the best pass take.
pub const LEAST_PLACE: i16 = -30000;

pub const MOST_PLACE: i16 = 30000;

pub const MOST_LENGTH: u8 = 240;

pub const MOST_WEIGHT: u16 = 1000;

pub const MOST_MARKS: usize = 4000;

pub const MOST_SHORT: usize = 60;

pub const MOST_GAP: u8 = 8;
