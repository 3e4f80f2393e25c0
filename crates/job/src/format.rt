// The numbers of the job's form, by the names that they have in the specifications.
pub const WORD_WIDTH: usize = 2;

pub const HEADER_LENGTH: usize = 4;

pub const MOST_STEP: u16 = 60000;

pub const ABSENT_STEP: u16 = 1;

pub const ABSENT_LENGTH: u16 = 8;

pub const ABSENT_WEIGHT: u16 = 1;
