// Lists of which a part is lent, or written.
use crate::output::Output;
use std::fmt::Write;

// What stands in an answer list before a call, which is no answer for any strip here: where a pass must not write, it stands there
// afterwards. Three constants, since they stand in array literals, where one constant of a trait for three types is no plainer.
pub const UNWRITTEN: u8 = 0x77;

pub const UNWRITTEN_NUMBER: u16 = 777;

pub const UNWRITTEN_EDGE: i16 = 7777;

// The first so many elements, to be lent. Where there are fewer, a line says so, which no group is to print, and all are lent.
pub fn first<T>(list: &mut [T], count: usize) -> &mut [T] {
    let most = list.len();
    if most < count {
        let _ = writeln!(Output, "{count} of {most} elements cannot be lent");
        return list;
    }
    &mut list[..count]
}

// Whether all elements are this value.
pub fn are_all<T: Copy + PartialEq>(list: &[T], value: T) -> bool {
    list.iter().all(|&element| element == value)
}

// Whether a list begins with these bytes, and is as it was behind them.
pub fn is_written(list: &[u8], wanted: &[u8]) -> bool {
    list.strip_prefix(wanted)
        .is_some_and(|rest| are_all(rest, UNWRITTEN))
}
