// The fields of a record, row by row of the table, and how one is read.
ghost use Rattle.std.specs.Prelude.{◌≡◌, ◌^◌, ◌≤◌, length};
ghost use Rattle.job.specs.Number.{big_endian};
ghost use Rattle.job.specs.Format.{byte_width, word_width, bit_stands};
ghost use Rattle.job.specs.Outcome.{outcome_of};
ghost use Rattle.job.specs.Decode.{decode_field};
ghost use Rattle.job.specs.inner.Step.{row_of, front_of};

use crate::format::{ABSENT_LENGTH, ABSENT_STEP, ABSENT_WEIGHT, MOST_STEP, WORD_WIDTH};
use geometry::limits::{MOST_LENGTH, MOST_WEIGHT};
use geometry::refusal::Refusal;

// A field; its number is what its bit is worth in the map byte.
#[derive(Clone, Copy, Debug, PartialEq, Eq)]
pub enum Field {
    Step = 1,
    Length = 2,
    Weight = 4,
}

impl Field {
    pub fn bit(self) -> u8
        ensures { result ≡ 2 ^ (row_of self).bit }
    {
        self as u8
    }

    pub fn width(self) -> usize
        ensures { result ≡ (row_of self).width }
    {
        match self {
            Field::Step | Field::Weight => WORD_WIDTH,
            Field::Length => 1,
        }
    }

    pub fn absent(self) -> u16
        ensures { result ≡ (row_of self).absent }
    {
        match self {
            Field::Step => ABSENT_STEP,
            Field::Length => ABSENT_LENGTH,
            Field::Weight => ABSENT_WEIGHT,
        }
    }

    // Whether the field's bit stands in a map byte.
    pub fn stands_in(self, map: u8) -> bool
        ensures { result ≡ bit_stands (row_of self).bit map }
    {
        map / self.bit() % 2 == 1
    }

    fn in_range(self, value: u16) -> bool
        ensures { result ≡ (row_of self).in_range value }
    {
        let most = match self {
            Field::Step => MOST_STEP,
            Field::Length => MOST_LENGTH as u16,
            Field::Weight => MOST_WEIGHT,
        };
        1 <= value && value <= most
    }
}

// The number that one byte or two stand for; `from_be_bytes` takes an array of one size.
fn number_of(bytes: &[u8]) -> u16
    requires { (byte_width ≤ length bytes.now) × (length bytes.now ≤ word_width) }
    ensures { result ≡ big_endian bytes.now }
{
    if bytes.len() == 1 {
        return bytes[0] as u16;
    }
    u16::from_be_bytes([bytes[0], bytes[1]])
}

// The field at the front of some bytes, and the bytes after it: its absent value where its bit does not stand. Else 1 if the bytes end
// inside it, 3 if it holds its absent value, 4 if it is out of range.
pub fn read_field(field: Field, map: u8, bytes: &[u8]) -> Result<(u16, &[u8]), Refusal>
    ensures { outcome_of front_of result ≡ decode_field (row_of field) map bytes.now }
{
    if !field.stands_in(map) {
        return Ok((field.absent(), bytes));
    }
    let Some((own, rest)) = bytes.split_at_checked(field.width()) else {
        return Err(Refusal::BytesEnd);
    };
    let value = number_of(own);
    if value == field.absent() {
        return Err(Refusal::AbsentValue);
    }
    if !field.in_range(value) {
        return Err(Refusal::OutOfRange);
    }
    Ok((value, rest))
}
