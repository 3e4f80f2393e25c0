// One record of a job: a bit map byte, then only the fields whose bit stands.
ghost use Rattle.std.specs.Prelude.{◌≡◌, cond, IfOk, FitsSigned};
ghost use Rattle.std.specs.Int.{w16};
ghost use Rattle.job.specs.Outcome.{outcome_of};
ghost use Rattle.job.specs.Decode.{decode_place, decode_label, has_stray_bit_lem, decode_record};
ghost use Rattle.job.specs.inner.Step.{front_of, mark_front};

use crate::field::{Field, read_field};
use geometry::limits::MOST_PLACE;
use geometry::refusal::Refusal;

// Whether a record is the first, and the place before it, are two parameters in all that follows, as in the definitions.

// A mark as a record has it.
#[derive(Clone, Copy, Debug, PartialEq, Eq)]
pub struct Mark {
    pub place: i16,
    pub length: u8,
    pub weight: u16,
}

// Whether a bit of 3 to 7 stands, or bit 0 in the first record.
fn has_stray_bit(first: bool, map: u8) -> bool
    ensures { result ≡ has_stray_bit_lem first map }
{
    8 <= map || first && Field::Step.stands_in(map)
}

// How far a mark lies behind the place before: the first mark lies there, and any other a step behind.
fn behind(first: bool, step: u16) -> u16
    ensures { result ≡ cond first 0 step }
{
    if first { 0 } else { step }
}

// The place of a mark, and the bytes after its step. `before` is the header's place in the first record, and that of the mark before in
// any other.
#[tactic(auto, unfolding(crate::specs::Decode::decode_place))]
fn read_place(first: bool, before: i16, map: u8, bytes: &[u8]) -> Result<(i16, &[u8]), Refusal>
    ensures { outcome_of front_of result ≡ decode_place first before map bytes.now }
{
    let (step, rest) = read_field(Field::Step, map, bytes)?;
    let place = before.saturating_add_unsigned(behind(first, step));
    if MOST_PLACE < place {
        return Err(Refusal::OutOfRange);
    }
    Ok((place, rest))
}

// The length and the weight of the mark at a place, which complete its record. That the place fits 16 bits is said for the callers' loops.
#[tactic(auto, unfolding(crate::specs::Decode::decode_label))]
fn read_label(place: i16, map: u8, bytes: &[u8]) -> Result<(Mark, &[u8]), Refusal>
    ensures label { outcome_of mark_front result ≡ decode_label place map bytes.now }
    ensures held { IfOk result (λ x. FitsSigned w16 x.0.place) }
{
    let (length, rest) = read_field(Field::Length, map, bytes)?;
    let (weight, rest) = read_field(Field::Weight, map, rest)?;
    Ok((
        Mark {
            place,
            length: length as u8,
            weight,
        },
        rest,
    ))
}

// The record at the front of some bytes, and the bytes after it; `before` is as in `read_place`. Inlined, so that both loops over the records
// keep what is left in registers.
#[inline]
#[tactic(auto, unfolding(crate::specs::Decode::decode_record))]
pub fn read_record(first: bool, before: i16, bytes: &[u8]) -> Result<(Mark, &[u8]), Refusal>
    ensures record_is { outcome_of mark_front result ≡ decode_record first before bytes.now }
    ensures held { IfOk result (λ x. FitsSigned w16 x.0.place) }
{
    let Some((map, rest)) = bytes.split_first() else {
        return Err(Refusal::BytesEnd);
    };
    if has_stray_bit(first, *map) {
        return Err(Refusal::StrayBit);
    }
    let (place, rest) = read_place(first, before, *map, rest)?;
    read_label(place, *map, rest)
}
