// The job reader: the whole job is checked before a lent list is filled, so that a refusal changes none.
ghost use Rattle.std.specs.Prelude.{◌≡◌, drop, IfOk};
ghost use Rattle.geometry.specs.Strip.{strip};
ghost use Rattle.geometry.specs.Refusal.{verdict_of};
ghost use Rattle.job.specs.Outcome.{outcome_of};
ghost use Rattle.job.specs.Outcome.{verdict_of as verdict_on};
ghost use Rattle.job.specs.Format.{header_length};
ghost use Rattle.job.specs.Decode.{header_in_range_lem, decode_header};
ghost use Rattle.job.specs.Calls.{ReadContract, read_answer};
ghost use Rattle.job.specs.inner.Step.{header_view, marks_behind, Fillable, Filled};

use crate::format::HEADER_LENGTH;
use crate::record::read_record;
use geometry::entry::place_in_range;
use geometry::limits::MOST_MARKS;
use geometry::refusal::{Refusal, check};

// A header: the count of marks and the place of the first.
#[derive(Clone, Copy, Debug, PartialEq, Eq)]
pub struct Header {
    pub count: usize,
    pub place: i16,
}

// Whether the count is at most 4,000, the first place in its range, and 0 at count 0.
fn header_in_range(count: usize, place: i16) -> bool
    ensures { result ≡ header_in_range_lem count place }
{
    count <= MOST_MARKS && place_in_range(place) && (count != 0 || place == 0)
}

// The header, and the bytes behind it.
#[tactic(auto, unfolding(crate::specs::Decode::decode_header))]
fn read_header(job: &[u8]) -> Result<(Header, &[u8]), Refusal>
    ensures header { outcome_of header_view result ≡ decode_header job.now }
    ensures behind { IfOk result (λ x. x.1.now ≡ drop header_length job.now) }
{
    let Some((own, rest)) = job.split_at_checked(HEADER_LENGTH) else {
        return Err(Refusal::BytesEnd);
    };
    let count = u16::from_be_bytes([own[0], own[1]]) as usize;
    let place = i16::from_be_bytes([own[2], own[3]]);
    if !header_in_range(count, place) {
        return Err(Refusal::OutOfRange);
    }
    Ok((Header { count, place }, rest))
}

// The first check that the records do not pass.
fn check_records(header: Header, records: &[u8]) -> Result<(), Refusal>
    ensures { verdict_of result ≡ verdict_on (marks_behind header records.now) }
{
    let mut place = header.place;
    let mut rest = records;
    for i in 0..header.count {
        let (mark, after) = read_record(i == 0, place, rest)?;
        place = mark.place;
        rest = after;
    }
    check(rest.is_empty(), Refusal::BytesLeftOver)
}

// Fills the three lists from records that pass every check: so each is read, and no call returns early.
fn fill(header: Header, records: &[u8], places: &mut [i16], lengths: &mut [u8], weights: &mut [u16])
    requires { Fillable (marks_behind header records.now) header.count (strip places.old lengths.old weights.old) }
    ensures { Filled
        (marks_behind header records.now)
        (strip places.old lengths.old weights.old)
        (strip places.new lengths.new weights.new) }
{
    let mut place = header.place;
    let mut rest = records;
    for i in 0..header.count {
        let Ok((mark, after)) = read_record(i == 0, place, rest) else {
            return;
        };
        places[i] = mark.place;
        lengths[i] = mark.length;
        weights[i] = mark.weight;
        place = mark.place;
        rest = after;
    }
}

// Reads a job into the three mark lists, and gives the count of marks.
pub fn read(
    job: &[u8],
    places: &mut [i16],
    lengths: &mut [u8],
    weights: &mut [u16],
) -> Result<usize, Refusal>
    ensures { ReadContract
        job.now
        (strip places.old lengths.old weights.old)
        (strip places.new lengths.new weights.new)
        (read_answer result) }
{
    let (header, records) = read_header(job)?;
    let shortest = places.len().min(lengths.len().min(weights.len()));
    check(header.count <= shortest, Refusal::ListTooShort)?;
    check_records(header, records)?;
    fill(header, records, places, lengths, weights);
    Ok(header.count)
}
