// The job writer: the job's length is computed before a byte is written, so that a refusal changes none. It counts a position, where the
// reader goes over the bytes that are left: a rest that is written to would be lent back by each call, with a clause on what becomes of it.
ghost use Rattle.std.specs.Prelude.{◌≡◌, ◌+◌, ◌≤◌, eqb, length};
ghost use Rattle.std.proofs.lemmas.List.Edits.{sets};
ghost use Rattle.geometry.specs.Strip.{lists_of};
ghost use Rattle.job.specs.Number.{bytes_of};
ghost use Rattle.job.specs.Format.{word_width, header_length, record_most};
ghost use Rattle.job.specs.Encode.{encode_bit, encode_field, encode_map, header_bytes, records_of, encode};
ghost use Rattle.job.specs.Calls.{WriteContract, written_answer};
ghost use Rattle.job.specs.inner.Step.{row_of};
ghost use Rattle.job.specs.inner.Put.{PutAt, bytes_of_record};

use crate::field::Field;
use crate::format::{HEADER_LENGTH, WORD_WIDTH};
use crate::marks::{Marks, Record};
use geometry::entry::check_strip;
use geometry::refusal::{Refusal, check};
use geometry::strip::Strip;

// Whether a value is the one that a field has if absent, which is not written.
fn is_absent(field: Field, value: u16) -> bool
    ensures { result ≡ eqb value (row_of field).absent }
{
    value == field.absent()
}

fn field_length(field: Field, value: u16) -> usize
    ensures { (result ≡ length (encode_field (row_of field) value)) × (result ≤ (row_of field).width) }
{
    if is_absent(field, value) {
        0
    } else {
        field.width()
    }
}

fn record_length(one: Record) -> usize
    ensures { (result ≡ length (bytes_of_record one)) × (result ≤ record_most) }
{
    1 + field_length(Field::Step, one.step)
        + field_length(Field::Length, one.length)
        + field_length(Field::Weight, one.weight)
}

fn job_length(marks: Marks) -> usize
    ensures { result ≡ length (encode (lists_of marks.entry.strip)) }
{
    let mut total = HEADER_LENGTH;
    for i in 0..marks.strip.places.len() {
        total += record_length(marks.record_at(i));
    }
    total
}

// Writes a number as 16 bits.
fn put_word(job: &mut [u8], at: usize, value: u16)
    requires { at + word_width ≤ length job.old }
    ensures { job.new ≡ sets job.old at (bytes_of word_width value) }
{
    let [high, low] = value.to_be_bytes();
    job[at] = high;
    job[at + 1] = low;
}

// Writes the header: the count of marks and the first place.
fn put_header(marks: Marks, job: &mut [u8])
    requires { header_length ≤ length job.old }
    ensures { job.new ≡ sets job.old 0 (header_bytes marks.entry.strip.places.now) }
{
    put_word(job, 0, marks.strip.places.len() as u16);
    put_word(job, WORD_WIDTH, marks.first_place().cast_unsigned());
}

// Writes a field unless it has its absent value, and gives the position after it.
fn put_field(job: &mut [u8], at: usize, field: Field, value: u16) -> usize
    requires { at + length (encode_field (row_of field) value) ≤ length job.old }
    ensures { PutAt job.old at (encode_field (row_of field) value) result job.new }
{
    if is_absent(field, value) {
        return at;
    }
    if field.width() == WORD_WIDTH {
        put_word(job, at, value);
        return at + WORD_WIDTH;
    }
    job[at] = (value % 256) as u8;
    at + 1
}

// A field's bit in the map byte, which stands unless the field has its absent value.
fn field_bit(field: Field, value: u16) -> u8
    ensures { (result ≡ encode_bit (row_of field) value) × (result ≤ 4) }
{
    if is_absent(field, value) {
        0
    } else {
        field.bit()
    }
}

// The map byte of a record.
#[tactic(auto, unfolding(crate::specs::Encode::encode_map))]
fn map_byte(one: Record) -> u8
    ensures { result ≡ encode_map one.step one.length one.weight }
{
    field_bit(Field::Step, one.step)
        + field_bit(Field::Length, one.length)
        + field_bit(Field::Weight, one.weight)
}

// Writes a record and gives the position after it.
fn put_record(job: &mut [u8], at: usize, one: Record) -> usize
    requires { at + length (bytes_of_record one) ≤ length job.old }
    ensures { PutAt job.old at (bytes_of_record one) result job.new }
{
    job[at] = map_byte(one);
    let after_step = put_field(job, at + 1, Field::Step, one.step);
    let after_length = put_field(job, after_step, Field::Length, one.length);
    put_field(job, after_length, Field::Weight, one.weight)
}

fn put_records(marks: Marks, job: &mut [u8])
    requires { header_length + length (records_of (lists_of marks.strip)) ≤ length job.old }
    ensures { job.new ≡ sets job.old header_length (records_of (lists_of marks.entry.strip)) }
{
    let mut at = HEADER_LENGTH;
    for i in 0..marks.strip.places.len() {
        at = put_record(job, at, marks.record_at(i));
    }
}

// Writes the marks as a job, and gives its length.
pub fn write(strip: Strip, job: &mut [u8]) -> Result<usize, Refusal>
    ensures { WriteContract (lists_of strip.entry) job.old job.new (written_answer result) }
{
    check_strip(strip)?;
    let marks = Marks { strip };
    let total = job_length(marks);
    check(total <= job.len(), Refusal::ListTooShort)?;
    put_header(marks, job);
    put_records(marks, job);
    Ok(total)
}
