// The listing of a job: a library over the contracts of the job reader and the three passes.
#![tactic(auto)]

mod lines;
mod passes;
mod text;

ghost use Rattle.std.specs.Prelude.{[], ◌≡◌, ◌+◌, ◌≤◌};
ghost use Rattle.arrayvec.specs.ArrayVec.{array_vec_len};
ghost use Rattle.geometry.specs.Strip.{lists_of, most_marks, most_short};
ghost use Rattle.geometry.specs.Refusal.{accepted};
ghost use Rattle.geometry.specs.Entry.{entry};
ghost use Rattle.listing.specs.Listing.{ListingContract, TextOf, text_most, listed_answer};
ghost use Rattle.listing.specs.inner.Lines.{ShortLines, StripLines};

use geometry::limits::{MOST_MARKS, MOST_SHORT};
use geometry::refusal::{Refusal, check};
use geometry::strip::Strip;
use passes::Short;
use text::Text;

// No text is longer: a count, at most 4,000 positions and the lines below them.
pub const TEXT_MOST: usize = 25000;

// The slide, the best and the out line of a short strip.
#[tactic(auto, using(crate::proofs::Lengths::lengths))]
fn put_short(short: Short, text: &mut Text)
    requires { array_vec_len text.old + 420 ≤ text_most }
    ensures { ShortLines (lists_of short.entry.strip) text.old.items text.new.items }
{
    lines::put_slide(text, short.slides());
    let mut left_out = [0u16; MOST_SHORT];
    let found = short.choose(&mut left_out);
    lines::put_sums(text, found.sum as u16, short.total_weight());
    lines::put_out(text, &left_out[..found.count]);
}

// The lines of a strip below its count.
fn put_strip(strip: Strip, text: &mut Text)
    requires good { entry most_marks (lists_of strip) ≡ accepted }
    requires room { array_vec_len text.old + 24500 ≤ text_most }
    ensures { StripLines (lists_of strip.entry) text.old.items text.new.items }
{
    let mut positions = [0u8; MOST_MARKS];
    lines::put_full(text, passes::fits(strip, &mut positions));
    if MOST_SHORT < strip.places.len() {
        return lines::put_too_long(text);
    }
    put_short(Short { strip }, text);
}

// The whole text of a job.
#[tactic(auto, using(crate::proofs::Lengths::lengths))]
fn put_listing(job: &[u8], text: &mut Text)
    requires { text.old.items ≡ [] }
    ensures { TextOf job.now text.new.items }
{
    let mut places = [0i16; MOST_MARKS];
    let mut lengths = [0u8; MOST_MARKS];
    let mut weights = [0u16; MOST_MARKS];
    let count = match job::reader::read(job, &mut places, &mut lengths, &mut weights) {
        Ok(count) => count,
        Err(refusal) => return lines::put_refused(text, refusal),
    };
    let strip = Strip {
        places: &places[..count],
        lengths: &lengths[..count],
        weights: &weights[..count],
    };
    lines::put_count(text, count as u16);
    put_strip(strip, text);
}

// Writes a job's listing into the output, unless the output is too small for it.
pub fn listing(job: &[u8], output: &mut [u8]) -> Result<usize, Refusal>
    ensures { ListingContract job.now output.old output.new (listed_answer result) }
{
    let mut text = Text::new();
    put_listing(job, &mut text);
    let length = text.len();
    check(length <= output.len(), Refusal::ListTooShort)?;
    output[..length].copy_from_slice(&text);
    Ok(length)
}
