// Many texts in one byte list: their checks in order, and their lengths. Bytes and counts stay two parameters: as fields of a struct,
// which one call would make for three functions, they would only have longer names in each clause.
ghost use Rattle.std.specs.Prelude.{◌≡◌, true, ◌≤◌, eqb, length};
ghost use Rattle.geometry.specs.Lists.{sum_list};
ghost use Rattle.std.specs.List.{list_all};
ghost use Rattle.geometry.specs.Mark.{length_in_range_lem};
ghost use Rattle.geometry.specs.Pass.{written};
ghost use Rattle.geometry.specs.Refusal.{verdict_of};
ghost use Rattle.font.specs.Text.{text_width, lengths_of};
ghost use Rattle.font.specs.Calls.{lengths_verdict};
ghost use Rattle.font.specs.inner.Counts.{count_fits_lem, Readable, ReadableTexts};

use crate::letters::Font;
use crate::text::{MOST_WIDTH, SURE_BYTES, all_in_font, count_fits, width};
use geometry::limits::MOST_MARKS;
use geometry::refusal::{Refusal, check};

// Whether the counts add up to so many bytes. It stops once they pass it, so that the sum of any number of counts never wraps.
fn counts_add_up(counts: &[u16], bytes: usize) -> bool
    ensures { result ≡ eqb (sum_list counts.now) bytes }
{
    let mut left = bytes;
    for count in counts {
        let count = *count as usize;
        if left < count {
            return false;
        }
        left -= count;
    }
    left == 0
}

// The list is looked at whole, with no jump at a count that fails, as a text is.
fn counts_fit(counts: &[u16]) -> bool
    ensures { result ≡ list_all count_fits_lem counts.now }
{
    counts
        .iter()
        .fold(true, |good, count| good & count_fits(*count as usize))
}

// Whether a text whose count fits is at most 240 dots. Most texts are so short that their letters need not be looked at.
fn text_fits(font: &Font, text: &[u8]) -> bool
    requires { Readable text.now × (1 ≤ length text.now) }
    ensures { result ≡ length_in_range_lem (text_width text.now) }
{
    text.len() <= SURE_BYTES || width(font, text) <= MOST_WIDTH
}

// Whether all texts are at most 240 dots.
fn all_fit(font: &Font, texts: &[u8], counts: &[u16]) -> bool
    requires { ReadableTexts texts.now counts.now }
    ensures { result ≡ list_all length_in_range_lem (lengths_of counts.now texts.now) }
{
    let mut rest = texts;
    for count in counts {
        let (text, after) = rest.split_at(*count as usize);
        if !text_fits(font, text) {
            return false;
        }
        rest = after;
    }
    true
}

// The first check that is not passed; the length list has `room` elements. 8 is tested in two parts, by the counts and, where these fit,
// by the letters; both come behind 13 over all texts.
pub fn check_texts(font: &Font, texts: &[u8], counts: &[u16], room: usize) -> Result<(), Refusal>
    ensures { verdict_of result ≡ lengths_verdict texts.now counts.now room }
{
    check(counts_add_up(counts, texts.len()), Refusal::ListsUnequal)?;
    check(counts.len() <= MOST_MARKS, Refusal::TooManyMarks)?;
    check(all_in_font(texts), Refusal::StrayByte)?;
    check(counts_fit(counts), Refusal::BadMark)?;
    check(all_fit(font, texts, counts), Refusal::BadMark)?;
    check(counts.len() <= room, Refusal::ListTooShort)
}

// Writes the length of every text; by index, as nothing is known of what a `zip` with `iter_mut` has written.
pub fn fill(font: &Font, texts: &[u8], counts: &[u16], lengths: &mut [u8])
    requires { ReadableTexts texts.now counts.now
        × (list_all length_in_range_lem (lengths_of counts.now texts.now) ≡ true)
        × (length counts.now ≤ length lengths.old) }
    ensures { lengths.new ≡ written (lengths_of counts.now texts.now) lengths.old }
{
    let mut rest = texts;
    for (i, count) in counts.iter().enumerate() {
        let (text, after) = rest.split_at(*count as usize);
        lengths[i] = width(font, text) as u8;
        rest = after;
    }
}
