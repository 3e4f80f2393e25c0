// Labels that come as text: the width of each byte of the strip font, and three calls that measure with it.
#![tactic(auto)]

mod letters;
mod text;
mod texts;

ghost use Rattle.geometry.specs.Refusal.{answer_number};
ghost use Rattle.font.specs.Calls.{measured_answer, MeasureContract, beginning_answer, BeginningContract, LengthsContract};

use crate::letters::Font;
use geometry::refusal::{Refusal, check};

// The length of a text as a label; 13 if a byte is outside the font, else 8 if the length is 0 or over 240. An empty text and one
// of so many bytes that it must be over 240 are refused by their count, so that the sum never wraps.
pub fn measure(text: &[u8]) -> Result<u8, Refusal>
    ensures { MeasureContract text.now (measured_answer result) }
{
    check(text::all_in_font(text), Refusal::StrayByte)?;
    check(text::count_fits(text.len()), Refusal::BadMark)?;
    let width = text::width(&Font::new(), text);
    check(width <= text::MOST_WIDTH, Refusal::BadMark)?;
    Ok(width as u8)
}

// How many bytes the longest beginning of a text has that is at most 240 dots; 13 if a byte of the text is outside the font.
pub fn beginning(text: &[u8]) -> Result<usize, Refusal>
    ensures { BeginningContract text.now (beginning_answer result) }
{
    check(text::all_in_font(text), Refusal::StrayByte)?;
    Ok(text::longest_beginning(&Font::new(), text))
}

// The lengths of texts that stand one after the other in `texts`, of so many bytes each as `counts` says; 6, 7, 13, 8 or 9 if a check
// is not passed. No length is written before all checks are made.
pub fn lengths(texts: &[u8], counts: &[u16], lengths: &mut [u8]) -> Result<(), Refusal>
    ensures { LengthsContract
        texts.now counts.now lengths.old lengths.new (answer_number result) }
{
    let font = Font::new();
    texts::check_texts(&font, texts, counts, lengths.len())?;
    texts::fill(&font, texts, counts, lengths);
    Ok(())
}
