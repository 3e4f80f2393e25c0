// The calls on texts for a C host.
ghost use Rattle.font.specs.Calls.{MeasureContract, BeginningContract, LengthsContract};

use crate::handed::hand_over;
use geometry::refusal::number;

// The length of a text as a label; 13 or 8 if it is refused. `length` is set at every return, to 0 at a refusal.
#[unsafe(no_mangle)]
pub extern "C" fn strip_measure(text: &[u8], length: &mut u8) -> u8
    ensures { MeasureContract text.now (record { number = result; length = length.new }) }
{
    hand_over(font::measure(text), 0, length)
}

// How many bytes the longest beginning of a text has that is at most 240 dots; 13 if the text is refused. `count` is set at every
// return, to 0 at a refusal.
#[unsafe(no_mangle)]
pub extern "C" fn strip_beginning(text: &[u8], count: &mut usize) -> u8
    ensures { BeginningContract text.now (record { number = result; count = count.new }) }
{
    hand_over(font::beginning(text), 0, count)
}

// The lengths of the texts of these byte counts in `lengths`; 6, 7, 13, 8 or 9 if a check is not passed.
#[unsafe(no_mangle)]
pub extern "C" fn strip_lengths(texts: &[u8], counts: &[u16], lengths: &mut [u8]) -> u8
    ensures { LengthsContract
        texts.now counts.now lengths.old lengths.new result }
{
    number(&font::lengths(texts, counts, lengths))
}
