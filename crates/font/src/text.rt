// One text: its letters, its width, and its longest beginning of at most 240 dots.
ghost use Rattle.std.specs.Prelude.{◌≡◌, true};
ghost use Rattle.std.specs.List.{list_all};
ghost use Rattle.font.specs.Letters.{in_font_lem};
ghost use Rattle.font.specs.Text.{text_width, longest_beginning_lem};
ghost use Rattle.font.specs.inner.Counts.{count_fits_lem, Readable};

use crate::letters::{Font, in_font};
use geometry::limits::MOST_LENGTH;

// A text of more bytes is over 240 dots.
const MOST_BYTES: usize = 80;

// A text of no more bytes is at most 240 dots, whatever its letters are.
pub const SURE_BYTES: usize = 26;

pub const MOST_WIDTH: u32 = MOST_LENGTH as u32;

// A text is looked at whole, with no jump at a byte that fails, so that the compiler tests several bytes at once.
pub fn all_in_font(text: &[u8]) -> bool
    ensures { result ≡ list_all in_font_lem text.now }
{
    text.iter().fold(true, |good, byte| good & in_font(*byte))
}

// Whether a text of so many bytes may have a length from 1 to 240.
pub fn count_fits(count: usize) -> bool
    ensures { result ≡ count_fits_lem count }
{
    1 <= count && count <= MOST_BYTES
}

// The width of a text of few bytes. A loop: `map` would ask of a closure over its elements that each byte is in the font, and `sum` that the
// whole fits, which the two steps of the loop say shorter.
pub fn width(font: &Font, text: &[u8]) -> u32
    requires { Readable text.now }
    ensures { result ≡ text_width text.now }
{
    let mut sum: u32 = 0;
    for byte in text {
        sum += font.width_of(*byte);
    }
    sum
}

// Behind the bytes that surely have room, goes on until the next would pass 240 dots, so no further than to the 81st.
pub fn longest_beginning(font: &Font, text: &[u8]) -> usize
    requires { list_all in_font_lem text.now ≡ true }
    ensures { result ≡ longest_beginning_lem text.now }
{
    if text.len() <= SURE_BYTES {
        return text.len();
    }
    let mut room = MOST_WIDTH - width(font, &text[..SURE_BYTES]);
    for i in SURE_BYTES..text.len() {
        let next = font.width_of(text[i]);
        if room < next {
            return i;
        }
        room -= next;
    }
    text.len()
}
