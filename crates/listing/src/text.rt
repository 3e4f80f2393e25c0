// A text that knows its own length, and pieces of text, each put behind what stands in it.
ghost use Rattle.std.specs.Prelude.{List, ℕ, ◌∷◌, ◌++◌, ◌+◌, ◌*◌, ◌≡◌, ◌≤◌, length};
ghost use Rattle.std.specs.List.{AllZip};
ghost use Rattle.arrayvec.specs.ArrayVec.{array_vec_len};
ghost use Rattle.listing.specs.Text.{decimal, spaced};
ghost use Rattle.listing.specs.Listing.{text_most};

use crate::TEXT_MOST;
use arrayvec::ArrayVec;
use itoa::Buffer;

pub type Text = ArrayVec<u8, TEXT_MOST>;

// A fixed word. There is room for it, so it is put as a whole.
pub fn put_word(text: &mut Text, word: &[u8])
    requires { array_vec_len text.old + length word.now ≤ text_most }
    ensures { text.new.items ≡ text.old.items ++ word.now }
{
    let _ = text.try_extend_from_slice(word);
}

// A number in decimal digits, at most five: the type holds every number of a listing, and none of 100,000 or more. One digit, as each position
// of a full line has, is pushed, which takes less time than to copy it from a buffer. No `write!` here: no contract says that it succeeds.
#[tactic(auto, using(crate::proofs::Lengths::lengths, crate::proofs::Decimal::one_digit, crate::proofs::Decimal::library_decimal))]
#[inline(always)]
pub fn put_number(text: &mut Text, number: u16)
    requires { array_vec_len text.old + 5 ≤ text_most }
    ensures { text.new.items ≡ text.old.items ++ decimal number }
{
    if number < 10 {
        return text.push(b'0' + number as u8);
    }
    put_word(text, Buffer::new().format(number).as_bytes());
}

// A number after a space.
#[inline(always)]
fn put_spaced(text: &mut Text, number: u16)
    requires { array_vec_len text.old + 6 ≤ text_most }
    ensures { text.new.items ≡ text.old.items ++ (32 ∷ decimal number) }
{
    text.push(b' ');
    put_number(text, number);
}

// Numbers, each after a space.
pub fn put_each_spaced<T: Copy + Into<u16>>(text: &mut Text, numbers: &[T])
    requires { array_vec_len text.old + 6 * length numbers.now ≤ text_most }
    ensures { (converted : List ℕ) × AllZip T.converts numbers.now converted
        × (text.new.items ≡ text.old.items ++ spaced converted) }
{
    for &number in numbers {
        put_spaced(text, number.into());
    }
}
