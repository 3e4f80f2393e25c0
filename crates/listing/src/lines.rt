// The lines of a strip, each put behind a text.
ghost use Rattle.std.specs.Prelude.{◌++◌, ◌+◌, ◌≡◌, ◌≤◌, length, IfSome};
ghost use Rattle.geometry.specs.Strip.{most_marks, most_short};
ghost use Rattle.arrayvec.specs.ArrayVec.{array_vec_len};
ghost use Rattle.listing.specs.Text.{decimal, full_word, slide_line, best_line, out_line, too_long_lines, refused_line, line_end, marks_line};
ghost use Rattle.listing.specs.Listing.{text_most};
ghost use Rattle.listing.specs.inner.Lines.{tail_of};

use crate::text::{Text, put_each_spaced, put_number, put_word};
use geometry::refusal::Refusal;

// A word, a number and the line's end.
#[tactic(auto, using(crate::proofs::Lengths::lengths))]
fn put_numbered(text: &mut Text, word: &[u8], number: u16)
    requires { array_vec_len text.old + (length word.now + 6) ≤ text_most }
    ensures { text.new.items ≡ text.old.items ++ (word.now ++ decimal number ++ line_end) }
{
    put_word(text, word);
    put_number(text, number);
    text.push(b'\n');
}

// "marks" and the count.
pub fn put_count(text: &mut Text, count: u16)
    requires { array_vec_len text.old + 12 ≤ text_most }
    ensures { text.new.items ≡ text.old.items ++ marks_line count }
{
    put_numbered(text, b"marks ", count);
}

// "refused" and the number.
pub fn put_refused(text: &mut Text, refusal: Refusal)
    requires { array_vec_len text.old + 14 ≤ text_most }
    ensures { text.new.items ≡ text.old.items ++ refused_line refusal }
{
    put_numbered(text, b"refused ", u16::from(u8::from(refusal)));
}

// "full" and the positions, each after a space, or "none".
#[tactic(auto, using(crate::proofs::Lengths::lengths))]
pub fn put_full(text: &mut Text, found: Option<&[u8]>)
    requires few { IfSome found (λ positions. length positions.now ≤ most_marks) }
    requires room { array_vec_len text.old + 24010 ≤ text_most }
    ensures { text.new.items ≡ text.old.items ++ (full_word ++ tail_of found.entry ++ line_end) }
{
    let Some(positions) = found else {
        return put_word(text, b"full none\n");
    };
    put_word(text, b"full");
    put_each_spaced(text, positions);
    text.push(b'\n');
}

// "slide" and "fits" or "none".
pub fn put_slide(text: &mut Text, fits: bool)
    requires { array_vec_len text.old + 11 ≤ text_most }
    ensures { text.new.items ≡ text.old.items ++ slide_line fits }
{
    if fits {
        return put_word(text, b"slide fits\n");
    }
    put_word(text, b"slide none\n");
}

// "best", the greatest sum, "of" and the weight of all marks.
#[tactic(auto, using(crate::proofs::Lengths::lengths))]
pub fn put_sums(text: &mut Text, sum: u16, all: u16)
    requires { array_vec_len text.old + 20 ≤ text_most }
    ensures { text.new.items ≡ text.old.items ++ best_line sum all }
{
    put_word(text, b"best ");
    put_number(text, sum);
    put_numbered(text, b" of ", all);
}

// "out" and the left-out numbers, each after a space, or "none".
#[tactic(auto, using(crate::proofs::Lengths::lengths))]
pub fn put_out(text: &mut Text, left_out: &[u16])
    requires few { length left_out.now ≤ most_short }
    requires room { array_vec_len text.old + 370 ≤ text_most }
    ensures { text.new.items ≡ text.old.items ++ out_line left_out.now }
{
    if left_out.is_empty() {
        return put_word(text, b"out none\n");
    }
    put_word(text, b"out");
    put_each_spaced(text, left_out);
    text.push(b'\n');
}

// The slide and the best line of a strip of more than 60 marks.
#[tactic(auto, unfolding(crate::specs::Text::decimal))]
pub fn put_too_long(text: &mut Text)
    requires { array_vec_len text.old + 40 ≤ text_most }
    ensures { text.new.items ≡ text.old.items ++ too_long_lines }
{
    put_word(text, b"slide refused 7\nbest refused 7\n");
}
