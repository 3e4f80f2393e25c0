// The marks of a strip that passed the checks on entry.
ghost use Rattle.full.specs.inner.Table.{Checked};

use crate::mark::Mark;

// Their lists, and the gap. No answer of the pass depends on a weight, so none is kept. Each pass has marks of its own: what its checks leave
// differs, and so does a mark, which is over places here and over dots in slide.
#[derive(Clone, Copy)]
pub struct Marks<'a> {
    pub places: &'a [i16],
    pub lengths: &'a [u8],
    pub gap: u8,
    ghost checked: { Checked places.now lengths.now gap },
}

impl<'a> Marks<'a> {
    ghost use Rattle.std.specs.Prelude.{◌≡◌, ◌<◌, length, get_or, pos};

    // The mark with index i.
    pub fn at(self, i: usize) -> Mark
        requires { i < length self.places.now }
        ensures place { result.place ≡ get_or self.entry.places.now i (pos 0) }
        ensures label { result.length ≡ get_or self.entry.lengths.now i 0 }
        ensures gap { result.gap ≡ self.entry.gap }
    {
        Mark {
            place: self.places[i],
            length: self.lengths[i],
            gap: self.gap,
        }
    }
}
