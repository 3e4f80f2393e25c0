// The marks of a strip that passed the checks on entry.
ghost use Rattle.slide.specs.inner.Plain.{Checked};

use crate::mark::Mark;
use geometry::dot::dot_of;

// Their lists, and the gap. No answer of the pass depends on a weight, so none is kept.
#[derive(Clone, Copy)]
pub struct Marks<'a> {
    pub places: &'a [i16],
    pub lengths: &'a [u8],
    pub gap: u8,
    ghost checked: { Checked places.now lengths.now gap },
}

impl<'a> Marks<'a> {
    ghost use Rattle.std.specs.Prelude.{◌≡◌, ◌<◌, length};
    ghost use Rattle.slide.specs.inner.Handed.{mark_of};
    ghost use Rattle.slide.specs.inner.Plain.{plain_at};

    // The mark at an index.
    pub fn at(self, k: usize) -> Mark
        requires { k < length self.places.now }
        ensures { mark_of result ≡ plain_at self.entry.places.now self.entry.lengths.now k }
    {
        Mark {
            place: dot_of(self.places[k]),
            length: self.lengths[k],
        }
    }
}
