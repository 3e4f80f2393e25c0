// The marks of a track that passed the checks on entry.
ghost use Rattle.std.specs.Prelude.{◌≡◌, true, ◌<◌, length, get_or, pos};
ghost use Rattle.geometry.specs.Mark.{rising};
ghost use Rattle.slope.specs.inner.Marks.{Checked};
ghost use Rattle.slope.specs.inner.Spreads.{SpreadIs};

use crate::spread::{FAR, Spread};

// Their coordinates, and the side of their squares.
#[derive(Clone, Copy)]
pub struct Marks<'a> {
    pub xs: &'a [i16],
    pub ys: &'a [i16],
    pub side: u8,
    ghost checked: { Checked xs.now ys.now },
}

// How far apart two marks are along both axes.
#[derive(Clone, Copy)]
pub struct Spreads {
    pub x: Spread,
    pub y: Spread,
}

// From one of the coordinates of a track to one behind it.
fn spread_between(coordinates: &[i16], j: usize, k: usize, side: u8) -> Spread
    requires rises { rising coordinates.now ≡ true }
    requires ordered { j < k }
    requires within { k < length coordinates.now }
    ensures { SpreadIs side (get_or coordinates.now j (pos 0)) (get_or coordinates.now k (pos 0)) result.sides }
{
    Spread::between(coordinates[j], coordinates[k], side)
}

impl Marks<'_> {
    ghost use Rattle.slope.specs.inner.Marks.{SpreadsAre};

    // From the mark with the index j to one behind it; a mark that is not there is far from all.
    pub fn spreads(self, j: usize, k: usize) -> Spreads
        requires { j < k }
        ensures { SpreadsAre self.entry.side self.entry.xs.now self.entry.ys.now j k result.x.sides result.y.sides }
    {
        if k < self.xs.len() {
            Spreads {
                x: spread_between(self.xs, j, k, self.side),
                y: spread_between(self.ys, j, k, self.side),
            }
        } else {
            Spreads { x: FAR, y: FAR }
        }
    }
}
