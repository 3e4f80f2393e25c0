// Whether marks that rise are on one line.
ghost use Rattle.std.specs.Prelude.{◌≡◌, ◌≤◌, ◌<◌, true, pos, ◌-ℤ◌, length, get_or};
ghost use Rattle.geometry.specs.Mark.{rising};
ghost use Rattle.slope.specs.Track.{points_of_lists};
ghost use Rattle.slope.specs.Line.{on_line_lem, on_one_line_lem};
ghost use Rattle.slope.specs.inner.Marks.{Checked, Behind, point_at};

use crate::distance::distance;

// How far a coordinate is from the first.
fn from_first(coordinates: &[i16], k: usize) -> u32
    requires rises { rising coordinates.now ≡ true }
    requires second { 1 ≤ k }
    requires within { k < length coordinates.now }
    ensures is { get_or coordinates.now k (pos 0) -ℤ get_or coordinates.now 0 (pos 0) ≡ pos result }
    ensures small { result < 65536 }
{
    distance(coordinates[0], coordinates[k]) as u32
}

// Whether the mark with index k is on one line with the first two. A distance has 16 bits, so 32 hold the product of two.
fn on_line(xs: &[i16], ys: &[i16], k: usize) -> bool
    requires { Behind xs.now ys.now k }
    ensures { result ≡ on_line_lem (point_at xs.now ys.now 0) (point_at xs.now ys.now 1) (point_at xs.now ys.now k) }
{
    let across = from_first(xs, k);
    let upwards = from_first(ys, k);
    let second_across = from_first(xs, 1);
    let second_upwards = from_first(ys, 1);
    across * second_upwards == upwards * second_across
}

// Whether all are. They are looked at all, with no jump at one that is off the line, so that the compiler tests several at once.
pub fn on_one_line(xs: &[i16], ys: &[i16]) -> bool
    requires { Checked xs.now ys.now }
    ensures { result ≡ on_one_line_lem (points_of_lists xs.now ys.now) }
{
    let mut good = true;
    for k in 2..xs.len() {
        good &= on_line(xs, ys, k);
    }
    good
}
