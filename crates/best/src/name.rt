// Names of labels. A side of the line is described by its last label, and a label by its name: twice the number of its mark, and one
// more if it lies to the right of the mark. 0 and 1 name no label. A name is a number because the table is indexed by two of them.
ghost use Rattle.std.specs.Prelude.{◌≡◌, ◌<◌};
ghost use Rattle.geometry.specs.Position.{above, below};
ghost use Rattle.geometry.specs.Strip.{most_short};
ghost use Rattle.geometry.specs.inner.Positions.{position_of, direction_at};
ghost use Rattle.best.specs.inner.Names.{name_of, last_after};

use geometry::limits::MOST_SHORT;
use geometry::position::{Position, Side, Sides};

// How many names there are for a side's last label: two for none, and two for each mark.
pub const NAMES: usize = 2 * MOST_SHORT + 2;

// The last labels of the two sides.
pub type LastLabels = Sides<usize>;

// The two sides before the first mark.
pub const NO_LABELS: LastLabels = Sides { above: 0, below: 0 };

// The name of the label of mark k, counted from 0, at p.
fn name_of(k: usize, p: Position) -> usize
    requires { k < most_short }
    ensures { result ≡ name_of k (direction_at (position_of p)) }
{
    if p.is_leftward() {
        2 * k + 2
    } else {
        2 * k + 3
    }
}

// The last labels once mark k is at p: its label is the last one of the side on which it lies. Both sides are asked: at one position it lies on
// neither, so `Sides::with` would stand under a test.
pub fn after(last: LastLabels, k: usize, p: Position) -> LastLabels
    requires { k < most_short }
    ensures above_is { result.above ≡ last_after above k (position_of p) last.above }
    ensures below_is { result.below ≡ last_after below k (position_of p) last.below }
{
    let name = name_of(k, p);
    Sides {
        above: if p.lies_on(Side::Above) {
            name
        } else {
            last.above
        },
        below: if p.lies_on(Side::Below) {
            name
        } else {
            last.below
        },
    }
}
