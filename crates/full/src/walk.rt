// The walk from the left: at each mark the first position, in the order 2, 3, 1, 4, that the table allows.
ghost use Rattle.std.specs.Prelude.{◌≡◌, ◌&&◌, ◌-◌, leb, get_or, pos};
ghost use Rattle.geometry.specs.Dot.{dot};
ghost use Rattle.geometry.specs.inner.Positions.{position_of};
ghost use Rattle.full.specs.inner.Rest.{first_passed_lem, pick_by_row};
ghost use Rattle.full.specs.inner.OneMark.{StepReady, Stepped};
ghost use Rattle.full.specs.inner.Table.{WalkReady, Walked};

use crate::mark::Mark;
use crate::marks::Marks;
use crate::passed::if_passed;
use geometry::order::at_most;
use geometry::outside::EMPTY_REACH;
use geometry::position::{Position, Sides};

// The position taken at a mark, and the reaches after it.
#[derive(Clone, Copy)]
struct Taken {
    position: Position,
    after: Sides<i16>,
}

// Whether a label with this left end fits beside its side's reach and leaves the rest possible beside the other side's.
fn leaves_rest(own: i16, left: i16, other: i16, bound: i16) -> bool
    ensures { result ≡ (leb (dot own) (dot left) && leb (dot other) (dot bound)) }
{
    at_most(own, left) & at_most(other, bound)
}

// Position 2, 3 or 1 by the first of their tests that is passed, else 4.
fn first_passed(two: bool, three: bool, one: bool) -> Position
    ensures { position_of result ≡ first_passed_lem two three one }
{
    if two {
        Position::AboveLeft
    } else if three {
        Position::BelowLeft
    } else if one {
        Position::AboveRight
    } else {
        Position::BelowRight
    }
}

// One step beside the reaches before it, at a mark whose positions 2, 3 and 1 leave so much to the other side.
fn step(before: Sides<i16>, mark: Mark, left_to_other: [i16; 3]) -> Taken
    requires { StepReady before.above before.below
        (get_or left_to_other 0 (pos 0)) (get_or left_to_other 1 (pos 0)) (get_or left_to_other 2 (pos 0)) }
    ensures { Stepped
        mark.gap before.above before.below mark.place mark.length
        (pick_by_row (dot before.above) (dot before.below) (dot mark.place - mark.length) (dot mark.place)
        (dot (get_or left_to_other 0 (pos 0))) (dot (get_or left_to_other 1 (pos 0))) (dot (get_or left_to_other 2 (pos 0))))
        (position_of result.position) result.after.above result.after.below }
{
    let Sides { above, below } = before;
    let left = mark.left_edge();
    let own = mark.reaches();
    let two = leaves_rest(above, left, below, left_to_other[0]);
    let three = leaves_rest(below, left, above, left_to_other[1]);
    let one = leaves_rest(above, mark.place, below, left_to_other[2]);
    let above_right = if_passed(one, own.far, above);
    let below_right = if_passed(one, below, own.far);
    let above_rest = if_passed(three, above, above_right);
    let below_rest = if_passed(three, own.near, below_right);
    Taken {
        position: first_passed(two, three, one),
        after: Sides {
            above: if_passed(two, own.near, above_rest),
            below: if_passed(two, below, below_rest),
        },
    }
}

// Writes the position of every mark. Three numbers of its row are read one by one: a slice of the row would want a length in the step's
// contract. By index: the row, the mark and the position have the same.
pub fn walk(marks: Marks, work: &[i16], positions: &mut [u8])
    requires { WalkReady marks.places.now marks.lengths.now marks.gap work.now positions.old }
    ensures { Walked marks.entry.places.now marks.entry.lengths.now marks.entry.gap positions.old positions.new }
{
    let mut reaches = Sides {
        above: EMPTY_REACH,
        below: EMPTY_REACH,
    };
    for i in 0..marks.places.len() {
        let row = 4 * i;
        let left_to_other = [work[row], work[row + 1], work[row + 2]];
        let taken = step(reaches, marks.at(i), left_to_other);
        positions[i] = u8::from(taken.position);
        reaches = taken.after;
    }
}
