// The kept part layouts of a mark: for each of its four positions the greatest reach of the other side with which all later
// marks can still be placed.
ghost use Rattle.std.specs.Prelude.{◌≡◌, ◌≤◌};
ghost use Rattle.geometry.specs.Dot.{dot};
ghost use Rattle.full.specs.inner.Row.{alike, kept_one, count_of};
ghost use Rattle.full.specs.inner.SixteenBits.{Reach, Stored};
ghost use Rattle.full.specs.inner.OneMark.{RowHeld, row_dots, beside, row_before};

use crate::mark::Mark;
use crate::passed::if_passed;
use geometry::order::{at_most, larger};
use geometry::outside::NO_REACH;

// The reaches that the four positions, in the order 2, 3, 1, 4, leave to the other side, and how many of them are not NO_REACH; where the
// first mark has none there is no placing. The count is document 01's form, and stands in no answer. A ghost field
// has one proof at most, hence the bars; `row-held` (proofs/StoredOnce.antt) opens them.
#[derive(Clone, Copy)]
pub struct Kept {
    pub reaches: [i16; 4],
    pub count: u8,
    ghost held: { ∥ RowHeld reaches ∥₁ },
    ghost counted: { count ≡ count_of (row_dots reaches) },
}

// The greatest reach of the other side beside a side that reaches to `reach`, when `kept` is what the next mark keeps. On this side its
// label to the right fits wherever the one to the left does; on the other side it leaves more room than that.
fn greatest(reach: i16, next: Mark, kept: Kept) -> i16
    requires { Reach (dot reach) }
    ensures { (dot result ≡ beside (dot reach) (dot next.place) next.length kept.reaches) × Stored (dot result) }
{
    let place = next.place;
    let left = next.left_edge();
    let [kept_left, _, kept_right, _] = kept.reaches;
    let either = larger(kept_left, kept_right);
    let right_here = if_passed(at_most(reach, place), kept_right, NO_REACH);
    let here = if_passed(at_most(reach, left), either, right_here);
    let left_there = if_passed(at_most(reach, kept_left), left, NO_REACH);
    let there = if_passed(at_most(reach, kept_right), place, left_there);
    larger(here, there)
}

// 1 if a part layout is kept, else 0: a number from the test, and no jump.
fn one_if_kept(reach: i16) -> u8
    ensures { (result ≡ kept_one (dot reach)) × (result ≤ 1) }
{
    u8::from(reach != NO_REACH)
}

// The same on both sides: what a label to the left and one to the right leave, and the count. By the mirror a label above leaves
// below what it would leave above from below; where one side bars a position, the sides part here.
fn both_sides(left: i16, right: i16) -> Kept
    requires { Stored (dot left) × Stored (dot right) }
    ensures { row_dots result.reaches ≡ alike (dot left) (dot right) }
{
    Kept {
        reaches: [left, left, right, right],
        count: 2 * (one_if_kept(left) + one_if_kept(right)),
    }
}

// The kept part layouts of a mark from those of the next one: what a label to the left and one to the right leave beside their own reaches.
pub fn kept_before(mark: Mark, next: Mark, kept: Kept) -> Kept
    ensures { row_dots result.reaches
        ≡ row_before mark.gap (dot mark.place) mark.length (dot next.place) next.length kept.reaches }
{
    let own = mark.reaches();
    both_sides(
        greatest(own.near, next, kept),
        greatest(own.far, next, kept),
    )
}
