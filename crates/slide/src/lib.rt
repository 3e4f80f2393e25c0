// The slide pass: every mark gets a label that lies above or below the line and slides along it.
#![tactic(auto)]

mod mark;
mod marks;
mod row;
mod table;
mod walk;

ghost use Rattle.geometry.specs.Refusal.{answer_number};
ghost use Rattle.geometry.specs.Strip.{lists_of};
ghost use Rattle.slide.specs.Slide.{slide_lent, SlideContract};
ghost use Rattle.slide.specs.inner.Answer.{AnswerReady, Answer};

use crate::marks::Marks;
use geometry::entry::check_pass;
use geometry::limits::MOST_SHORT;
use geometry::refusal::{Refusal, check};
use geometry::strip::Strip;
use geometry::work::clear;

// The part of the work area that is named, and ends as zeros also at 11.
pub const WORK_NAMED: usize = 30000;

// The answer for marks and a gap that passed the checks on entry: sides and leftmost edges, or 11.
fn answer(
    marks: Marks,
    sides: &mut [u8],
    edges: &mut [i16],
    work: &mut [u16],
) -> Result<(), Refusal>
    requires { AnswerReady marks.places.now (slide_lent sides.old edges.old work.old) }
    ensures { Answer marks.entry.places.now marks.entry.lengths.now marks.entry.gap
        (slide_lent sides.old edges.old work.old)
        (slide_lent sides.new edges.new work.new)
        (answer_number result) }
{
    table::fill(marks, work);
    let fits = table::fits(marks, work);
    if fits {
        walk::walk(marks, work, sides, edges);
    }
    clear(work, WORK_NAMED, 0);
    check(fits, Refusal::NoPlacing)
}

// Sides and leftmost edges for the marks of a strip, with at least `gap` dots between two labels of one side, or the refusal. A strip of n
// marks takes 4 * n steps for the checks, 2 * ROW_CELLS * n for the table (a row has at most ROW_CELLS cells, and its scan moves on at most
// ROW_CELLS times), n for the walk, and WORK_NAMED to clear the work area.
pub fn slide(
    strip: Strip,
    gap: u8,
    sides: &mut [u8],
    edges: &mut [i16],
    work: &mut [u16],
) -> Result<(), Refusal>
    ensures { SlideContract
        (lists_of strip.entry)
        gap
        (slide_lent sides.old edges.old work.old)
        (slide_lent sides.new edges.new work.new)
        (answer_number result) }
{
    let shortest = sides.len().min(edges.len());
    check_pass(strip, gap, MOST_SHORT, shortest, WORK_NAMED, work.len())?;
    let marks = Marks {
        places: strip.places,
        lengths: strip.lengths,
        gap,
    };
    answer(marks, sides, edges, work)
}
