// The slope pass: marks on one straight line that rises, each with a square, all of one side.
#![tactic(auto)]

mod distance;
mod entry;
mod line;
mod marks;
mod pairs;
mod quadrant;
mod spread;
mod table;
pub mod track;
mod walk;

ghost use Rattle.geometry.specs.Refusal.{answer_number};
ghost use Rattle.slope.specs.Track.{lists_of};
ghost use Rattle.slope.specs.Slope.{SlopeContract};

use crate::entry::check_track;
use crate::marks::Marks;
use crate::pairs::{any, starts};
use crate::track::Track;
use geometry::limits::MOST_SHORT;
use geometry::refusal::Refusal;

// A position for each mark of the track so that no two squares overlap, or 11 if there is none; which one is open.
pub fn slope(track: Track, side: u8, positions: &mut [u8]) -> Result<(), Refusal>
    ensures { SlopeContract (lists_of track.entry) side positions.old positions.new (answer_number result) }
{
    check_track(track, side, positions.len())?;
    let marks = Marks {
        xs: track.xs,
        ys: track.ys,
        side,
    };
    let mut table = [0; MOST_SHORT];
    let row = table::fill(marks, &mut table);
    let first = starts(row);
    if !any(first) {
        return Err(Refusal::NoPlacing);
    }
    walk::walk(marks, &table, first, positions);
    Ok(())
}
