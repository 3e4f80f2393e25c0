// Tracks that slope, for a C host.
ghost use Rattle.slope.specs.Track.{track};
ghost use Rattle.slope.specs.Slope.{SlopeContract};

use geometry::refusal::number;
use slope::slope;
use slope::track::Track;

// A position for every mark in `positions` so that no two squares overlap, which one is open, or 11; 6 to 9 or 18 if a check is not passed.
#[unsafe(no_mangle)]
pub extern "C" fn strip_slope(xs: &[i16], ys: &[i16], side: u8, positions: &mut [u8]) -> u8
    ensures { SlopeContract (track xs.now ys.now) side positions.old positions.new result }
{
    number(&slope(Track { xs, ys }, side, positions))
}
