// Tracks drawn from pseudo-random numbers.
ghost use Rattle.std.specs.Prelude.{◌<◌, ◌≤◌};
ghost use Rattle.tracks.specs.declared.draw.TheConstants.{MOST};

use crate::squares::Squares;
use agreed::source::Source;

// The most marks that a track has.
pub const MOST: usize = 60;

// A track and the side of its squares.
#[derive(Clone, Copy)]
pub struct Drawn {
    xs: [i16; MOST],
    ys: [i16; MOST],
    count: usize,
    side: u8,
    ghost fits: { count ≤ MOST },
}

impl Drawn {
    pub fn squares(&self) -> Squares<'_> {
        Squares {
            xs: &self.xs[..self.count],
            ys: &self.ys[..self.count],
            side: self.side,
        }
    }
}

// A number from 1 to `n`.
fn up_to(source: &mut Source, n: u8) -> i16
    requires { 0 < n }
{
    i16::from(source.below(n)) + 1
}

// Moves coordinates, of which the first is 0, near one end of the range: the first is −30,000 or the last is 30,000, or it is up to 29,000 dots
// further in.
fn place(source: &mut Source, coordinates: &mut [i16]) {
    let Some(&last) = coordinates.last() else {
        return;
    };
    let inward = i16::from(source.below(30)) * 1000;
    let first = if source.below(2) == 0 {
        inward - 30000
    } else {
        (30000 - inward).wrapping_sub(last)
    };
    for own in coordinates.iter_mut() {
        *own = own.wrapping_add(first);
    }
}

// What tracks are drawn from: up to so many marks, each behind the one before it by 1 to `steps` times one vector, which goes 1 to `across`
// dots across and 1 to `up` dots up; and one of `spread` sides from `least` on.
#[derive(Clone, Copy)]
pub struct Draw {
    pub marks: u8,
    pub across: u8,
    pub up: u8,
    pub steps: u8,
    pub least: u8,
    pub spread: u8,
    ghost fits: { marks ≤ 60 },
    ghost crosses: { 0 < across },
    ghost rises: { 0 < up },
    ghost moves: { 0 < steps },
    ghost spreads: { 0 < spread },
}

impl Draw {
    // The next track.
    pub fn track(self, source: &mut Source) -> Drawn {
        let across = up_to(source, self.across);
        let up = up_to(source, self.up);
        let (mut x, mut y) = (0i16, 0i16);
        let mut xs = [0; MOST];
        let mut ys = [0; MOST];
        for (own_x, own_y) in xs.iter_mut().zip(ys.iter_mut()) {
            *own_x = x;
            *own_y = y;
            let step = up_to(source, self.steps);
            x = x.wrapping_add(step.wrapping_mul(across));
            y = y.wrapping_add(step.wrapping_mul(up));
        }
        let count = usize::from(source.below(self.marks + 1));
        place(source, &mut xs[..count]);
        place(source, &mut ys[..count]);
        let side = self.least.wrapping_add(source.below(self.spread));
        Drawn {
            xs,
            ys,
            count,
            side,
        }
    }
}
