// The squares of a track by their ends along both axes, and whether two of them overlap; the test's own, since what the pass has is part of
// what is tested.
use agreed::lists::{UNWRITTEN, are_all};
use slope::track::Track;

// An open span along one axis.
#[derive(Clone, Copy)]
struct Span {
    from: i32,
    to: i32,
}

impl Span {
    // From a coordinate to the greater ones.
    fn behind(coordinate: i16, side: u8) -> Span {
        let from = i32::from(coordinate);
        let to = from + i32::from(side);
        Span { from, to }
    }

    // From the smaller ones to a coordinate.
    fn before(coordinate: i16, side: u8) -> Span {
        let to = i32::from(coordinate);
        let from = to - i32::from(side);
        Span { from, to }
    }

    fn shares_more(self, other: Span) -> bool {
        self.from < other.to && other.from < self.to
    }
}

#[derive(Clone, Copy)]
struct Square {
    x: Span,
    y: Span,
}

impl Square {
    // Whether their x spans and their y spans both share more than an end point.
    fn overlaps(self, other: Square) -> bool {
        self.x.shares_more(other.x) && self.y.shares_more(other.y)
    }
}

// The marks of a track, and the side of their squares.
#[derive(Clone, Copy)]
pub struct Squares<'a> {
    pub xs: &'a [i16],
    pub ys: &'a [i16],
    pub side: u8,
}

impl<'a> Squares<'a> {
    pub fn track(self) -> Track<'a> {
        Track {
            xs: self.xs,
            ys: self.ys,
        }
    }

    // The square of mark k, if there is such a mark and it has a position from 1 to 4: at 1 both coordinates of the square are greater than
    // the mark's, at 2 x is smaller and y greater, at 3 both are smaller, at 4 x is greater and y smaller.
    fn square(self, positions: &[u8], k: usize) -> Option<Square> {
        let x = *self.xs.get(k)?;
        let y = *self.ys.get(k)?;
        let right = Span::behind(x, self.side);
        let left = Span::before(x, self.side);
        let up = Span::behind(y, self.side);
        let down = Span::before(y, self.side);
        match *positions.get(k)? {
            1 => Some(Square { x: right, y: up }),
            2 => Some(Square { x: left, y: up }),
            3 => Some(Square { x: left, y: down }),
            4 => Some(Square { x: right, y: down }),
            _ => None,
        }
    }

    // Whether mark k has a square that overlaps that of no mark before it.
    pub fn is_free(self, positions: &[u8], k: usize) -> bool {
        let Some(own) = self.square(positions, k) else {
            return false;
        };
        (0..k).all(|j| {
            let other = self.square(positions, j);
            other.is_some_and(|other| !other.overlaps(own))
        })
    }

    // Whether these are positions of all marks, and no two squares overlap.
    pub fn is_placing(self, positions: &[u8]) -> bool {
        positions.len() == self.xs.len() && (0..self.xs.len()).all(|k| self.is_free(positions, k))
    }

    // Whether a list begins with a placing, and is as it was behind it.
    pub fn is_written(self, list: &[u8]) -> bool {
        let Some((positions, behind)) = list.split_at_checked(self.xs.len()) else {
            return false;
        };
        self.is_placing(positions) && are_all(behind, UNWRITTEN)
    }
}
