// The labels of a choice, and whether two of them overlap.
ghost use Rattle.std.specs.Prelude.{◌*◌, ◌≤◌};

use crate::choices;
use crate::choices::{Model, Slid};
use crate::sides::{Position, Side, Unknown};
use crate::strip::{Drawn, MOST, Mark};

// A label as an open span on a side. The ends are counted in half dots from 256 dots left of dot 0.
#[derive(Clone, Copy)]
struct Span {
    side: Side,
    left: u16,
    right: u16,
}

impl Span {
    // The label that lies so many half dots right of its leftmost edge.
    fn shifted(mark: Mark, side: Side, half_dots: u16) -> Span
        requires { half_dots ≤ 2 * mark.length }
    {
        let width = 2 * u16::from(mark.length);
        let left = 2 * (u16::from(mark.dot) + 256) - width + half_dots;
        let right = left + width;
        Span { side, left, right }
    }

    // The label at a position: leftmost or rightmost, where it lies as far right as it is long.
    fn placed(mark: Mark, position: Position) -> Span {
        let width = 2 * u16::from(mark.length);
        match position {
            Position::AboveRight => Span::shifted(mark, Side::Above, width),
            Position::AboveLeft => Span::shifted(mark, Side::Above, 0),
            Position::BelowLeft => Span::shifted(mark, Side::Below, 0),
            Position::BelowRight => Span::shifted(mark, Side::Below, width),
        }
    }

    // The label that slides by a number of steps of so many half dots, not beyond the rightmost.
    fn slid(mark: Mark, slid: Slid, step: u8) -> Result<Span, Unknown> {
        let half_dots = u16::from(step) * u16::from(slid.by);
        if half_dots <= 2 * u16::from(mark.length) {
            Ok(Span::shifted(mark, slid.side, half_dots))
        } else {
            Err(Unknown)
        }
    }

    fn shares_more(self, other: Span) -> bool {
        self.left < other.right && other.left < self.right
    }

    // Whether the other lies to the right with fewer than so many dots between them.
    fn is_near(self, other: Span, gap: u8) -> bool {
        self.right <= other.left && other.left - self.right < 2 * u16::from(gap)
    }

    // Whether both are on one side, and share more than an end point, or fewer than `gap` dots lie between their nearer ends.
    fn overlaps(self, other: Span, gap: u8) -> bool {
        self.side == other.side
            && (self.shares_more(other) || self.is_near(other, gap) || other.is_near(self, gap))
    }
}

// How a mark is labelled, if the model has the digit.
type Label = Result<Option<Span>, Unknown>;

// How a digit labels a mark.
fn label(model: Model, mark: Mark, digit: u8) -> Label {
    match model {
        Model::Full => Ok(Some(Span::placed(mark, choices::ranked(digit)))),
        Model::Best if digit == 0 => Ok(None),
        Model::Best => Ok(Some(Span::placed(mark, Position::try_from(digit)?))),
        Model::Slide => Span::slid(mark, Slid::from(digit), 2).map(Some),
        Model::Halves => Span::slid(mark, Slid::from(digit), 1).map(Some),
    }
}

fn labels(model: Model, drawn: &Drawn, digits: &[u8]) -> [Label; MOST] {
    let mut labels = [Ok(None); MOST];
    for (own, (mark, digit)) in labels.iter_mut().zip(drawn.marks().iter().zip(digits)) {
        *own = label(model, *mark, *digit);
    }
    labels
}

// Whether the model does not have a label, or it overlaps one of these.
fn clashes(label: &Label, earlier: &[Label], gap: u8) -> bool {
    match label {
        Ok(Some(span)) => earlier.iter().any(
            |other| matches!(other, Ok(Some(other)) if other.overlaps(*span, gap)),
        ),
        Ok(None) => false,
        Err(Unknown) => true,
    }
}

// The first of the marks, counted from 0, whose label overlaps that of an earlier mark or is none that the model has.
pub fn clash(model: Model, drawn: &Drawn, digits: &[u8]) -> Option<usize> {
    let labels = labels(model, drawn, digits);
    (0..MOST).find(|&k| clashes(&labels[k], &labels[..k], drawn.gap))
}
