// The marks of a strip that the writer takes, and the records that they make.
ghost use Rattle.geometry.specs.Strip.{lists_of};
ghost use Rattle.job.specs.inner.Put.{Writable};

use crate::format::ABSENT_STEP;
use geometry::dot::dot_of;
use geometry::strip::Strip;

// The three values of a record. The first mark has no step, which is written as the absent value is.
#[derive(Clone, Copy)]
pub struct Record {
    pub step: u16,
    pub length: u16,
    pub weight: u16,
}

// A strip that passed the checks on entry.
#[derive(Clone, Copy)]
pub struct Marks<'a> {
    pub strip: Strip<'a>,
    ghost good: { Writable (lists_of strip) },
}

impl Marks<'_> {
    ghost use Rattle.std.specs.Prelude.{◌≡◌, ◌<◌, length};
    ghost use Rattle.job.specs.Encode.{first_place_lem};
    ghost use Rattle.job.specs.inner.Put.{step_at_lem, RecordOf};

    // The first place, or 0 where there are no marks.
    pub fn first_place(self) -> i16
        ensures { result ≡ first_place_lem self.entry.strip.places.now }
    {
        self.strip.places.first().copied().unwrap_or(0)
    }

    // The step to mark i, counted from 0.
    fn step_at(self, i: usize) -> u16
        requires { i < length self.strip.places.now }
        ensures { result ≡ step_at_lem self.entry.strip.places.now i }
    {
        if i == 0 {
            return ABSENT_STEP;
        }
        dot_of(self.strip.places[i]) - dot_of(self.strip.places[i - 1])
    }

    // The record of mark i. By index: the step asks for the mark before.
    pub fn record_at(self, i: usize) -> Record
        requires { i < length self.strip.places.now }
        ensures { RecordOf (lists_of self.entry.strip) i result }
    {
        Record {
            step: self.step_at(i),
            length: self.strip.lengths[i] as u16,
            weight: self.strip.weights[i],
        }
    }
}
