// Long strip or bad mark: 60 and 61 marks, 4,000 and 4,001, all good or the last one bad, for the three passes and the writer.
ghost use Rattle.std.specs.Prelude.{◌+◌, ◌≤◌};
ghost use Rattle.geometry.specs.Strip.{most_marks};

use crate::passes;
use crate::passes::{TOO_MANY, Wanted};
use agreed::tally::Tally;
use geometry::strip::Strip;

#[derive(Clone, Copy)]
struct Mark {
    place: i16,
    length: u8,
    weight: u16,
}

// At 30,000, where all others are below it.
const GOOD: Mark = Mark {
    place: 30000,
    length: 10,
    weight: 1,
};

// A place at each 15th dot from −30,000 on, which makes 4,001 of them up to 30,000.
fn spaced() -> [i16; TOO_MANY] {
    let mut places = [GOOD.place; TOO_MANY];
    for (i, place) in places.iter_mut().enumerate() {
        *place = geometry::dot::place_of((2768 + 15 * i) as u16);
    }
    places
}

// So many marks at these places, but for the last one. Three lists, and no list of marks: each of 4,001 would be made of all of them.
fn first_give(tally: &mut Tally, count: usize, last: Mark, wanted: Wanted)
    requires { count ≤ most_marks + 1 }
{
    let mut places = spaced();
    let mut lengths = [GOOD.length; TOO_MANY];
    let mut weights = [GOOD.weight; TOO_MANY];
    if let Some(end) = count.checked_sub(1) {
        places[end] = last.place;
        lengths[end] = last.length;
        weights[end] = last.weight;
    }
    let strip = Strip {
        places: &places[..count],
        lengths: &lengths[..count],
        weights: &weights[..count],
    };
    passes::calls_give(tally, strip, wanted);
}

// A bad place, length and weight, and a place that is that of the first mark.
const BAD: [Mark; 4] = [
    Mark {
        place: 30001,
        ..GOOD
    },
    Mark {
        length: 241,
        ..GOOD
    },
    Mark {
        weight: 1001,
        ..GOOD
    },
    Mark {
        place: -30000,
        ..GOOD
    },
];

// The last mark good, then each bad one in its place; the cases have numbers from this one on.
fn last_gives(tally: &mut Tally, case: u32, count: usize, good: Wanted, bad: Result<(), u8>)
    requires { count ≤ most_marks + 1 }
{
    first_give(tally.at(case), count, GOOD, good);
    for (case, last) in (case..).skip(1).zip(BAD) {
        first_give(tally.at(case), count, last, Wanted::all(bad));
    }
}

// One length too few for 4,001 places: 6 comes before 7.
fn unequal(tally: &mut Tally) {
    let strip = Strip {
        places: &[0; TOO_MANY],
        lengths: &[10; TOO_MANY - 1],
        weights: &[1; TOO_MANY],
    };
    passes::calls_give(tally.at(241), strip, Wanted::all(Err(6)));
}

// Over 4,000 marks 7, then a bad mark 8, then over 60 marks 7.
pub fn counts(tally: &mut Tally) {
    let long = Wanted {
        small: Err(7),
        large: Ok(()),
    };
    last_gives(tally, 201, 60, Wanted::all(Ok(())), Err(8));
    last_gives(tally, 211, 61, long, Err(8));
    last_gives(tally, 221, 4000, long, Err(8));
    last_gives(tally, 231, 4001, Wanted::all(Err(7)), Err(7));
    unequal(tally);
}
