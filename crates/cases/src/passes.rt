// What each pass gives for a strip and a gap, and what the writer gives for a strip; and strips for which they must give one and the same.
use agreed::lists::{UNWRITTEN, UNWRITTEN_NUMBER, is_written};
use agreed::tally::Tally;
use best::choice::Choice;
use geometry::refusal::Refusal;
use geometry::strip::Strip;

// One mark more than any pass takes.
pub const TOO_MANY: usize = geometry::limits::MOST_MARKS + 1;

// More bytes than any job has.
const ANY_JOB: usize = 30000;

// What the best pass gives, and its lists behind the call.
#[derive(Clone, Copy)]
pub struct Chosen<const LENGTH: usize> {
    pub choice: Result<Choice, Refusal>,
    pub positions: [u8; LENGTH],
    pub left_out: [u16; LENGTH],
}

// The best pass with lists of this length, unwritten before the call, and a work area that is long enough.
pub fn best<const LENGTH: usize>(strip: Strip, gap: u8) -> Chosen<LENGTH> {
    let mut positions = [UNWRITTEN; LENGTH];
    let mut left_out = [UNWRITTEN_NUMBER; LENGTH];
    let choice = best::best(
        strip,
        gap,
        &mut positions,
        &mut left_out,
        &mut [0; best::WORK_NAMED],
    );
    Chosen {
        choice,
        positions,
        left_out,
    }
}

// The passes with answer lists for one mark more than any takes and a work area that is long enough, and the writer with room for any job.
fn any_full(strip: Strip, gap: u8) -> Result<(), Refusal> {
    full::full(strip, gap, &mut [0; TOO_MANY], &mut [0; full::WORK_NAMED])
}

pub fn any_slide(strip: Strip, gap: u8) -> Result<(), Refusal> {
    slide::slide(
        strip,
        gap,
        &mut [0; TOO_MANY],
        &mut [0; TOO_MANY],
        &mut [0; slide::WORK_NAMED],
    )
}

pub fn any_best(strip: Strip, gap: u8) -> Result<Choice, Refusal> {
    best::best(
        strip,
        gap,
        &mut [0; TOO_MANY],
        &mut [0; TOO_MANY],
        &mut [0; best::WORK_NAMED],
    )
}

fn any_write(strip: Strip) -> Result<usize, Refusal> {
    job::writer::write(strip, &mut [0; ANY_JOB])
}

// What the calls must give: one answer of slide and best, which take 60 marks, and one of full and the writer.
#[derive(Clone, Copy)]
pub struct Wanted {
    pub small: Result<(), u8>,
    pub large: Result<(), u8>,
}

impl Wanted {
    // One answer of all.
    pub fn all(answer: Result<(), u8>) -> Wanted {
        Wanted {
            small: answer,
            large: answer,
        }
    }
}

// What the three passes must give.
pub fn passes_give(tally: &mut Tally, strip: Strip, gap: u8, wanted: Wanted) {
    tally.same_number(any_full(strip, gap), wanted.large);
    tally.same_number(any_slide(strip, gap), wanted.small);
    tally.same_number(any_best(strip, gap), wanted.small);
}

// What the passes, at gap 0, and the writer must give.
pub fn calls_give(tally: &mut Tally, strip: Strip, wanted: Wanted) {
    passes_give(tally, strip, 0, wanted);
    tally.same_number(any_write(strip), wanted.large);
}

// The full pass must write these positions, or be refused and write none.
pub fn full_gives(tally: &mut Tally, strip: Strip, gap: u8, wanted: Result<&[u8], u8>) {
    let mut positions = [UNWRITTEN; 8];
    let got = full::full(strip, gap, &mut positions, &mut [0; full::WORK_NAMED]);
    tally.same_number(got, wanted);
    tally.holds(is_written(&positions, wanted.unwrap_or(&[])));
}

// Two comparisons: of the sum of weights, and of the count of left-out marks; both are 0 at a refusal.
pub fn same_choice(tally: &mut Tally, got: Result<Choice, Refusal>, wanted: Choice) {
    let choice = got.unwrap_or(Choice { sum: 0, count: 0 });
    tally.same(choice.sum, wanted.sum);
    tally.same(choice.count, wanted.count);
}

// A strip of up to 8 marks, with labels of 10 dots and weight 1. More places would be refused with 6.
pub fn even(places: &[i16]) -> Strip<'_> {
    let marks = places.len().min(8);
    Strip {
        places,
        lengths: &[10; 8][..marks],
        weights: &[1; 8][..marks],
    }
}
