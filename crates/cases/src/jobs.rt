// Job bytes: strip 14, strip 11's job with each of its truncations, and each boundary of the reader and the writer.
use agreed::lists::first;
use agreed::tally::Tally;
use geometry::refusal::Refusal;
use geometry::strip::Strip;
use job::writer::write;

// Strip 11.
pub const STRIP11: [u8; 26] =
    *b"\x00\x05\x00\x00\x06\x0a\x00\x09\x06\x0a\x00\x02\x06\x0a\x00\x09\x06\x0a\x00\x09\x07\x00\x07\x0a\x00\x09";

// How many marks a job has, read into lists of which so many places, lengths and weights are lent.
fn read_into(job: &[u8], [places, lengths, weights]: [usize; 3]) -> Result<usize, Refusal> {
    job::reader::read(
        job,
        first(&mut [0; 8], places),
        first(&mut [0; 8], lengths),
        first(&mut [0; 8], weights),
    )
}

// The same with lists for 8 marks.
fn read(job: &[u8]) -> Result<usize, Refusal> {
    read_into(job, [8; 3])
}

// A job with its count of marks.
type Job<'a> = (u32, &'a [u8], Result<usize, u8>);

// What the reader gives for the job of a row.
fn answered((case, job, wanted): Job) -> (u32, Result<usize, Refusal>, Result<usize, u8>) {
    (case, read(job), wanted)
}

const STRIP14: [Job; 5] = [
    (301, b"\x00\x00\x00\x00", Ok(0)),
    (302, b"\x00\x00\x00\x01", Err(4)),
    (303, b"\x00\x01\x00\x00\x02\x08", Err(3)),
    (304, b"\x00\x00\x00\x00\x00", Err(5)),
    (305, b"\x00\x00\xff\xff", Err(4)),
];

// The header: count and first place.
const HEADERS: [Job; 7] = [
    (311, b"\x0f\xa1\x00\x00", Err(4)),
    (312, b"\xff\xff\x00\x00", Err(4)),
    (313, b"\x00\x01\x75\x30\x00", Ok(1)),
    (314, b"\x00\x01\x75\x31\x00", Err(4)),
    (315, b"\x00\x01\x8a\xd0\x00", Ok(1)),
    (316, b"\x00\x01\x8a\xcf\x00", Err(4)),
    (317, b"\x0f\xa0\x00\x00", Err(9)),
];

const BIT_MAPS: [Job; 6] = [
    (321, b"\x00\x01\x00\x00\x08", Err(2)),
    (322, b"\x00\x01\x00\x00\x80", Err(2)),
    (323, b"\x00\x01\x00\x00\x01\x00\x02", Err(2)),
    (324, b"\x00\x02\x00\x00\x00\x10", Err(2)),
    (325, b"\x00\x02\x00\x00\x00", Err(1)),
    (326, b"\x00\x01\x00\x00\xff", Err(2)),
];

// The step, and the place that it leads to.
const STEPS: [Job; 8] = [
    (331, b"\x00\x02\x00\x00\x00\x01\x00\x00", Err(4)),
    (332, b"\x00\x02\x00\x00\x00\x01\x00\x01", Err(3)),
    (333, b"\x00\x02\x00\x00\x00\x01\x00\x02", Ok(2)),
    (334, b"\x00\x02\x8a\xd0\x00\x01\xea\x60", Ok(2)),
    (335, b"\x00\x02\x8a\xd0\x00\x01\xea\x61", Err(4)),
    (336, b"\x00\x02\x8a\xd1\x00\x01\xea\x60", Err(4)),
    (337, b"\x00\x02\x75\x30\x00\x00", Err(4)),
    (338, b"\x00\x02\x00\x00\x00\x01\x00", Err(1)),
];

const LENGTHS: [Job; 5] = [
    (341, b"\x00\x01\x00\x00\x02\x00", Err(4)),
    (342, b"\x00\x01\x00\x00\x02\x01", Ok(1)),
    (343, b"\x00\x01\x00\x00\x02\xf0", Ok(1)),
    (344, b"\x00\x01\x00\x00\x02\xf1", Err(4)),
    (345, b"\x00\x01\x00\x00\x02", Err(1)),
];

const WEIGHTS: [Job; 5] = [
    (351, b"\x00\x01\x00\x00\x04\x00\x00", Err(4)),
    (352, b"\x00\x01\x00\x00\x04\x00\x01", Err(3)),
    (353, b"\x00\x01\x00\x00\x04\x03\xe8", Ok(1)),
    (354, b"\x00\x01\x00\x00\x04\x03\xe9", Err(4)),
    (355, b"\x00\x01\x00\x00\x04\x03", Err(1)),
];

// The first bytes of strip 11's job, as many as there may be and not all.
fn truncations(tally: &mut Tally) {
    for k in 0..STRIP11.len() {
        tally.at(361).same_answer(read(&STRIP11[..k]), Err(1));
    }
}

// Strip 11 whole, and with one byte too many.
const WHOLE: [Job; 2] = [
    (362, &STRIP11, Ok(5)),
    (
        363,
        b"\x00\x05\x00\x00\x06\x0a\x00\x09\x06\x0a\x00\x02\x06\x0a\x00\x09\x06\x0a\x00\x09\x07\x00\x07\x0a\x00\x09\x00",
        Err(5),
    ),
];

// Lists for the five marks of strip 11, and one of them one short; too little room comes before what is wrong with a record.
fn short_lists(tally: &mut Tally) {
    for (case, room, wanted) in [
        (371, [5, 5, 5], Ok(5)),
        (372, [4, 5, 5], Err(9)),
        (373, [5, 4, 5], Err(9)),
        (374, [5, 5, 4], Err(9)),
    ] {
        let got = read_into(&STRIP11, room);
        tally.at(case).same_answer(got, wanted);
    }
    let bad_record = read_into(b"\x00\x01\x00\x00\x08", [0, 1, 1]);
    tally.at(375).same_answer(bad_record, Err(9));
}

// Strip 11's job is written into a list that is as long as it, a byte too short, and a byte longer.
fn written(tally: &mut Tally) {
    let strip = Strip {
        places: &[0, 1, 2, 3, 10],
        lengths: &[10; 5],
        weights: &[9, 2, 9, 9, 9],
    };
    let mut job = [0; 26];
    tally.at(381).same_answer(write(strip, &mut job), Ok(26));
    tally.holds(job == STRIP11);
    for (case, room, wanted) in [(382, 25, Err(9)), (383, 27, Ok(26))] {
        let got = write(strip, first(&mut [0; 27], room));
        tally.at(case).same_answer(got, wanted);
    }
}

pub fn jobs(tally: &mut Tally) {
    tally.all_give(&STRIP14.map(answered));
    tally.all_give(&HEADERS.map(answered));
    tally.all_give(&BIT_MAPS.map(answered));
    tally.all_give(&STEPS.map(answered));
    tally.all_give(&LENGTHS.map(answered));
    tally.all_give(&WEIGHTS.map(answered));
    truncations(tally);
    tally.all_give(&WHOLE.map(answered));
    short_lists(tally);
    written(tally);
}
