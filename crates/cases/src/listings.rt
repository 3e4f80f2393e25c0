// The listing's bytes, compared whole: strips 4, 6 and 11, several marks left out, no marks, refused jobs, 60 and 61 marks, and 30,000 bytes of input.
ghost use Rattle.std.specs.Prelude.{◌≤◌};

use crate::jobs;
use agreed::tally::Tally;
use listing::TEXT_MOST;

// The listing of a job must be these bytes.
fn gives(tally: &mut Tally, job: &[u8], wanted: &[u8]) {
    let mut text = [0; TEXT_MOST];
    let got = listing::listing(job, &mut text);
    tally.same_answer(got, Ok(wanted.len()));
    tally.holds(text.starts_with(wanted));
}

// A job with its listing.
type Listed<'a> = (u32, &'a [u8], &'a [u8]);

fn all_give(tally: &mut Tally, cases: &[Listed]) {
    for &(case, job, wanted) in cases {
        gives(tally.at(case), job, wanted);
    }
}

// Strips of document 01.
const STRIPS: [Listed; 4] = [
    (
        401,
        &jobs::STRIP11,
        b"marks 5\nfull none\nslide none\nbest 36 of 38\nout 2\n",
    ),
    (
        402,
        b"\x00\x00\x00\x00",
        b"marks 0\nfull\nslide fits\nbest 0 of 0\nout none\n",
    ),
    (
        403,
        b"\x00\x04\x00\x00\x02\x0a\x02\x0a\x02\x0a\x02\x0a",
        b"marks 4\nfull 2 3 1 4\nslide fits\nbest 4 of 4\nout none\n",
    ),
    (
        404,
        b"\x00\x05\x00\x00\x02\x0a\x06\x0a\x00\x09\x06\x0a\x00\x09\x06\x0a\x00\x09\x06\x0a\x00\x09",
        b"marks 5\nfull none\nslide none\nbest 36 of 37\nout 1\n",
    ),
];

// Seven marks side by side with weights 9, 5, 1, 9, 5, 9, 9: those left out stand heaviest first.
const LEFT_OUT: [Listed; 1] = [(
    405,
    b"\x00\x07\x00\x00\x06\x0a\x00\x09\x06\x0a\x00\x05\x02\x0a\x06\x0a\x00\x09\x06\x0a\x00\x05\x06\x0a\x00\x09\x06\x0a\x00\x09",
    b"marks 7\nfull none\nslide none\nbest 36 of 47\nout 2 5 3\n",
)];

// Refused jobs, an empty input, and 30,000 bytes of input.
fn refused(tally: &mut Tally) {
    let cases: [Listed; 4] = [
        (411, b"\x00\x00\x00\x01", b"refused 4\n"),
        (412, b"\x00\x01\x00\x00\x02\x08", b"refused 3\n"),
        (413, b"", b"refused 1\n"),
        (414, &[0; 30000], b"refused 5\n"),
    ];
    all_give(tally, &cases);
}

// The job of so many marks at each 20th dot, with labels of 8 dots: a header, a record without fields, and 60 records with a step, of which
// the job of 60 marks has 59.
fn spaced(marks: u8) -> [u8; 185] {
    let mut job = [0; 185];
    job[1] = marks;
    job[5..].copy_from_slice([[1, 0, 20]; 60].as_flattened());
    job
}

// The listing of that job: a header of 4 bytes, a record of one, and one of three for each further mark.
fn spaced_gives(tally: &mut Tally, marks: u8, wanted: &[u8])
    requires { marks ≤ 61 }
{
    let bytes = 2 + 3 * usize::from(marks);
    gives(tally, &spaced(marks)[..bytes], wanted);
}

// 60 marks are the most that slide and best take.
fn many(tally: &mut Tally) {
    spaced_gives(
        tally.at(421),
        60,
        b"marks 60\n\
          full 2 2 2 2 2 2 2 2 2 2 2 2 2 2 2 2 2 2 2 2 2 2 2 2 2 2 2 2 2 2 \
          2 2 2 2 2 2 2 2 2 2 2 2 2 2 2 2 2 2 2 2 2 2 2 2 2 2 2 2 2 2\n\
          slide fits\nbest 60 of 60\nout none\n",
    );
    spaced_gives(
        tally.at(422),
        61,
        b"marks 61\n\
          full 2 2 2 2 2 2 2 2 2 2 2 2 2 2 2 2 2 2 2 2 2 2 2 2 2 2 2 2 2 2 \
          2 2 2 2 2 2 2 2 2 2 2 2 2 2 2 2 2 2 2 2 2 2 2 2 2 2 2 2 2 2 2\n\
          slide refused 7\nbest refused 7\n",
    );
}

// An output of the text's length will do, and one byte less is refused with 9.
fn lent(tally: &mut Tally) {
    let refused = b"\x00\x00\x00\x01";
    let enough = listing::listing(refused, &mut [0; 10]);
    tally.at(431).same_number(enough, Ok(()));
    let too_short = listing::listing(refused, &mut [0; 9]);
    tally.at(432).same_answer(too_short, Err(9));
}

pub fn listings(tally: &mut Tally) {
    all_give(tally, &STRIPS);
    all_give(tally, &LEFT_OUT);
    refused(tally);
    many(tally);
    lent(tally);
}
