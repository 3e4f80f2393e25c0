// The length list of texts in one byte list: what is written, each refusal, and the order of two refusals.
use agreed::lists::{UNWRITTEN, first, is_written};
use agreed::tally::Tally;

// Texts and their counts with what must be written in a list of 8, of which so many elements are lent.
type Filling<'a> = (u32, &'a [u8], &'a [u16], usize, Result<&'a [u8], u8>);

// Lengths that are written, and none where no texts are.
const FILLED: [Filling; 5] = [
    (841, b"", &[], 8, Ok(&[])),
    (842, b"", &[], 0, Ok(&[])),
    (843, b"a im", &[1, 2, 1], 8, Ok(&[6, 7, 9])),
    (844, b"a im", &[1, 2, 1], 3, Ok(&[6, 7, 9])),
    (845, &[b'i'; 160], &[80, 80], 2, Ok(&[240, 240])),
];

// Each refusal, and each before the one behind it: the text at fault for the later number comes first.
const REFUSED: [Filling; 12] = [
    (851, b"ab", &[1], 8, Err(6)),
    (852, b"ab", &[1, 2], 8, Err(6)),
    (853, b"a", &[], 8, Err(6)),
    (854, b"", &[65535, 1], 8, Err(6)),
    (855, b"ab\x7f", &[1, 1, 1], 8, Err(13)),
    (856, b"\x7f", &[0, 1], 8, Err(13)),
    (
        857,
        b"mmmmmmmmmmmmmmmmmmmmmmmmmmm\x1f",
        &[27, 1],
        8,
        Err(13),
    ),
    (858, b"a", &[1, 0], 8, Err(8)),
    (859, b"ammmmmmmmmmmmmmmmmmmmmmmmmmm", &[1, 27], 8, Err(8)),
    (860, b"a", &[1, 0], 1, Err(8)),
    (861, b"a im", &[1, 2, 1], 2, Err(9)),
    (862, b"\x7f", &[1, 1], 8, Err(6)),
];

fn fills(tally: &mut Tally, cases: &[Filling]) {
    for &(case, texts, counts, room, wanted) in cases {
        let mut list = [UNWRITTEN; 8];
        let got = font::lengths(texts, counts, first(&mut list, room));
        tally.at(case).same_number(got, wanted);
        tally.holds(is_written(&list, wanted.unwrap_or(&[])));
    }
}

// 4,000 texts of one byte, or one text more, with room for all: 7 comes behind 6 and before 13.
fn many(tally: &mut Tally) {
    let cases: [(u32, &[u8], &[u16], Result<(), u8>); 4] = [
        (871, &[b'a'; 4000], &[1; 4000], Ok(())),
        (872, &[b'a'; 4001], &[1; 4001], Err(7)),
        (873, &[b'a'; 4000], &[1; 4001], Err(6)),
        (874, &[127; 4001], &[1; 4001], Err(7)),
    ];
    for (case, texts, counts, wanted) in cases {
        let got = font::lengths(texts, counts, &mut [0; 4001]);
        tally.at(case).same_number(got, wanted);
    }
}

pub fn fillings(tally: &mut Tally) {
    fills(tally, &FILLED);
    fills(tally, &REFUSED);
    many(tally);
}
