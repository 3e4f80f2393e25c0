// The measure: the letters of the rule, the whole font byte by byte, and the bounds of a length. Widths are document 02's: i 3, space 4,
// a 6, m 9.
use agreed::tally::Tally;
use geometry::refusal::Refusal;

// A text with what it must measure.
type Measured<'a> = (u32, &'a [u8], Result<u8, u8>);

// The letters of the rule, and what lies beside the font.
const LETTERS: [Measured; 9] = [
    (801, b" ", Ok(4)),
    (802, b"il!',.:;|", Ok(27)),
    (803, b"mwMW", Ok(36)),
    (804, b"a", Ok(6)),
    (805, b"~", Ok(6)),
    (806, b"\x00", Err(13)),
    (807, b"\x1f", Err(13)),
    (808, b"\x7f", Err(13)),
    (809, b"\xff", Err(13)),
];

// No dots, 240 and more, and 13 before 8.
const BOUNDS: [Measured; 9] = [
    (821, b"", Err(8)),
    (822, &[b'i'; 80], Ok(240)),
    (823, &[b'i'; 81], Err(8)),
    (824, &[b'm'; 26], Ok(234)),
    (825, &[b'm'; 27], Err(8)),
    (826, &[b' '; 60], Ok(240)),
    (827, &[b'a'; 41], Err(8)),
    (828, &[b'm'; 300], Err(8)),
    (829, &[127; 300], Err(13)),
];

// How many of all bytes are so many dots wide, or are refused where no width is given.
fn as_wide(width: Option<u8>) -> usize {
    (0..=255)
        .filter(|&byte| font::measure(&[byte]).ok() == width)
        .count()
}

// Nine letters of 3 dots, one of 4, 81 of 6 and four of 9 are the 95 of the font; 161 bytes are outside it.
fn whole_font(tally: &mut Tally) {
    for (case, width, count) in [
        (811, Some(3), 9),
        (812, Some(4), 1),
        (813, Some(6), 81),
        (814, Some(9), 4),
        (815, None, 161),
    ] {
        tally.at(case).same(as_wide(width), count);
    }
}

// What the measure gives for the text of a row.
fn measured((case, text, wanted): Measured) -> (u32, Result<u8, Refusal>, Result<u8, u8>) {
    (case, font::measure(text), wanted)
}

pub fn widths(tally: &mut Tally) {
    tally.all_give(&LETTERS.map(measured));
    whole_font(tally);
    tally.all_give(&BOUNDS.map(measured));
}
