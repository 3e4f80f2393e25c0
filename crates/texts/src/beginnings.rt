// The longest beginning of a text.
use agreed::tally::Tally;

// None, all, exactly 240 dots and a byte behind it, 233 dots and a byte that has no room, and 13 behind the beginning.
pub fn beginnings(tally: &mut Tally) {
    let cases: [(u32, &[u8], Result<usize, u8>); 8] = [
        (831, b"", Ok(0)),
        (832, b"Wind 7", Ok(6)),
        (833, &[b'i'; 80], Ok(80)),
        (834, &[b'i'; 81], Ok(80)),
        (835, &[b'm'; 300], Ok(26)),
        (836, &[b'a'; 300], Ok(40)),
        (837, b"  mmmmmmmmmmmmmmmmmmmmmmmmmm", Ok(27)),
        (838, b"mmmmmmmmmmmmmmmmmmmmmmmmmmmmmm\x1f", Err(13)),
    ];
    tally.all_give(&cases.map(|(case, text, wanted)| (case, font::beginning(text), wanted)));
}
