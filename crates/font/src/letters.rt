// The strip font: the bytes 32 to 126, and the width of each in dots.
ghost use Rattle.std.specs.Prelude.{◌≡◌, true};
ghost use Rattle.font.specs.Letters.{in_font_lem, width_of};
ghost use Rattle.font.specs.inner.Table.{is_font};

const FIRST_BYTE: u8 = 32;

const LAST_BYTE: u8 = 126;

// From the space on, each with its letter or sign.
const WIDTHS: [u8; 95] = [
    4, // space
    3, // !
    6, // "
    6, // #
    6, // $
    6, // %
    6, // &
    3, // '
    6, // (
    6, // )
    6, // *
    6, // +
    3, // ,
    6, // -
    3, // .
    6, // /
    6, // 0
    6, // 1
    6, // 2
    6, // 3
    6, // 4
    6, // 5
    6, // 6
    6, // 7
    6, // 8
    6, // 9
    3, // :
    3, // ;
    6, // <
    6, // =
    6, // >
    6, // ?
    6, // @
    6, // A
    6, // B
    6, // C
    6, // D
    6, // E
    6, // F
    6, // G
    6, // H
    6, // I
    6, // J
    6, // K
    6, // L
    9, // M
    6, // N
    6, // O
    6, // P
    6, // Q
    6, // R
    6, // S
    6, // T
    6, // U
    6, // V
    9, // W
    6, // X
    6, // Y
    6, // Z
    6, // [
    6, // \
    6, // ]
    6, // ^
    6, // _
    6, // `
    6, // a
    6, // b
    6, // c
    6, // d
    6, // e
    6, // f
    6, // g
    6, // h
    3, // i
    6, // j
    6, // k
    3, // l
    9, // m
    6, // n
    6, // o
    6, // p
    6, // q
    6, // r
    6, // s
    6, // t
    6, // u
    6, // v
    9, // w
    6, // x
    6, // y
    6, // z
    6, // {
    3, // |
    6, // }
    6, // ~
];

pub fn in_font(byte: u8) -> bool
    ensures { result ≡ in_font_lem byte }
{
    FIRST_BYTE <= byte && byte <= LAST_BYTE
}

// The table of the font, by the rule. A call makes it once and lends it to all that look widths up: a constant that a loop names is stored
// anew in each turn.
#[derive(Drop)]
pub struct Font {
    widths: [u8; 95],
    ghost by_rule: { is_font widths ≡ true },
}

impl Font {
    pub fn new() -> Font {
        Font { widths: WIDTHS }
    }

    // The width of a byte in dots.
    pub fn width_of(&self, byte: u8) -> u32
        requires { in_font_lem byte ≡ true }
        ensures { result ≡ width_of byte }
    {
        self.widths[byte as usize - FIRST_BYTE as usize] as u32
    }
}
