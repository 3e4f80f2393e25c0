// Sets of quadrants, of pairs and of triples of them, a bit for each: for the quadrants 1 to 4 the bits 0 to 3, for the pair of p and q the
// bit 4p + q, for the triple of p, q and r the bit 16p + 4q + r, where p, q and r count from 0. A set of triples is a square of pairs for each
// of the four quadrants p, and each of these has four quadrants for each q.
ghost use Rattle.std.specs.Prelude.{ℕ, ◌+◌, ◌<◌, ◌≡◌, max, Bool, true};
ghost use Rattle.std.specs.Int.{bit_at};
ghost use Rattle.geometry.specs.Lists.{any_of};
ghost use Rattle.slope.specs.Square.{Quadrant, every_quadrant, along_x, along_y};
ghost use Rattle.slope.specs.inner.Spreads.{apart_in, apart_by};
ghost use Rattle.slope.specs.inner.Sets.{index, Quadrants, Pairs, Triples};

use crate::quadrant::Quadrant;
use crate::spread::Spread;

// All quadrants, all pairs, all triples.
pub const EVERY_QUADRANT: u16 = 0xf;

pub const EVERY_PAIR: u16 = 0xffff;

const EVERY_TRIPLE: u64 = 0xffff_ffff_ffff_ffff;

// The pairs of quadrants whose squares share no more than an end point along an axis, for marks with no whole side between them there, with one,
// and with two: those that turn away from each other, those that lie alike too, and those that face each other too.
const APART_ALONG_X: [u16; 3] = [0x0990, 0x9ff9, EVERY_PAIR];

const APART_ALONG_Y: [u16; 3] = [0x3300, 0xff33, EVERY_PAIR];

fn apart_along_x(x: Spread) -> u16
    ensures { Pairs result (λ p q. apart_in x.sides (along_x p) (along_x q)) }
{
    APART_ALONG_X[x.sides as usize]
}

fn apart_along_y(y: Spread) -> u16
    ensures { Pairs result (λ p q. apart_in y.sides (along_y p) (along_y q)) }
{
    APART_ALONG_Y[y.sides as usize]
}

// The pairs whose squares do not overlap.
pub fn apart(x: Spread, y: Spread) -> u16
    ensures { Pairs result (apart_by x.sides y.sides) }
{
    apart_along_x(x) | apart_along_y(y)
}

// The triples whose first and last squares share no more than an end point along an axis, in the same way.
const ENDS_APART_ALONG_X: [u64; 3] = [0x0000_9999_9999_0000, 0x9999_ffff_ffff_9999, EVERY_TRIPLE];

const ENDS_APART_ALONG_Y: [u64; 3] = [0x3333_3333_0000_0000, 0xffff_ffff_3333_3333, EVERY_TRIPLE];

fn ends_apart_along_x(x: Spread) -> u64
    ensures { Triples result (λ p q r. apart_in x.sides (along_x p) (along_x r)) }
{
    ENDS_APART_ALONG_X[x.sides as usize]
}

fn ends_apart_along_y(y: Spread) -> u64
    ensures { Triples result (λ p q r. apart_in y.sides (along_y p) (along_y r)) }
{
    ENDS_APART_ALONG_Y[y.sides as usize]
}

// The triples whose first and last squares do not overlap.
pub fn ends_apart(x: Spread, y: Spread) -> u64
    ensures { Triples result (λ p q r. apart_by x.sides y.sides p r) }
{
    ends_apart_along_x(x) | ends_apart_along_y(y)
}

// The triples that end with one of the pairs: the set of pairs, once for each first quadrant.
pub fn ending_with(pairs: u16) -> u64
    ensures { (holds : Quadrant → Quadrant → Bool) → Pairs pairs holds → Triples result (λ p q r. holds q r) }
{
    pairs as u64 * 0x0001_0001_0001_0001
}

// A set with another bit for each of its own, so many places lower.
fn with_moved(set: u64, places: u32) -> u64
    requires { places < 64 }
    ensures { (i : ℕ) → bit_at result i ≡ max (bit_at set i) (bit_at set (i + places)) }
{
    set | set >> places
}

// The pairs with which one of the triples begins. First the lowest bit of each four says whether one of the four stands; then these bits move
// together, four of them, and then four fours.
pub fn begun(triples: u64) -> u16
    ensures { (holds : Quadrant → Quadrant → Quadrant → Bool) → Triples triples holds → Pairs result (λ p q. any_of (holds p q) every_quadrant) }
{
    let fours = with_moved(with_moved(triples, 1), 2) & 0x1111_1111_1111_1111;
    let rows = with_moved(with_moved(fours, 3), 6) & 0x000f_000f_000f_000f;
    (with_moved(with_moved(rows, 12), 24) & 0xffff) as u16
}

// Where a quadrant stands among them, counted from 0.
fn index_of(q: Quadrant) -> u32
    ensures { result ≡ index q }
{
    q as u32 - 1
}

// The quadrants that follow one in a set of pairs.
pub fn behind(pairs: u16, q: Quadrant) -> u16
    ensures { (holds : Quadrant → Quadrant → Bool) → Pairs pairs holds → Quadrants result (holds q) }
{
    pairs >> (4 * index_of(q)) & EVERY_QUADRANT
}

// The quadrants with which one of the pairs begins: each pair makes a triple with any quadrant before it, so every row of the pairs with which
// these begin is the answer.
pub fn starts(pairs: u16) -> u16
    ensures { (holds : Quadrant → Quadrant → Bool) → Pairs pairs holds → Quadrants result (λ q. any_of (holds q) every_quadrant) }
{
    behind(begun(ending_with(pairs)), Quadrant::AboveRight)
}

// Whether a set holds a quadrant.
pub fn any(set: u16) -> bool
    ensures { (holds : Quadrant → Bool) → Quadrants set holds → result ≡ any_of holds every_quadrant }
{
    set & EVERY_QUADRANT != 0
}

// A quadrant of a set that holds one.
pub fn one_of(set: u16) -> Quadrant
    ensures { (holds : Quadrant → Bool) → Quadrants set holds → any_of holds every_quadrant ≡ true → holds result ≡ true }
{
    match set.trailing_zeros() {
        0 => Quadrant::AboveRight,
        1 => Quadrant::AboveLeft,
        2 => Quadrant::BelowLeft,
        _ => Quadrant::BelowRight,
    }
}
