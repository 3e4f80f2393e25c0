// The largest whole number not above a number of 32 bits, from its sign, exponent and fraction.
ghost use Rattle.std.specs.Prelude.{◌≡◌};
ghost use Rattle.logger.specs.Value.{times, floor_of};
ghost use Rattle.logger.specs.inner.Dots.{InReach};

// The bits of a number are its sign, 8 of exponent and 23 of fraction. From an exponent of 1 on a leading digit stands before the fraction,
// and is not stored.
const LEADING: u32 = 1 << 23;

const SIGN: u32 = 1 << 31;

const EXPONENT_OF_1: u32 = 127;

// From 2^23 on a number has no digit behind the point.
const EXPONENT_OF_LEADING: u32 = 150;

// Of a number of less than 1 in size the sign decides. From 1 on the digits behind the point are cut off, by a shift that keeps the sign and
// so rounds down.
pub fn floor(value: f32) -> i16
    requires { InReach value }
    ensures { result ≡ floor_of (times 1 value) }
{
    let bits = value.to_bits();
    let exponent = bits % SIGN / LEADING;
    if exponent < EXPONENT_OF_1 {
        // Zero is not, whatever its sign.
        let below_zero = SIGN < bits;
        return if below_zero { -1 } else { 0 };
    }
    let digits = (LEADING + bits % LEADING) as i32;
    let behind = EXPONENT_OF_LEADING - exponent;
    if bits < SIGN {
        (digits >> behind) as i16
    } else {
        (-digits >> behind) as i16
    }
}
