// A number by a test, as a value and not as a jump: the outcomes of the tests cannot be foreseen, and a jump that was foreseen wrongly
// costs more than the rest of a mark.
ghost use Rattle.std.specs.Prelude.{◌≡◌, cond};
ghost use Rattle.geometry.specs.Dot.{dot};

pub fn if_passed(passed: bool, number: i16, otherwise: i16) -> i16
    ensures { dot result ≡ cond passed (dot number) (dot otherwise) }
{
    if passed { number } else { otherwise }
}
