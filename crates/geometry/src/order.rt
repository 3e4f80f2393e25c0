// Comparisons of signed coordinates, said of their dots.
ghost use Rattle.std.specs.Prelude.{◌≡◌, max, leb};
ghost use Rattle.geometry.specs.Dot.{dot};

pub fn at_most(x: i16, y: i16) -> bool
    ensures { result ≡ leb (dot x) (dot y) }
{
    x <= y
}

pub fn larger(x: i16, y: i16) -> i16
    ensures { dot result ≡ max (dot x) (dot y) }
{
    x.max(y)
}
