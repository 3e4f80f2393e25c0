// From a coordinate to a greater one.
ghost use Rattle.std.specs.Prelude.{◌≡◌, true, pos, ◌-ℤ◌};
ghost use Rattle.std.specs.Int.Signed.{lt_z};

use geometry::dot::dot_of;

pub fn distance(from: i16, to: i16) -> u16
    requires { lt_z from to ≡ true }
    ensures { to -ℤ from ≡ pos result }
{
    dot_of(to) - dot_of(from)
}
