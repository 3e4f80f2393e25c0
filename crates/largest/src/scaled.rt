// Lengths at a width: each label's cells times the width.
ghost use Rattle.std.specs.Prelude.{◌≡◌};
ghost use Rattle.largest.specs.inner.Cells.{most_of, WithinMost, ScaleReady, Scaled};

use geometry::limits::MOST_LENGTH;

// The greatest cell count of a strip, 0 if it has no marks.
pub fn most_cells(cells: &[u8]) -> u8
    ensures { result ≡ most_of cells.now }
{
    cells.iter().copied().fold(0, u8::max)
}

// Whether the greatest cell count, and so every other, is at most 240 dots at a width.
pub fn within(most: u8, width: u8) -> bool
    ensures { WithinMost most width result }
{
    most as u16 * width as u16 <= MOST_LENGTH as u16
}

// Writes the length of every label. By index: nothing is known of what a `zip` with `iter_mut` has written.
pub fn scale(cells: &[u8], width: u8, lengths: &mut [u8])
    requires { ScaleReady cells.now width lengths.old }
    ensures { Scaled cells.now width lengths.old lengths.new }
{
    for (i, count) in cells.iter().enumerate() {
        lengths[i] = count * width;
    }
}
