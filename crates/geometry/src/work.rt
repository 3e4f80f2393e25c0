// The work area that a pass is lent. It stays a slice: with an array of its named part (`first_chunk_mut`) each
// contract, which speaks of the whole lent list, would put the two parts together again.
ghost use Rattle.std.specs.Prelude.{◌≡◌, min, length};
ghost use Rattle.geometry.specs.Pass.{cleared};

// Puts zeros into its named part, as far as it is lent. A loop: `fill` would ask here that a clone of the zero is made, and is equal to it.
pub fn clear<T: Copy>(work: &mut [T], named: usize, zero: T)
    ensures { work.new ≡ cleared (min named (length work.old)) zero work.old }
{
    let named = named.min(work.len());
    for cell in &mut work[..named] {
        *cell = zero;
    }
}
