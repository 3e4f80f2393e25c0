// Pseudo-random numbers, the same in each run.
ghost use Rattle.std.specs.Prelude.{max, ◌<◌};

// The multiplicative generator with modulus 2^31 − 1.
#[derive(Clone, Copy)]
pub struct Source {
    seed: u64,
}

impl Source {
    pub fn new(seed: u64) -> Source {
        Source { seed }
    }

    // A number below `n`; 0 where there is none.
    pub fn below(&mut self, n: u8) -> u8
        ensures { result < max n 1 }
    {
        self.seed = self.seed % 2147483647 * 48271 % 2147483647;
        (self.seed / 64 % u64::from(n.max(1))) as u8
    }
}
