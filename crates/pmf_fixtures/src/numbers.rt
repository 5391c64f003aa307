//! Numbers that look random, the same ones in each run of a test.

ghost use Rattle.std.specs.Prelude.{◌<◌};

use rand_pcg::Pcg32;
use rand_pcg::rand_core::Rng;

/// Numbers that look random, one after another.
#[derive(Drop)]
pub struct Numbers(Pcg32);

impl Numbers {
    /// Those of this seed.
    pub fn of(seed: u64) -> Numbers {
        Numbers(Pcg32::new(seed, 0))
    }

    /// The next number, below the limit.
    pub fn below(&mut self, limit: u64) -> u64
        requires { 0 < limit }
        ensures { result < limit }
    {
        u64::from(self.0.next_u32()) % limit
    }
}
