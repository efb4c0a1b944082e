//! Where the hashes of names begin, so that nobody who doesn't know it can choose names that collide.

use std::hash::{BuildHasher, FoldHasher, Hasher};

/// What the hashes of names are made with. It decides which names share a place of a map, and so how long a look-up
/// takes; no answer depends on it.
///
/// Names that are chosen by somebody who knows the seed can all be put at one place. A program that reads texts of strangers
/// draws both numbers anew for each run, from the system, and shows them to nobody: so a seed isn't `Debug`.
#[derive(Clone, Copy)]
pub struct Seed {
    begun: FoldHasher,
    last: u64,
}

impl Seed {
    /// A seed of these two numbers.
    pub fn new(first: u64, last: u64) -> Seed {
        let mut begun = FoldHasher::default();
        begun.write_u64(first);
        Seed { begun, last }
    }

    /// The seed of those who choose their names themselves.
    pub fn fixed() -> Seed {
        Seed::new(0, 0)
    }
}

/// Hashes a name: from the first number of a seed on, over the name, and over the second number at last. Both are unknown to
/// who chooses the name, so that neither the letters nor the end can be chosen for them.
#[derive(Clone, Copy)]
pub struct NameHasher {
    state: FoldHasher,
    last: u64,
}

impl Hasher for NameHasher {
    ghost use Rattle.std.specs.Hash as fed;
    ghost use Rattle.std.specs.Hash.FoldHasher as folding;
    ghost use Rattle.std.specs.Prelude.{fold};

    ghost write = { λ hasher bytes. record { state = folding.write hasher.state bytes; last = hasher.last } };

    ghost finish = { λ hasher. folding.finish (fold folding.write hasher.state (fed.u64 hasher.last)) };

    #[inline]
    fn finish(&self) -> u64 {
        let mut state = self.state;
        state.write_u64(self.last);
        state.finish()
    }

    #[inline]
    fn write(&mut self, bytes: &[u8]) {
        self.state.write(bytes);
    }
}

impl BuildHasher for Seed {
    type Hasher = NameHasher;

    ghost build_hasher = { λ seed. record { state = seed.begun; last = seed.last } };

    #[inline]
    fn build_hasher(&self) -> NameHasher {
        NameHasher {
            state: self.begun,
            last: self.last,
        }
    }
}
