//! Drawn numbers.

/// Numbers drawn by a seed: a linear congruence, of which the upper half serves.
#[derive(Drop)]
pub struct Draw {
    /// What the next number is drawn from: at first the seed.
    pub state: u64,
}

impl Draw {
    /// A number below the bound, which isn't 0.
    pub fn below(&mut self, bound: usize) -> usize {
        self.state = self
            .state
            .wrapping_mul(6_364_136_223_846_793_005)
            .wrapping_add(1_442_695_040_888_963_407);
        let drawn = (self.state >> 33) as usize;
        drawn.checked_rem(bound).unwrap_or(0)
    }
}
