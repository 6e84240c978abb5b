//! Numbers that are drawn, by a linear congruential generator.

#[derive(Drop)]
pub struct Draws {
    last: u64,
}

impl Draws {
    pub fn new(seed: u64) -> Draws {
        Draws { last: seed }
    }

    /// The next number below a bound, which is 0 for the bound 0.
    pub fn below(&mut self, bound: u32) -> u32 {
        self.last = self
            .last
            .wrapping_mul(6_364_136_223_846_793_005)
            .wrapping_add(1_442_695_040_888_963_407);
        let drawn = (self.last >> 33) as u32;
        drawn.checked_rem(bound).unwrap_or(0)
    }

    /// The next number below a number of things.
    pub fn below_count(&mut self, count: usize) -> usize {
        match u32::try_from(count) {
            Ok(count) => self.below(count) as usize,
            Err(_) => 0,
        }
    }
}
