//! Numbers that look random, the same ones in each run.

/// The first state.
const SEED: u64 = 88_172_645_463_325_252;

/// A generator of numbers (Marsaglia, "Xorshift RNGs", 2003).
#[derive(Drop)]
pub struct Draws {
    state: u64,
}

impl Draws {
    /// Returns a generator in its first state.
    pub fn new() -> Draws {
        Draws { state: SEED }
    }

    /// Returns a number below a count, 0 if the count is 0.
    pub fn below(&mut self, count: u32) -> u32 {
        let mut state = self.state;
        state = state ^ (state << 13);
        state = state ^ (state >> 7);
        state = state ^ (state << 17);
        self.state = state;
        if count == 0 {
            return 0;
        }
        ((state >> 11) & 0xffff_ffff) as u32 % count
    }

    /// Returns whether the last one of so many equal candidates is taken, so that each has the same
    /// chance.
    pub fn takes_last(&mut self, count: u32) -> bool {
        count <= 1 || self.below(count) == 0
    }
}
