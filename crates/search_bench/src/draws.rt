// Numbers drawn from a seed by a linear congruential generator of 64 bits, so that another program
// can draw the same.
#[derive(Drop)]
pub(crate) struct Draws {
    state: u64,
}

impl Draws {
    // The numbers of a seed.
    pub(crate) fn new(seed: u64) -> Draws {
        Draws { state: seed }
    }

    // The next number, below a bound; 0 where that is 0.
    pub(crate) fn below(&mut self, bound: u32) -> u32 {
        self.state = self
            .state
            .wrapping_mul(6364136223846793005)
            .wrapping_add(1442695040888963407);
        let high = (self.state >> 33 & 0x7fff_ffff) as u32;
        high.checked_rem(bound).unwrap_or(0)
    }
}
