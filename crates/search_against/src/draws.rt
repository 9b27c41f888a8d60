// Numbers drawn one after another, the same ones in every run.
#[derive(Clone, Copy)]
pub(crate) struct Draws {
    state: u32,
}

impl Draws {
    // The draws that a seed begins.
    pub(crate) fn new(seed: u32) -> Draws {
        Draws { state: seed }
    }

    // A number below this one, or 0 where there is none.
    pub(crate) fn below(&mut self, end: u16) -> u16 {
        self.state = self
            .state
            .wrapping_mul(1_664_525)
            .wrapping_add(1_013_904_223);
        let high = self.state >> 16;
        let scaled = high.wrapping_mul(u32::from(end)) >> 16;
        (scaled & 0xffff) as u16
    }

    // A number of a range, both ends included.
    pub(crate) fn within(&mut self, range: (u16, u16)) -> u16 {
        let (first, last) = range;
        let more = last.saturating_sub(first).saturating_add(1);
        first.saturating_add(self.below(more))
    }

    // Whether something comes that has so many chances of 16.
    pub(crate) fn comes(&mut self, chances: u16) -> bool {
        self.below(16) < chances
    }
}
