use std::fmt;

// How many queries a group of networks was asked, what they came to, and a digest of the costs in the
// order of the queries.
#[derive(Clone, Copy)]
pub(crate) struct Score {
    pub(crate) found: u32,
    pub(crate) none: u32,
    pub(crate) wrong: u32,
    pub(crate) digest: u32,
}

impl Score {
    // Where nothing is asked yet.
    pub(crate) fn new() -> Score {
        Score {
            found: 0,
            none: 0,
            wrong: 0,
            digest: 1,
        }
    }

    // A digest with one more value.
    fn mix(&mut self, value: u32) {
        self.digest = self.digest.wrapping_mul(31).wrapping_add(value);
    }

    // A query that found a path, with its cost in numbers.
    pub(crate) fn found(&mut self, cost: [u32; 2]) {
        self.found = self.found.saturating_add(1);
        let [first, second] = cost;
        self.mix(1);
        self.mix(first);
        self.mix(second);
    }

    // A query that found none.
    pub(crate) fn none(&mut self) {
        self.none = self.none.saturating_add(1);
        self.mix(0);
    }

    // A query by which the search and the other router differ.
    pub(crate) fn wrong(&mut self) {
        self.wrong = self.wrong.saturating_add(1);
    }
}

impl fmt::Display for Score {
    fn fmt<W: fmt::Write>(&self, f: &mut fmt::Formatter<W>) -> fmt::Result {
        let Score {
            found,
            none,
            wrong,
            digest,
        } = *self;
        write!(f, "{found} found, {none} not, {digest:08X}")?;
        if wrong > 0 {
            write!(f, ", {wrong} WRONG")?;
        }
        Ok(())
    }
}
