use cost::fee::Fee;
use cost::few::Few;
use cost::kind::Kind;
use cost::sum::Sum;
use cost::tally::Tally;
use cost::worst::Worst;

// A kind of cost whose values are told as numbers.
pub(crate) trait Numbered: Kind {
    fn number(&self, value: Self::Value) -> u64;
}

impl Numbered for Sum {
    fn number(&self, value: Fee) -> u64 {
        u64::from(value.amount)
    }
}

impl Numbered for Few {
    fn number(&self, value: Tally) -> u64 {
        u64::from(value.conversions)
            .wrapping_mul(0x1_0000_0000)
            .wrapping_add(u64::from(value.sum.amount))
    }
}

impl Numbered for Worst {
    fn number(&self, value: u16) -> u64 {
        u64::from(value)
    }
}

// The answers to queries: how many paths were found, and a digest of what they cost.
#[derive(Clone, Copy)]
pub(crate) struct Answers {
    pub(crate) found: u32,
    pub(crate) digest: u64,
}

impl Answers {
    // No answers.
    pub(crate) fn new() -> Answers {
        Answers {
            found: 0,
            digest: 0xcbf2_9ce4_8422_2325,
        }
    }

    // The answers with one more: a cost, or that there is no path.
    pub(crate) fn with(self, answer: Option<u64>) -> Answers {
        let number = answer.unwrap_or(u64::MAX);
        Answers {
            found: self.found.wrapping_add(u32::from(answer.is_some())),
            digest: (self.digest ^ number).wrapping_mul(0x100_0000_01b3),
        }
    }
}
