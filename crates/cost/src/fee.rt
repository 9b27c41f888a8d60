ghost use Rattle.std.specs.Prelude.{◌≤◌};
ghost use Rattle.cost.specs.Ends.{largest_sum};

use std::fmt;

// A value of SUM. In a definition an amount could be any natural number; by the ghost field it is one
// of 32 bits.
#[derive(Clone, Copy, Debug, PartialEq, Eq, PartialOrd, Ord)]
pub struct Fee {
    pub amount: u32,
    ghost fits: { amount ≤ largest_sum },
}

impl Fee {
    ghost use Rattle.std.specs.Prelude.{◌≡◌};
    ghost use Rattle.cost.specs.Sums.{fee, plus};

    // A fee of this amount.
    pub fn new(amount: u32) -> Fee
        ensures { result ≡ fee amount }
    {
        Fee { amount }
    }

    // A tariff more, or the largest fee where the sum is beyond it.
    pub fn plus(self, tariff: u16) -> Fee
        ensures { result ≡ plus self tariff }
    {
        Fee::new(self.amount.saturating_add(u32::from(tariff)))
    }
}

impl fmt::Display for Fee {
    ghost use Rattle.std.specs.Prelude.{Some};
    ghost use Rattle.cost.specs.Sums.{fee_text};

    ghost output = { λ v. Some (fee_text v) };

    fn fmt<W: fmt::Write>(&self, f: &mut fmt::Formatter<W>) -> fmt::Result {
        write!(f, "{}", self.amount)
    }
}
