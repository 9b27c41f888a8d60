ghost use Rattle.std.specs.Prelude.{◌≡◌, ◌+◌, ◌*◌, ◌≤◌};
ghost use Rattle.cost.specs.Ends.{largest_sum, largest_count};

use super::fee::Fee;
use std::fmt;

// A value of FEW: how many conversions, and the tariffs added up. Where the count has stopped, so
// has the sum.
#[derive(Clone, Copy, Debug, PartialEq, Eq)]
pub struct Tally {
    pub conversions: u16,
    pub sum: Fee,
    ghost counted: { conversions ≤ largest_count },
    ghost stopped: { conversions ≡ largest_count → sum.amount ≡ largest_sum },
}

impl Tally {
    ghost use Rattle.cost.specs.Fews.{tally};

    // So many conversions and such a sum, both stopped together.
    pub fn new(conversions: u32, sum: Fee) -> Tally
        ensures { result ≡ tally conversions sum }
    {
        match u16::try_from(conversions) {
            Ok(conversions) if conversions < u16::MAX => Tally { conversions, sum },
            _ => Tally {
                conversions: u16::MAX,
                sum: Fee::new(u32::MAX),
            },
        }
    }

    // One number that compares as the tally does: the count above the sum.
    pub(crate) fn key(self) -> u64
        ensures { result ≡ self.conversions * 4294967296 + self.sum.amount }
    {
        u64::from(self.conversions) * 0x1_0000_0000 + u64::from(self.sum.amount)
    }
}

impl fmt::Display for Tally {
    ghost use Rattle.std.specs.Prelude.{Some};
    ghost use Rattle.cost.specs.Fews.{tally_text};

    ghost output = { λ v. Some (tally_text v) };

    fn fmt<W: fmt::Write>(&self, f: &mut fmt::Formatter<W>) -> fmt::Result {
        write!(f, "{}+{}", self.conversions, self.sum)
    }
}
