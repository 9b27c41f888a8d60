use super::upside::Upside;
use cost::fee::Fee;
use cost::few::Few;
use cost::kind::Kind;
use cost::sum::Sum;
use cost::tally::Tally;
use cost::worst::Worst;

// A kind whose values can be told in two numbers.
pub(crate) trait Told: Kind {
    // The numbers of a value.
    fn told(value: Self::Value) -> [u32; 2];
}

impl Told for Sum {
    fn told(value: Fee) -> [u32; 2] {
        [0, value.amount]
    }
}

impl Told for Few {
    fn told(value: Tally) -> [u32; 2] {
        [u32::from(value.conversions), value.sum.amount]
    }
}

impl Told for Upside {
    fn told(value: Fee) -> [u32; 2] {
        [0, value.amount]
    }
}

impl Told for Worst {
    fn told(value: u16) -> [u32; 2] {
        [0, u32::from(value)]
    }
}
