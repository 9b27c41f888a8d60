ghost use Rattle.std.specs.Prelude.{true};
ghost use Rattle.cost.specs.Sums.{sum_ops, fee_text};
ghost use Rattle.cost.specs.SumLaws.{sum_laws, sum_grows};
ghost use Rattle.std.proofs.Common.{rules};

use super::fee::Fee;
use super::kind::Kind;

// The kind SUM: the tariffs added up.
#[derive(Clone, Copy)]
pub struct Sum;

impl Kind for Sum {
    type Value = Fee;

    ghost ops = { sum_ops };

    ghost text = { fee_text };

    ghost grows = { true };

    ghost laws = { sum_laws };

    ghost growth = { λ e. sum_grows };

    ghost printed = { Prim.search rules };

    fn start(&self) -> Fee {
        Fee::new(0)
    }

    fn after_span(&self, value: Fee, tariff: u16) -> Fee {
        value.plus(tariff)
    }

    fn after_conversion(&self, value: Fee, tariff: u16) -> Fee {
        self.after_span(value, tariff)
    }

    fn at_most(&self, a: Fee, b: Fee) -> bool {
        a <= b
    }

    fn grows(&self) -> bool {
        true
    }
}
