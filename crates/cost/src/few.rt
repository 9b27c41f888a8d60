ghost use Rattle.std.specs.Prelude.{true};
ghost use Rattle.cost.specs.Fews.{few_ops, tally_text};
ghost use Rattle.cost.specs.FewLaws.{few_laws, few_grows};
ghost use Rattle.std.proofs.Common.{rules};

use super::fee::Fee;
use super::kind::Kind;
use super::tally::Tally;

// The kind FEW: the fewest conversions, and among those the smallest sum.
#[derive(Clone, Copy)]
pub struct Few;

impl Kind for Few {
    type Value = Tally;

    ghost ops = { few_ops };

    ghost text = { tally_text };

    ghost grows = { true };

    ghost laws = { few_laws };

    ghost growth = { λ e. few_grows };

    ghost printed = { Prim.search rules };

    fn start(&self) -> Tally {
        Tally::new(0, Fee::new(0))
    }

    fn after_span(&self, value: Tally, tariff: u16) -> Tally {
        Tally::new(u32::from(value.conversions), value.sum.plus(tariff))
    }

    fn after_conversion(&self, value: Tally, tariff: u16) -> Tally {
        Tally::new(u32::from(value.conversions) + 1, value.sum.plus(tariff))
    }

    fn at_most(&self, a: Tally, b: Tally) -> bool {
        a.key() <= b.key()
    }

    fn grows(&self) -> bool {
        true
    }
}
