ghost use Rattle.std.specs.Prelude.{true, decimal};
ghost use Rattle.cost.specs.Worsts.{worst_ops};
ghost use Rattle.cost.specs.WorstLaws.{worst_laws, worst_grows};
ghost use Rattle.std.proofs.Common.{rules};

use super::kind::Kind;

// The kind WORST: the largest tariff.
#[derive(Clone, Copy)]
pub struct Worst;

impl Kind for Worst {
    type Value = u16;

    ghost ops = { worst_ops };

    ghost text = { decimal };

    ghost grows = { true };

    ghost laws = { worst_laws };

    ghost growth = { λ e. worst_grows };

    ghost printed = { Prim.search rules };

    fn start(&self) -> u16 {
        0
    }

    fn after_span(&self, value: u16, tariff: u16) -> u16 {
        value.max(tariff)
    }

    fn after_conversion(&self, value: u16, tariff: u16) -> u16 {
        self.after_span(value, tariff)
    }

    fn at_most(&self, a: u16, b: u16) -> bool {
        a <= b
    }

    fn grows(&self) -> bool {
        true
    }
}
