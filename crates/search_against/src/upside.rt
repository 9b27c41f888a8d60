ghost use Rattle.std.specs.Prelude.{false};
ghost use Rattle.std.proofs.Common.{rules};
ghost use Rattle.std.proofs.lemmas.Bool.{true≢false};
ghost use Rattle.std.proofs.Math.Path.{sym};
ghost use Rattle.cost.specs.Sums.{fee_text};
ghost use Rattle.search_against.specs.Upside.{upside_ops, upside_laws};

use cost::fee::Fee;
use cost::kind::Kind;

// What each tariff is short of the largest, added up: the larger a tariff, the less it costs. It shows
// the four laws, and does not grow with the tariffs.
#[derive(Clone, Copy)]
pub(crate) struct Upside;

impl Kind for Upside {
    type Value = Fee;

    ghost ops = { upside_ops };

    ghost text = { fee_text };

    ghost grows = { false };

    ghost laws = { upside_laws };

    ghost growth = { λ e. absurd (true≢false (sym e)) };

    ghost printed = { Prim.search rules };

    fn start(&self) -> Fee {
        Fee::new(0)
    }

    fn after_span(&self, value: Fee, tariff: u16) -> Fee {
        value.plus(65_534u16.saturating_sub(tariff))
    }

    fn after_conversion(&self, value: Fee, tariff: u16) -> Fee {
        self.after_span(value, tariff)
    }

    fn at_most(&self, a: Fee, b: Fee) -> bool {
        a <= b
    }

    fn grows(&self) -> bool {
        false
    }
}
