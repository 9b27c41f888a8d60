ghost use Rattle.std.specs.Prelude.{true};
ghost use Rattle.cost.specs.Sums.{fee_text};
ghost use Rattle.search_cases.specs.Late.{late_ops, late_laws, late_grows};
ghost use Rattle.std.proofs.Common.{rules};

use super::asked::{all, cheapest, on};
use super::examples::DEAR;
use super::sketch::load;
use cost::fee::Fee;
use cost::kind::Kind;
use search::label::Label;
use std::test::Fail;

// Where this kind starts.
const START: u32 = 4_294_900_000;

// SUM from just under where it stops: a kind that the search has never seen, and needs no more of than
// the four laws.
#[derive(Clone, Copy)]
struct Late;

impl Kind for Late {
    type Value = Fee;

    ghost ops = { late_ops };

    ghost text = { fee_text };

    ghost grows = { true };

    ghost laws = { late_laws };

    ghost growth = { λ e. late_grows };

    ghost printed = { Prim.search rules };

    fn start(&self) -> Fee {
        Fee::new(START)
    }

    fn after_span(&self, value: Fee, tariff: u16) -> Fee {
        value.plus(tariff)
    }

    fn after_conversion(&self, value: Fee, tariff: u16) -> Fee {
        value.plus(tariff)
    }

    fn at_most(&self, a: Fee, b: Fee) -> bool {
        a <= b
    }

    fn grows(&self) -> bool {
        true
    }
}

// Where costs stop, a dear path and a dearer one cost the same, and either may be taken.
#[test]
fn a_sum_that_stops(rt: HostRuntime) -> Result<(), Fail> {
    let bytes = DEAR.plan(rt.alloc())?;
    let mut tariffs = [0u16; 8];
    let mut converters = [0u16; 16];
    let network = load(bytes.as_slice(), &mut tariffs, &mut converters)?;
    let open = all(&network);
    let mut labels: [Label<Fee>; 8] = [None; 8];
    let mut path = [on(0, 0); 8];
    let one = cheapest(&rt, &Late, &open, (0, 1), &mut labels, &mut path);
    assert_eq!(rt; one, Some((Fee::new(4_294_965_534), 1)));
    let stopped = cheapest(&rt, &Late, &open, (0, 2), &mut labels, &mut path);
    assert_eq!(rt; stopped.map(|found| found.0), Some(Fee::new(u32::MAX)));
    let none = cheapest(&rt, &Late, &open, (2, 0), &mut labels, &mut path);
    assert_eq!(rt; none, None);
    Ok(())
}
