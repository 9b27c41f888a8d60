ghost use Rattle.std.specs.Prelude.{true};
ghost use Rattle.cost.specs.Sums.{fee_text};
ghost use Rattle.book_day.specs.Toll.{toll_ops, toll_laws, toll_grows};
ghost use Rattle.std.proofs.Common.{rules};

use super::hands::{open, spent};
use super::networks::{CONVERTER_NODE, DETOUR, TARIFFS, load, with_byte, with_number};
use super::tried::tried;
use super::worked::offered;
use at_book::Order;
use at_book::sample::{HELD, LIT, SAMPLE, STALE};
use book::Book;
use book::lent::Lent;
use book::offer::Offered;
use cost::fee::Fee;
use cost::kind::Kind;
use network::Network;
use records::state::SpanState;
use search::label::Label;
use std::process::Abort;
use std::test::Fail;

// Spans at 1 and conversions at 100, whatever their tariffs: a kind that the book has never seen.
#[derive(Clone, Copy)]
struct Toll;

impl Kind for Toll {
    type Value = Fee;

    ghost ops = { toll_ops };

    ghost text = { fee_text };

    ghost grows = { true };

    ghost laws = { toll_laws };

    ghost growth = { λ e. toll_grows };

    ghost printed = { Prim.search rules };

    fn start(&self) -> Fee {
        Fee::new(5000)
    }

    fn after_span(&self, value: Fee, _tariff: u16) -> Fee {
        value.plus(1)
    }

    fn after_conversion(&self, value: Fee, _tariff: u16) -> Fee {
        value.plus(100)
    }

    fn at_most(&self, a: Fee, b: Fee) -> bool {
        a <= b
    }

    fn grows(&self) -> bool {
        true
    }
}

// Without each span of the sample in turn, from 0 to 3.
fn without_each(rt: &impl Abort, book: &mut Book, network: &Network, costs: [Option<u32>; 4]) {
    let mut labels: [Label<Fee>; 9] = [None; 9];
    for (span, cost) in (0..4u16).zip(costs) {
        let answer = tried(rt, book, network, (0, 3), span, &Toll, &mut labels);
        assert_eq!(rt; answer, cost.map(Fee::new), "without {span}");
    }
}

// Lights a circuit, which costs so much, and is reckoned at it.
fn light(rt: &impl Abort, book: &mut Book, network: &Network, order: Order, cost: u32) {
    let mut labels: [Label<Fee>; 12] = [None; 12];
    let told = offered(rt, book, network, order, &Toll, &mut labels);
    let fee = Fee::new(cost);
    assert_eq!(rt; told.cost, fee);
    assert_eq!(rt; book.reckon(network, order.circuit, &Toll), Ok(fee));
    let Offered {
        cost: _,
        steps: _,
        offer,
    } = told;
    spent(rt, book.confirm(offer));
    assert_eq!(rt; book.reckon(network, order.circuit, &Toll), Ok(fee));
}

#[test]
fn a_toll_at_the_sample(rt: HostRuntime) -> Result<(), Fail> {
    let (mut tariffs, mut converters) = ([0u16; 8], [0u16; 16]);
    let network = load(&SAMPLE, &mut tariffs, &mut converters)?;
    let none = with_byte(SAMPLE, CONVERTER_NODE, 3);
    let none = with_number(none, TARIFFS[0][0], 65_535);
    let (mut tariffs, mut converters) = ([0u16; 8], [0u16; 16]);
    let other = load(&none, &mut tariffs, &mut converters)?;
    let mut tables = STALE;
    let lent = Lent {
        channels: &mut tables.channels,
        circuits: &mut tables.circuits,
        spans: &mut tables.spans,
    };
    let mut book = open(&rt, &network, 77, lent);
    let costs = [Some(5002), Some(5002), Some(5102), Some(5102)];
    without_each(&rt, &mut book, &network, costs);
    light(&rt, &mut book, &network, Order::new(1, 0, 3), 5002);
    without_each(
        &rt,
        &mut book,
        &network,
        [None, None, Some(5102), Some(5102)],
    );
    light(&rt, &mut book, &network, Order::new(2, 0, 3), 5102);
    without_each(&rt, &mut book, &network, [None; 4]);
    assert_eq!(rt; book.reckon(&other, 2, &Toll), Ok(Fee::new(5102)));
    Ok(())
}

#[test]
fn a_toll_at_the_detour(rt: HostRuntime) -> Result<(), Fail> {
    let (mut tariffs, mut converters) = ([0u16; 12], [0u16; 36]);
    let network = load(&DETOUR, &mut tariffs, &mut converters)?;
    let (mut channels, mut circuits) = ([HELD; 13], [LIT; 128]);
    let mut spans = [SpanState::Shut; 4];
    let lent = Lent {
        channels: &mut channels,
        circuits: &mut circuits,
        spans: &mut spans,
    };
    let mut book = open(&rt, &network, 77, lent);
    light(&rt, &mut book, &network, Order::new(5, 0, 2), 5204);
    Ok(())
}
