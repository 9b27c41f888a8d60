use super::hands::{open, spent};
use super::networks::{
    CONVERTER_NODE, CONVERTER_TARIFF, DETOUR, TAILS, TARIFFS, load, with_byte, with_number,
};
use super::tried::{Way, reckoned};
use super::worked::offered;
use at_book::Order;
use at_book::sample::{HELD, LIT, SAMPLE, STALE};
use book::Book;
use book::lent::Lent;
use book::offer::{Offer, Offered};
use cost::fee::Fee;
use cost::few::Few;
use cost::sum::Sum;
use cost::tally::Tally;
use cost::worst::Worst;
use fault::book::BookFault;
use network::Network;
use records::state::SpanState;
use search::label::Label;
use std::process::Abort;
use std::test::Fail;

// What the ways by node 1 and by node 2 cost, from 0 to 3: by SUM, their conversions, and by WORST.
const BY_ONE: Way = (6, 1, 3);

const BY_TWO: Way = (9, 0, 5);

// A circuit from 0 to 3 is reckoned as its offer told, and by the other kinds too.
fn first(rt: &impl Abort, book: &mut Book, network: &Network) {
    let mut tallies: [Label<Tally>; 8] = [None; 8];
    let mut tariffs: [Label<u16>; 8] = [None; 8];
    let order = Order::new(1, 0, 3);
    let Offered {
        cost,
        steps: _,
        offer,
    } = offered(rt, book, network, order, &Few, &mut tallies);
    assert_eq!(rt; cost, Tally::new(0, Fee::new(9)));
    reckoned(rt, book, network, 1, BY_TWO);
    assert_eq!(rt; spent(rt, book.withdraw(offer)), 2);
    let Offered {
        cost,
        steps: _,
        offer,
    } = offered(rt, book, network, order, &Worst, &mut tariffs);
    assert_eq!(rt; cost, 3);
    reckoned(rt, book, network, 1, BY_ONE);
    assert_eq!(rt; spent(rt, book.withdraw(offer)), 2);
    assert_eq!(rt; book.reckon(network, 1, &Sum), Err(BookFault::CircuitState));
}

// Offers a circuit from 0 to 3 by the least sum, which has to be this.
fn by_sum(rt: &impl Abort, book: &mut Book, network: &Network, circuit: u16, sum: u32) -> Offer {
    let mut fees: [Label<Fee>; 8] = [None; 8];
    let order = Order::new(circuit, 0, 3);
    let Offered {
        cost,
        steps: _,
        offer,
    } = offered(rt, book, network, order, &Sum, &mut fees);
    assert_eq!(rt; cost, Fee::new(sum));
    offer
}

// It is reckoned alike while another circuit holds channels, and when all spans are shut.
fn second(rt: &impl Abort, book: &mut Book, network: &Network) {
    let lit = by_sum(rt, book, network, 1, 6);
    reckoned(rt, book, network, 1, BY_ONE);
    assert_eq!(rt; spent(rt, book.confirm(lit)), 1);
    reckoned(rt, book, network, 1, BY_ONE);
    let offer = by_sum(rt, book, network, 127, 9);
    reckoned(rt, book, network, 1, BY_ONE);
    reckoned(rt, book, network, 127, BY_TWO);
    for span in 0..4u16 {
        assert_eq!(rt; book.shut(span), Ok(()));
        reckoned(rt, book, network, 1, BY_ONE);
        reckoned(rt, book, network, 127, BY_TWO);
    }
    assert_eq!(rt; spent(rt, book.confirm(offer)), 127);
    reckoned(rt, book, network, 127, BY_TWO);
}

// When one is darkened, the other is reckoned as before.
fn third(rt: &impl Abort, book: &mut Book, network: &Network) {
    assert_eq!(rt; book.darken(1), Ok(2));
    assert_eq!(rt;
        book.reckon(network, 1, &Worst),
        Err(BookFault::CircuitState)
    );
    reckoned(rt, book, network, 127, BY_TWO);
}

#[test]
fn circuits_of_the_sample(rt: HostRuntime) -> Result<(), Fail> {
    let (mut tariffs, mut converters) = ([0u16; 8], [0u16; 16]);
    let network = load(&SAMPLE, &mut tariffs, &mut converters)?;
    let mut tables = STALE;
    let lent = Lent {
        channels: &mut tables.channels,
        circuits: &mut tables.circuits,
        spans: &mut tables.spans,
    };
    let mut book = open(&rt, &network, 77, lent);
    first(&rt, &mut book, &network);
    second(&rt, &mut book, &network);
    third(&rt, &mut book, &network);
    Ok(())
}

// A path that passes a node twice, and is converted there twice.
#[test]
fn a_circuit_of_the_detour(rt: HostRuntime) -> Result<(), Fail> {
    let (mut tariffs, mut converters) = ([0u16; 12], [0u16; 36]);
    let network = load(&DETOUR, &mut tariffs, &mut converters)?;
    let (mut channels, mut circuits) = ([HELD; 13], [LIT; 128]);
    let mut spans = [SpanState::Shut; 4];
    let lent = Lent {
        channels: &mut channels,
        circuits: &mut circuits,
        spans: &mut spans,
    };
    let mut book = open(&rt, &network, 77, lent);
    let mut tallies: [Label<Tally>; 12] = [None; 12];
    let order = Order::new(5, 0, 2);
    let Offered { cost, steps, offer } = offered(
        &rt,
        &mut book,
        &network,
        order,
        &Few,
        &mut tallies,
    );
    assert_eq!(rt; steps, 4);
    assert_eq!(rt; cost, Tally::new(2, Fee::new(9)));
    reckoned(&rt, &book, &network, 5, (9, 2, 3));
    assert_eq!(rt; spent(&rt, book.confirm(offer)), 5);
    reckoned(&rt, &book, &network, 5, (9, 2, 3));
    Ok(())
}

// The sample's plan with something else, and what the ways by node 1 and by node 2 are reckoned at there.
type Other = ([u8; 73], [Way; 2]);

// Where a tariff is missing, the largest is charged in its place.
fn fares_missing() -> [Other; 4] {
    let first = with_number(SAMPLE, TARIFFS[0][0], 65_535);
    let second = with_number(SAMPLE, TARIFFS[1][1], 65_535);
    let both = with_number(first, TARIFFS[1][1], 65_535);
    let other_way = with_number(SAMPLE, TARIFFS[3][0], 65_535);
    [
        (first, [(65_538, 1, 65_534), BY_TWO]),
        (second, [(65_537, 1, 65_534), BY_TWO]),
        (both, [(131_069, 1, 65_534), BY_TWO]),
        (other_way, [BY_ONE, (65_538, 0, 65_534)]),
    ]
}

// The converter between two steps is sought at the node that the later one leaves.
fn converters_moved() -> [Other; 4] {
    let leaves_two = with_byte(SAMPLE, TAILS[1], 2);
    let at_two = with_byte(leaves_two, CONVERTER_NODE, 2);
    let at_two_for_seven = with_number(at_two, CONVERTER_TARIFF, 7);
    let at_zero = with_byte(SAMPLE, CONVERTER_NODE, 0);
    [
        (leaves_two, [(65_539, 1, 65_534), BY_TWO]),
        (at_two_for_seven, [(12, 1, 7), BY_TWO]),
        (at_zero, [(65_539, 1, 65_534), BY_TWO]),
        (with_byte(SAMPLE, TAILS[3], 1), [BY_ONE, BY_TWO]),
    ]
}

// Where the converter is missing and the tariffs are, or where they are only others.
fn all_others() -> [Other; 2] {
    let none = with_number(SAMPLE, TARIFFS[0][0], 65_535);
    let none = with_number(none, TARIFFS[1][1], 65_535);
    let dearer = with_number(SAMPLE, TARIFFS[0][0], 258);
    let dearer = with_number(dearer, CONVERTER_TARIFF, 65_534);
    let dearer = with_number(dearer, TARIFFS[3][0], 600);
    [
        (
            with_byte(none, CONVERTER_NODE, 3),
            [(196_602, 1, 65_534), BY_TWO],
        ),
        (dearer, [(65_795, 1, 65_534), (604, 0, 600)]),
    ]
}

// Both circuits are reckoned as they are to be, by other networks.
fn by_others(rt: &impl Abort, book: &Book, others: &[Other]) -> Result<(), Fail> {
    for (plan, [by_one, by_two]) in others {
        let (mut tariffs, mut converters) = ([0u16; 8], [0u16; 16]);
        let other = load(plan, &mut tariffs, &mut converters)?;
        reckoned(rt, book, &other, 1, *by_one);
        reckoned(rt, book, &other, 2, *by_two);
    }
    Ok(())
}

// Another network of the same counts is taken as it is.
#[test]
fn circuits_at_other_networks(rt: HostRuntime) -> Result<(), Fail> {
    let (mut tariffs, mut converters) = ([0u16; 8], [0u16; 16]);
    let network = load(&SAMPLE, &mut tariffs, &mut converters)?;
    let mut tables = STALE;
    let lent = Lent {
        channels: &mut tables.channels,
        circuits: &mut tables.circuits,
        spans: &mut tables.spans,
    };
    let mut book = open(&rt, &network, 77, lent);
    let one = by_sum(&rt, &mut book, &network, 1, 6);
    let two = by_sum(&rt, &mut book, &network, 2, 9);
    assert_eq!(rt; spent(&rt, book.confirm(two)), 2);
    let before = by_others(&rt, &book, &fares_missing());
    assert_eq!(rt; spent(&rt, book.confirm(one)), 1);
    before?;
    by_others(&rt, &book, &converters_moved())?;
    by_others(&rt, &book, &all_others())?;
    reckoned(&rt, &book, &network, 1, BY_ONE);
    reckoned(&rt, &book, &network, 2, BY_TWO);
    Ok(())
}
