use super::hands::{open, refused, spent};
use super::slips::by_one;
use at_book::Order;
use at_book::sample::{SAMPLE, STALE};
use book::Book;
use book::lent::Lent;
use book::offer::Offered;
use book::status::{State, Status};
use cost::fee::Fee;
use cost::few::Few;
use cost::kind::Kind;
use cost::sum::Sum;
use cost::tally::Tally;
use cost::worst::Worst;
use fault::book::BookFault;
use network::Network;
use plan::reader::check as check_plan;
use search::label::Label;
use std::process::Abort;
use std::test::Fail;

// How the circuit of an order stands.
fn standing(state: State, order: Order, steps: u16) -> Result<Option<Status>, BookFault> {
    let from = u8::try_from(order.from).unwrap_or(255);
    let to = u8::try_from(order.to).unwrap_or(255);
    Ok(Some(Status {
        state,
        from,
        to,
        steps,
    }))
}

// What is offered for an order, which has to be something.
pub(crate) fn offered<K: Kind>(
    rt: &impl Abort,
    book: &mut Book,
    network: &Network,
    order: Order,
    kind: &K,
    labels: &mut [Label<K::Value>],
) -> Offered<K::Value> {
    let Order { circuit, from, to } = order;
    book.offer(network, circuit, from, to, kind, labels)
        .expect(rt, "an offer")
}

// What an order costs and how many steps it has, where it is offered and withdrawn.
fn quote<K: Kind>(
    rt: &impl Abort,
    book: &mut Book,
    network: &Network,
    order: Order,
    kind: &K,
    labels: &mut [Label<K::Value>],
) -> (K::Value, u16) {
    let Offered { cost, steps, offer } = offered(rt, book, network, order, kind, labels);
    assert_eq!(rt;
        book.look(order.circuit),
        standing(State::Offered, order, steps)
    );
    assert_eq!(rt; spent(rt, book.withdraw(offer)), steps);
    assert_eq!(rt; book.look(order.circuit), Ok(None));
    (cost, steps)
}

// The same, where it is lit.
fn light<K: Kind>(
    rt: &impl Abort,
    book: &mut Book,
    network: &Network,
    order: Order,
    kind: &K,
    labels: &mut [Label<K::Value>],
) -> (K::Value, u16) {
    let Offered { cost, steps, offer } = offered(rt, book, network, order, kind, labels);
    assert_eq!(rt; u16::from(spent(rt, book.confirm(offer))), order.circuit);
    assert_eq!(rt;
        book.look(order.circuit),
        standing(State::Lit, order, steps)
    );
    (cost, steps)
}

// No path is left for an order.
fn without_a_path(
    rt: &impl Abort,
    book: &mut Book,
    network: &Network,
    order: Order,
    labels: &mut [Label<Fee>],
) {
    let Order { circuit, from, to } = order;
    match book.offer(network, circuit, from, to, &Sum, labels) {
        Ok(_) => rt.abort(),
        Err(fault) => refused(rt, fault, 29),
    }
    assert_eq!(rt; book.look(circuit), Ok(None));
}

// What is asked first, and withdrawn.
fn morning(rt: &impl Abort, book: &mut Book, network: &Network) {
    let mut tallies: [Label<Tally>; 8] = [None; 8];
    let mut tariffs: [Label<u16>; 8] = [None; 8];
    let order = Order::new(1, 0, 3);
    assert_eq!(rt;
        quote(rt, book, network, order, &Few, &mut tallies),
        (Tally::new(0, Fee::new(9)), 2)
    );
    assert_eq!(rt;
        quote(rt, book, network, order, &Worst, &mut tariffs),
        (3, 2)
    );
}

// What is lit then, and what is left.
fn noon(rt: &impl Abort, book: &mut Book, network: &Network) {
    let mut fees: [Label<Fee>; 8] = [None; 8];
    let first = light(rt, book, network, Order::new(1, 0, 3), &Sum, &mut fees);
    let second = light(rt, book, network, Order::new(2, 0, 3), &Sum, &mut fees);
    assert_eq!(rt; [first, second], [(Fee::new(6), 2), (Fee::new(9), 2)]);
    without_a_path(rt, book, network, Order::new(3, 0, 3), &mut fees);
    without_a_path(rt, book, network, Order::new(3, 3, 0), &mut fees);
}

// What is freed in the end, and taken again where it is not shut.
fn evening(rt: &impl Abort, book: &mut Book, network: &Network) {
    let mut fees: [Label<Fee>; 8] = [None; 8];
    assert_eq!(rt; book.darken(1), Ok(2));
    assert_eq!(rt; book.look(1), Ok(None));
    assert_eq!(rt; book.shut(0), Ok(()));
    without_a_path(rt, book, network, Order::new(3, 0, 3), &mut fees);
    assert_eq!(rt; book.darken(2), Ok(2));
    let last = light(rt, book, network, Order::new(127, 0, 3), &Sum, &mut fees);
    assert_eq!(rt; last, (Fee::new(9), 2));
}

#[test]
fn a_day_of_the_sample(rt: HostRuntime) -> Result<(), Fail> {
    let mut tariffs = [0u16; 8];
    let mut converters = [0u16; 16];
    let plan = check_plan(&SAMPLE, &tariffs, &converters)?;
    plan.load(&mut tariffs, &mut converters);
    let network = plan.network(&tariffs, &converters);
    let mut tables = STALE;
    let lent = Lent {
        channels: &mut tables.channels,
        circuits: &mut tables.circuits,
        spans: &mut tables.spans,
    };
    let mut book = open(&rt, &network, 77, lent);
    morning(&rt, &mut book, &network);
    noon(&rt, &mut book, &network);
    by_one(&rt, &book, &network, 1);
    evening(&rt, &mut book, &network);
    Ok(())
}
