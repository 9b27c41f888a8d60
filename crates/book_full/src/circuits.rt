use super::hands::{open, refused, spent};
use book::Book;
use book::lent::Lent;
use book::offer::Offered;
use book::status::{State, Status};
use cost::fee::Fee;
use cost::sum::Sum;
use fault::book::BookFault;
use network::Network;
use plan::reader::check as check_plan;
use records::circuit::Circuit;
use records::state::SpanState;
use search::label::Label;
use std::process::Abort;
use std::test::Fail;

// 2 nodes, 16 channels, and 9 spans from 0 to 1.
const HEADER: [u8; 40] = [
    1, 1, 2, 16, 0, 9, 0, 0, 0, 0, 0, 40, 0, 0, 0, 32, 0, 0, 0, 72, 0, 0, 0, 18, 0, 0, 0, 90, 0, 0,
    1, 32, 0, 0, 1, 122, 0, 0, 0, 0,
];

// A plan of 144 channels, each dearer by one than the one before it: they cost 0 to 143.
fn plan_bytes() -> [u8; 378] {
    let mut bytes = [0u8; 378];
    for i in 0..40usize {
        bytes[i] = HEADER[i];
    }
    for channel in 0..16u8 {
        bytes[41 + 2 * usize::from(channel)] = channel;
    }
    for span in 0..9usize {
        bytes[73 + 2 * span] = 1;
    }
    for tariff in 0..144u8 {
        bytes[91 + 2 * usize::from(tariff)] = tariff;
    }
    bytes
}

// Lights a circuit from 0 to 1; told is what it costs.
fn light(
    rt: &impl Abort,
    book: &mut Book,
    network: &Network,
    circuit: u16,
    labels: &mut [Label<Fee>],
) -> Fee {
    let Offered { cost, steps, offer } = book
        .offer(network, circuit, 0, 1, &Sum, labels)
        .expect(rt, "an offer");
    assert_eq!(rt; steps, 1);
    assert_eq!(rt; u16::from(spent(rt, book.confirm(offer))), circuit);
    cost
}

// Each circuit takes the channel that is the cheapest of those left.
fn light_all(rt: &impl Abort, book: &mut Book, network: &Network, labels: &mut [Label<Fee>]) {
    for circuit in 0..128u16 {
        let cost = light(rt, book, network, circuit, labels);
        assert_eq!(rt; cost, Fee::new(u32::from(circuit)));
    }
}

// All of them stand.
fn all_lit(rt: &impl Abort, book: &Book) {
    let lit = Status {
        state: State::Lit,
        from: 0,
        to: 1,
        steps: 1,
    };
    for circuit in 0..128u16 {
        assert_eq!(rt; book.look(circuit), Ok(Some(lit)), "{circuit}");
    }
}

// That an offer is refused by this number.
fn refuse(
    rt: &impl Abort,
    book: &mut Book,
    network: &Network,
    circuit: u16,
    labels: &mut [Label<Fee>],
    number: u8,
) {
    match book.offer(network, circuit, 0, 1, &Sum, labels) {
        Ok(_) => rt.abort(),
        Err(fault) => refused(rt, fault, number),
    }
}

// Each is reckoned at what it cost, and a trial comes to the cheapest channel of those left, which are all
// on the last span.
fn all_priced(rt: &impl Abort, book: &mut Book, network: &Network, labels: &mut [Label<Fee>]) {
    for circuit in 0..128u16 {
        let fee = Fee::new(u32::from(circuit));
        assert_eq!(rt; book.reckon(network, circuit, &Sum), Ok(fee), "{circuit}");
    }
    for span in 0..8u16 {
        let answer = book.trial(network, 0, 1, span, &Sum, labels);
        assert_eq!(rt; answer, Ok(Fee::new(128)), "{span}");
    }
    let none = book.trial(network, 0, 1, 8, &Sum, labels);
    assert_eq!(rt; none, Err(BookFault::NoPath));
}

// Circuit 40 gave back a channel of span 2, and is no longer reckoned.
fn one_left(rt: &impl Abort, book: &mut Book, network: &Network, labels: &mut [Label<Fee>]) {
    let free = book.reckon(network, 40, &Sum);
    assert_eq!(rt; free, Err(BookFault::CircuitState));
    for (span, cost) in [(1, 40), (2, 128), (3, 40), (8, 40)] {
        let answer = book.trial(network, 0, 1, span, &Sum, labels);
        assert_eq!(rt; answer, Ok(Fee::new(cost)), "{span}");
    }
}

// There is no circuit more, though channels are left; one that is darkened can be lit again, and takes
// the channel that it gave back.
fn one_more(rt: &impl Abort, book: &mut Book, network: &Network) {
    let mut labels: [Label<Fee>; 32] = [None; 32];
    light_all(rt, book, network, &mut labels);
    all_lit(rt, book);
    all_priced(rt, book, network, &mut labels);
    refuse(rt, book, network, 128, &mut labels, 21);
    refuse(rt, book, network, 40, &mut labels, 23);
    assert_eq!(rt; book.darken(40), Ok(1));
    assert_eq!(rt; book.look(40), Ok(None));
    one_left(rt, book, network, &mut labels);
    refuse(rt, book, network, 128, &mut labels, 21);
    assert_eq!(rt; light(rt, book, network, 40, &mut labels), Fee::new(40));
    all_lit(rt, book);
}

#[test]
fn every_circuit_at_once(rt: HostRuntime) -> Result<(), Fail> {
    let bytes = plan_bytes();
    let mut tariffs = [0u16; 144];
    let mut converters = [0u16; 512];
    let plan = check_plan(&bytes, &tariffs, &converters)?;
    plan.load(&mut tariffs, &mut converters);
    let network = plan.network(&tariffs, &converters);
    let mut channels = [None; 144];
    let mut circuits = [Circuit::Free; 128];
    let mut spans = [SpanState::Shut; 9];
    let lent = Lent {
        channels: &mut channels,
        circuits: &mut circuits,
        spans: &mut spans,
    };
    let mut book = open(&rt, &network, 1, lent);
    one_more(&rt, &mut book, &network);
    Ok(())
}
