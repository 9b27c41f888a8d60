use super::asked::{at_other_network, reckonings, trials};
use super::hands::{open, refuse, refused, spent};
use at_book::sample::{SAMPLE, STALE, Tables};
use at_book::{Order, in_hand};
use book::Book;
use book::lent::Lent;
use cost::fee::Fee;
use cost::sum::Sum;
use fault::plan::LoadFault;
use label::Label as Name;
use network::Network;
use plan::reader::check as check_plan;
use search::label::Label;
use slip::setting::{Port, Setting};
use std::process::Abort;
use std::test::Fail;

// A buffer that tells of something else.
const OLD: Setting = Setting {
    node: 7,
    input: None,
    output: Some(Port {
        span: 7,
        label: Name { bits: 7 },
    }),
};

// That an offer is refused by this number. Only 29 may leave something in the labels.
fn refuse_offer(
    rt: &impl Abort,
    book: &mut Book,
    network: &Network,
    order: Order,
    labels: &mut [Label<Fee>],
    number: u8,
) {
    let Order { circuit, from, to } = order;
    match book.offer(network, circuit, from, to, &Sum, labels) {
        Ok(_) => rt.abort(),
        Err(fault) => refused(rt, fault, number),
    }
    for label in labels.iter() {
        assert!(rt; number == 29 || label.is_none(), "a label after {number}");
    }
}

// That a slip is refused by this number, and a buffer of so many entries stays.
fn refuse_slip(
    rt: &impl Abort,
    book: &Book,
    network: &Network,
    circuit: u16,
    buffer: &mut [Setting],
    number: u8,
) {
    match book.slip(network, circuit, buffer) {
        Ok(_) => rt.abort(),
        Err(fault) => refused(rt, fault, number),
    }
    for setting in buffer.iter() {
        assert_eq!(rt; *setting, OLD);
    }
}

// A network with other counts.
fn other_network(rt: &impl Abort, book: &mut Book, other: &Network) {
    let mut short: [Label<Fee>; 3] = [None; 3];
    refuse_offer(rt, book, other, Order::new(128, 9, 9), &mut short, 20);
    refuse_offer(rt, book, other, Order::new(3, 0, 1), &mut short, 20);
    refuse_slip(rt, book, other, 128, &mut [], 20);
    refuse_slip(rt, book, other, 1, &mut [OLD; 3], 20);
}

// Orders, where circuit 1 is lit and 2 is offered: each has all the faults of the next one too.
fn orders(rt: &impl Abort, book: &mut Book, network: &Network) {
    let mut short: [Label<Fee>; 7] = [None; 7];
    for (circuit, from, to, number) in [
        (128, 9, 9, 21),
        (65535, 9, 9, 21),
        (1, 9, 9, 23),
        (2, 9, 9, 23),
        (3, 4, 4, 24),
        (3, 0, 4, 24),
        (3, 4, 0, 24),
        (3, 0, 0, 25),
        (3, 3, 0, 27),
    ] {
        let order = Order::new(circuit, from, to);
        refuse_offer(rt, book, network, order, &mut short, number);
    }
    let mut labels: [Label<Fee>; 8] = [None; 8];
    refuse_offer(rt, book, network, Order::new(3, 3, 0), &mut labels, 29);
    refuse_offer(rt, book, network, Order::new(127, 0, 3), &mut labels, 29);
}

// Slips, in the same way.
fn slips(rt: &impl Abort, book: &Book, network: &Network) {
    refuse_slip(rt, book, network, 128, &mut [OLD; 2], 21);
    refuse_slip(rt, book, network, 65535, &mut [OLD; 3], 21);
    refuse_slip(rt, book, network, 3, &mut [OLD; 2], 23);
    refuse_slip(rt, book, network, 1, &mut [OLD; 2], 28);
    refuse_slip(rt, book, network, 2, &mut [OLD; 2], 28);
    refuse_slip(rt, book, network, 2, &mut [], 28);
}

// The other calls.
fn others(rt: &impl Abort, book: &mut Book) {
    refuse(rt, book.look(128), 21);
    refuse(rt, book.look(65535), 21);
    refuse(rt, book.darken(128), 21);
    refuse(rt, book.darken(65535), 21);
    refuse(rt, book.darken(2), 23);
    refuse(rt, book.darken(3), 23);
    refuse(rt, book.shut(4), 26);
    refuse(rt, book.shut(65535), 26);
}

// A book with a lit circuit and one that is offered. Where there is a network that is not its own, all
// that it has to refuse is asked of it before the second circuit is lit.
fn two_circuits(rt: &impl Abort, book: &mut Book, network: &Network, stranger: Option<&Network>) {
    let mut labels: [Label<Fee>; 8] = [None; 8];
    let lit = in_hand(book, network, Order::new(1, 0, 3), &mut labels).expect(rt, "an offer");
    assert_eq!(rt; spent(rt, book.confirm(lit)), 1);
    let offer = in_hand(book, network, Order::new(2, 0, 3), &mut labels).expect(rt, "an offer");
    if let Some(stranger) = stranger {
        other_network(rt, book, stranger);
        orders(rt, book, network);
        slips(rt, book, network);
        others(rt, book);
        at_other_network(rt, book, stranger);
        trials(rt, book, network);
        reckonings(rt, book, network);
    }
    assert_eq!(rt; spent(rt, book.confirm(offer)), 2);
}

// The tables after that.
fn after(rt: &impl Abort, network: &Network, stranger: Option<&Network>, tables: &mut Tables) {
    let lent = Lent {
        channels: &mut tables.channels,
        circuits: &mut tables.circuits,
        spans: &mut tables.spans,
    };
    let mut book = open(rt, network, 77, lent);
    two_circuits(rt, &mut book, network, stranger);
}

// The tables are the same, whether it was asked or not.
fn compare(rt: &impl Abort, network: &Network, stranger: &Network) {
    let (mut asked, mut unasked) = (STALE, STALE);
    after(rt, network, Some(stranger), &mut asked);
    after(rt, network, None, &mut unasked);
    assert!(rt; asked.channels == unasked.channels, "channels");
    assert!(rt; asked.circuits == unasked.circuits, "circuits");
    assert!(rt; asked.spans == unasked.spans, "spans");
}

// The network of a plan, over two tables.
fn load<'t, 'c>(
    bytes: &[u8],
    tariffs: &'t mut [u16],
    converters: &'c mut [u16],
) -> Result<Network<'t, 'c>, LoadFault> {
    let plan = check_plan(bytes, tariffs, converters)?;
    plan.load(tariffs, converters);
    Ok(plan.network(tariffs, converters))
}

// The sample's plan with a node more.
fn more_nodes() -> [u8; 73] {
    let mut bytes = SAMPLE;
    bytes[2] = 5;
    bytes
}

// The sample's plan without its last span.
fn fewer_spans() -> [u8; 73] {
    let mut bytes = SAMPLE;
    bytes[5] = 3;
    bytes[23] = 6;
    bytes[31] = 12;
    bytes
}

// A plan of the sample's nodes and spans on one channel, without the converter.
fn fewer_channels() -> [u8; 73] {
    let mut bytes = SAMPLE;
    bytes[3] = 1;
    bytes[7] = 0;
    bytes[15] = 2;
    bytes[31] = 8;
    bytes[39] = 0;
    bytes
}

#[test]
fn refused_calls_change_nothing(rt: HostRuntime) -> Result<(), Fail> {
    let (mut tariffs, mut converters) = ([0u16; 8], [0u16; 16]);
    let network = load(&SAMPLE, &mut tariffs, &mut converters)?;
    let (mut tariffs, mut converters) = ([0u16; 8], [0u16; 20]);
    let wider = load(&more_nodes(), &mut tariffs, &mut converters)?;
    let (mut tariffs, mut converters) = ([0u16; 6], [0u16; 16]);
    let shorter = load(&fewer_spans(), &mut tariffs, &mut converters)?;
    let (mut tariffs, mut converters) = ([0u16; 4], [0u16; 4]);
    let narrower = load(&fewer_channels(), &mut tariffs, &mut converters)?;
    compare(&rt, &network, &wider);
    compare(&rt, &network, &shorter);
    compare(&rt, &network, &narrower);
    Ok(())
}
