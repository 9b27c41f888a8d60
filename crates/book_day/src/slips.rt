use super::hands::{open, spent};
use at_book::sample::{SAMPLE, STALE};
use at_book::{Order, in_hand};
use book::Book;
use book::lent::Lent;
use cost::fee::Fee;
use label::Label as Name;
use network::Network;
use plan::reader::check as check_plan;
use search::label::Label;
use slip::setting::{BLANK, Port, Setting};
use std::process::Abort;
use std::test::Fail;

// A side of a setting.
fn port(span: u16, bits: u32) -> Option<Port> {
    Some(Port {
        span,
        label: Name { bits },
    })
}

// The slip of a circuit that leads from 0 to 3 by node 1, where its span 0 has channel 0, and 1 has 1.
fn way_by_one() -> [Setting; 3] {
    [
        Setting {
            node: 0,
            input: None,
            output: port(0, 0x2200_0000),
        },
        Setting {
            node: 1,
            input: port(0, 0x2200_0000),
            output: port(1, 0x2200_0001),
        },
        Setting {
            node: 3,
            input: port(1, 0x2200_0001),
            output: None,
        },
    ]
}

// The slip of that circuit, over a buffer that has just the room.
pub(crate) fn by_one(rt: &impl Abort, book: &Book, network: &Network, circuit: u16) {
    let mut buffer = [BLANK; 3];
    assert_eq!(rt; book.slip(network, circuit, &mut buffer), Ok(3));
    assert_eq!(rt; buffer, way_by_one());
}

// A buffer that has told of something else.
const OLD: Setting = Setting {
    node: 7,
    input: None,
    output: Some(Port {
        span: 7,
        label: Name { bits: 7 },
    }),
};

// Behind the last setting all is blank, also where a longer slip was.
fn short_over_long(rt: &impl Abort, book: &Book, network: &Network) {
    let mut buffer = [OLD; 5];
    assert_eq!(rt; book.slip(network, 1, &mut buffer), Ok(3));
    let [first, second, third] = way_by_one();
    assert_eq!(rt; buffer, [first, second, third, BLANK, BLANK]);
    assert_eq!(rt; book.slip(network, 2, &mut buffer), Ok(2));
    let leaves = Setting {
        node: 2,
        input: None,
        output: port(3, 0x2200_0000),
    };
    let arrives = Setting {
        node: 3,
        input: port(3, 0x2200_0000),
        output: None,
    };
    assert_eq!(rt; buffer, [leaves, arrives, BLANK, BLANK, BLANK]);
}

// A slip is told of circuits that are lit and of those that are offered.
fn told(rt: &impl Abort, book: &mut Book, network: &Network) {
    let mut labels: [Label<Fee>; 8] = [None; 8];
    let long = in_hand(book, network, Order::new(1, 0, 3), &mut labels).expect(rt, "an offer");
    let short = in_hand(book, network, Order::new(2, 2, 3), &mut labels).expect(rt, "an offer");
    assert_eq!(rt; spent(rt, book.confirm(short)), 2);
    short_over_long(rt, book, network);
    assert_eq!(rt; spent(rt, book.withdraw(long)), 2);
}

#[test]
fn a_short_slip_over_a_long_one(rt: HostRuntime) -> Result<(), Fail> {
    let mut tariffs = [0u16; 8];
    let mut converters = [0u16; 16];
    let plan = check_plan(&SAMPLE, &tariffs, &converters)?;
    plan.load(&mut tariffs, &mut converters);
    let network = plan.network(&tariffs, &converters);
    let mut tables = STALE;
    let lent = Lent {
        channels: &mut tables.channels,
        circuits: &mut tables.circuits,
        spans: &mut tables.spans,
    };
    let mut book = open(&rt, &network, 77, lent);
    told(&rt, &mut book, &network);
    Ok(())
}
