use super::hands::{open, refused, spent};
use book::Book;
use book::lent::Lent;
use book::offer::Offered;
use cost::fee::Fee;
use cost::sum::Sum;
use network::Network;
use network::step::Step;
use plan::reader::check as check_plan;
use records::channel::{Channel, Hold};
use records::circuit::{Circuit, Route};
use records::state::SpanState;
use search::label::Label;
use std::process::Abort;
use std::test::Fail;

// From 0 to 2 there are four ways at once: two by node 1, which converts 0 into 2 and 1 into 3, and two
// by span 2, on channels 0 and 3.
const TWO_WAYS: [u8; 88] = [
    1, 1, 3, 4, 0, 3, 0, 2, 0, 0, 0, 40, 0, 0, 0, 8, 0, 0, 0, 48, 0, 0, 0, 6, 0, 0, 0, 54, 0, 0, 0,
    24, 0, 0, 0, 78, 0, 0, 0, 10, 0, 0, 0, 1, 0, 2, 0, 3, 0, 1, 1, 2, 0, 2, 0, 1, 0, 1, 255, 255,
    255, 255, 255, 255, 255, 255, 0, 1, 0, 1, 0, 9, 255, 255, 255, 255, 0, 9, 1, 0, 2, 0, 1, 1, 1,
    3, 0, 1,
];

// What earlier use left in the tables.
const HELD: Channel = Some(Hold {
    circuit: 9,
    next: None,
});

const LIT: Circuit = Circuit::Lit(Route {
    from: 0,
    to: 2,
    first: Step {
        span: 2,
        channel: 0,
    },
    steps: 1,
});

// Fills the network from a circuit on, and empties it again: circuits of even number stay offers in hand
// until then, the others are lit. Told is how many found a path.
fn fill(
    rt: &impl Abort,
    book: &mut Book,
    network: &Network,
    labels: &mut [Label<Fee>],
    circuit: u16,
) -> u16 {
    if circuit >= 128 {
        return 0;
    }
    match book.offer(network, circuit, 0, 2, &Sum, labels) {
        Err(fault) => {
            refused(rt, fault, 29);
            0
        }
        Ok(
            Offered {
                cost: _,
                steps,
                offer,
            },
        ) => {
            if circuit % 2 == 0 {
                let more = fill(rt, book, network, labels, circuit + 1);
                assert_eq!(rt; spent(rt, book.withdraw(offer)), steps);
                more.saturating_add(1)
            } else {
                spent(rt, book.confirm(offer));
                let more = fill(rt, book, network, labels, circuit + 1);
                assert_eq!(rt; book.darken(circuit), Ok(steps));
                more.saturating_add(1)
            }
        }
    }
}

// Twice, from another circuit on.
fn fill_twice(rt: &impl Abort, book: &mut Book, network: &Network) {
    let mut labels: [Label<Fee>; 12] = [None; 12];
    assert_eq!(rt; fill(rt, book, network, &mut labels, 0), 4);
    assert_eq!(rt; fill(rt, book, network, &mut labels, 101), 4);
}

#[test]
fn what_is_emptied_is_as_opened(rt: HostRuntime) -> Result<(), Fail> {
    let mut tariffs = [0u16; 12];
    let mut converters = [0u16; 48];
    let plan = check_plan(&TWO_WAYS, &tariffs, &converters)?;
    plan.load(&mut tariffs, &mut converters);
    let network = plan.network(&tariffs, &converters);
    let (mut channels, mut circuits, mut spans) = ([HELD; 13], [LIT; 129], [SpanState::Shut; 4]);
    let lent = Lent {
        channels: &mut channels,
        circuits: &mut circuits,
        spans: &mut spans,
    };
    let mut book = open(&rt, &network, 1, lent);
    fill_twice(&rt, &mut book, &network);
    let mut free_channels = [None; 13];
    free_channels[12] = HELD;
    assert!(rt; channels == free_channels, "channels");
    let mut free_circuits = [Circuit::Free; 129];
    free_circuits[128] = LIT;
    assert!(rt; circuits == free_circuits, "circuits");
    assert_eq!(rt;
        spans,
        [
            SpanState::Open,
            SpanState::Open,
            SpanState::Open,
            SpanState::Shut,
        ]
    );
    Ok(())
}
