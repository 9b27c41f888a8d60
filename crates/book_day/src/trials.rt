use super::hands::{open, spent};
use super::networks::{TARIFFS, load, with_number};
use super::tried::{Way, comes_to};
use at_book::sample::{HELD, LIT, SAMPLE, STALE, Tables};
use at_book::{Order, in_hand};
use book::Book;
use book::lent::Lent;
use cost::fee::Fee;
use network::Network;
use records::state::SpanState;
use search::label::Label;
use std::process::Abort;
use std::test::Fail;

// The two ways from 0 to 3, by node 1 and by node 2; and those of one step, by their tariff.
const BY_ONE: Option<Way> = Some((6, 1, 3));

const BY_TWO: Option<Way> = Some((9, 0, 5));

const TWO: Option<Way> = Some((2, 0, 2));

const THREE: Option<Way> = Some((3, 0, 3));

const FOUR: Option<Way> = Some((4, 0, 4));

const FIVE: Option<Way> = Some((5, 0, 5));

// From where to where it is tried, and what that comes to without span 0, without 1, 2 and 3.
type Row = ((u16, u16), [Option<Way>; 4]);

// What trials come to where all is open and free.
const OPENED: [Row; 6] = [
    ((0, 3), [BY_TWO, BY_TWO, BY_ONE, BY_ONE]),
    ((0, 1), [None, TWO, TWO, TWO]),
    ((0, 2), [FOUR, FOUR, None, FOUR]),
    ((1, 3), [THREE, None, THREE, THREE]),
    ((2, 3), [FIVE, FIVE, FIVE, None]),
    ((3, 0), [None; 4]),
];

// The same, where a circuit holds the way by node 1.
const ONE_HELD: [Row; 6] = [
    ((0, 3), [BY_TWO, BY_TWO, None, None]),
    ((0, 1), [None; 4]),
    ((0, 2), [FOUR, FOUR, None, FOUR]),
    ((1, 3), [None; 4]),
    ((2, 3), [FIVE, FIVE, FIVE, None]),
    ((3, 0), [None; 4]),
];

// Where another circuit holds that by node 2 too. Channel 1 of span 2 is still free.
const BOTH_HELD: [Row; 6] = [
    ((0, 3), [None; 4]),
    ((0, 1), [None; 4]),
    ((0, 2), [FOUR, FOUR, None, FOUR]),
    ((1, 3), [None; 4]),
    ((2, 3), [None; 4]),
    ((3, 0), [None; 4]),
];

// Where that by node 2 alone is held.
const TWO_HELD: [Row; 6] = [
    ((0, 3), [None, None, BY_ONE, BY_ONE]),
    ((0, 1), [None, TWO, TWO, TWO]),
    ((0, 2), [FOUR, FOUR, None, FOUR]),
    ((1, 3), [THREE, None, THREE, THREE]),
    ((2, 3), [None; 4]),
    ((3, 0), [None; 4]),
];

// Where span 2 is shut besides.
const TWO_SHUT: [Row; 6] = [
    ((0, 3), [None, None, BY_ONE, BY_ONE]),
    ((0, 1), [None, TWO, TWO, TWO]),
    ((0, 2), [None; 4]),
    ((1, 3), [THREE, None, THREE, THREE]),
    ((2, 3), [None; 4]),
    ((3, 0), [None; 4]),
];

// Where span 0 is shut too.
const BOTH_SHUT: [Row; 6] = [
    ((0, 3), [None; 4]),
    ((0, 1), [None; 4]),
    ((0, 2), [None; 4]),
    ((1, 3), [THREE, None, THREE, THREE]),
    ((2, 3), [None; 4]),
    ((3, 0), [None; 4]),
];

// Trials with each span shut, where it is asked for them.
fn try_all(rt: &impl Abort, book: &mut Book, network: &Network, asked: bool, rows: &[Row; 6]) {
    if !asked {
        return;
    }
    for (ends, ways) in rows {
        for (span, way) in (0..4u16).zip(ways) {
            comes_to(rt, book, network, *ends, span, *way);
        }
    }
}

// Lights a circuit from 0 to 3 by the least sum. While it is offered, trials come to what they come to
// once it is lit.
fn light(
    rt: &impl Abort,
    book: &mut Book,
    network: &Network,
    circuit: u16,
    asked: bool,
    rows: &[Row; 6],
) {
    let mut labels: [Label<Fee>; 8] = [None; 8];
    let order = Order::new(circuit, 0, 3);
    let offer = in_hand(book, network, order, &mut labels).expect(rt, "an offer");
    try_all(rt, book, network, asked, rows);
    assert_eq!(rt; u16::from(spent(rt, book.confirm(offer))), circuit);
    try_all(rt, book, network, asked, rows);
}

// So many changes, with trials before and after each.
fn changes(rt: &impl Abort, book: &mut Book, network: &Network, asked: bool, count: usize) {
    try_all(rt, book, network, asked, &OPENED);
    if count >= 1 {
        light(rt, book, network, 1, asked, &ONE_HELD);
    }
    if count >= 2 {
        light(rt, book, network, 2, asked, &BOTH_HELD);
    }
    if count >= 3 {
        assert_eq!(rt; book.darken(1), Ok(2));
        try_all(rt, book, network, asked, &TWO_HELD);
    }
    if count >= 4 {
        assert_eq!(rt; book.shut(2), Ok(()));
        try_all(rt, book, network, asked, &TWO_SHUT);
    }
    if count >= 5 {
        assert_eq!(rt; book.shut(0), Ok(()));
        try_all(rt, book, network, asked, &BOTH_SHUT);
    }
}

// The tables after so many changes.
fn after(rt: &impl Abort, network: &Network, asked: bool, count: usize) -> Tables {
    let mut tables = STALE;
    let lent = Lent {
        channels: &mut tables.channels,
        circuits: &mut tables.circuits,
        spans: &mut tables.spans,
    };
    let mut book = open(rt, network, 77, lent);
    changes(rt, &mut book, network, asked, count);
    tables
}

// Which spans are open after so many changes; the last entry is beyond the network's.
fn spans_after(count: usize) -> [SpanState; 5] {
    let shut_from = |first: usize| {
        if count >= first {
            SpanState::Shut
        } else {
            SpanState::Open
        }
    };
    [
        shut_from(5),
        SpanState::Open,
        shut_from(4),
        SpanState::Open,
        SpanState::Shut,
    ]
}

// Whatever was tried, the tables are as they are where nothing was.
#[test]
fn trials_of_the_sample(rt: HostRuntime) -> Result<(), Fail> {
    let (mut tariffs, mut converters) = ([0u16; 8], [0u16; 16]);
    let network = load(&SAMPLE, &mut tariffs, &mut converters)?;
    for count in 0..6usize {
        let tried = after(&rt, &network, true, count);
        let untried = after(&rt, &network, false, count);
        assert!(rt;
            tried.channels == untried.channels,
            "channels after {count}"
        );
        assert!(rt;
            tried.circuits == untried.circuits,
            "circuits after {count}"
        );
        assert_eq!(rt; tried.spans, spans_after(count), "after {count}");
        assert_eq!(rt; untried.spans, spans_after(count), "after {count}");
        assert_eq!(rt; (tried.channels[8], tried.circuits[128]), (HELD, LIT));
    }
    Ok(())
}

// Another network of the same counts is taken as it is.
#[test]
fn a_trial_at_another_network(rt: HostRuntime) -> Result<(), Fail> {
    let (mut tariffs, mut converters) = ([0u16; 8], [0u16; 16]);
    let network = load(&SAMPLE, &mut tariffs, &mut converters)?;
    let dearer = with_number(SAMPLE, TARIFFS[3][0], 500);
    let (mut tariffs, mut converters) = ([0u16; 8], [0u16; 16]);
    let other = load(&dearer, &mut tariffs, &mut converters)?;
    let mut tables = STALE;
    let lent = Lent {
        channels: &mut tables.channels,
        circuits: &mut tables.circuits,
        spans: &mut tables.spans,
    };
    let mut book = open(&rt, &network, 77, lent);
    comes_to(&rt, &mut book, &other, (0, 3), 0, Some((504, 0, 500)));
    comes_to(&rt, &mut book, &network, (0, 3), 0, BY_TWO);
    comes_to(&rt, &mut book, &other, (0, 3), 3, BY_ONE);
    Ok(())
}
