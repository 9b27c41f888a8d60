use super::hands::refuse;
use at_book::old::{is_old, old_label};
use book::Book;
use cost::fee::Fee;
use cost::few::Few;
use cost::kind::Kind;
use cost::sum::Sum;
use cost::tally::Tally;
use cost::worst::Worst;
use fault::book::BookFault;
use network::Network;
use network::table::fill;
use search::label::Label;
use std::process::Abort;

// What a trial answers, with room for so many labels. Where it is refused, all labels stay, but for the
// eight needed after 29.
fn ask<K: Kind>(
    rt: &impl Abort,
    book: &mut Book,
    network: &Network,
    (from, to, span): (u16, u16, u16),
    kind: &K,
    (labels, room): (&mut [Label<K::Value>], usize),
) -> Result<K::Value, BookFault> {
    let length = labels.len();
    fill(labels, length, old_label(kind));
    let Some(lent) = labels.get_mut(..room) else {
        rt.abort();
    };
    let answer = book.trial(network, from, to, span, kind, lent);
    let searched = match answer {
        Ok(_) | Err(BookFault::NoPath) => 8,
        Err(_) => 0,
    };
    let Some(others) = labels.get(searched..) else {
        rt.abort();
    };
    for label in others {
        assert!(rt; is_old(kind, *label), "{from} {to} {span} {room}");
    }
    answer
}

// That a trial by each kind is refused by this number, with room for so many labels.
fn refuse_trial(
    rt: &impl Abort,
    book: &mut Book,
    network: &Network,
    trial: (u16, u16, u16),
    room: usize,
    number: u8,
) {
    let mut fees: [Label<Fee>; 12] = [None; 12];
    let mut tallies: [Label<Tally>; 12] = [None; 12];
    let mut tariffs: [Label<u16>; 12] = [None; 12];
    let answer = ask(rt, book, network, trial, &Sum, (&mut fees, room));
    refuse(rt, answer, number);
    let answer = ask(rt, book, network, trial, &Few, (&mut tallies, room));
    refuse(rt, answer, number);
    let answer = ask(rt, book, network, trial, &Worst, (&mut tariffs, room));
    refuse(rt, answer, number);
}

// That the reckoning of a circuit by each kind is refused by this number.
fn refuse_reckoning(rt: &impl Abort, book: &Book, network: &Network, circuit: u16, number: u8) {
    refuse(rt, book.reckon(network, circuit, &Sum), number);
    refuse(rt, book.reckon(network, circuit, &Few), number);
    refuse(rt, book.reckon(network, circuit, &Worst), number);
}

// A network with other counts: a node and a span of it may be none of the book's.
pub(crate) fn at_other_network(rt: &impl Abort, book: &mut Book, other: &Network) {
    for ends in [
        (9, 9, 9),
        (4, 4, 4),
        (0, 0, 4),
        (0, 3, 4),
        (0, 3, 0),
        (0, 1, 0),
    ] {
        for room in [0, 3, 12usize] {
            refuse_trial(rt, book, other, ends, room, 20);
        }
    }
    for circuit in [65535, 128, 127, 3, 2, 1] {
        refuse_reckoning(rt, book, other, circuit, 20);
    }
}

// Trials, where one circuit holds the way by node 1 and another that by node 2: each has all the faults
// of the next one too.
pub(crate) fn trials(rt: &impl Abort, book: &mut Book, network: &Network) {
    for (ends, number) in [
        ((65535, 65535, 65535), 24),
        ((4, 4, 4), 24),
        ((0, 4, 4), 24),
        ((4, 0, 4), 24),
        ((0, 0, 65535), 25),
        ((3, 3, 4), 25),
        ((0, 3, 65535), 26),
        ((3, 0, 4), 26),
        ((3, 0, 3), 27),
        ((0, 2, 0), 27),
    ] {
        refuse_trial(rt, book, network, ends, 0, number);
        refuse_trial(rt, book, network, ends, 7, number);
    }
    for (ends, number) in [
        ((0, 4, 0), 24),
        ((4, 0, 3), 24),
        ((0, 0, 0), 25),
        ((3, 3, 3), 25),
        ((0, 2, 4), 26),
        ((3, 0, 0), 29),
        ((0, 3, 3), 29),
        ((0, 2, 2), 29),
    ] {
        refuse_trial(rt, book, network, ends, 8, number);
        refuse_trial(rt, book, network, ends, 9, number);
    }
    let mut fees: [Label<Fee>; 12] = [None; 12];
    for span in [0, 1, 3u16] {
        let answer = ask(rt, book, network, (0, 2, span), &Sum, (&mut fees, 8));
        assert_eq!(rt; answer, Ok(Fee::new(4)), "without {span}");
    }
}

// Reckonings, where circuit 1 is lit, 2 is offered and all others are free.
pub(crate) fn reckonings(rt: &impl Abort, book: &Book, network: &Network) {
    for (circuit, number) in [(65535, 21), (128, 21), (127, 23), (3, 23), (0, 23)] {
        refuse_reckoning(rt, book, network, circuit, number);
    }
    assert_eq!(rt; book.reckon(network, 1, &Sum), Ok(Fee::new(6)));
    assert_eq!(rt; book.reckon(network, 2, &Sum), Ok(Fee::new(9)));
}
