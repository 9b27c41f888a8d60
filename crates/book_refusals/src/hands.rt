use book::lent::Lent;
use book::offer::Offer;
use book::{Book, check_tables};
use fault::book::BookFault;
use fault::report::{Fault, Layer, Report};
use network::Network;
use std::process::Abort;

// A book of the network, over tables that have to have room.
pub(crate) fn open<'a, 'b, 'c>(
    rt: &impl Abort,
    network: &Network,
    mark: u32,
    lent: Lent<'a, 'b, 'c>,
) -> Book<'a, 'b, 'c> {
    let Lent {
        channels,
        circuits,
        spans,
    } = lent;
    let room = check_tables(network, channels, circuits, spans);
    assert_eq!(rt; room, Ok(()));
    let lent = Lent {
        channels,
        circuits,
        spans,
    };
    Book::open(network, mark, lent)
}

// That the book's layer refuses by this number.
pub(crate) fn refused(rt: &impl Abort, fault: BookFault, number: u8) {
    assert_eq!(rt; fault.report(), Report::new(number, 0, Layer::Book));
}

// What an offer is spent for, which must not be refused.
pub(crate) fn spent<A>(rt: &impl Abort, answer: Result<A, (BookFault, Offer)>) -> A {
    match answer {
        Ok(value) => value,
        Err(_) => rt.abort(),
    }
}

// The offer that is handed back, refused by this number.
pub(crate) fn handed_back<A: Drop>(
    rt: &impl Abort,
    answer: Result<A, (BookFault, Offer)>,
    number: u8,
) -> Offer {
    match answer {
        Ok(_) => rt.abort(),
        Err((fault, offer)) => {
            refused(rt, fault, number);
            offer
        }
    }
}

// That a call is refused by this number.
pub(crate) fn refuse<A: Drop>(rt: &impl Abort, answer: Result<A, BookFault>, number: u8) {
    match answer {
        Ok(_) => rt.abort(),
        Err(fault) => refused(rt, fault, number),
    }
}
