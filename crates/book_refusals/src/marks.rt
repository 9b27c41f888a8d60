use super::hands::{handed_back, open, spent};
use at_book::sample::{SAMPLE, STALE, Tables};
use at_book::{Order, in_hand};
use book::Book;
use book::lent::Lent;
use book::offer::Offer;
use cost::fee::Fee;
use network::Network;
use plan::reader::check as check_plan;
use search::label::Label;
use std::process::Abort;
use std::test::Fail;

// An offer, after a book that has to refuse it by this number was asked to confirm it, and to withdraw it.
fn crossed(rt: &impl Abort, book: &mut Book, offer: Offer, number: Option<u8>) -> Offer {
    let Some(number) = number else {
        return offer;
    };
    let offer = handed_back(rt, book.confirm(offer), number);
    handed_back(rt, book.withdraw(offer), number)
}

// Each of two books makes an offer, which the other may have to refuse, and which is then spent where it
// was made. At the second book the first one's circuit is free, at the first one the second one's is lit.
fn spend_both(
    rt: &impl Abort,
    first: &mut Book,
    second: &mut Book,
    network: &Network,
    number: Option<u8>,
) {
    let mut labels: [Label<Fee>; 8] = [None; 8];
    let lit = in_hand(first, network, Order::new(2, 0, 1), &mut labels).expect(rt, "an offer");
    assert_eq!(rt; spent(rt, first.confirm(lit)), 2);
    let one = in_hand(first, network, Order::new(1, 0, 3), &mut labels).expect(rt, "an offer");
    let two = in_hand(second, network, Order::new(2, 0, 3), &mut labels).expect(rt, "an offer");
    let one = crossed(rt, second, one, number);
    let two = crossed(rt, first, two, number);
    assert_eq!(rt; spent(rt, first.confirm(one)), 1);
    assert_eq!(rt; spent(rt, second.withdraw(two)), 2);
}

// The same, at books with these marks over these tables.
fn with_marks(
    rt: &impl Abort,
    network: &Network,
    marks: [u32; 2],
    first: &mut Tables,
    second: &mut Tables,
    number: Option<u8>,
) {
    let lent = Lent {
        channels: &mut first.channels,
        circuits: &mut first.circuits,
        spans: &mut first.spans,
    };
    let mut book = open(rt, network, marks[0], lent);
    let lent = Lent {
        channels: &mut second.channels,
        circuits: &mut second.circuits,
        spans: &mut second.spans,
    };
    let mut other = open(rt, network, marks[1], lent);
    spend_both(rt, &mut book, &mut other, network, number);
}

// That two sets of tables hold the same.
fn same(rt: &impl Abort, one: &Tables, other: &Tables) {
    assert!(rt; one.channels == other.channels, "channels");
    assert!(rt; one.circuits == other.circuits, "circuits");
    assert!(rt; one.spans == other.spans, "spans");
}

// The tables are afterwards as they are where no other book was asked.
fn asked(rt: &impl Abort, network: &Network, marks: [u32; 2], number: u8) {
    let (mut first, mut second) = (STALE, STALE);
    with_marks(rt, network, marks, &mut first, &mut second, Some(number));
    let (mut first_alone, mut second_alone) = (STALE, STALE);
    with_marks(
        rt,
        network,
        marks,
        &mut first_alone,
        &mut second_alone,
        None,
    );
    same(rt, &first, &first_alone);
    same(rt, &second, &second_alone);
}

#[test]
fn offers_at_other_books(rt: HostRuntime) -> Result<(), Fail> {
    let mut tariffs = [0u16; 8];
    let mut converters = [0u16; 16];
    let plan = check_plan(&SAMPLE, &tariffs, &converters)?;
    plan.load(&mut tariffs, &mut converters);
    let network = plan.network(&tariffs, &converters);
    asked(&rt, &network, [1, 2], 22);
    asked(&rt, &network, [3, 3], 23);
    Ok(())
}
