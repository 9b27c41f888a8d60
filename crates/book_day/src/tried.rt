use at_book::old::{is_old, old_label};
use book::Book;
use cost::fee::Fee;
use cost::few::Few;
use cost::kind::Kind;
use cost::sum::Sum;
use cost::tally::Tally;
use cost::worst::Worst;
use fault::book::BookFault;
use network::Network;
use network::table::fill;
use search::label::Label;
use std::process::Abort;

// What a way costs: by SUM, which is FEW's sum too, how many conversions it has, and by WORST.
pub(crate) type Way = (u32, u32, u16);

// What a trial comes to, nothing where there is no way. Of the labels, which have to be more than the eight
// needed, those beyond stay.
pub(crate) fn tried<K: Kind>(
    rt: &impl Abort,
    book: &mut Book,
    network: &Network,
    ends: (u16, u16),
    span: u16,
    kind: &K,
    labels: &mut [Label<K::Value>],
) -> Option<K::Value> {
    let (from, to) = ends;
    let length = labels.len();
    fill(labels, length, old_label(kind));
    let answer = book.trial(network, from, to, span, kind, labels);
    let Some([next, beyond @ ..]) = labels.get(8..) else {
        rt.abort();
    };
    assert!(rt; is_old(kind, *next), "the next label");
    for label in beyond {
        assert!(rt; is_old(kind, *label), "a label beyond");
    }
    match answer {
        Ok(cost) => Some(cost),
        Err(fault) => {
            assert_eq!(rt; fault, BookFault::NoPath);
            None
        }
    }
}

// That a trial by each kind comes to this way, or to none.
pub(crate) fn comes_to(
    rt: &impl Abort,
    book: &mut Book,
    network: &Network,
    ends: (u16, u16),
    span: u16,
    way: Option<Way>,
) {
    let mut fees: [Label<Fee>; 10] = [None; 10];
    let mut tallies: [Label<Tally>; 10] = [None; 10];
    let mut tariffs: [Label<u16>; 10] = [None; 10];
    let sum = tried(rt, book, network, ends, span, &Sum, &mut fees);
    let few = tried(rt, book, network, ends, span, &Few, &mut tallies);
    let worst = tried(rt, book, network, ends, span, &Worst, &mut tariffs);
    let fee = way.map(|way| Fee::new(way.0));
    let tally = way.map(|way| Tally::new(way.1, Fee::new(way.0)));
    let tariff = way.map(|way| way.2);
    let (from, to) = ends;
    assert_eq!(rt; sum, fee, "{from} {to} {span}");
    assert_eq!(rt; few, tally, "{from} {to} {span}");
    assert_eq!(rt; worst, tariff, "{from} {to} {span}");
}

// That a standing circuit is reckoned so, by each kind.
pub(crate) fn reckoned(
    rt: &impl Abort,
    book: &Book,
    network: &Network,
    circuit: u16,
    (sum, conversions, worst): Way,
) {
    let fee = Fee::new(sum);
    assert_eq!(rt;
        book.reckon(network, circuit, &Sum),
        Ok(fee),
        "{circuit} {sum}"
    );
    let tally = Tally::new(conversions, fee);
    assert_eq!(rt;
        book.reckon(network, circuit, &Few),
        Ok(tally),
        "{circuit} {sum}"
    );
    assert_eq!(rt;
        book.reckon(network, circuit, &Worst),
        Ok(worst),
        "{circuit} {sum}"
    );
}
