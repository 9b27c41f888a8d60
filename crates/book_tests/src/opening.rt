use at_book::sample::{HELD, LIT, SAMPLE, STALE, Tables};
use book::lent::Lent;
use book::{Book, check_tables};
use fault::book::BookFault;
use fault::report::{Fault, Layer, Report};
use network::Network;
use plan::reader::check as check_plan;
use records::circuit::Circuit;
use records::state::SpanState;
use std::process::Abort;
use std::test::Fail;

fn open_and_shut(rt: &impl Abort, network: &Network, stale: &mut Tables) -> Result<(), Fail> {
    check_tables(network, &stale.channels, &stale.circuits, &stale.spans)?;
    let lent = Lent {
        channels: &mut stale.channels,
        circuits: &mut stale.circuits,
        spans: &mut stale.spans,
    };
    let mut book = Book::open(network, 77, lent);
    assert!(rt;
        book.mark() == 77 && book.counts() == network.counts(),
        "as opened"
    );
    assert_eq!(rt; [book.shut(2), book.shut(2)], [Ok(()), Ok(())]);
    let none = Err(BookFault::NoSpan);
    assert_eq!(rt; [book.shut(4), book.shut(65535)], [none, none]);
    Ok(())
}

#[test]
fn opening_clears_what_is_needed(rt: HostRuntime) -> Result<(), Fail> {
    let mut tariffs = [7u16; 8];
    let mut converters = [7u16; 16];
    let plan = check_plan(&SAMPLE, &tariffs, &converters)?;
    plan.load(&mut tariffs, &mut converters);
    let network = plan.network(&tariffs, &converters);
    let mut stale = STALE;
    open_and_shut(&rt, &network, &mut stale)?;
    let Tables {
        channels,
        circuits,
        spans,
    } = stale;
    assert!(rt;
        channels[7] == None && circuits[127] == Circuit::Free,
        "free"
    );
    assert!(rt;
        channels[8] == HELD && circuits[128] == LIT && spans[4] == SpanState::Shut,
        "beyond"
    );
    assert_eq!(rt;
        [spans[0], spans[1], spans[2], spans[3]],
        [
            SpanState::Open,
            SpanState::Open,
            SpanState::Shut,
            SpanState::Open,
        ]
    );
    Ok(())
}

#[test]
fn short_tables_are_refused(rt: HostRuntime) -> Result<(), Fail> {
    let mut tariffs = [0u16; 8];
    let mut converters = [0u16; 16];
    let plan = check_plan(&SAMPLE, &tariffs, &converters)?;
    plan.load(&mut tariffs, &mut converters);
    let network = plan.network(&tariffs, &converters);
    let channels = [HELD; 8];
    let circuits = [LIT; 128];
    let spans = [SpanState::Open; 4];
    let short = Err(BookFault::BookTable);
    assert_eq!(rt;
        check_tables(&network, &channels, &circuits, &spans),
        Ok(())
    );
    assert_eq!(rt;
        check_tables(&network, &channels[0..7], &circuits, &spans),
        short
    );
    assert_eq!(rt;
        check_tables(&network, &channels, &circuits[0..127], &spans),
        short
    );
    assert_eq!(rt;
        check_tables(&network, &channels, &circuits, &spans[0..3]),
        short
    );
    assert_eq!(rt;
        BookFault::BookTable.report(),
        Report::new(11, 0, Layer::Book)
    );
    Ok(())
}

#[test]
fn the_sample_network_is_told(rt: HostRuntime) -> Result<(), Fail> {
    let mut tariffs = [7u16; 9];
    let mut converters = [7u16; 17];
    let plan = check_plan(&SAMPLE, &tariffs, &converters)?;
    plan.load(&mut tariffs, &mut converters);
    assert!(rt;
        tariffs[8] == 7 && converters[16] == 7,
        "the entry beyond stays"
    );
    let network = plan.network(&tariffs, &converters);
    assert_eq!(rt; [network.number(1), network.number(2)], [Some(1), None]);
    assert_eq!(rt;
        [
            network.tariff(1, 0),
            network.tariff(1, 1),
            network.tariff(4, 0),
        ],
        [None, Some(3), None]
    );
    assert_eq!(rt;
        [network.converter(1, 0, 1), network.converter(1, 1, 0)],
        [Some(1), None]
    );
    Ok(())
}

#[test]
fn the_rows_of_the_sample_network_rise(rt: HostRuntime) -> Result<(), Fail> {
    let mut tariffs = [7u16; 8];
    let mut converters = [7u16; 16];
    let plan = check_plan(&SAMPLE, &tariffs, &converters)?;
    plan.load(&mut tariffs, &mut converters);
    let network = plan.network(&tariffs, &converters);
    assert_eq!(rt; network.ways(0, 0), [0, 2].as_slice());
    assert_eq!(rt; network.ways(0, 1), [2, 0].as_slice());
    assert_eq!(rt; network.ways(1, 1), [1].as_slice());
    assert_eq!(rt; network.exits(1, 0), [1, 0].as_slice());
    assert_eq!(rt; network.exits(3, 1).len(), 2);
    assert_eq!(rt; network.entering(3), [1, 3].as_slice());
    assert!(rt;
        network.ways(3, 0).is_empty() && network.entering(0).is_empty(),
        "no span leaves node 3 or enters node 0"
    );
    assert!(rt;
        network.ways(64, 0).is_empty() && network.ways(0, 2).is_empty(),
        "none leaves beyond"
    );
    assert!(rt;
        network.exits(4, 0).is_empty() && network.exits(1, 2).is_empty(),
        "none converts beyond"
    );
    assert!(rt; network.entering(4).is_empty(), "none enters beyond");
    Ok(())
}
