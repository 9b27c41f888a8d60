use super::asked::{all, cheapest, costs, on, told};
use super::sketch::{LARGEST, NONE, Sketch, load};
use cost::fee::Fee;
use cost::few::Few;
use cost::sum::Sum;
use cost::tally::Tally;
use cost::worst::Worst;
use fault::book::BookFault;
use moment::Moment;
use network::Network;
use records::channel::{Channel, Hold};
use records::state::SpanState;
use search::label::{Known, Label};
use search::path::read_path;
use search::search;
use semilightpath::point::Point;
use std::process::Abort;
use std::test::Fail;

const SAMPLE: Sketch = Sketch {
    nodes: 4,
    channels: 2,
    spans: &[(0, 1), (1, 3), (0, 2), (2, 3)],
    tariffs: &[2, NONE, NONE, 3, 4, 4, 5, NONE],
    converters: &[(1, 0, 1, 1)],
};

// Node 1 converts 0 into 1 and 1 into 2, and 0 into 2 at another tariff.
const DETOUR: Sketch = Sketch {
    nodes: 4,
    channels: 3,
    spans: &[(0, 1), (1, 2), (1, 3), (3, 1)],
    tariffs: &[2, NONE, NONE, NONE, NONE, 3, NONE, 1, NONE, NONE, 1, NONE],
    converters: &[(1, 0, 1, 1), (1, 0, 2, 50), (1, 1, 2, 1)],
};

// The same, where node 1 does not convert 0 into 2.
const NO_OTHER_WAY: Sketch = Sketch {
    converters: &[(1, 0, 1, 1), (1, 1, 2, 1)],
    ..DETOUR
};

const ONE_NODE: Sketch = Sketch {
    nodes: 1,
    channels: 16,
    spans: &[],
    tariffs: &[],
    converters: &[(0, 3, 4, 0)],
};

const NO_SPAN: Sketch = Sketch {
    nodes: 3,
    ..ONE_NODE
};

// Three spans from 0 to 1, and one back.
const PARALLEL: Sketch = Sketch {
    nodes: 2,
    channels: 1,
    spans: &[(0, 1), (0, 1), (1, 0), (0, 1)],
    tariffs: &[7, 5, 1, 6],
    converters: &[],
};

// A triangle in which nothing costs anything.
const FREE: Sketch = Sketch {
    nodes: 3,
    channels: 2,
    spans: &[(0, 1), (1, 2), (2, 0)],
    tariffs: &[0, 0, 0, 0, 0, 0],
    converters: &[(1, 0, 1, 0), (1, 1, 0, 0)],
};

// Two ways from 0 to 2, all at the largest tariff: by node 1 with a conversion, and by 1 and 3.
pub(crate) const DEAR: Sketch = Sketch {
    nodes: 4,
    channels: 2,
    spans: &[(0, 1), (1, 2), (1, 3), (3, 2)],
    tariffs: &[LARGEST, NONE, NONE, LARGEST, LARGEST, NONE, LARGEST, NONE],
    converters: &[(1, 0, 1, LARGEST)],
};

const HELD: Channel = Some(Hold {
    circuit: 9,
    next: None,
});

#[test]
fn the_sample(rt: HostRuntime) -> Result<(), Fail> {
    let bytes = SAMPLE.plan(rt.alloc())?;
    let mut tariffs = [0u16; 8];
    let mut converters = [0u16; 16];
    let network = load(bytes.as_slice(), &mut tariffs, &mut converters)?;
    let open = all(&network);
    assert_eq!(rt; costs(&rt, &open, 0, 3), told(6, (0, 9), 3));
    assert_eq!(rt; costs(&rt, &open, 0, 1), told(2, (0, 2), 2));
    assert_eq!(rt; costs(&rt, &open, 3, 0), None, "no span leaves it");
    assert_eq!(rt; costs(&rt, &open, 0, 0), None, "none leads back");
    let shut = Moment {
        network: &network,
        channels: &[],
        spans: &[SpanState::Shut],
    };
    assert_eq!(rt; costs(&rt, &shut, 0, 3), told(9, (0, 9), 5));
    let held = Moment {
        network: &network,
        channels: &[None, None, None, None, HELD],
        spans: &[],
    };
    assert_eq!(rt; costs(&rt, &held, 0, 3), told(6, (1, 6), 3));
    Ok(())
}

// The path that a search finds, and nothing written beside it.
#[test]
fn the_path_itself(rt: HostRuntime) -> Result<(), Fail> {
    let bytes = SAMPLE.plan(rt.alloc())?;
    let mut tariffs = [0u16; 8];
    let mut converters = [0u16; 16];
    let network = load(bytes.as_slice(), &mut tariffs, &mut converters)?;
    let mut labels: [Label<Fee>; 8] = [None; 8];
    let mut path = [on(9, 9); 3];
    let found = search(&Sum, &all(&network), 0, 3, &mut labels)?;
    let end = Point {
        node: 3,
        entered: Some(1),
    };
    assert_eq!(rt; (found.cost, found.end), (Fee::new(6), end));
    let short = read_path(&network, &labels, end, &mut path[..1]);
    assert_eq!(rt; short, None);
    assert_eq!(rt; path, [on(9, 9); 3]);
    let count = read_path(&network, &labels, end, &mut path);
    assert_eq!(rt; count, Some(2));
    assert_eq!(rt; path, [on(0, 0), on(1, 1), on(9, 9)]);
    Ok(())
}

// A network by itself is one in which all is open and free; a copy of it knows its fares.
#[test]
fn the_network_alone(rt: HostRuntime) -> Result<(), Fail> {
    let bytes = SAMPLE.plan(rt.alloc())?;
    let mut tariffs = [0u16; 8];
    let mut converters = [0u16; 16];
    let network = load(bytes.as_slice(), &mut tariffs, &mut converters)?;
    let fares = network;
    let mut labels: [Label<Tally>; 8] = [None; 8];
    let mut path = [on(9, 9); 2];
    let found = search(&Few, &fares, 0, 3, &mut labels)?;
    let count = read_path(&network, &labels, found.end, &mut path);
    assert_eq!(rt; (found.cost, count), (Tally::new(0, Fee::new(9)), Some(2)));
    assert_eq!(rt; path, [on(2, 0), on(3, 0)]);
    Ok(())
}

// Converters do not work one after the other, but a path may come back for the second.
#[test]
fn a_node_is_passed_twice(rt: HostRuntime) -> Result<(), Fail> {
    let heap = rt.alloc();
    let mut tariffs = [0u16; 12];
    let mut converters = [0u16; 36];
    let bytes = NO_OTHER_WAY.plan(heap)?;
    let network = load(bytes.as_slice(), &mut tariffs, &mut converters)?;
    let moment = all(&network);
    assert_eq!(rt; costs(&rt, &moment, 0, 2), told(9, (2, 9), 3));
    assert_eq!(rt; costs(&rt, &moment, 1, 1), told(2, (0, 2), 1));
    assert_eq!(rt; costs(&rt, &moment, 3, 3), told(2, (0, 2), 1));
    let shut = Moment {
        network: &network,
        channels: &[],
        spans: &[SpanState::Open, SpanState::Open, SpanState::Shut],
    };
    assert_eq!(rt; costs(&rt, &shut, 0, 2), None, "no converters in a row");
    let bytes = DETOUR.plan(heap)?;
    let network = load(bytes.as_slice(), &mut tariffs, &mut converters)?;
    let moment = all(&network);
    assert_eq!(rt; costs(&rt, &moment, 0, 2), told(9, (1, 55), 3));
    Ok(())
}

#[test]
fn one_node_or_no_span(rt: HostRuntime) -> Result<(), Fail> {
    let heap = rt.alloc();
    let mut tariffs = [0u16; 1];
    let mut converters = [0u16; 768];
    let bytes = ONE_NODE.plan(heap)?;
    let network = load(bytes.as_slice(), &mut tariffs, &mut converters)?;
    assert_eq!(rt; costs(&rt, &all(&network), 0, 0), None);
    let bytes = NO_SPAN.plan(heap)?;
    let network = load(bytes.as_slice(), &mut tariffs, &mut converters)?;
    assert_eq!(rt; costs(&rt, &all(&network), 0, 2), None);
    assert_eq!(rt; costs(&rt, &all(&network), 1, 1), None);
    Ok(())
}

#[test]
fn parallel_spans(rt: HostRuntime) -> Result<(), Fail> {
    let bytes = PARALLEL.plan(rt.alloc())?;
    let mut tariffs = [0u16; 4];
    let mut converters = [0u16; 2];
    let network = load(bytes.as_slice(), &mut tariffs, &mut converters)?;
    let open = all(&network);
    assert_eq!(rt; costs(&rt, &open, 0, 1), told(5, (0, 5), 5));
    assert_eq!(rt; costs(&rt, &open, 0, 0), told(6, (0, 6), 5));
    let shut = Moment {
        network: &network,
        channels: &[],
        spans: &[SpanState::Open, SpanState::Shut],
    };
    assert_eq!(rt; costs(&rt, &shut, 0, 1), told(6, (0, 6), 6));
    let held = Moment {
        network: &network,
        channels: &[None, None, None, HELD],
        spans: &[SpanState::Open, SpanState::Shut],
    };
    assert_eq!(rt; costs(&rt, &held, 0, 1), told(7, (0, 7), 7));
    let all_shut = Moment {
        network: &network,
        channels: &[],
        spans: &[SpanState::Shut; 4],
    };
    assert_eq!(rt; costs(&rt, &all_shut, 0, 1), None);
    Ok(())
}

// Where all is free, paths are distinct still; and the largest tariffs add up.
#[test]
fn the_least_and_the_largest(rt: HostRuntime) -> Result<(), Fail> {
    let heap = rt.alloc();
    let mut tariffs = [0u16; 8];
    let mut converters = [0u16; 16];
    let bytes = FREE.plan(heap)?;
    let network = load(bytes.as_slice(), &mut tariffs, &mut converters)?;
    assert_eq!(rt; costs(&rt, &all(&network), 0, 0), told(0, (0, 0), 0));
    assert_eq!(rt; costs(&rt, &all(&network), 1, 0), told(0, (0, 0), 0));
    let bytes = DEAR.plan(heap)?;
    let network = load(bytes.as_slice(), &mut tariffs, &mut converters)?;
    let sum = 3 * u32::from(LARGEST);
    assert_eq!(rt;
        costs(&rt, &all(&network), 0, 2),
        told(sum, (0, sum), LARGEST)
    );
    Ok(())
}

// A label that earlier use left.
fn stale() -> Label<u16> {
    Some(Known {
        cost: 0,
        step: on(0, 0),
        from: Point {
            node: 0,
            entered: Some(0),
        },
        settled: true,
    })
}

// Whether a label is as earlier use left it.
fn is_stale(label: &Label<u16>) -> bool {
    let Some(known) = label else {
        return false;
    };
    let from = Point {
        node: 0,
        entered: Some(0),
    };
    known.cost == 0 && known.step == on(0, 0) && known.from == from && known.settled
}

// What is refused, of the sample network by WORST, with so many labels, which stay as they were.
fn refused(
    rt: &impl Abort,
    network: &Network,
    from: usize,
    to: usize,
    labels: usize,
) -> Option<BookFault> {
    let mut table = [stale(); 9];
    let labels = table.get_mut(..labels)?;
    let answer = search(&Worst, &all(network), from, to, labels);
    assert!(rt; table.iter().all(is_stale), "as they were");
    answer.err()
}

#[test]
fn refusals(rt: HostRuntime) -> Result<(), Fail> {
    let bytes = SAMPLE.plan(rt.alloc())?;
    let mut tariffs = [0u16; 8];
    let mut converters = [0u16; 16];
    let network = load(bytes.as_slice(), &mut tariffs, &mut converters)?;
    let no_node = Some(BookFault::NoNode);
    for (from, to, labels) in [(4, 0, 8), (0, 4, 9), (256, 3, 8), (3, 65_536, 8), (4, 4, 0)] {
        assert_eq!(rt; refused(&rt, &network, from, to, labels), no_node);
    }
    let short = Some(BookFault::WorkTable);
    for labels in [0, 7] {
        assert_eq!(rt; refused(&rt, &network, 0, 3, labels), short);
    }
    Ok(())
}

// What the labels hold before does not matter, and those beyond the network's stay.
#[test]
fn labels_of_earlier_use(rt: HostRuntime) -> Result<(), Fail> {
    let bytes = SAMPLE.plan(rt.alloc())?;
    let mut tariffs = [0u16; 8];
    let mut converters = [0u16; 16];
    let network = load(bytes.as_slice(), &mut tariffs, &mut converters)?;
    let moment = all(&network);
    let mut labels = [stale(); 10];
    let mut path = [on(9, 9); 8];
    for _ in 0..3 {
        let by_worst = cheapest(&rt, &Worst, &moment, (0, 3), &mut labels, &mut path);
        assert_eq!(rt; by_worst, Some((3, 2)));
        let back = search(&Worst, &moment, 3, 0, &mut labels);
        assert_eq!(rt; back.err(), Some(BookFault::NoPath));
        assert!(rt; labels[8..].iter().all(is_stale), "beyond");
    }
    Ok(())
}
