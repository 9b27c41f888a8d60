//! A book over networks that are drawn: its trials beside the other router with that span shut, and what it
//! reckons of circuits beside their paths, as the tables chain them.

use super::draws::Draws;
use super::groups::GROUPS;
use super::router::{cost_to, costs_from};
use super::score::Score;
use super::shape::Shape;
use super::told::Told;
use book::lent::Lent;
use book::offer::Offered;
use book::{Book, check_tables};
use cost::fee::Fee;
use cost::few::Few;
use cost::kind::Kind;
use cost::sum::Sum;
use cost::tally::Tally;
use cost::worst::Worst;
use fault::book::BookFault;
use moment::Moment;
use network::Network;
use network::step::Step;
use plan::reader::check;
use records::channel::Channel;
use records::circuit::{Circuit, Route};
use records::state::SpanState;
use search::label::Label;
use std::alloc::{AllocError, Global};
use std::mem::replace;
use std::process::Abort;
use std::test::Fail;

// How many circuits are ordered of a book.
const ORDERS: u16 = 9;

// A cost in numbers.
type Numbers = [u32; 2];

// The tables of a book.
#[derive(Drop)]
struct Tables {
    channels: Vec<Channel>,
    circuits: Vec<Circuit>,
    spans: Vec<SpanState>,
}

impl Tables {
    // Tables for a network.
    fn new(heap: Global, network: &Network) -> Result<Tables, AllocError> {
        let extent = network.extent();
        Ok(Tables {
            channels: vec![in heap; None; extent.span_entries()]?,
            circuits: vec![in heap; Circuit::Free; 128]?,
            spans: vec![in heap; SpanState::Open; extent.counts().spans]?,
        })
    }

    // What they lend.
    fn lent(&mut self) -> Lent<'_, '_, '_> {
        Lent {
            channels: self.channels.as_mut_slice(),
            circuits: self.circuits.as_mut_slice(),
            spans: self.spans.as_mut_slice(),
        }
    }
}

// A book of the network, over tables that have to have room.
fn open<'a, 'b, 'c>(
    rt: &impl Abort,
    network: &Network,
    lent: Lent<'a, 'b, 'c>,
) -> Book<'a, 'b, 'c> {
    let Lent {
        channels,
        circuits,
        spans,
    } = lent;
    let room = check_tables(network, channels, circuits, spans);
    assert_eq!(rt; room, Ok(()));
    let lent = Lent {
        channels,
        circuits,
        spans,
    };
    Book::open(network, 1, lent)
}

// What queries by one kind work on: the search's labels, and the costs by the other router.
#[derive(Drop)]
struct Room<V> {
    labels: Vec<Label<V>>,
    costs: Vec<Option<V>>,
}

impl<V: Copy> Room<V> {
    // Room for a network.
    fn new(heap: Global, network: &Network) -> Result<Room<V>, AllocError> {
        let entries = network.extent().arrival_entries();
        Ok(Room {
            labels: vec![in heap; None; entries]?,
            costs: vec![in heap; None; entries]?,
        })
    }
}

// A drawn order: a circuit, and from where to where.
type Order = (u16, u16, u16);

// Lights a circuit where there is a way; told is what the offer tells.
fn light<K: Told>(
    rt: &impl Abort,
    book: &mut Book,
    network: &Network,
    (circuit, from, to): Order,
    kind: &K,
    room: &mut Room<K::Value>,
) -> Option<Numbers> {
    let labels = room.labels.as_mut_slice();
    match book.offer(network, circuit, from, to, kind, labels) {
        Ok(
            Offered {
                cost,
                steps: _,
                offer,
            },
        ) => match book.confirm(offer) {
            Ok(_) => Some(K::told(cost)),
            Err(_) => rt.abort(),
        },
        Err(fault) => {
            assert!(rt;
                matches!(fault, BookFault::SameNode | BookFault::NoPath),
                "{circuit}"
            );
            None
        }
    }
}

// Room for each kind.
#[derive(Drop)]
struct Rooms {
    sum: Room<Fee>,
    few: Room<Tally>,
    worst: Room<u16>,
}

impl Rooms {
    // Room for a network.
    fn new(heap: Global, network: &Network) -> Result<Rooms, AllocError> {
        Ok(Rooms {
            sum: Room::new(heap, network)?,
            few: Room::new(heap, network)?,
            worst: Room::new(heap, network)?,
        })
    }
}

// A count as a number of 16 bits.
fn short(count: usize) -> u16 {
    u16::try_from(count).unwrap_or(0)
}

// Lights circuits between nodes that are drawn, each by another kind than the last; told is what each of
// their offers tells.
fn light_all(
    rt: &impl Abort,
    heap: Global,
    book: &mut Book,
    network: &Network,
    draws: &mut Draws,
    rooms: &mut Rooms,
) -> Result<Vec<Option<Numbers>>, AllocError> {
    let nodes = short(network.counts().nodes);
    let mut told = Vec::new(heap);
    for circuit in 0..ORDERS {
        let order = (circuit, draws.below(nodes), draws.below(nodes));
        let cost = match circuit % 3 {
            0 => light(rt, book, network, order, &Sum, &mut rooms.sum),
            1 => light(rt, book, network, order, &Few, &mut rooms.few),
            _ => light(rt, book, network, order, &Worst, &mut rooms.worst),
        };
        told.push(cost)?;
    }
    Ok(told)
}

// Shuts spans, of which each has so many chances of 16.
fn shut_some(rt: &impl Abort, book: &mut Book, network: &Network, draws: &mut Draws, chances: u16) {
    for span in 0..short(network.counts().spans) {
        if draws.comes(chances) {
            assert_eq!(rt; book.shut(span), Ok(()));
        }
    }
}

// Shuts some spans, lights circuits, and shuts some more.
fn settle(
    rt: &impl Abort,
    heap: Global,
    book: &mut Book,
    network: &Network,
    mut draws: Draws,
    rooms: &mut Rooms,
) -> Result<Vec<Option<Numbers>>, AllocError> {
    shut_some(rt, book, network, &mut draws, 1);
    let told = light_all(rt, heap, book, network, &mut draws, rooms)?;
    shut_some(rt, book, network, &mut draws, 2);
    Ok(told)
}

// What a trial comes to, nothing where there is no way.
fn tried<K: Told>(
    rt: &impl Abort,
    book: &mut Book,
    network: &Network,
    (from, to, span): (u16, u16, u16),
    kind: &K,
    labels: &mut [Label<K::Value>],
) -> Option<Numbers> {
    match book.trial(network, from, to, span, kind, labels) {
        Ok(cost) => Some(K::told(cost)),
        Err(fault) => {
            assert_eq!(rt; fault, BookFault::NoPath);
            None
        }
    }
}

// Tries a span from a node to each other one. It is shut at the moment that the other router goes by.
fn try_span<K: Told>(
    rt: &impl Abort,
    book: &mut Book,
    moment: &Moment,
    (from, span): (u16, u16),
    kind: &K,
    room: &mut Room<K::Value>,
    score: &mut Score,
) {
    let Room { labels, costs } = room;
    costs_from(kind, moment, usize::from(from), costs.as_mut_slice());
    for to in 0..short(moment.network.counts().nodes) {
        if to != from {
            let trial = (from, to, span);
            let answer = tried(rt, book, moment.network, trial, kind, labels.as_mut_slice());
            let least = cost_to(kind, moment, costs.as_slice(), usize::from(to));
            let least = match least {
                Some(cost) => Some(K::told(cost)),
                None => None,
            };
            assert_eq!(rt; answer, least, "{from} {to} {span}");
            match least {
                Some(cost) => score.found(cost),
                None => score.none(),
            }
        }
    }
}

// Sets the state of a span; told is what it was.
fn set(spans: &mut [SpanState], span: u16, state: SpanState) -> SpanState {
    match spans.get_mut(usize::from(span)) {
        Some(place) => replace(place, state),
        None => state,
    }
}

// Tries a span by each kind, from a node to each other one.
fn try_by_each(
    rt: &impl Abort,
    book: &mut Book,
    moment: &Moment,
    trial: (u16, u16),
    rooms: &mut Rooms,
    score: &mut Score,
) {
    try_span(rt, book, moment, trial, &Sum, &mut rooms.sum, score);
    try_span(rt, book, moment, trial, &Few, &mut rooms.few, score);
    try_span(rt, book, moment, trial, &Worst, &mut rooms.worst, score);
}

// The same, where the tables are the book's.
fn try_without(
    rt: &impl Abort,
    book: &mut Book,
    network: &Network,
    tables: &mut Tables,
    (from, span): (u16, u16),
    rooms: &mut Rooms,
    score: &mut Score,
) {
    let former = set(tables.spans.as_mut_slice(), span, SpanState::Shut);
    let moment = Moment {
        network,
        channels: tables.channels.as_slice(),
        spans: tables.spans.as_slice(),
    };
    try_by_each(rt, book, &moment, (from, span), rooms, score);
    set(tables.spans.as_mut_slice(), span, former);
}

// Tries each span, from a node that is drawn.
fn try_spans(
    rt: &impl Abort,
    book: &mut Book,
    network: &Network,
    tables: &mut Tables,
    draws: &mut Draws,
    rooms: &mut Rooms,
    score: &mut Score,
) {
    let counts = network.counts();
    for span in 0..short(counts.spans) {
        let from = draws.below(short(counts.nodes));
        try_without(rt, book, network, tables, (from, span), rooms, score);
    }
}

// The value after a step more of a path that can be gone.
fn after_step<K: Kind>(
    rt: &impl Abort,
    kind: &K,
    network: &Network,
    value: K::Value,
    entered: Option<u8>,
    step: Step,
) -> K::Value {
    let (span, channel) = (usize::from(step.span), usize::from(step.channel));
    let node = usize::from(network.span(span).expect(rt, "a span").tail);
    let turned = match entered {
        Some(entered) if entered != step.channel => {
            let converter = network.converter(node, usize::from(entered), channel);
            kind.after_conversion(value, converter.expect(rt, "a converter"))
        }
        _ => value,
    };
    let tariff = network.tariff(span, channel).expect(rt, "a tariff");
    kind.after_span(turned, tariff)
}

// What a route's path costs, as the records chain it.
fn cost_along<K: Kind>(
    rt: &impl Abort,
    kind: &K,
    network: &Network,
    channels: &[Channel],
    route: Route,
) -> K::Value {
    let width = network.counts().channels;
    let mut value = kind.start();
    let mut entered = None;
    let mut at = Some(route.first);
    for _ in 0..route.steps {
        let step = at.expect(rt, "a step");
        value = after_step(rt, kind, network, value, entered, step);
        entered = Some(step.channel);
        let entry = usize::from(step.span)
            .saturating_mul(width)
            .saturating_add(usize::from(step.channel));
        let record = channels.get(entry).copied().flatten();
        at = record.expect(rt, "a hold").next;
    }
    assert!(rt; at.is_none(), "the end");
    value
}

// What a circuit is reckoned at, nothing where it is free.
fn reckoned<K: Told>(
    rt: &impl Abort,
    book: &Book,
    network: &Network,
    tables: &Tables,
    circuit: u16,
    kind: &K,
) -> Option<Numbers> {
    let record = tables
        .circuits
        .as_slice()
        .get(usize::from(circuit))
        .copied();
    let answer = book.reckon(network, circuit, kind);
    let Some(route) = record.expect(rt, "a record").standing() else {
        assert!(rt; matches!(answer, Err(BookFault::CircuitState)), "{circuit}");
        return None;
    };
    let cost = answer.expect(rt, "a cost");
    let along = cost_along(rt, kind, network, tables.channels.as_slice(), route);
    assert_eq!(rt; K::told(cost), K::told(along), "{circuit}");
    Some(K::told(cost))
}

// Reckons all circuits. By the kind of its offer each is reckoned at what that told.
fn reckon_all(
    rt: &impl Abort,
    book: &Book,
    network: &Network,
    tables: &Tables,
    told: &[Option<Numbers>],
    score: &mut Score,
) {
    for (circuit, cost) in (0..ORDERS).zip(told) {
        let by_sum = reckoned(rt, book, network, tables, circuit, &Sum);
        let by_few = reckoned(rt, book, network, tables, circuit, &Few);
        let by_worst = reckoned(rt, book, network, tables, circuit, &Worst);
        let again = match circuit % 3 {
            0 => by_sum,
            1 => by_few,
            _ => by_worst,
        };
        assert_eq!(rt; again, *cost, "{circuit}");
        match again {
            Some(cost) => score.found(cost),
            None => score.none(),
        }
    }
}

// That two sets of tables hold the same.
fn same(rt: &impl Abort, one: &Tables, other: &Tables) {
    assert!(rt;
        one.channels.as_slice() == other.channels.as_slice(),
        "channels"
    );
    assert!(rt;
        one.circuits.as_slice() == other.circuits.as_slice(),
        "circuits"
    );
    assert!(rt; one.spans.as_slice() == other.spans.as_slice(), "spans");
}

// What was asked of the books.
#[derive(Drop)]
struct Scores {
    trials: Score,
    reckonings: Score,
}

// Asks a book of a network that is drawn. The same is done at two books, and the tables of the one tell
// what those of the other hold, while it is asked and afterwards.
fn ask_book(
    rt: &impl Abort,
    heap: Global,
    draws: &mut Draws,
    shape: Shape,
    scores: &mut Scores,
) -> Result<(), Fail> {
    let bytes = shape.plan(heap, draws)?;
    let mut tariffs = [0u16; 4096];
    let mut converters = [0u16; 16384];
    let plan = check(bytes.as_slice(), &tariffs, &converters)?;
    plan.load(&mut tariffs, &mut converters);
    let network = plan.network(&tariffs, &converters);
    let mut rooms = Rooms::new(heap, &network)?;
    let mut unasked = Tables::new(heap, &network)?;
    let mut asked = Tables::new(heap, &network)?;
    let mut other = open(rt, &network, unasked.lent());
    settle(rt, heap, &mut other, &network, *draws, &mut rooms)?;
    let mut book = open(rt, &network, asked.lent());
    let told = settle(rt, heap, &mut book, &network, *draws, &mut rooms)?;
    let told = told.as_slice();
    reckon_all(rt, &book, &network, &unasked, told, &mut scores.reckonings);
    try_spans(
        rt,
        &mut book,
        &network,
        &mut unasked,
        draws,
        &mut rooms,
        &mut scores.trials,
    );
    reckon_all(rt, &book, &network, &unasked, told, &mut scores.reckonings);
    same(rt, &asked, &unasked);
    Ok(())
}

#[test]
fn books_of_drawn_networks(rt: HostRuntime) -> Result<(), Fail> {
    let mut scores = Scores {
        trials: Score::new(),
        reckonings: Score::new(),
    };
    for group in GROUPS.iter().take(9) {
        let mut draws = Draws::new(group.seed);
        for _ in 0..40u8 {
            ask_book(&rt, rt.alloc(), &mut draws, group.shape, &mut scores)?;
        }
    }
    let Scores { trials, reckonings } = scores;
    assert!(rt;
        trials.found > 15_000 && trials.none > 15_000,
        "trials of both sorts"
    );
    assert!(rt;
        reckonings.found > 1500 && reckonings.none > 1500,
        "circuits of both sorts"
    );
    Ok(())
}
