use super::router::{cost_to, costs_from};
use super::score::Score;
use super::told::Told;
use cost::kind::Kind;
use fault::book::BookFault;
use moment::Moment;
use network::step::Step;
use search::label::Label;
use search::path::read_path;
use search::search;
use semilightpath::path::{cost, distinct, is_semilightpath};
use std::alloc::{AllocError, Global};

// What queries by one kind work on: the search's labels, a path, and the costs by the other router.
#[derive(Drop)]
struct Room<V> {
    labels: Vec<Label<V>>,
    path: Vec<Step>,
    costs: Vec<Option<V>>,
}

impl<V: Copy> Room<V> {
    // Room for the largest networks.
    fn new(heap: Global) -> Result<Room<V>, AllocError> {
        let step = Step {
            span: 0,
            channel: 0,
        };
        Ok(Room {
            labels: vec![in heap; None; 1024]?,
            path: vec![in heap; step; 1024]?,
            costs: vec![in heap; None; 1024]?,
        })
    }
}

// What the search answers: a cost for which it has a path, none, or what is wrong by itself.
#[derive(Clone, Copy)]
enum Answer<V> {
    Found(V),
    None,
    Wrong,
}

// Whether two costs are at most each other.
fn equal<K: Kind>(kind: &K, a: K::Value, b: K::Value) -> bool {
    kind.at_most(a, b) && kind.at_most(b, a)
}

// Whether a path is what the search says: a semilightpath at that cost on which no step is twice.
fn stands<K: Told>(
    kind: &K,
    moment: &Moment,
    from: usize,
    to: usize,
    path: &[Step],
    told: K::Value,
) -> bool {
    is_semilightpath(moment, from, to, path)
        && distinct(path)
        && K::told(cost(kind, moment, path)) == K::told(told)
}

// What the search answers from one node to another, with its path judged.
fn ask_one<K: Told>(
    kind: &K,
    moment: &Moment,
    from: usize,
    to: usize,
    labels: &mut [Label<K::Value>],
    path: &mut [Step],
) -> Answer<K::Value> {
    let found = match search(kind, moment, from, to, labels) {
        Ok(found) => found,
        Err(BookFault::NoPath) => return Answer::None,
        Err(_) => return Answer::Wrong,
    };
    let count = read_path(moment.network, labels, found.end, path);
    match count.and_then(|count| path.get(..count)) {
        Some(path) if stands(kind, moment, from, to, path, found.cost) => Answer::Found(found.cost),
        _ => Answer::Wrong,
    }
}

// Notes what the search answers, if the other router's least cost is the same.
fn note<K: Told>(kind: &K, answer: Answer<K::Value>, least: Option<K::Value>, score: &mut Score) {
    match (answer, least) {
        (Answer::Found(cost), Some(least)) if equal(kind, cost, least) => {
            score.found(K::told(least));
        }
        (Answer::None, None) => score.none(),
        _ => score.wrong(),
    }
}

// Asks from one node to the last nodes, so many of them.
fn ask_from<K: Told>(
    kind: &K,
    moment: &Moment,
    from: usize,
    ends: usize,
    room: &mut Room<K::Value>,
    score: &mut Score,
) {
    let Room {
        labels,
        path,
        costs,
    } = room;
    costs_from(kind, moment, from, costs.as_mut_slice());
    let nodes = moment.network.counts().nodes;
    for to in nodes.saturating_sub(ends)..nodes {
        let answer = ask_one(
            kind,
            moment,
            from,
            to,
            labels.as_mut_slice(),
            path.as_mut_slice(),
        );
        let least = cost_to(kind, moment, costs.as_slice(), to);
        note(kind, answer, least, score);
    }
}

// Asks by one kind from each of the last nodes to each of them.
pub(crate) fn ask<K: Told>(
    kind: &K,
    heap: Global,
    moment: &Moment,
    ends: usize,
    score: &mut Score,
) -> Result<(), AllocError> {
    let mut room = Room::new(heap)?;
    let nodes = moment.network.counts().nodes;
    for from in nodes.saturating_sub(ends)..nodes {
        ask_from(kind, moment, from, ends, &mut room, score);
    }
    Ok(())
}
