//! Another way to the least costs: a table of what each arrival costs, which is gone over again and
//! again, span by span and channel by channel, until no cost becomes less. Nothing is ever settled.

use cost::kind::Kind;
use moment::Moment;
use network::table::fill;
use records::state::SpanState;

// How many rounds there are at most: some cheapest path arrives nowhere twice, so it has 1,024 steps at
// most, and one round more changes nothing.
const ROUNDS: usize = 1025;

// What is charged for a span on a channel, if that can be used.
fn fare(moment: &Moment, span: usize, channel: usize) -> Option<u16> {
    let channels = moment.network.counts().channels;
    let entry = span.saturating_mul(channels).saturating_add(channel);
    if let Some(Some(_)) = moment.channels.get(entry) {
        return None;
    }
    match moment.spans.get(span) {
        Some(SpanState::Shut) => None,
        _ => moment.network.tariff(span, channel),
    }
}

// The cost of an arrival, if one is known.
fn cost_at<V: Copy>(
    moment: &Moment,
    costs: &[Option<V>],
    node: usize,
    channel: usize,
) -> Option<V> {
    let entry = moment.network.extent().arrival_entry(node, channel)?;
    costs.get(entry).copied().flatten()
}

// The lesser of two costs, of which each may be missing.
fn lesser<K: Kind>(kind: &K, a: Option<K::Value>, b: Option<K::Value>) -> Option<K::Value> {
    match (a, b) {
        (Some(x), Some(y)) => Some(if kind.at_most(x, y) { x } else { y }),
        (Some(x), None) => Some(x),
        (None, y) => y,
    }
}

// The cost of a path that has entered a node on one channel, once it leaves on another.
fn turned<K: Kind>(
    kind: &K,
    moment: &Moment,
    costs: &[Option<K::Value>],
    node: usize,
    entered: usize,
    channel: usize,
) -> Option<K::Value> {
    let cost = cost_at(moment, costs, node, entered)?;
    if entered == channel {
        return Some(cost);
    }
    let tariff = moment.network.converter(node, entered, channel)?;
    Some(kind.after_conversion(cost, tariff))
}

// The least cost of a path that is about to leave a node on a channel.
fn ready<K: Kind>(
    kind: &K,
    moment: &Moment,
    costs: &[Option<K::Value>],
    from: usize,
    node: usize,
    channel: usize,
) -> Option<K::Value> {
    let mut best = (node == from).then_some(kind.start());
    for entered in 0..moment.network.counts().channels {
        let cost = turned(kind, moment, costs, node, entered, channel);
        best = lesser(kind, best, cost);
    }
    best
}

// The least cost after a span on a channel, and where that arrives.
fn beyond<K: Kind>(
    kind: &K,
    moment: &Moment,
    costs: &[Option<K::Value>],
    from: usize,
    span: usize,
    channel: usize,
) -> Option<(usize, K::Value)> {
    let tariff = fare(moment, span, channel)?;
    let ends = moment.network.span(span)?;
    let cost = ready(kind, moment, costs, from, usize::from(ends.tail), channel)?;
    let extent = moment.network.extent();
    let entry = extent.arrival_entry(usize::from(ends.head), channel)?;
    Some((entry, kind.after_span(cost, tariff)))
}

// Writes a cost into the table where it is less than what stands there, and tells whether it is.
fn lower<K: Kind>(kind: &K, costs: &mut [Option<K::Value>], entry: usize, cost: K::Value) -> bool {
    let Some(place) = costs.get_mut(entry) else {
        return false;
    };
    if let Some(known) = *place {
        if kind.at_most(known, cost) {
            return false;
        }
    }
    *place = Some(cost);
    true
}

// Goes over the channels of a span, and tells whether a cost became less.
fn over_span<K: Kind>(
    kind: &K,
    moment: &Moment,
    costs: &mut [Option<K::Value>],
    from: usize,
    span: usize,
) -> bool {
    let mut less = false;
    for channel in 0..moment.network.counts().channels {
        if let Some((entry, cost)) = beyond(kind, moment, costs, from, span, channel) {
            less |= lower(kind, costs, entry, cost);
        }
    }
    less
}

// Goes over all spans once, and tells whether a cost became less.
fn round<K: Kind>(kind: &K, moment: &Moment, costs: &mut [Option<K::Value>], from: usize) -> bool {
    let mut less = false;
    for span in 0..moment.network.counts().spans {
        less |= over_span(kind, moment, costs, from, span);
    }
    less
}

// Fills a table with the least costs of the paths from a node, by where they arrive.
pub(crate) fn costs_from<K: Kind>(
    kind: &K,
    moment: &Moment,
    from: usize,
    costs: &mut [Option<K::Value>],
) {
    let entries = costs.len();
    fill(costs, entries, None);
    for _ in 0..ROUNDS {
        if !round(kind, moment, costs, from) {
            return;
        }
    }
}

// The least cost of the paths to a node, on whatever channel they arrive.
pub(crate) fn cost_to<K: Kind>(
    kind: &K,
    moment: &Moment,
    costs: &[Option<K::Value>],
    to: usize,
) -> Option<K::Value> {
    let mut best = None;
    for channel in 0..moment.network.counts().channels {
        best = lesser(kind, best, cost_at(moment, costs, to, channel));
    }
    best
}
