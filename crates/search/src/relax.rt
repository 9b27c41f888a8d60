ghost use Rattle.std.specs.Prelude.{◌≡◌, ◌≢◌, ◌<◌, ◌↔◌, false, Some, IsTrue, IsSome, MatchOption, ⊤};
ghost use Rattle.network.specs.Rows.{span_rate, exit_rate};
ghost use Rattle.semilightpath.specs.Scenes.{scene};
ghost use Rattle.search.specs.Goals.{Past};
ghost use Rattle.search.specs.Works.{labels_of, KeepsRest};
ghost use Rattle.search.specs.Invariants.{Tries, TriesOn, KeepsSettled};
ghost use Rattle.search.specs.Labels.{IsInside, arrival_of};
ghost use Rattle.semilightpath.specs.Paths.{tail_of};
ghost use Rattle.network.specs.Steps.{Within};
ghost use Rattle.network.specs.Net.{net};

use super::arrival::Arrival;
use super::frontier::propose;
use super::goal::{Goal, is_bound, is_known};
use super::label::Known;
use super::work::Work;
use cost::kind::Kind;
use network::Network;
use network::step::Step;
use semilightpath::fares::Fares;
use semilightpath::point::Point;

// All that follows is compiled into one function: with calls between, a query takes a tenth longer.

// Where a path stands, and what it costs so far.
#[derive(Clone, Copy)]
pub(crate) struct Stand<V> {
    pub(crate) point: Point,
    pub(crate) cost: V,
}

// Where a step arrives, if it takes a channel of the network.
fn arrival(network: &Network, step: Step) -> Option<Arrival>
    ensures { MatchOption result (Within (net network.now).counts step → ⊥) (λ x. (x ≡ arrival_of (net network.now) step) × IsInside (net network.now).counts x × Within (net network.now).counts step) }
{
    let span = network.span(usize::from(step.span))?;
    if usize::from(step.channel) >= network.counts().channels {
        return None;
    }
    Some(Arrival {
        node: span.head,
        channel: step.channel,
    })
}

// Whether the channel that a step takes can be used.
fn is_usable<F: Fares>(fares: &F, step: Step) -> bool
    ensures { IsTrue result ↔ IsSome (F.fare fares.now step) }
{
    fares.fare(step).is_some()
}

// Tries one step from where a path stands, which has left its node on the step's channel at this cost.
// Tells whether a step there that charges more may be worth a try.
#[inline(always)]
fn try_step<K: Kind, F: Fares>(
    kind: &K,
    fares: &F,
    work: &mut Work<'_, K>,
    goal: &mut Goal<K::Value>,
    from: Stand<K::Value>,
    step: Step,
) -> bool
    requires counts { work.old.extent.counts ≡ (F.over fares.now).counts }
    requires tail { tail_of (F.over fares.now) step ≡ from.point.node }
    ensures tries { TriesOn K.ops (scene (F.over fares.now) (F.fare fares.now)) goal.old goal.new (labels_of work.old) (labels_of work.new) from.point from.cost step.channel (λ e. e ≡ step) }
    ensures past { result ≡ false → Past K.ops goal.new.best K.ops.span from.cost (span_rate (F.over fares.now) step.channel step.span) }
    ensures settled { KeepsSettled (labels_of work.old) (labels_of work.new) }
    ensures node { goal.new.node ≡ goal.old.node }
    ensures rest { KeepsRest work.old work.new }
{
    let network = fares.network();
    let Some(tariff) = network.tariff(usize::from(step.span), usize::from(step.channel)) else {
        return false;
    };
    let cost = kind.after_span(from.cost, tariff);
    if is_bound(kind, goal, cost) {
        return !kind.grows();
    }
    let Some(arrival) = arrival(network, step) else {
        return true;
    };
    if is_known(kind, work, arrival, cost) {
        return true;
    }
    if !is_usable(fares, step) {
        return true;
    }
    let known = Known {
        cost,
        step,
        from: from.point,
        settled: false,
    };
    propose(kind, work, arrival, known);
    goal.aim(arrival, cost);
    true
}

// Tries the spans that leave a node, on a channel, from where a path stands that has left the node on
// that channel at this cost: those that charge less come first.
#[inline(always)]
fn try_spans<K: Kind, F: Fares>(
    kind: &K,
    fares: &F,
    work: &mut Work<'_, K>,
    goal: &mut Goal<K::Value>,
    from: Stand<K::Value>,
    channel: u8,
)
    requires counts { work.old.extent.counts ≡ (F.over fares.now).counts }
    ensures tries { TriesOn K.ops (scene (F.over fares.now) (F.fare fares.now)) goal.old goal.new (labels_of work.old) (labels_of work.new) from.point from.cost channel (λ e. e.channel ≡ channel) }
    ensures settled { KeepsSettled (labels_of work.old) (labels_of work.new) }
    ensures node { goal.new.node ≡ goal.old.node }
    ensures rest { KeepsRest work.old work.new }
{
    let network = fares.network();
    for span in network.ways(usize::from(from.point.node), usize::from(channel)) {
        let step = Step {
            span: u16::from(*span),
            channel,
        };
        if !try_step(kind, fares, work, goal, from, step) {
            return;
        }
    }
}

// Tries the steps that leave a node on another channel than it was entered on, from where a path
// stands. Tells whether a channel into which the node converts at more may be worth a try.
#[inline(always)]
fn try_exit<K: Kind, F: Fares>(
    kind: &K,
    fares: &F,
    work: &mut Work<'_, K>,
    goal: &mut Goal<K::Value>,
    from: Stand<K::Value>,
    entered: u8,
    channel: u8,
) -> bool
    requires counts { work.old.extent.counts ≡ (F.over fares.now).counts }
    requires entered { from.point.entered ≡ Some entered }
    ensures tries { Tries K.ops (scene (F.over fares.now) (F.fare fares.now)) goal.old goal.new (labels_of work.old) (labels_of work.new) from.point from.cost (λ e. (e.channel ≡ channel) × (e.channel ≢ entered)) }
    ensures past { result ≡ false → Past K.ops goal.new.best K.ops.conversion from.cost (exit_rate (F.over fares.now) from.point.node entered channel) }
    ensures settled { KeepsSettled (labels_of work.old) (labels_of work.new) }
    ensures node { goal.new.node ≡ goal.old.node }
    ensures rest { KeepsRest work.old work.new }
{
    let point = from.point;
    let node = point.node;
    let network = fares.network();
    let converter = network.converter(
        usize::from(node),
        usize::from(entered),
        usize::from(channel),
    );
    let Some(tariff) = converter else {
        return false;
    };
    let cost = kind.after_conversion(from.cost, tariff);
    if is_bound(kind, goal, cost) {
        return !kind.grows();
    }
    if !is_known(kind, work, Arrival { node, channel }, cost) {
        try_spans(kind, fares, work, goal, Stand { point, cost }, channel);
    }
    true
}

// Tries the steps on every channel that a node converts into, from where a path stands that has entered
// the node on this channel: those into which it converts at less come first.
#[inline(always)]
fn try_exits<K: Kind, F: Fares>(
    kind: &K,
    fares: &F,
    work: &mut Work<'_, K>,
    goal: &mut Goal<K::Value>,
    from: Stand<K::Value>,
    entered: u8,
)
    requires counts { work.old.extent.counts ≡ (F.over fares.now).counts }
    requires entered { from.point.entered ≡ Some entered }
    ensures tries { Tries K.ops (scene (F.over fares.now) (F.fare fares.now)) goal.old goal.new (labels_of work.old) (labels_of work.new) from.point from.cost (λ e. e.channel ≢ entered) }
    ensures settled { KeepsSettled (labels_of work.old) (labels_of work.new) }
    ensures node { goal.new.node ≡ goal.old.node }
    ensures rest { KeepsRest work.old work.new }
{
    let network = fares.network();
    for channel in network.exits(usize::from(from.point.node), usize::from(entered)) {
        if !try_exit(kind, fares, work, goal, from, entered, *channel) {
            return;
        }
    }
}

// Tries the steps on every channel from where a path begins.
fn try_all<K: Kind, F: Fares>(
    kind: &K,
    fares: &F,
    work: &mut Work<'_, K>,
    goal: &mut Goal<K::Value>,
    from: Stand<K::Value>,
)
    requires counts { work.old.extent.counts ≡ (F.over fares.now).counts }
    requires begins { from.point.entered ≡ None }
    ensures tries { Tries K.ops (scene (F.over fares.now) (F.fare fares.now)) goal.old goal.new (labels_of work.old) (labels_of work.new) from.point from.cost (λ e. ⊤) }
    ensures settled { KeepsSettled (labels_of work.old) (labels_of work.new) }
    ensures node { goal.new.node ≡ goal.old.node }
    ensures rest { KeepsRest work.old work.new }
{
    for channel in 0..fares.network().counts().channels as u8 {
        try_spans(kind, fares, work, goal, from, channel);
    }
}

// Tries every step from where a path stands.
#[inline(always)]
pub(crate) fn try_steps<K: Kind, F: Fares>(
    kind: &K,
    fares: &F,
    work: &mut Work<'_, K>,
    goal: &mut Goal<K::Value>,
    from: Stand<K::Value>,
)
    requires counts { work.old.extent.counts ≡ (F.over fares.now).counts }
    ensures tries { Tries K.ops (scene (F.over fares.now) (F.fare fares.now)) goal.old goal.new (labels_of work.old) (labels_of work.new) from.point from.cost (λ e. ⊤) }
    ensures settled { KeepsSettled (labels_of work.old) (labels_of work.new) }
    ensures node { goal.new.node ≡ goal.old.node }
    ensures rest { KeepsRest work.old work.new }
{
    let Some(entered) = from.point.entered else {
        try_all(kind, fares, work, goal, from);
        return;
    };
    try_spans(kind, fares, work, goal, from, entered);
    try_exits(kind, fares, work, goal, from, entered);
}
