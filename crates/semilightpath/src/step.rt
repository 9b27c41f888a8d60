ghost use Rattle.std.specs.Prelude.{◌≡◌, ◌↔◌, IsTrue};
ghost use Rattle.network.specs.Net.{net};
ghost use Rattle.cost.specs.Charges.{after_all};
ghost use Rattle.semilightpath.specs.Scenes.{scene};
ghost use Rattle.semilightpath.specs.Paths.{tail_of, head_of, GoesOn, Joins};
ghost use Rattle.semilightpath.specs.Costs.{conversion, after_step};

use super::fares::Fares;
use cost::kind::Kind;
use network::Network;
use network::span::Span;
use network::step::Step;

// What is charged where no tariff is: the largest.
const LARGEST_TARIFF: u16 = 65534;

// The ends of a step's span; what is no span joins node 0 to itself.
pub fn ends(network: &Network, step: Step) -> Span
    ensures tail { result.tail ≡ tail_of (net network.now) step }
    ensures head { result.head ≡ head_of (net network.now) step }
{
    network
        .span(usize::from(step.span))
        .unwrap_or(Span { tail: 0, head: 0 })
}

// Whether a node that was entered on one channel, if on any, can be left on this one.
fn joins(network: &Network, node: usize, entered: Option<u8>, channel: u8) -> bool
    ensures { IsTrue result ↔ Joins (net network.now) (record { node = node; entered = entered }) channel }
{
    let Some(entered) = entered else {
        return true;
    };
    let converter = network.converter(node, usize::from(entered), usize::from(channel));
    entered == channel || converter.is_some()
}

// Whether a path that stands at a node, entered on this channel if on any, can go on by a step.
pub(crate) fn goes_on<F: Fares>(fares: &F, node: usize, entered: Option<u8>, step: Step) -> bool
    ensures { IsTrue result ↔ GoesOn (scene (F.over fares.now) (F.fare fares.now)) (record { node = node; entered = entered }) step }
{
    let network = fares.network();
    let Some(span) = network.span(usize::from(step.span)) else {
        return false;
    };
    if usize::from(span.tail) != node || usize::from(step.channel) >= network.counts().channels {
        return false;
    }
    if fares.fare(step).is_none() {
        return false;
    }
    joins(network, node, entered, step.channel)
}

// The value after what changing channels at a node charges.
fn converted<K: Kind>(
    kind: &K,
    network: &Network,
    value: K::Value,
    node: usize,
    entered: Option<u8>,
    channel: u8,
) -> K::Value
    ensures { result ≡ after_all K.ops value (conversion (net network.now) node entered channel) }
{
    let Some(entered) = entered else {
        return value;
    };
    if entered == channel {
        return value;
    }
    let tariff = network.converter(node, usize::from(entered), usize::from(channel));
    kind.after_conversion(value, tariff.unwrap_or(LARGEST_TARIFF))
}

// The value after what one more step charges, whether or not a path can go on by it.
pub fn priced<K: Kind, F: Fares>(
    kind: &K,
    fares: &F,
    value: K::Value,
    entered: Option<u8>,
    step: Step,
) -> K::Value
    ensures { result ≡ after_step K.ops (scene (F.over fares.now) (F.fare fares.now)) entered value step }
{
    let network = fares.network();
    let node = usize::from(ends(network, step).tail);
    let converted = converted(kind, network, value, node, entered, step.channel);
    kind.after_span(converted, fares.fare(step).unwrap_or(LARGEST_TARIFF))
}
