ghost use Rattle.std.specs.Prelude.{◌≡◌, ◌+◌, ◌≤◌, length, Some};
ghost use Rattle.std.specs.Option.{option_and_then, option_map};
ghost use Rattle.network.specs.Net.{net};
ghost use Rattle.records.specs.Chains.{next, channel_at, along};
ghost use Rattle.slip.specs.Slips.{blank, label_of, port, node_between, between, slip, SettingsLead, Tells};

use super::setting::{BLANK, NO_NODE, Port, Setting};
use label::Label;
use network::Network;
use network::extent::Extent;
use network::step::Step;
use records::chain::next_step;
use records::channel::Channel;
use records::circuit::Route;
use semilightpath::step::ends;

// The label of a step.
pub fn label(network: &Network, step: Step) -> Label
    ensures { result ≡ label_of (net network.now) step }
{
    let number = network.number(usize::from(step.channel)).unwrap_or(0);
    let Ok(label) = Label::write(network.spacing().code(), number) else {
        unreachable!()
    };
    label
}

// Where a step leaves one node and enters the next.
fn port(network: &Network, step: Step) -> Port
    ensures { result ≡ port (net network.now) step }
{
    Port {
        span: step.span,
        label: label(network, step),
    }
}

// The port of a step, where there is a step.
fn side(network: &Network, step: Option<Step>) -> Option<Port>
    ensures { result ≡ option_map (port (net network.now)) step }
{
    Some(port(network, step?))
}

// The node that is passed between two steps, none where there is neither.
fn node_between(network: &Network, before: Option<Step>, after: Option<Step>) -> u8
    ensures { result ≡ node_between (net network.now) before after }
{
    match (before, after) {
        (_, Some(step)) => ends(network, step).tail,
        (Some(step), None) => ends(network, step).head,
        (None, None) => NO_NODE,
    }
}

// The setting at the node that is passed between two steps, of which there may be either one alone.
pub fn setting(network: &Network, before: Option<Step>, after: Option<Step>) -> Setting
    ensures { result ≡ between (net network.now) before after }
{
    Setting {
        node: node_between(network, before, after),
        input: side(network, before),
        output: side(network, after),
    }
}

// The step that follows a step, where there is a step and one follows.
fn following(extent: Extent, channels: &[Channel], step: Option<Step>) -> Option<Step>
    ensures { result ≡ option_and_then (λ s. next (channel_at extent.counts channels.now s)) step }
{
    next_step(extent, channels, step?)
}

// Writes the settings along a route's path, as the records of the channels chain it, and fills the
// rest of the buffer with blanks, each of them `BLANK`. A short buffer gets the settings for which it
// has room.
#[tactic(auto, using(records::proofs::Chained::chain_first, crate::proofs::Written::written_all))]
pub fn write_slip(network: &Network, channels: &[Channel], route: Route, buffer: &mut [Setting])
    ensures is { buffer.new ≡ slip (net network.now) (along (net network.now).counts channels.now (Some route)) (length buffer.old) }
    ensures tells { length (along (net network.now).counts channels.now (Some route)) + 1 ≤ length buffer.old → Tells (net network.now) (along (net network.now).counts channels.now (Some route)) buffer.new }
    ensures lead { SettingsLead (net network.now) (along (net network.now).counts channels.now (Some route)) }
    ensures blank { BLANK ≡ blank }
{
    let extent = network.extent();
    let steps = usize::from(route.steps);
    let mut before = None;
    let mut at = Some(route.first);
    for place in 0..buffer.len() {
        let here = if place < steps { at } else { None };
        buffer[place] = setting(network, before, here);
        before = here;
        at = following(extent, channels, here);
    }
}
