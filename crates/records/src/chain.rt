ghost use Rattle.std.specs.Prelude.{◌≡◌};
ghost use Rattle.network.specs.Tariffs.{span_entry};
ghost use Rattle.records.specs.Chains.{channel_at, next};
ghost use Rattle.records.specs.Changes.{written};

use super::channel::Channel;
use network::extent::Extent;
use network::step::Step;

// Where the record of the channel that a step takes stands.
fn entry_of(extent: Extent, step: Step) -> usize
    ensures { result ≡ span_entry extent.counts step.span step.channel }
{
    usize::from(step.span) * extent.counts().channels + usize::from(step.channel)
}

// The record that stands in the entry of a step's channel. Past the end of the table all are free.
pub fn channel_at(extent: Extent, channels: &[Channel], step: Step) -> Channel
    ensures { result ≡ channel_at extent.counts channels.now step }
{
    channels.get(entry_of(extent, step)).copied().flatten()
}

// The step that follows on the path of the circuit that holds the channel.
pub fn next_step(extent: Extent, channels: &[Channel], step: Step) -> Option<Step>
    ensures { result ≡ next (channel_at extent.counts channels.now step) }
{
    channel_at(extent, channels, step)?.next
}

// Writes the record of the channel that a step takes. Past the end of the table nothing is written.
pub fn write(extent: Extent, channels: &mut [Channel], step: Step, hold: Channel)
    ensures { channels.new ≡ written extent.counts channels.old step hold }
{
    let entry = entry_of(extent, step);
    if entry < channels.len() {
        channels[entry] = hold;
    }
}
