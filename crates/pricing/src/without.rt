ghost use Rattle.std.specs.Prelude.{◌≡◌, length, drop, IsSome};
ghost use Rattle.network.specs.Net.{net};
ghost use Rattle.network.specs.Tariffs.{arrival_entries};
ghost use Rattle.semilightpath.specs.Scenes.{scene};
ghost use Rattle.moment.specs.Usable.{fare_at};
ghost use Rattle.search.specs.Answers.{refusal, Answers};
ghost use Rattle.pricing.specs.Pricing.{with_shut, without_refusal, Prices};

use super::closed::Closed;
use cost::kind::Kind;
use fault::book::BookFault;
use moment::Moment;
use network::Network;
use records::channel::Channel;
use records::state::SpanState;
use search::found::Found;
use search::label::Label;
use search::search;

impl Closed<'_> {
    // Searches over what can be used with the span shut.
    fn find<K: Kind>(
        &self,
        kind: &K,
        network: &Network,
        channels: &[Channel],
        from: usize,
        to: usize,
        labels: &mut [Label<K::Value>],
    ) -> Result<Found<K::Value>, BookFault>
        ensures answer { Answers K.ops (scene (net network.now) (fare_at (net network.now) channels.now self.now.spans.now)) from to labels.new (refusal (net network.now).counts from to (length labels.old)) result }
        ensures refused { IsSome (refusal (net network.now).counts from to (length labels.old)) → labels.new ≡ labels.old }
        ensures long { length labels.new ≡ length labels.old }
        ensures beyond { drop (arrival_entries (net network.now).counts) labels.new ≡ drop (arrival_entries (net network.now).counts) labels.old }
    {
        let moment = Moment {
            network,
            channels,
            spans: self.spans,
        };
        search(kind, &moment, from, to, labels)
    }
}

// The least cost from a node to a node over what can be used with a span shut. That span is then as it
// was before, open or shut.
#[tactic(auto, using(crate::proofs::Restored::restored))]
pub fn price_without<K: Kind>(
    kind: &K,
    network: &Network,
    channels: &[Channel],
    spans: &mut [SpanState],
    span: usize,
    from: usize,
    to: usize,
    labels: &mut [Label<K::Value>],
) -> Result<K::Value, BookFault>
    ensures answer { Prices K.ops (scene (net network.now) (fare_at (net network.now) channels.now (with_shut span spans.old))) from to (without_refusal (net network.now).counts span (length spans.old) from to (length labels.old)) result }
    ensures spans { spans.new ≡ spans.old }
    ensures refused { IsSome (without_refusal (net network.now).counts span (length spans.old) from to (length labels.old)) → labels.new ≡ labels.old }
    ensures long { length labels.new ≡ length labels.old }
    ensures beyond { drop (arrival_entries (net network.now).counts) labels.new ≡ drop (arrival_entries (net network.now).counts) labels.old }
{
    if span >= spans.len() {
        return Err(BookFault::NoSpan);
    }
    let closed = Closed::shut(spans, span);
    let found = closed.find(kind, network, channels, from, to, labels)?;
    Ok(found.cost)
}
