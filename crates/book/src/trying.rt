ghost use Rattle.std.specs.Prelude.{◌≡◌, ◌<◌, length, drop, IsSome};
ghost use Rattle.fault.specs.Judging.{first, unless};
ghost use Rattle.network.specs.Net.{net};
ghost use Rattle.network.specs.Tariffs.{arrival_entries};
ghost use Rattle.book.specs.Calls.{Tries, Reckons};
ghost use Rattle.book.specs.Numbered.{cost_in_numbers};
ghost use Rattle.book.specs.Refusing.{of_trial, trial_refusal};
ghost use Rattle.cost.specs.Numbers.{Numbering, in_numbers};
ghost use Rattle.pricing.specs.Pricing.{Prices};
ghost use Rattle.search.specs.Answers.{refusal};
ghost use Rattle.book.specs.Answering.{scene_without};
ghost use Rattle.book.specs.State.{tables, contents, Kept, SameTables};

use super::Book;
use super::lent::Lent;
use cost::kind::Kind;
use fault::book::BookFault;
use network::Network;
use pricing::{price_standing, price_without};
use records::channel::Channel;
use search::label::Label;

impl Book<'_, '_, '_> {
    // Refuses a trial that no search is needed for to refuse.
    fn judge_trial(&self, network: &Network, from: u16, to: u16, span: u16) -> Result<(), BookFault>
        ensures { result ≡ unless (first (of_trial self.now.extent.counts (net network.now).counts from to span)) tt }
    {
        self.judge_network(network)?;
        let counts = network.counts();
        if usize::from(from) >= counts.nodes || usize::from(to) >= counts.nodes {
            return Err(BookFault::NoNode);
        }
        if from == to {
            return Err(BookFault::SameNode);
        }
        if usize::from(span) >= counts.spans {
            return Err(BookFault::NoSpan);
        }
        Ok(())
    }

    // The least cost from a node to a node over what could be used if a span were shut, by a kind of
    // cost. Nothing is taken, and the span stays as it is. What the labels hold after a search stays open;
    // labels beyond those that the network needs stay.
    pub fn trial<K: Kind>(
        &mut self,
        network: &Network,
        from: u16,
        to: u16,
        span: u16,
        kind: &K,
        labels: &mut [Label<K::Value>],
    ) -> Result<K::Value, BookFault>
        ensures kept { Kept self.old self.new }
        ensures tables { tables self.new ≡ tables self.old }
        ensures call { Tries K.ops (net network.now) self.old.extent.counts (tables self.old) from to span (length labels.old) result }
        ensures numbered { (c : Numbering K.Value) → Tries (in_numbers c K.ops) (net network.now) self.old.extent.counts (tables self.old) from to span (length labels.old) (cost_in_numbers c result) }
        ensures refused { IsSome (trial_refusal self.old.extent.counts (net network.now).counts from to span (length labels.old)) → labels.new ≡ labels.old }
        ensures long { length labels.new ≡ length labels.old }
        ensures beyond { drop (arrival_entries (net network.now).counts) labels.new ≡ drop (arrival_entries (net network.now).counts) labels.old }
    {
        self.judge_trial(network, from, to, span)?;
        let (span, from, to) = (usize::from(span), usize::from(from), usize::from(to));
        self.lent
            .price_without(kind, network, span, from, to, labels)
    }

    // What a standing circuit's path costs, by a kind of cost and the network's tariffs.
    pub fn reckon<K: Kind>(
        &self,
        network: &Network,
        circuit: u16,
        kind: &K,
    ) -> Result<K::Value, BookFault>
        ensures call { Reckons K.ops (net network.now) self.now.extent.counts (tables self.now) circuit result }
        ensures numbered { (c : Numbering K.Value) → Reckons (in_numbers c K.ops) (net network.now) self.now.extent.counts (tables self.now) circuit (cost_in_numbers c result) }
    {
        self.judge_network(network)?;
        let Some(route) = self.record(circuit)?.standing() else {
            return Err(BookFault::CircuitState);
        };
        Ok(price_standing(kind, network, self.lent.channels, route))
    }
}

impl Lent<'_, '_, '_> {
    // The least cost with a span shut. The records of the channels are lent to the search as they are, and
    // the states of the spans to the guard that shuts the span for it.
    fn price_without<K: Kind>(
        &mut self,
        kind: &K,
        network: &Network,
        span: usize,
        from: usize,
        to: usize,
        labels: &mut [Label<K::Value>],
    ) -> Result<K::Value, BookFault>
        requires { span < length self.old.spans.now }
        ensures contents { contents self.new ≡ contents self.old }
        ensures names { SameTables self.old self.new }
        ensures answer { Prices K.ops (scene_without (net network.now) (contents self.old) span) from to (refusal (net network.now).counts from to (length labels.old)) result }
        ensures refused { IsSome (refusal (net network.now).counts from to (length labels.old)) → labels.new ≡ labels.old }
        ensures long { length labels.new ≡ length labels.old }
        ensures beyond { drop (arrival_entries (net network.now).counts) labels.new ≡ drop (arrival_entries (net network.now).counts) labels.old }
    {
        let Lent {
            channels,
            spans,
            ..
        } = self;
        let channels: &mut [Channel] = channels;
        price_without(kind, network, channels, spans, span, from, to, labels)
    }
}
