ghost use Rattle.std.specs.Prelude.{◌≡◌, [], ◌∷◌, length, drop, IsSome};
ghost use Rattle.fault.specs.Judging.{unless};
ghost use Rattle.network.specs.Net.{net};
ghost use Rattle.network.specs.Tariffs.{arrival_entries};
ghost use Rattle.cost.specs.Numbers.{Numbering, in_numbers};
ghost use Rattle.search.specs.Answers.{Answers, refusal};
ghost use Rattle.search.specs.Labels.{path_to};
ghost use Rattle.book.specs.Taking.{CanTake};
ghost use Rattle.book.specs.Answering.{scene_in};
ghost use Rattle.book.specs.Calls.{Offers};
ghost use Rattle.book.specs.Changes.{path_in, takes, Makes};
ghost use Rattle.book.specs.Numbered.{offer_in_numbers};
ghost use Rattle.book.specs.Refusing.{offer_refusal, order_refusal};
ghost use Rattle.book.specs.State.{tables, Kept};

use super::Book;
use super::offer::{Offer, Offered};
use cost::kind::Kind;
use fault::book::BookFault;
use moment::Moment;
use network::Network;
use records::circuit::Circuit;
use search::found::Found;
use search::label::Label;
use search::search;
use semilightpath::point::Point;

impl Book<'_, '_, '_> {
    // Refuses an order that no search is needed for to refuse.
    fn judge_order(
        &self,
        network: &Network,
        circuit: u16,
        from: u16,
        to: u16,
    ) -> Result<(), BookFault>
        ensures { result ≡ unless (order_refusal self.now.extent.counts (net network.now).counts (tables self.now) circuit from to) tt }
    {
        self.judge_network(network)?;
        if self.record(circuit)? != Circuit::Free {
            return Err(BookFault::CircuitState);
        }
        let nodes = network.counts().nodes;
        if usize::from(from) >= nodes || usize::from(to) >= nodes {
            return Err(BookFault::NoNode);
        }
        if from == to {
            return Err(BookFault::SameNode);
        }
        Ok(())
    }

    // Searches over what can be used by the book's tables.
    fn find<K: Kind>(
        &self,
        kind: &K,
        network: &Network,
        from: usize,
        to: usize,
        labels: &mut [Label<K::Value>],
    ) -> Result<Found<K::Value>, BookFault>
        ensures answer { Answers K.ops (scene_in (net network.now) (tables self.now)) from to labels.new (refusal (net network.now).counts from to (length labels.old)) result }
        ensures refused { IsSome (refusal (net network.now).counts from to (length labels.old)) → labels.new ≡ labels.old }
        ensures long { length labels.new ≡ length labels.old }
        ensures beyond { drop (arrival_entries (net network.now).counts) labels.new ≡ drop (arrival_entries (net network.now).counts) labels.old }
    {
        let moment = Moment {
            network,
            channels: self.lent.channels,
            spans: self.lent.spans,
        };
        search(kind, &moment, from, to, labels)
    }

    // A circuit takes the path that a search has found.
    fn take<V: Copy>(
        &mut self,
        circuit: u8,
        from: u8,
        to: u8,
        labels: &[Label<V>],
        end: Point,
    ) -> u16
        requires { CanTake self.old.extent.counts (tables self.old) circuit (path_to self.old.extent.counts labels.now end) }
        ensures kept { Kept self.old self.new }
        ensures change { Makes self.old.extent.counts (takes circuit from to (path_to self.old.extent.counts labels.now end) ∷ []) (tables self.old) (tables self.new) }
        ensures path { path_in self.old.extent.counts (tables self.new) circuit ≡ path_to self.old.extent.counts labels.now end }
        ensures steps { result ≡ length (path_to self.old.extent.counts labels.now end) }
    {
        self.lent.take(self.extent, circuit, from, to, labels, end)
    }

    // Offers a cheapest path from a node to a node over what can be used, by a kind of cost, for a
    // circuit that is free: the circuit takes its channels. Which of equally cheap paths it is stays open,
    // and what the labels hold after a search; labels beyond those that the network needs stay.
    pub fn offer<K: Kind>(
        &mut self,
        network: &Network,
        circuit: u16,
        from: u16,
        to: u16,
        kind: &K,
        labels: &mut [Label<K::Value>],
    ) -> Result<Offered<K::Value>, BookFault>
        ensures kept { Kept self.old self.new }
        ensures call { Offers K.ops (net network.now) self.old.extent.counts self.old.mark (tables self.old) circuit from to (length labels.old) result (tables self.new) }
        ensures numbered { (c : Numbering K.Value) → Offers (in_numbers c K.ops) (net network.now) self.old.extent.counts self.old.mark (tables self.old) circuit from to (length labels.old) (offer_in_numbers c result) (tables self.new) }
        ensures refused { IsSome (offer_refusal self.old.extent.counts (net network.now).counts (tables self.old) circuit from to (length labels.old)) → labels.new ≡ labels.old }
        ensures long { length labels.new ≡ length labels.old }
        ensures beyond { drop (arrival_entries (net network.now).counts) labels.new ≡ drop (arrival_entries (net network.now).counts) labels.old }
    {
        self.judge_order(network, circuit, from, to)?;
        let found = self.find(kind, network, usize::from(from), usize::from(to), labels)?;
        let circuit = circuit as u8;
        let steps = self.take(circuit, from as u8, to as u8, labels, found.end);
        let offer = Offer {
            mark: self.mark,
            circuit,
        };
        Ok(Offered {
            cost: found.cost,
            steps,
            offer,
        })
    }
}
