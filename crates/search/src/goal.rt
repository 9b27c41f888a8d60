ghost use Rattle.std.specs.Prelude.{◌≡◌};
ghost use Rattle.search.specs.Goals.{is_at_most, is_bound, aimed, found_at};
ghost use Rattle.search.specs.Labels.{IsInside};
ghost use Rattle.search.specs.Works.{labels_of};

use super::arrival::Arrival;
use super::found::Found;
use super::work::Work;
use cost::kind::Kind;

// The best arrival at a goal that is known: its channel, and what it costs.
#[derive(Clone, Copy)]
pub(crate) struct Best<V> {
    pub(crate) cost: V,
    pub(crate) channel: u8,
}

// Where a search is to end, and the best arrival there, none where none is known. Its cost is a bound:
// what costs as much already need not be tried.
#[derive(Clone, Copy)]
pub(crate) struct Goal<V> {
    pub(crate) node: u8,
    pub(crate) best: Option<Best<V>>,
}

impl<V: Copy> Goal<V> {
    // The goal after an arrival has become known at a cost below the bound.
    pub(crate) fn aim(&mut self, arrival: Arrival, cost: V)
        ensures { self.new ≡ aimed self.old arrival cost }
    {
        if arrival.node == self.node {
            let channel = arrival.channel;
            self.best = Some(Best { cost, channel });
        }
    }

    // What is found where the best arrival costs no more than any other path.
    pub(crate) fn found(&self) -> Option<Found<V>>
        ensures { result ≡ found_at self.now.node self.now.best }
    {
        let best = self.best?;
        let arrival = Arrival {
            node: self.node,
            channel: best.channel,
        };
        Some(Found {
            cost: best.cost,
            end: arrival.point(),
        })
    }
}

// Whether the goal is known to be reached at no more than a cost.
pub(crate) fn is_bound<K: Kind>(kind: &K, goal: &Goal<K::Value>, cost: K::Value) -> bool
    ensures { result ≡ is_bound K.ops goal.now.best cost }
{
    match goal.best {
        Some(best) => kind.at_most(best.cost, cost),
        None => false,
    }
}

// Whether an arrival of the network is known at no more than a cost.
pub(crate) fn is_known<K: Kind>(
    kind: &K,
    work: &Work<'_, K>,
    arrival: Arrival,
    cost: K::Value,
) -> bool
    requires { IsInside work.now.extent.counts arrival }
    ensures { result ≡ is_at_most K.ops (labels_of work.now arrival) cost }
{
    match work.label_inside(arrival) {
        Some(known) => kind.at_most(known.cost, cost),
        None => false,
    }
}
