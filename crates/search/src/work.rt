ghost use Rattle.std.specs.Prelude.{◌≡◌, ◌≤◌, length, drop};
ghost use Rattle.network.specs.Tariffs.{arrival_entries};
ghost use Rattle.heap.specs.Heaps.{Seated, IsHeap, Seated-prop, IsHeap-prop};
ghost use Rattle.search.specs.Labels.{labels_in};
ghost use Rattle.search.specs.Frontiers.{Listed, entry_at_most};

use super::arrival::Arrival;
use super::label::Label;
use super::table;
use cost::kind::Kind;
use network::extent::Extent;
use network::table::fill;

// What one search works on: its table, and the frontier, which is a heap of the entries of the
// arrivals that are known and open, by their costs.
#[derive(Drop)]
pub(crate) struct Work<'w, K: Kind> {
    pub(crate) extent: Extent,
    pub(crate) labels: &'w mut [Label<K::Value>],
    pub(crate) slots: [u16; 1024],
    pub(crate) seats: [u16; 1024],
    pub(crate) count: usize,
    ghost wide: { arrival_entries extent.counts ≤ length labels.now },
    ghost listed: { Listed extent.counts (labels_in extent.counts labels.now) slots seats count },
    ghost seated: { Seated (arrival_entries extent.counts) slots seats count } by { Seated-prop (arrival_entries extent.counts) slots seats count },
    ghost heap: { IsHeap (entry_at_most K.ops labels.now) slots count } by { IsHeap-prop (entry_at_most K.ops labels.now) slots count },
}

impl<'w, K: Kind> Work<'w, K> {
    ghost use Rattle.std.specs.Prelude.{None};
    ghost use Rattle.search.specs.declared.arrival.Arrival.{Arrival};
    ghost use Rattle.search.specs.Labels.{IsInside};
    ghost use Rattle.search.specs.Works.{labels_of};

    // Where a search begins: nothing is known.
    #[tactic(auto, using(crate::proofs::Rows::none_known, crate::proofs::Frontiers::none_listed))]
    pub(crate) fn new(extent: Extent, labels: &'w mut [Label<K::Value>]) -> Work<'w, K>
        requires { arrival_entries extent.counts ≤ length labels.old }
        ensures extent { result.extent ≡ extent }
        ensures unknown { (x : Arrival) → labels_of result x ≡ None }
        ensures long { length result.labels.now ≡ length labels.old }
        ensures beyond { drop (arrival_entries extent.counts) result.labels.now ≡ drop (arrival_entries extent.counts) labels.old }
        ensures name { result.labels.ghost_name ≡ labels.entry.ghost_name }
    {
        fill(labels, extent.arrival_entries(), None);
        let slots = no_entries();
        let seats = no_entries();
        Work {
            extent,
            labels,
            slots,
            seats,
            count: 0,
        }
    }

    // The label of an arrival of the network.
    pub(crate) fn label_inside(&self, arrival: Arrival) -> Label<K::Value>
        requires { IsInside self.now.extent.counts arrival }
        ensures { result ≡ labels_of self.now arrival }
    {
        table::label_inside(self.extent, self.labels, arrival)
    }
}

// Room for entries, of which none is there.
fn no_entries() -> [u16; 1024] {
    [0; 1024]
}
