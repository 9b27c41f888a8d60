ghost use Rattle.std.specs.Prelude.{◌≡◌, ◌≢◌, ◌<◌, ◌≤◌, length, drop};
ghost use Rattle.network.specs.Tariffs.{arrival_entries, arrival_entry};
ghost use Rattle.search.specs.declared.arrival.Arrival.{Arrival};
ghost use Rattle.search.specs.Labels.{IsInside, labels_in};

use super::arrival::Arrival;
use super::label::Label;
use network::extent::Extent;

// The label that stands in a table for an arrival; none where the network has no such arrival.
pub(crate) fn label_in<V: Copy>(extent: Extent, labels: &[Label<V>], arrival: Arrival) -> Label<V>
    ensures { result ≡ labels_in extent.counts labels.now arrival }
{
    let node = usize::from(arrival.node);
    let entry = extent.arrival_entry(node, usize::from(arrival.channel))?;
    labels.get(entry).copied().flatten()
}

// The entry of an arrival of the network.
#[tactic(auto, using(crate::proofs::Rows::few_entries))]
pub(crate) fn entry_of(extent: Extent, arrival: Arrival) -> usize
    requires { IsInside extent.counts arrival }
    ensures entry { result ≡ arrival_entry extent.counts arrival.node arrival.channel }
    ensures within { result < arrival_entries extent.counts }
    ensures few { result < 1024 }
{
    usize::from(arrival.node) * extent.counts().channels + usize::from(arrival.channel)
}

// The label of an arrival of the network, in a table that has room for all of them.
pub(crate) fn label_inside<V: Copy>(
    extent: Extent,
    labels: &[Label<V>],
    arrival: Arrival,
) -> Label<V>
    requires wide { arrival_entries extent.counts ≤ length labels.now }
    requires inside { IsInside extent.counts arrival }
    ensures { result ≡ labels_in extent.counts labels.now arrival }
{
    labels[entry_of(extent, arrival)]
}

// Writes the label of an arrival.
#[tactic(auto, using(crate::proofs::Rows::written_label, crate::proofs::Rows::other_label))]
pub(crate) fn write<V: Copy>(
    extent: Extent,
    labels: &mut [Label<V>],
    arrival: Arrival,
    label: Label<V>,
)
    requires wide { arrival_entries extent.counts ≤ length labels.old }
    requires inside { IsInside extent.counts arrival }
    ensures written { labels_in extent.counts labels.new arrival ≡ label }
    ensures others { (x : Arrival) → x ≢ arrival → labels_in extent.counts labels.new x ≡ labels_in extent.counts labels.old x }
    ensures long { length labels.new ≡ length labels.old }
    ensures beyond { drop (arrival_entries extent.counts) labels.new ≡ drop (arrival_entries extent.counts) labels.old }
{
    let entry = entry_of(extent, arrival);
    labels[entry] = label;
}
