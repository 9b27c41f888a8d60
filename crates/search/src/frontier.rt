ghost use Rattle.std.specs.Prelude.{◌≡◌, ◌≢◌, ℕ, ◌+◌, ◌-◌, ◌<◌, ◌≤◌, true, false, length, drop, slice_index, Some, None, IfSome, IsNone};
ghost use Rattle.network.specs.Tariffs.{arrival_entry, arrival_entries};
ghost use Rattle.heap.specs.Heaps.{Holds, Same, Seated, IsHeap, Beside, WasHeap};
ghost use Rattle.search.specs.Works.{labels_of, top_cost, KeepsRest};
ghost use Rattle.search.specs.Goals.{is_bound};
ghost use Rattle.search.specs.Labels.{better, settle, IsInside, labels_in, cost_of};
ghost use Rattle.search.specs.Invariants.{Written, IsLeast, IsReached};
ghost use Rattle.search.specs.declared.arrival.Arrival.{Arrival};
ghost use Rattle.search.specs.Frontiers.{is_open, cost_or, entry_at_most};

use super::arrival::Arrival;
use super::costs::Costs;
use super::goal::{Goal, is_bound};
use super::label::{Known, Label};
use super::table::{self, entry_of};
use super::work::Work;
use cost::kind::Kind;
use heap::{lower, pop_least, push};
use network::extent::Extent;

// The arrival that has an entry of the table.
fn arrival_at(extent: Extent, entry: u16) -> Arrival
    requires { entry < arrival_entries extent.counts }
    ensures inside { IsInside extent.counts result }
    ensures entry { arrival_entry extent.counts result.node result.channel ≡ entry }
{
    let channels = extent.counts().channels as u16;
    Arrival {
        node: (entry / channels) as u8,
        channel: (entry % channels) as u8,
    }
}

// Settles the cost of a label.
fn settle_label<V: Copy>(label: &mut Label<V>)
    ensures { label.new ≡ settle label.old }
{
    if let Some(known) = label {
        known.settled = true;
    }
}

// Writes that the arrival of an entry is settled.
#[tactic(auto, using(crate::proofs::Rows::settled_label, crate::proofs::Rows::other_label))]
fn mark<V: Copy>(extent: Extent, labels: &mut [Label<V>], entry: u16, arrival: Arrival)
    requires wide { arrival_entries extent.counts ≤ length labels.old }
    requires within { entry < arrival_entries extent.counts }
    requires inside { IsInside extent.counts arrival }
    requires entry { arrival_entry extent.counts arrival.node arrival.channel ≡ entry }
    ensures written { labels_in extent.counts labels.new arrival ≡ settle (labels_in extent.counts labels.old arrival) }
    ensures others { (x : Arrival) → x ≢ arrival → labels_in extent.counts labels.new x ≡ labels_in extent.counts labels.old x }
    ensures long { length labels.new ≡ length labels.old }
    ensures beyond { drop (arrival_entries extent.counts) labels.new ≡ drop (arrival_entries extent.counts) labels.old }
{
    settle_label(&mut labels[usize::from(entry)]);
}

// Takes an entry of the least cost out of the heap.
#[tactic(auto, using(heap::proofs::Few::seated_few))]
fn take_least<K: Kind>(
    kind: &K,
    entries: usize,
    labels: &mut [Label<K::Value>],
    slots: &mut [u16; 1024],
    seats: &mut [u16; 1024],
    count: usize,
) -> u16
    requires wide { entries ≤ length labels.old }
    requires few { entries ≤ 1024 }
    requires some { 0 < count }
    requires seated { Seated entries slots.old seats.old count }
    requires heap { IsHeap (entry_at_most K.ops labels.old) slots.old count }
    ensures seated { Seated entries slots.new seats.new (count - 1) }
    ensures heap { IsHeap (entry_at_most K.ops labels.old) slots.new (count - 1) }
    ensures element { result < entries }
    ensures top { result ≡ slice_index slots.old 0 }
    ensures least { (y : ℕ) → Holds slots.old count y → entry_at_most K.ops labels.old result y ≡ true }
    ensures beside { Beside slots.new (count - 1) result slots.old count }
    ensures gone { Holds slots.new (count - 1) result → ⊥ }
    ensures labels { labels.new ≡ labels.old }
{
    let order = Costs {
        kind,
        labels,
        entries,
    };
    pop_least(&order, slots, seats, count)
}

// Settles an open arrival of the least cost.
pub(crate) fn settle<K: Kind>(kind: &K, work: &mut Work<'_, K>) -> Arrival
    requires { 0 < work.old.count }
    ensures top { cost_of (labels_of work.old result) ≡ top_cost work.old }
    ensures open { is_open (labels_of work.old result) ≡ true }
    ensures least { (v : K.Value) → cost_of (labels_of work.old result) ≡ Some v → IsLeast K.ops (labels_of work.old) result v }
    ensures written { Written (labels_of work.old) (labels_of work.new) result (settle (labels_of work.old result)) }
    ensures rest { KeepsRest work.old work.new }
{
    let Work {
        extent,
        labels,
        slots,
        seats,
        count,
    } = work;
    let entry = take_least(kind, extent.arrival_entries(), labels, slots, seats, *count);
    *count -= 1;
    let arrival = arrival_at(*extent, entry);
    mark(*extent, labels, entry, arrival);
    arrival
}

// What the arrival at the top of the heap costs.
#[tactic(auto, using(heap::proofs::Tables::below_size))]
fn top<K: Kind>(work: &Work<'_, K>) -> Option<K::Value>
    requires { 0 < work.now.count }
    ensures { result ≡ top_cost work.now }
{
    let known = work.labels[usize::from(work.slots[0])]?;
    Some(known.cost)
}

// What the least open arrival costs, where that is less than the best at the goal.
#[tactic(auto, using(crate::proofs::Frontiers::none_reached, crate::proofs::Frontiers::top_reached))]
pub(crate) fn ahead<K: Kind>(
    kind: &K,
    work: &Work<'_, K>,
    goal: &Goal<K::Value>,
) -> Option<K::Value>
    ensures reached { IsNone result → IsReached K.ops (labels_of work.now) goal.now }
    ensures ahead { IfSome result (λ v. (0 < work.now.count) × (top_cost work.now ≡ Some v) × (is_bound K.ops goal.now.best v ≡ false)) }
{
    if work.count == 0 {
        return None;
    }
    let cost = top(work)?;
    if is_bound(kind, goal, cost) {
        return None;
    }
    Some(cost)
}

// Puts an entry into the heap.
fn put_in<K: Kind>(
    kind: &K,
    entries: usize,
    labels: &mut [Label<K::Value>],
    slots: &mut [u16; 1024],
    seats: &mut [u16; 1024],
    count: usize,
    entry: u16,
)
    requires wide { entries ≤ length labels.old }
    requires few { entries ≤ 1024 }
    requires element { entry < entries }
    requires seated { Seated entries slots.old seats.old count }
    requires heap { IsHeap (entry_at_most K.ops labels.old) slots.old count }
    requires fresh { Holds slots.old count entry → ⊥ }
    ensures seated { Seated entries slots.new seats.new (count + 1) }
    ensures heap { IsHeap (entry_at_most K.ops labels.old) slots.new (count + 1) }
    ensures beside { Beside slots.old count entry slots.new (count + 1) }
    ensures room { count < 1024 }
    ensures labels { labels.new ≡ labels.old }
{
    let order = Costs {
        kind,
        labels,
        entries,
    };
    push(&order, slots, seats, count, entry);
}

// Moves an entry up the heap, which costs no more than it did.
#[tactic(auto, using(heap::proofs::Few::seated_few))]
fn move_up<K: Kind>(
    kind: &K,
    entries: usize,
    labels: &mut [Label<K::Value>],
    slots: &mut [u16; 1024],
    seats: &mut [u16; 1024],
    count: usize,
    entry: u16,
)
    requires wide { entries ≤ length labels.old }
    requires few { entries ≤ 1024 }
    requires seated { Seated entries slots.old seats.old count }
    requires held { Holds slots.old count entry }
    requires was { WasHeap (entry_at_most K.ops labels.old) slots.old count entry }
    ensures seated { Seated entries slots.new seats.new count }
    ensures heap { IsHeap (entry_at_most K.ops labels.old) slots.new count }
    ensures same { Same slots.old count slots.new count }
    ensures labels { labels.new ≡ labels.old }
{
    let order = Costs {
        kind,
        labels,
        entries,
    };
    lower(&order, slots, seats, count, entry);
}

// Makes an arrival known, one that was unknown.
fn add<K: Kind>(kind: &K, work: &mut Work<'_, K>, arrival: Arrival, known: Known<K::Value>)
    requires inside { IsInside work.old.extent.counts arrival }
    requires unknown { labels_of work.old arrival ≡ None }
    requires unsettled { known.settled ≡ false }
    ensures written { Written (labels_of work.old) (labels_of work.new) arrival (Some known) }
    ensures rest { KeepsRest work.old work.new }
{
    let Work {
        extent,
        labels,
        slots,
        seats,
        count,
    } = work;
    table::write(*extent, labels, arrival, Some(known));
    let entry = entry_of(*extent, arrival);
    put_in(
        kind,
        extent.arrival_entries(),
        labels,
        slots,
        seats,
        *count,
        entry as u16,
    );
    *count += 1;
}

// Makes more known of an open arrival, which costs no more by it.
fn improve<K: Kind>(kind: &K, work: &mut Work<'_, K>, arrival: Arrival, known: Known<K::Value>)
    requires inside { IsInside work.old.extent.counts arrival }
    requires known { is_open (labels_of work.old arrival) ≡ true }
    requires unsettled { known.settled ≡ false }
    requires less { K.ops.at_most known.cost (cost_or K.ops (labels_of work.old arrival)) ≡ true }
    ensures written { Written (labels_of work.old) (labels_of work.new) arrival (Some known) }
    ensures rest { KeepsRest work.old work.new }
{
    let Work {
        extent,
        labels,
        slots,
        seats,
        count,
    } = work;
    table::write(*extent, labels, arrival, Some(known));
    let entry = entry_of(*extent, arrival);
    move_up(
        kind,
        extent.arrival_entries(),
        labels,
        slots,
        seats,
        *count,
        entry as u16,
    );
}

// Proposes what is known of an arrival by another path: it is taken where the arrival is unknown, or
// open at a cost that is not at most the proposed one.
#[inline(always)]
pub(crate) fn propose<K: Kind>(
    kind: &K,
    work: &mut Work<'_, K>,
    arrival: Arrival,
    known: Known<K::Value>,
)
    requires inside { IsInside work.old.extent.counts arrival }
    requires unsettled { known.settled ≡ false }
    ensures written { Written (labels_of work.old) (labels_of work.new) arrival (better K.ops (labels_of work.old arrival) known) }
    ensures rest { KeepsRest work.old work.new }
{
    let label = work.label_inside(arrival);
    let Some(held) = label else {
        add(kind, work, arrival, known);
        return;
    };
    if !held.settled && !kind.at_most(held.cost, known.cost) {
        improve(kind, work, arrival, known);
    }
}
