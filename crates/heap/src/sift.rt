ghost use Rattle.std.specs.Prelude.{◌≡◌, ℕ, ◌+◌, ◌*◌, ◌<◌, ◌≤◌, length, slice_index, slice_set};
ghost use Rattle.heap.specs.Orders.{by_key};
ghost use Rattle.heap.specs.Heaps.{Seated, IsHeap, Rises, Sinks, IsChild, IsLeastChild, Moves};

use super::order::Order;

// An element that goes up or down is held in hand: its place is a hole, others move into the hole, and
// it is written once. So the contracts speak of the tables with that element in the hole.

// Puts an element in a place.
fn put(slots: &mut [u16], seats: &mut [u16], at: usize, x: u16)
    requires place { at < length slots.old }
    requires few { length slots.old ≤ 65536 }
    requires element { x < length seats.old }
    ensures slots { slots.new ≡ slice_set slots.old at x }
    ensures seats { seats.new ≡ slice_set seats.old x at }
{
    slots[at] = x;
    seats[usize::from(x)] = at as u16;
}

// The hole goes up until its parent is at most the element in hand.
#[tactic(auto, using(crate::proofs::Tables::moves_refl, crate::proofs::Tables::moves_trans, crate::proofs::Tables::moved, crate::proofs::Tables::elsewhere_below, crate::proofs::Sifts::rise_tops, crate::proofs::Sifts::hole_rests, crate::proofs::Sifts::hole_rises))]
pub(crate) fn rise<O: Order>(
    order: &O,
    slots: &mut [u16],
    seats: &mut [u16],
    len: usize,
    hole: usize,
    x: u16,
)
    requires place { hole < len }
    requires fits { len ≤ length slots.old }
    requires few { length slots.old ≤ 65536 }
    requires element { x < O.size order.now }
    requires sized { O.size order.now ≤ length seats.old }
    requires seated { Seated (O.size order.now) (slice_set slots.old hole x) (slice_set seats.old x hole) len }
    requires rises { Rises (by_key (O.key order.now) O.most) (slice_set slots.old hole x) hole len }
    ensures moves { Moves (O.size order.now) (slice_set slots.old hole x) (slice_set seats.old x hole) len slots.new seats.new }
    ensures heap { IsHeap (by_key (O.key order.now) O.most) slots.new len }
{
    let key = order.key(x);
    let mut at = hole;
    while at > 0 {
        let parent = (at - 1) / 4;
        let held = slots[parent];
        if order.at_most(order.key(held), key) {
            put(slots, seats, at, x);
            return;
        }
        put(slots, seats, at, held);
        at = parent;
    }
    put(slots, seats, at, x);
}

// A child that is at most every other, and its key.
#[tactic(auto, using(crate::proofs::Sifts::first_child, crate::proofs::Sifts::greater_child, crate::proofs::Sifts::lesser_child, crate::proofs::Sifts::all_children))]
fn least_child<O: Order>(order: &O, slots: &[u16], len: usize, at: usize) -> (usize, O::Key)
    requires place { at * 4 + 1 < len }
    requires fits { len ≤ length slots.now }
    requires few { length slots.now ≤ 65536 }
    requires elements { (k : ℕ) → IsChild at k → k < len → slice_index slots.now k < O.size order.now }
    ensures child { IsChild at result.0 }
    ensures within { result.0 < len }
    ensures key { result.1 ≡ O.key order.now (slice_index slots.now result.0) }
    ensures least { IsLeastChild (by_key (O.key order.now) O.most) slots.now at result.0 len }
{
    let first = at * 4 + 1;
    let mut least = first;
    let mut least_key = order.key(slots[first]);
    for child in first + 1..len.min(first + 4) {
        let key = order.key(slots[child]);
        if !order.at_most(least_key, key) {
            least = child;
            least_key = key;
        }
    }
    (least, least_key)
}

// The hole at the top goes down, always to the least child, until the element in hand is at most that
// child, or there is none.
#[tactic(auto, using(crate::proofs::Tables::moves_refl, crate::proofs::Tables::moves_trans, crate::proofs::Tables::moved, crate::proofs::Tables::elsewhere_below, crate::proofs::Sifts::sink_ends, crate::proofs::Sifts::hole_stays, crate::proofs::Sifts::hole_sinks))]
pub(crate) fn sink<O: Order>(order: &O, slots: &mut [u16], seats: &mut [u16], len: usize, x: u16)
    requires place { 0 < len }
    requires fits { len ≤ length slots.old }
    requires few { length slots.old ≤ 65536 }
    requires element { x < O.size order.now }
    requires sized { O.size order.now ≤ length seats.old }
    requires seated { Seated (O.size order.now) (slice_set slots.old 0 x) (slice_set seats.old x 0) len }
    requires sinks { Sinks (by_key (O.key order.now) O.most) (slice_set slots.old 0 x) 0 len }
    ensures moves { Moves (O.size order.now) (slice_set slots.old 0 x) (slice_set seats.old x 0) len slots.new seats.new }
    ensures heap { IsHeap (by_key (O.key order.now) O.most) slots.new len }
{
    let key = order.key(x);
    let mut at = 0;
    while at * 4 + 1 < len {
        let (child, least) = least_child(order, slots, len, at);
        if order.at_most(key, least) {
            put(slots, seats, at, x);
            return;
        }
        let held = slots[child];
        put(slots, seats, at, held);
        at = child;
    }
    put(slots, seats, at, x);
}
