ghost use Rattle.std.specs.Prelude.{◌≡◌, ℕ, ◌+◌, ◌-◌, ◌<◌, ◌≤◌, true, length, slice_index};
ghost use Rattle.heap.specs.Orders.{by_key};
ghost use Rattle.heap.specs.Heaps.{Holds, Same, Seated, IsHeap, Beside, KeepsRest, WasHeap};

use super::order::Order;
use super::sift::{rise, sink};

// The heap lies in two lent tables: `slots` has the element at each place, of which the first `len`
// count, and `seats` has the place of each element. What either holds elsewhere does not matter, and
// is left as it is.

// Puts an element in, which makes `len + 1`.
#[tactic(auto, using(crate::proofs::Ends::push_seated, crate::proofs::Ends::push_rises, crate::proofs::Ends::push_beside, crate::proofs::Ends::push_rest))]
pub fn push<O: Order>(order: &O, slots: &mut [u16], seats: &mut [u16], len: usize, x: u16)
    requires room { len < length slots.old }
    requires few { length slots.old ≤ 65536 }
    requires element { x < O.size order.now }
    requires sized { O.size order.now ≤ length seats.old }
    requires seated { Seated (O.size order.now) slots.old seats.old len }
    requires heap { IsHeap (by_key (O.key order.now) O.most) slots.old len }
    requires fresh { Holds slots.old len x → ⊥ }
    ensures seated { Seated (O.size order.now) slots.new seats.new (len + 1) }
    ensures heap { IsHeap (by_key (O.key order.now) O.most) slots.new (len + 1) }
    ensures beside { Beside slots.old len x slots.new (len + 1) }
    ensures rest { KeepsRest slots.old seats.old slots.new seats.new (len + 1) }
    ensures slots { length slots.new ≡ length slots.old }
    ensures seats { length seats.new ≡ length seats.old }
{
    rise(order, slots, seats, len + 1, len, x);
}

// Takes out an element that is at most every other, which leaves `len - 1`.
#[tactic(auto, using(crate::proofs::Tables::below_size, crate::proofs::Ends::pop_seated, crate::proofs::Ends::pop_sinks, crate::proofs::Ends::pop_least, crate::proofs::Ends::pop_beside, crate::proofs::Ends::pop_gone, crate::proofs::Ends::pop_rest, crate::proofs::Tables::none_seated, crate::proofs::Sifts::none_heap, crate::proofs::Ends::only_beside))]
pub fn pop_least<O: Order>(order: &O, slots: &mut [u16], seats: &mut [u16], len: usize) -> u16
    requires some { 0 < len }
    requires fits { len ≤ length slots.old }
    requires few { length slots.old ≤ 65536 }
    requires sized { O.size order.now ≤ length seats.old }
    requires seated { Seated (O.size order.now) slots.old seats.old len }
    requires heap { IsHeap (by_key (O.key order.now) O.most) slots.old len }
    ensures seated { Seated (O.size order.now) slots.new seats.new (len - 1) }
    ensures heap { IsHeap (by_key (O.key order.now) O.most) slots.new (len - 1) }
    ensures top { result ≡ slice_index slots.old 0 }
    ensures element { result < O.size order.now }
    ensures least { (y : ℕ) → Holds slots.old len y → by_key (O.key order.now) O.most result y ≡ true }
    ensures beside { Beside slots.new (len - 1) result slots.old len }
    ensures gone { Holds slots.new (len - 1) result → ⊥ }
    ensures rest { KeepsRest slots.old seats.old slots.new seats.new (len - 1) }
    ensures slots { length slots.new ≡ length slots.old }
    ensures seats { length seats.new ≡ length seats.old }
{
    let top = slots[0];
    let last = slots[len - 1];
    if len > 1 {
        sink(order, slots, seats, len - 1, last);
    }
    top
}

// Puts the heap right after one of its elements alone became less.
#[tactic(auto, using(crate::proofs::Tables::seat, crate::proofs::Ends::lower_place, crate::proofs::Ends::lower_seated, crate::proofs::Ends::lower_rises, crate::proofs::Ends::lower_moves))]
pub fn lower<O: Order>(order: &O, slots: &mut [u16], seats: &mut [u16], len: usize, x: u16)
    requires fits { len ≤ length slots.old }
    requires few { length slots.old ≤ 65536 }
    requires sized { O.size order.now ≤ length seats.old }
    requires seated { Seated (O.size order.now) slots.old seats.old len }
    requires held { Holds slots.old len x }
    requires was { WasHeap (by_key (O.key order.now) O.most) slots.old len x }
    ensures seated { Seated (O.size order.now) slots.new seats.new len }
    ensures heap { IsHeap (by_key (O.key order.now) O.most) slots.new len }
    ensures same { Same slots.old len slots.new len }
    ensures rest { KeepsRest slots.old seats.old slots.new seats.new len }
    ensures slots { length slots.new ≡ length slots.old }
    ensures seats { length seats.new ≡ length seats.old }
{
    let at = usize::from(seats[usize::from(x)]);
    rise(order, slots, seats, len, at, x);
}
