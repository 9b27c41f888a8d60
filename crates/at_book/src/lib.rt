//! What examples of the book begin with: the sample network's plan and tables, orders and offers in hand,
//! and labels of earlier use.
#![tactic(auto)]

ghost use Rattle.std.specs.Prelude.{◌≡◌, length, drop, IsSome};
ghost use Rattle.network.specs.Net.{net};
ghost use Rattle.network.specs.Tariffs.{arrival_entries};
ghost use Rattle.cost.specs.Sums.{sum_ops};
ghost use Rattle.book.specs.Calls.{Offers};
ghost use Rattle.book.specs.Refusing.{offer_refusal};
ghost use Rattle.book.specs.State.{tables, Kept};
ghost use Rattle.at_book.specs.Hands.{HandsOver};

use book::Book;
use book::offer::{Offer, Offered};
use cost::fee::Fee;
use cost::sum::Sum;
use fault::book::BookFault;
use network::Network;
use search::label::Label;

pub mod old;
pub mod sample;

// A circuit, and from where to where it is to lead.
#[derive(Clone, Copy)]
pub struct Order {
    pub circuit: u16,
    pub from: u16,
    pub to: u16,
}

impl Order {
    // An order for a circuit, from a node to a node.
    pub fn new(circuit: u16, from: u16, to: u16) -> Order
        ensures { result ≡ record { circuit = circuit; from = from; to = to } }
    {
        Order { circuit, from, to }
    }
}

// The offer alone, of the least sum.
pub fn in_hand(
    book: &mut Book,
    network: &Network,
    order: Order,
    labels: &mut [Label<Fee>],
) -> Result<Offer, BookFault>
    ensures kept { Kept book.old book.new }
    ensures call { HandsOver (Offers sum_ops (net network.now) book.old.extent.counts book.old.mark (tables book.old) order.circuit order.from order.to (length labels.old)) result (tables book.new) }
    ensures refused { IsSome (offer_refusal book.old.extent.counts (net network.now).counts (tables book.old) order.circuit order.from order.to (length labels.old)) → labels.new ≡ labels.old }
    ensures long { length labels.new ≡ length labels.old }
    ensures beyond { drop (arrival_entries (net network.now).counts) labels.new ≡ drop (arrival_entries (net network.now).counts) labels.old }
{
    let Order { circuit, from, to } = order;
    let Offered {
        cost: _,
        steps: _,
        offer,
    } = book.offer(network, circuit, from, to, &Sum, labels)?;
    Ok(offer)
}
