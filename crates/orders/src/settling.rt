ghost use Rattle.std.specs.Prelude.{◌≡◌, length, drop, Ok, Err, IsSome};
ghost use Rattle.network.specs.Net.{net};
ghost use Rattle.network.specs.Tariffs.{arrival_entries};
ghost use Rattle.book.specs.Answering.{scene_in};
ghost use Rattle.book.specs.Changes.{Makes};
ghost use Rattle.book.specs.Refusing.{offer_refusal};
ghost use Rattle.book.specs.State.{tables, Kept};
ghost use Rattle.orders.specs.Orders.{Ordered, lit_changes};

use book::Book;
use book::offer::Offered;
use cost::kind::Kind;
use fault::book::BookFault;
use network::Network;
use search::label::Label;

// Offers a cheapest path and confirms the offer at once: the circuit is lit, and told is what the path
// costs. A confirmation of an offer just made can't be refused.
pub fn light<K: Kind>(
    book: &mut Book<'_, '_, '_>,
    network: &Network,
    circuit: u16,
    from: u16,
    to: u16,
    kind: &K,
    labels: &mut [Label<K::Value>],
) -> Result<K::Value, BookFault>
    ensures kept { Kept book.old book.new }
    ensures answer { Ordered K.ops (scene_in (net network.now) (tables book.old)) from to (offer_refusal book.old.extent.counts (net network.now).counts (tables book.old) circuit from to (length labels.old)) (λ p v. (result ≡ Ok v) × Makes book.old.extent.counts (lit_changes circuit from to p) (tables book.old) (tables book.new)) (λ f. (result ≡ Err f) × (tables book.new ≡ tables book.old)) }
    ensures refused { IsSome (offer_refusal book.old.extent.counts (net network.now).counts (tables book.old) circuit from to (length labels.old)) → labels.new ≡ labels.old }
    ensures long { length labels.new ≡ length labels.old }
    ensures beyond { drop (arrival_entries (net network.now).counts) labels.new ≡ drop (arrival_entries (net network.now).counts) labels.old }
{
    let Offered {
        cost,
        steps: _,
        offer,
    } = book.offer(network, circuit, from, to, kind, labels)?;
    match book.confirm(offer) {
        Ok(_) => Ok(cost),
        Err(_) => unreachable!(),
    }
}

// Offers a cheapest path and withdraws the offer at once: told is what the path costs, and all is as it
// was. A withdrawal of an offer just made can't be refused.
pub fn price<K: Kind>(
    book: &mut Book<'_, '_, '_>,
    network: &Network,
    circuit: u16,
    from: u16,
    to: u16,
    kind: &K,
    labels: &mut [Label<K::Value>],
) -> Result<K::Value, BookFault>
    ensures kept { Kept book.old book.new }
    ensures answer { Ordered K.ops (scene_in (net network.now) (tables book.old)) from to (offer_refusal book.old.extent.counts (net network.now).counts (tables book.old) circuit from to (length labels.old)) (λ p v. result ≡ Ok v) (λ f. result ≡ Err f) }
    ensures tables { tables book.new ≡ tables book.old }
    ensures refused { IsSome (offer_refusal book.old.extent.counts (net network.now).counts (tables book.old) circuit from to (length labels.old)) → labels.new ≡ labels.old }
    ensures long { length labels.new ≡ length labels.old }
    ensures beyond { drop (arrival_entries (net network.now).counts) labels.new ≡ drop (arrival_entries (net network.now).counts) labels.old }
{
    let Offered {
        cost,
        steps: _,
        offer,
    } = book.offer(network, circuit, from, to, kind, labels)?;
    match book.withdraw(offer) {
        Ok(_) => Ok(cost),
        Err(_) => unreachable!(),
    }
}
