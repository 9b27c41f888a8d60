//! Second thoughts at a book: an offer is withdrawn, another is made, and that one is confirmed.
#![tactic(auto)]

ghost use Rattle.std.specs.Prelude.{◌≡◌, true, None, length, IfOk};
ghost use Rattle.book.specs.Changes.{circuit_in, path_in};
ghost use Rattle.book.specs.Refusing.{is_lit, spend_refusal};
ghost use Rattle.book.specs.State.{tables, Kept};

use book::Book;
use book::offer::{Offer, Offered};
use cost::fee::Fee;
use cost::sum::Sum;
use fault::book::BookFault;
use network::Network;
use search::label::Label;

// A circuit, and from where to where it is to lead.
#[derive(Clone, Copy)]
pub(crate) struct Order {
    pub(crate) circuit: u16,
    pub(crate) from: u16,
    pub(crate) to: u16,
}

// An offer in hand, of the least sum, which its book does not refuse.
fn ask(
    book: &mut Book<'_, '_, '_>,
    network: &Network,
    order: Order,
    labels: &mut [Label<Fee>],
) -> Result<Offer, BookFault>
    ensures kept { Kept book.old book.new }
    ensures good { IfOk result (λ o. spend_refusal book.new.mark (tables book.new) o ≡ None) }
    ensures circuit { IfOk result (λ o. o.circuit ≡ order.circuit) }
{
    let Order { circuit, from, to } = order;
    let Offered {
        cost: _,
        steps: _,
        offer,
    } = book.offer(network, circuit, from, to, &Sum, labels)?;
    Ok(offer)
}

// Withdraws an offer that is not refused; told is how many channels went back.
fn withdraw(book: &mut Book<'_, '_, '_>, offer: Offer) -> u16
    requires { spend_refusal book.old.mark (tables book.old) offer ≡ None }
    ensures kept { Kept book.old book.new }
    ensures channels { result ≡ length (path_in book.old.extent.counts (tables book.old) offer.circuit) }
{
    match book.withdraw(offer) {
        Ok(channels) => channels,
        Err(_) => unreachable!(),
    }
}

// Confirms one; told is its circuit.
fn confirm(book: &mut Book<'_, '_, '_>, offer: Offer) -> u8
    requires { spend_refusal book.old.mark (tables book.old) offer ≡ None }
    ensures kept { Kept book.old book.new }
    ensures circuit { result ≡ offer.circuit }
    ensures lit { is_lit (circuit_in (tables book.new) offer.circuit) ≡ true }
{
    match book.confirm(offer) {
        Ok(circuit) => circuit,
        Err(_) => unreachable!(),
    }
}

// Offers, withdraws, offers anew and confirms; told are how many channels the first offer gave back, and
// the circuit that is lit.
pub(crate) fn think_again(
    book: &mut Book<'_, '_, '_>,
    network: &Network,
    order: Order,
    labels: &mut [Label<Fee>],
) -> Result<(u16, u8), BookFault>
    ensures kept { Kept book.old book.new }
    ensures circuit { IfOk result (λ r. r.1 ≡ order.circuit) }
    ensures lit { IfOk result (λ r. is_lit (circuit_in (tables book.new) order.circuit) ≡ true) }
{
    let first = ask(book, network, order, labels)?;
    let channels = withdraw(book, first);
    let second = ask(book, network, order, labels)?;
    let circuit = confirm(book, second);
    Ok((channels, circuit))
}

#[cfg(test)]
mod tests {
    use super::{Order, think_again};
    use book::lent::Lent;
    use book::{Book, check_tables};
    use fault::book::BookFault;
    use plan::reader::check as check_plan;
    use records::circuit::Circuit;
    use records::state::SpanState;
    use std::test::Fail;

    // 2 nodes, 1 channel, and a span each way.
    const THERE_AND_BACK: [u8; 50] = [
        1, 1, 2, 1, 0, 2, 0, 0, 0, 0, 0, 40, 0, 0, 0, 2, 0, 0, 0, 42, 0, 0, 0, 4, 0, 0, 0, 46, 0,
        0, 0, 4, 0, 0, 0, 50, 0, 0, 0, 0, 0, 0, 0, 1, 1, 0, 0, 7, 0, 7,
    ];

    #[test]
    fn second_offers_are_confirmed(rt: HostRuntime) -> Result<(), Fail> {
        let mut tariffs = [0u16; 2];
        let mut converters = [0u16; 2];
        let plan = check_plan(&THERE_AND_BACK, &tariffs, &converters)?;
        plan.load(&mut tariffs, &mut converters);
        let network = plan.network(&tariffs, &converters);
        let mut channels = [None; 2];
        let mut circuits = [Circuit::Free; 128];
        let mut spans = [SpanState::Open; 2];
        check_tables(&network, &channels, &circuits, &spans)?;
        let lent = Lent {
            channels: &mut channels,
            circuits: &mut circuits,
            spans: &mut spans,
        };
        let mut book = Book::open(&network, 5, lent);
        let order = Order {
            circuit: 9,
            from: 1,
            to: 0,
        };
        let mut labels = [None; 2];
        assert_eq!(rt;
            think_again(&mut book, &network, order, &mut labels),
            Ok((1, 9))
        );
        assert_eq!(rt;
            think_again(&mut book, &network, order, &mut labels),
            Err(BookFault::CircuitState)
        );
        Ok(())
    }
}
