ghost use Rattle.std.specs.Prelude.{◌≡◌, length, drop};
ghost use Rattle.network.specs.Tariffs.{arrival_entries};
ghost use Rattle.network.specs.Net.{net};
ghost use Rattle.book.specs.State.{Kept};
ghost use Rattle.account.specs.Going.{Goes};
ghost use Rattle.week.specs.Weeks.{Lights, Doubts};

use super::trip::Trip;
use book::Book;
use book::offer::Offered;
use cost::fee::Fee;
use cost::few::Few;
use cost::sum::Sum;
use cost::tally::Tally;
use fault::book::BookFault;
use network::Network;
use search::label::Label;

// Offers the circuit a path of the fewest conversions, and confirms the offer at once.
pub(crate) fn light(
    book: &mut Book<'_, '_, '_>,
    network: &Network,
    trip: Trip,
    labels: &mut [Label<Tally>],
) -> Result<u8, BookFault>
    ensures kept { Kept book.old book.new }
    ensures calls { Goes (Lights (net network.now) trip.circuit trip.from trip.to (length labels.old) result) book.old book.new }
    ensures beyond { drop (arrival_entries (net network.now).counts) labels.new ≡ drop (arrival_entries (net network.now).counts) labels.old }
{
    let Offered {
        cost: _,
        steps: _,
        offer,
    } = book.offer(network, trip.circuit, trip.from, trip.to, &Few, labels)?;
    match book.confirm(offer) {
        Ok(circuit) => Ok(circuit),
        Err(_) => unreachable!(),
    }
}

// Offers the other circuit a path of the least sum, and withdraws the offer at once; told is how many
// channels went back.
pub(crate) fn doubt(
    book: &mut Book<'_, '_, '_>,
    network: &Network,
    trip: Trip,
    labels: &mut [Label<Fee>],
) -> Result<u16, BookFault>
    ensures kept { Kept book.old book.new }
    ensures calls { Goes (Doubts (net network.now) trip.other trip.from trip.to (length labels.old) result) book.old book.new }
    ensures beyond { drop (arrival_entries (net network.now).counts) labels.new ≡ drop (arrival_entries (net network.now).counts) labels.old }
{
    let Offered {
        cost: _,
        steps: _,
        offer,
    } = book.offer(network, trip.other, trip.from, trip.to, &Sum, labels)?;
    match book.withdraw(offer) {
        Ok(channels) => Ok(channels),
        Err(_) => unreachable!(),
    }
}
