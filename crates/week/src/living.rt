ghost use Rattle.std.specs.Prelude.{◌≡◌, length, drop, IsErr};
ghost use Rattle.network.specs.Tariffs.{arrival_entries};
ghost use Rattle.network.specs.Net.{net};
ghost use Rattle.book.specs.Opening.{room};
ghost use Rattle.book.specs.State.{lent, tables, Kept, SameTables};
ghost use Rattle.account.specs.Going.{Goes, Accounted};
ghost use Rattle.week.specs.Weeks.{Week, GivesBackSeen};
ghost use Rattle.week.specs.Outcomes.{Comes};

use super::outcome::Outcome;
use super::settling::{doubt, light};
use super::told::Told;
use super::trip::Trip;
use account::open;
use book::lent::Lent;
use book::{Book, check_tables};
use cost::fee::Fee;
use cost::sum::Sum;
use cost::tally::Tally;
use cost::worst::Worst;
use fault::book::BookFault;
use network::Network;
use records::channel::Channel;
use records::circuit::Circuit;
use records::state::SpanState;
use search::label::Label;
use slip::setting::Setting;

// The calls of a week at a book.
fn live(
    book: &mut Book<'_, '_, '_>,
    network: &Network,
    trip: Trip,
    sums: &mut [Label<Fee>],
    tallies: &mut [Label<Tally>],
    settings: &mut [Setting],
) -> Told
    ensures kept { Kept book.old book.new }
    ensures calls { Goes (Week (net network.now) trip (length tallies.old) (length sums.old) settings.old settings.new result) book.old book.new }
    ensures beyond_sums { drop (arrival_entries (net network.now).counts) sums.new ≡ drop (arrival_entries (net network.now).counts) sums.old }
    ensures beyond_tallies { drop (arrival_entries (net network.now).counts) tallies.new ≡ drop (arrival_entries (net network.now).counts) tallies.old }
{
    let lit = light(book, network, trip, tallies);
    let seen = book.look(trip.circuit);
    let written = book.slip(network, trip.circuit, settings);
    let without = book.trial(network, trip.from, trip.to, trip.span, &Sum, sums);
    let shut = book.shut(trip.span);
    let worst = book.reckon(network, trip.circuit, &Worst);
    let given_back = doubt(book, network, trip, sums);
    let darkened = book.darken(trip.circuit);
    Told {
        lit,
        seen,
        written,
        without,
        shut,
        worst,
        given_back,
        darkened,
    }
}

// Opens a book over tables that have room, and lives a week at it. At the end its tables agree with an
// account of just these calls, by whichever kind of cost each was.
pub fn week<'a, 'b, 'c>(
    network: &Network,
    mark: u32,
    trip: Trip,
    channels: &'a mut [Channel],
    circuits: &'b mut [Circuit],
    spans: &'c mut [SpanState],
    sums: &mut [Label<Fee>],
    tallies: &mut [Label<Tally>],
    settings: &mut [Setting],
) -> Outcome<'a, 'b, 'c>
    ensures names { Comes (room (net network.now).counts (lent channels.old circuits.old spans.old)) (λ told b. SameTables (record { channels = channels.entry; circuits = circuits.entry; spans = spans.entry }) b.lent) result }
    ensures agrees { Comes (room (net network.now).counts (lent channels.old circuits.old spans.old)) (λ told b. Accounted (Week (net network.now) trip (length tallies.old) (length sums.old) settings.old settings.new told) (net network.now).counts mark (tables b)) result }
    ensures seen { Comes (room (net network.now).counts (lent channels.old circuits.old spans.old)) (λ told b. GivesBackSeen trip told) result }
    ensures beyond_sums { drop (arrival_entries (net network.now).counts) sums.new ≡ drop (arrival_entries (net network.now).counts) sums.old }
    ensures beyond_tallies { drop (arrival_entries (net network.now).counts) tallies.new ≡ drop (arrival_entries (net network.now).counts) tallies.old }
    ensures refused { IsErr (room (net network.now).counts (lent channels.old circuits.old spans.old)) → (sums.new ≡ sums.old) × (tallies.new ≡ tallies.old) × (settings.new ≡ settings.old) }
{
    if let Err(fault) = check_tables(network, channels, circuits, spans) {
        return Outcome::Refused(fault);
    }
    let lent = Lent {
        channels,
        circuits,
        spans,
    };
    let mut book = open(network, mark, lent);
    let told = live(&mut book, network, trip, sums, tallies, settings);
    Outcome::Lived(told, book)
}
