ghost use Rattle.std.specs.Prelude.{◌≡◌, Ok};
ghost use Rattle.network.specs.Net.{net};
ghost use Rattle.book.specs.Opening.{room, opened};
ghost use Rattle.book.specs.State.{tables, lent, contents, SameTables};

use super::Book;
use super::lent::Lent;
use fault::book::BookFault;
use network::Network;
use network::extent::Extent;
use network::table::fill;
use records::channel::Channel;
use records::circuit::{CIRCUITS, Circuit};
use records::state::SpanState;

// Whether the tables have room for a book of the network. They are slices here, since `Lent` would
// ask for `&mut`.
pub fn check_tables(
    network: &Network,
    channels: &[Channel],
    circuits: &[Circuit],
    spans: &[SpanState],
) -> Result<(), BookFault>
    ensures { result ≡ room (net network.now).counts (lent channels.now circuits.now spans.now) }
{
    let extent = network.extent();
    let short = channels.len() < extent.span_entries()
        || circuits.len() < CIRCUITS
        || spans.len() < extent.counts().spans;
    if short {
        return Err(BookFault::BookTable);
    }
    Ok(())
}

impl<'a, 'b, 'c> Book<'a, 'b, 'c> {
    // The book of a network, all free and open, over tables that have room.
    pub fn open(network: &Network, mark: u32, mut lent: Lent<'a, 'b, 'c>) -> Book<'a, 'b, 'c>
        requires { room (net network.now).counts (contents lent) ≡ Ok tt }
        ensures counts { result.extent.counts ≡ (net network.now).counts }
        ensures mark { result.mark ≡ mark }
        ensures tables { tables result ≡ opened (net network.now).counts (contents lent.entry) }
        ensures names { SameTables lent.entry result.lent }
    {
        let extent = network.extent();
        lent.clear(extent);
        Book { extent, mark, lent }
    }
}

impl Lent<'_, '_, '_> {
    // Frees the channels and the circuits that a book needs, and opens its spans.
    fn clear(&mut self, extent: Extent)
        ensures contents { contents self.new ≡ opened extent.counts (contents self.old) }
        ensures names { SameTables self.old self.new }
    {
        fill(self.channels, extent.span_entries(), None);
        fill(self.circuits, CIRCUITS, Circuit::Free);
        fill(self.spans, extent.counts().spans, SpanState::Open);
    }
}
