ghost use Rattle.std.specs.Prelude.{length, string_bytes};
ghost use Rattle.network.specs.Net.{net};
ghost use Rattle.book.specs.State.{tables, Kept};
ghost use Rattle.desk.specs.Feeding.{Says};
ghost use Rattle.desk.specs.Serving.{RoomFor};

use super::serving::{SETTINGS, answer, asks_for_slip};
use book::Book;
use fault::ticket::TicketFault;
use network::Network;
use slip::setting::{BLANK, Setting};
use std::fmt;
use ticket::Ticket;

// Writes the reply to a line, by the ticket that it is, if it is one, and a byte 10.
fn write_reply(
    network: &Network<'_, '_>,
    book: &mut Book<'_, '_, '_>,
    settings: &mut [Setting],
    ticket: Result<Ticket, TicketFault>,
    out: &mut String,
) -> fmt::Result
    requires { RoomFor ticket (length settings.old) }
    ensures kept { Kept book.old book.new }
    ensures says { Says result (net network.now) book.old.extent.counts (tables book.old) ticket
        (string_bytes out.old) (string_bytes out.new) (tables book.new) }
{
    let reply = answer(network, book, settings, ticket);
    writeln!(out, "{reply}")?;
    Ok(())
}

// The same with room for any slip. The room is a table of some size, so it stands in a function of its
// own, which no other ticket comes to.
#[inline(never)]
fn write_slip_reply(
    network: &Network<'_, '_>,
    book: &mut Book<'_, '_, '_>,
    ticket: Result<Ticket, TicketFault>,
    out: &mut String,
) -> fmt::Result
    ensures kept { Kept book.old book.new }
    ensures says { Says result (net network.now) book.old.extent.counts (tables book.old) ticket
        (string_bytes out.old) (string_bytes out.new) (tables book.new) }
{
    let mut settings = [BLANK; SETTINGS];
    write_reply(network, book, &mut settings, ticket, out)
}

// Writes the reply to a line, by the ticket that it is, if it is one, and a byte 10.
pub(crate) fn reply(
    network: &Network<'_, '_>,
    book: &mut Book<'_, '_, '_>,
    ticket: Result<Ticket, TicketFault>,
    out: &mut String,
) -> fmt::Result
    ensures kept { Kept book.old book.new }
    ensures says { Says result (net network.now) book.old.extent.counts (tables book.old) ticket
        (string_bytes out.old) (string_bytes out.new) (tables book.new) }
{
    if asks_for_slip(ticket) {
        return write_slip_reply(network, book, ticket, out);
    }
    write_reply(network, book, &mut [], ticket, out)
}
