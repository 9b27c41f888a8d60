ghost use Rattle.std.specs.Prelude.{◌≡◌, true, length, Ok};
ghost use Rattle.network.specs.Net.{net};
ghost use Rattle.book.specs.State.{tables, Kept};
ghost use Rattle.desk.specs.Replies.{text, book_said, said_of};
ghost use Rattle.desk.specs.Serving.{Called, Served, RoomFor, asks_for_path, asks_for_slip};

use super::ordering::{light_by_kind, price_by_kind, try_by_kind};
use super::refusal::DeskFault;
use super::reply::Reply;
use book::Book;
use fault::book::BookFault;
use fault::report::Fault;
use fault::ticket::TicketFault;
use network::Network;
use slip::setting::Setting;
use ticket::Ticket;

// As many settings as a slip can have: one more than its path has steps, and a path has at most as many
// steps as the largest network has arrivals.
pub(crate) const SETTINGS: usize = 1025;

// Whether it is a ticket that asks for a slip.
pub(crate) fn asks_for_slip(ticket: Result<Ticket, TicketFault>) -> bool
    ensures { result ≡ asks_for_slip ticket }
{
    matches!(ticket, Ok(Ticket::Slip { .. }))
}

// Makes the call of a ticket that asks for a path to be found. The search works in tables of some size, so
// this stands in a function of its own, which no other ticket comes to.
#[inline(never)]
fn seek<'s>(
    network: &Network<'_, '_>,
    book: &mut Book<'_, '_, '_>,
    ticket: Ticket,
) -> Result<Reply<'s>, BookFault>
    requires { asks_for_path ticket ≡ true }
    ensures kept { Kept book.old book.new }
    ensures called { Called (net network.now) book.old.extent.counts (tables book.old) ticket (book_said result) (tables book.new) }
{
    match ticket {
        Ticket::Light(order) => {
            let cost = light_by_kind(network, book, order)?;
            let circuit = order.circuit;
            Ok(Reply::Lit { circuit, cost })
        }
        Ticket::Quote(order) => {
            let cost = price_by_kind(network, book, order)?;
            Ok(Reply::Fee { cost })
        }
        Ticket::Trial(trial) => {
            let cost = try_by_kind(network, book, trial)?;
            Ok(Reply::Fee { cost })
        }
        Ticket::Dark { .. } | Ticket::Shut { .. } | Ticket::Slip { .. } => unreachable!(),
    }
}

// Makes the call that a ticket asks for. Only a slip is written into the settings.
fn call<'s>(
    network: &Network<'_, '_>,
    book: &mut Book<'_, '_, '_>,
    settings: &'s mut [Setting],
    ticket: Ticket,
) -> Result<Reply<'s>, BookFault>
    requires { RoomFor (Ok ticket) (length settings.old) }
    ensures kept { Kept book.old book.new }
    ensures called { Called (net network.now) book.old.extent.counts (tables book.old) ticket (book_said result) (tables book.new) }
{
    match ticket {
        Ticket::Light(_) => seek(network, book, ticket),
        Ticket::Quote(_) => seek(network, book, ticket),
        Ticket::Trial(_) => seek(network, book, ticket),
        Ticket::Dark { circuit } => {
            let channels = book.darken(circuit)?;
            Ok(Reply::Dark { circuit, channels })
        }
        Ticket::Shut { span } => {
            book.shut(span)?;
            Ok(Reply::Shut { span })
        }
        Ticket::Slip { circuit } => {
            let count = book.slip(network, circuit, settings)?;
            let settings = &settings[..count];
            Ok(Reply::Slip { circuit, settings })
        }
    }
}

// Makes the call of a ticket, where the line is one.
fn serve<'s>(
    network: &Network<'_, '_>,
    book: &mut Book<'_, '_, '_>,
    settings: &'s mut [Setting],
    ticket: Result<Ticket, TicketFault>,
) -> Result<Reply<'s>, DeskFault>
    requires { RoomFor ticket (length settings.old) }
    ensures kept { Kept book.old book.new }
    ensures served { Served (net network.now) book.old.extent.counts (tables book.old) ticket (said_of result) (tables book.new) }
{
    let ticket = ticket?;
    Ok(call(network, book, settings, ticket)?)
}

// The reply to a line, by the ticket that it is, if it is one.
pub(crate) fn answer<'s>(
    network: &Network<'_, '_>,
    book: &mut Book<'_, '_, '_>,
    settings: &'s mut [Setting],
    ticket: Result<Ticket, TicketFault>,
) -> Reply<'s>
    requires { RoomFor ticket (length settings.old) }
    ensures kept { Kept book.old book.new }
    ensures served { Served (net network.now) book.old.extent.counts (tables book.old) ticket (text result) (tables book.new) }
{
    match serve(network, book, settings, ticket) {
        Ok(reply) => reply,
        Err(fault) => Reply::No {
            report: fault.report(),
        },
    }
}
