//! Tickets: a line of bytes cut into words that borrow it, and what the words say.
#![tactic(auto)]

ghost use Rattle.std.specs.Prelude.{◌≡◌};
ghost use Rattle.ticket.specs.Lines.{of_length};
ghost use Rattle.ticket.specs.Tickets.{ticket_of};

use fault::ticket::TicketFault;
use words::told_by_words;

mod kind;
mod spot;
mod verb;
pub mod word;
mod words;

// The kinds of cost, by their names on a ticket.
#[derive(Clone, Copy, PartialEq, Eq, Debug)]
pub enum CostKind {
    Sum,
    Few,
    Worst,
}

// A path that is asked for: the circuit that it is for, the nodes that it joins, and the kind of
// cost by which it is to be a cheapest.
#[derive(Clone, Copy, PartialEq, Eq, Debug)]
pub struct Order {
    pub circuit: u16,
    pub from: u16,
    pub to: u16,
    pub kind: CostKind,
}

// A trial: the least cost between two nodes with one span counted as shut, by a kind of cost.
#[derive(Clone, Copy, PartialEq, Eq, Debug)]
pub struct Trial {
    pub from: u16,
    pub to: u16,
    pub span: u16,
    pub kind: CostKind,
}

// What a ticket asks for.
#[derive(Clone, Copy, PartialEq, Eq, Debug)]
pub enum Ticket {
    Light(Order),
    Quote(Order),
    Trial(Trial),
    Dark { circuit: u16 },
    Shut { span: u16 },
    Slip { circuit: u16 },
}

// Whether a line is neither empty nor over 80 bytes.
fn of_length(line: &[u8]) -> bool
    ensures { result ≡ of_length line.now }
{
    !line.is_empty() && line.len() <= 80
}

// Reads a line, without its newline, as a ticket.
pub fn read(line: &[u8]) -> Result<Ticket, TicketFault>
    ensures { result ≡ ticket_of line.now }
{
    if !of_length(line) {
        return Err(TicketFault::Length);
    }
    told_by_words(line)
}
