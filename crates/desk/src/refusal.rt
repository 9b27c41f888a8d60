ghost use Rattle.std.specs.Prelude.{◌≡◌};
ghost use Rattle.desk.specs.Replies.{of_desk};
ghost use Rattle.desk.specs.declared.refusal.DeskFault.TheVariants as desk;

use fault::book::BookFault;
use fault::report::{Fault, Report};
use fault::ticket::TicketFault;

// Why a line is refused: it is no ticket, or the book refuses what it asks for.
#[derive(Clone, Copy, PartialEq, Eq, Debug)]
pub enum DeskFault {
    Ticket(TicketFault),
    Book(BookFault),
}

impl From<TicketFault> for DeskFault {
    ghost from_gives = { λ x y. y ≡ desk.Ticket x };

    // A line that is no ticket.
    fn from(value: TicketFault) -> DeskFault {
        DeskFault::Ticket(value)
    }
}

impl From<BookFault> for DeskFault {
    ghost from_gives = { λ x y. y ≡ desk.Book x };

    // A call that the book refuses.
    fn from(value: BookFault) -> DeskFault {
        DeskFault::Book(value)
    }
}

impl Fault for DeskFault {
    ghost told = { of_desk };

    // The report of the layer that refuses.
    fn report(&self) -> Report {
        match *self {
            DeskFault::Ticket(fault) => fault.report(),
            DeskFault::Book(fault) => fault.report(),
        }
    }
}
