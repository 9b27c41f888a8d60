ghost use Rattle.std.specs.Prelude.{◌≡◌};
ghost use Rattle.fault.specs.Reports.{of_book, of_ticket};
ghost use Rattle.cabinet.specs.Replies.{counted, priced, refused};

use fault::book::BookFault;
use fault::report::Fault;
use fault::ticket::TicketFault;

// What comes of one request: 0, or the number of the refusal; how many there are of what the call counts;
// and what an offer costs.
#[repr(C)]
#[derive(Clone, Copy, PartialEq, Eq, Debug)]
pub struct Reply {
    pub refusal: u8,
    pub conversions: u16,
    pub cost: u32,
    pub count: usize,
}

impl Reply {
    // Nothing is refused, and nothing costs.
    pub(crate) fn counted(count: usize) -> Reply
        ensures { result ≡ counted count }
    {
        Reply {
            refusal: 0,
            conversions: 0,
            cost: 0,
            count,
        }
    }

    // A path is offered, of so many steps and such a cost.
    pub(crate) fn priced(count: u16, conversions: u16, cost: u32) -> Reply
        ensures { result ≡ priced count conversions cost }
    {
        Reply {
            refusal: 0,
            conversions,
            cost,
            count: usize::from(count),
        }
    }

    // A refusal of this number.
    fn refused(refusal: u8) -> Reply
        ensures { result ≡ refused refusal }
    {
        Reply {
            refusal,
            conversions: 0,
            cost: 0,
            count: 0,
        }
    }

    // The book refuses.
    pub(crate) fn refused_by_book(fault: BookFault) -> Reply
        ensures { result ≡ refused (of_book fault).number }
    {
        Reply::refused(fault.report().number)
    }

    // What is asked is no call.
    pub(crate) fn refused_as_asked(fault: TicketFault) -> Reply
        ensures { result ≡ refused (of_ticket fault).number }
    {
        Reply::refused(fault.report().number)
    }
}
