ghost use Rattle.std.specs.Prelude.{◌≡◌};
ghost use Rattle.cabinet.specs.Requests.{kind_of, offer_of, call_of};

use fault::ticket::TicketFault;
use ticket::{CostKind, Order};

// What C asks of a book, in plain numbers. A call reads the fields that it needs, and no other.
#[repr(C)]
#[derive(Clone, Copy, PartialEq, Eq, Debug)]
pub struct Request {
    pub call: u8,
    pub kind: u8,
    pub circuit: u16,
    pub from: u16,
    pub to: u16,
    pub span: u16,
    pub place: usize,
}

// A request as a call of the book.
#[derive(Clone, Copy, PartialEq, Eq, Debug)]
pub(crate) enum Call {
    Offer(Order),
    Confirm,
    Withdraw,
    Darken { circuit: u16 },
    Shut { span: u16 },
    Slip { circuit: u16, place: usize },
}

impl Request {
    // The kind of cost that it names.
    fn told_kind(self) -> Result<CostKind, TicketFault>
        ensures { result ≡ kind_of self.kind }
    {
        match self.kind {
            0 => Ok(CostKind::Sum),
            1 => Ok(CostKind::Few),
            2 => Ok(CostKind::Worst),
            _ => Err(TicketFault::Kind { at: 0 }),
        }
    }

    // The offer that it asks for.
    fn order(self) -> Result<Call, TicketFault>
        ensures { result ≡ offer_of self }
    {
        let kind = self.told_kind()?;
        Ok(Call::Offer(Order {
            circuit: self.circuit,
            from: self.from,
            to: self.to,
            kind,
        }))
    }

    // The call that it asks for.
    pub(crate) fn told_call(self) -> Result<Call, TicketFault>
        ensures { result ≡ call_of self }
    {
        match self.call {
            1 => self.order(),
            2 => Ok(Call::Confirm),
            3 => Ok(Call::Withdraw),
            4 => Ok(Call::Darken {
                circuit: self.circuit,
            }),
            5 => Ok(Call::Shut { span: self.span }),
            6 => Ok(Call::Slip {
                circuit: self.circuit,
                place: self.place,
            }),
            _ => Err(TicketFault::Verb { at: 0 }),
        }
    }
}
