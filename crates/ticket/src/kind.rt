ghost use Rattle.std.specs.Prelude.{◌≡◌};
ghost use Rattle.std.specs.Option.{ok_or};
ghost use Rattle.fault.specs.declared.ticket.TicketFault.TheVariants as ticket_fault;
ghost use Rattle.ticket.specs.Tickets.{kinds, named};

use super::CostKind;
use super::word::Part;
use fault::ticket::TicketFault;

impl TryFrom<Part<'_>> for CostKind {
    type Error = TicketFault;

    ghost try_from_gives = { λ p r. r ≡ ok_or (named kinds p.bytes.now) (ticket_fault.Kind p.at) };

    // The kind that a name is of.
    fn try_from(part: Part<'_>) -> Result<CostKind, TicketFault> {
        match part.bytes {
            b"SUM" => Ok(CostKind::Sum),
            b"FEW" => Ok(CostKind::Few),
            b"WORST" => Ok(CostKind::Worst),
            _ => Err(TicketFault::Kind { at: part.at }),
        }
    }
}
