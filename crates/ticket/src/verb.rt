ghost use Rattle.std.specs.Prelude.{◌≡◌};
ghost use Rattle.ticket.specs.Lines.{token_of};
ghost use Rattle.ticket.specs.Tickets.{wants, verb_of};

use super::word::Word;
use fault::ticket::TicketFault;

// The first word of a ticket.
#[derive(Clone, Copy)]
pub(crate) enum Verb {
    Light,
    Quote,
    Trial,
    Dark,
    Shut,
    Slip,
}

impl Verb {
    // How many words follow it.
    pub(crate) fn takes(self) -> usize
        ensures { result ≡ wants self }
    {
        match self {
            Verb::Light | Verb::Quote | Verb::Trial => 4,
            Verb::Dark | Verb::Shut | Verb::Slip => 1,
        }
    }
}

impl TryFrom<Word<'_>> for Verb {
    type Error = TicketFault;

    ghost try_from_gives = { λ w r. r ≡ verb_of (token_of w) };

    // The verb that a word is.
    fn try_from(word: Word<'_>) -> Result<Verb, TicketFault> {
        let Word::Name(part) = word else {
            return Err(TicketFault::Verb { at: word.place() });
        };
        match part.bytes {
            b"LIGHT" => Ok(Verb::Light),
            b"QUOTE" => Ok(Verb::Quote),
            b"TRIAL" => Ok(Verb::Trial),
            b"DARK" => Ok(Verb::Dark),
            b"SHUT" => Ok(Verb::Shut),
            b"SLIP" => Ok(Verb::Slip),
            _ => Err(TicketFault::Verb { at: part.at }),
        }
    }
}
