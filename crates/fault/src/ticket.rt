ghost use Rattle.std.specs.Prelude.{◌≡◌};
ghost use Rattle.fault.specs.Reports.{of_word, of_ticket};
ghost use Rattle.fault.specs.declared.ticket.TicketFault.TheVariants as ticket;

use super::report::{Fault, Layer, Report};

// A byte or a word that no ticket has, by its place in the line, counted from 1.
#[derive(Clone, Copy, PartialEq, Eq, Debug)]
pub enum WordFault {
    // a space that is first, last or after a space
    Space { at: usize },
    // a byte of no word, or a letter and a digit in one word
    Foreign { at: usize },
    // a number over five digits or above 65,535
    Large { at: usize },
}

// A line that is no ticket.
#[derive(Clone, Copy, PartialEq, Eq, Debug)]
pub enum TicketFault {
    // empty, or over 80 bytes
    Length,
    Word(WordFault),
    // an unknown verb, or a number in its place
    Verb { at: usize },
    // too many words, or too few
    Count { at: usize },
    // a number where a name belongs, or the reverse
    Sort { at: usize },
    // an unknown kind of cost
    Kind { at: usize },
}

impl From<WordFault> for TicketFault {
    ghost from_gives = { λ x y. y ≡ ticket.Word x };

    fn from(value: WordFault) -> TicketFault {
        TicketFault::Word(value)
    }
}

impl Fault for WordFault {
    ghost told = { of_word };

    fn report(&self) -> Report {
        let layer = Layer::Word;
        match *self {
            WordFault::Space { at } => Report::new(13, at, layer),
            WordFault::Foreign { at } => Report::new(14, at, layer),
            WordFault::Large { at } => Report::new(15, at, layer),
        }
    }
}

impl Fault for TicketFault {
    ghost told = { of_ticket };

    fn report(&self) -> Report {
        let layer = Layer::Ticket;
        match *self {
            TicketFault::Length => Report::new(12, 0, layer),
            TicketFault::Word(fault) => fault.report(),
            TicketFault::Verb { at } => Report::new(16, at, layer),
            TicketFault::Count { at } => Report::new(17, at, layer),
            TicketFault::Sort { at } => Report::new(18, at, layer),
            TicketFault::Kind { at } => Report::new(19, at, layer),
        }
    }
}
