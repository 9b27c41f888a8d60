ghost use Rattle.std.specs.Prelude.{◌≡◌, ◌≢◌, ◌+◌, ◌*◌, ◌<◌, ◌≤◌, true, false, [], ◌++◌, map, length, drop, Some, None, IsTrue, MatchResult};
ghost use Rattle.std.specs.List.{All};
ghost use Rattle.fault.specs.Judging.{first};
ghost use Rattle.fault.specs.declared.ticket.TicketFault.TheVariants as ticket_fault;
ghost use Rattle.fault.specs.declared.ticket.WordFault.TheVariants as word_fault;
ghost use Rattle.arrayvec.specs.ArrayVec.{array_vec_len};
ghost use Rattle.ticket.specs.Lines.{part, small, too_large, token_of, word_from, of_line, of_length, words};
ghost use Rattle.ticket.specs.Tickets.{ticket_of, beyond, kind_of, meaning, nth, number_of, numbers_and_kind, order_of, trial_of};

use super::spot::Spot;
use super::verb::Verb;
use super::word::{Word, number, of_word};
use super::{CostKind, Order, Ticket, Trial};
use arrayvec::ArrayVec;
use fault::ticket::{TicketFault, WordFault};

// The words of a line of at most 80 bytes, which has at most 40.
#[derive(Drop)]
pub(crate) struct Words<'a> {
    line: &'a [u8],
    held: ArrayVec<Word<'a>, 40>,
    ghost short: { length line.now ≤ 80 },
    ghost numbers_small: { All (λ w. IsTrue (small (token_of w))) held.items },
}

// What a line of at most 80 bytes says, or the first fault of its words. The words stay where they are
// made: they take more than a kilobyte, and are not moved.
pub(crate) fn told_by_words(line: &[u8]) -> Result<Ticket, TicketFault>
    requires { (of_length line.now ≡ true) × (length line.now ≤ 80) }
    ensures { result ≡ ticket_of line.now }
{
    let mut words = Words {
        line,
        held: ArrayVec::new(),
    };
    words.cut()?;
    words.ticket()
}

impl Words<'_> {
    // Cuts the line into words, where none is held yet.
    fn cut(&mut self) -> Result<(), WordFault>
        requires { self.old.held.items ≡ [] }
        ensures { MatchResult result (λ _. (first (of_line self.old.line.now) ≡ None) × (self.new.line.now ≡ self.old.line.now) × (map token_of self.new.held.items ≡ words self.old.line.now)) (λ e. first (of_line self.old.line.now) ≡ Some e) }
    {
        let line = self.line;
        let mut start = 0;
        for (i, byte) in line.iter().enumerate() {
            let run_ends = !of_word(*byte);
            if run_ends {
                self.hold(start, i)?;
                start = i + 1;
            }
            Spot { line, i }.judge()?;
        }
        self.hold(start, line.len())?;
        Ok(())
    }

    // Holds the word from `start` on, up to `end`, where there is a byte.
    fn hold(&mut self, start: usize, end: usize) -> Result<(), WordFault>
        requires within { (start ≤ end) × (end ≤ length self.old.line.now) }
        requires room { 2 * array_vec_len self.old.held ≤ start }
        ensures same_line { self.new.line ≡ self.old.line }
        ensures room { 2 * array_vec_len self.new.held ≤ end + 1 }
        ensures held { MatchResult result (λ _. (too_large (part self.old.line.now start end) ≡ false) × (map token_of self.new.held.items ≡ map token_of self.old.held.items ++ word_from self.old.line.now start end)) (λ e. (too_large (part self.old.line.now start end) ≡ true) × (e ≡ word_fault.Large (start + 1))) }
    {
        if start < end {
            self.held.push(Word::of(self.line, start, end)?);
        }
        Ok(())
    }

    // What the words say.
    pub(crate) fn ticket(&self) -> Result<Ticket, TicketFault>
        ensures { result ≡ meaning (length self.now.line.now) (map token_of self.now.held.items) }
    {
        let Some(first) = self.held.first() else {
            return Err(TicketFault::Verb { at: 1 });
        };
        let verb = Verb::try_from(*first)?;
        self.counted(verb.takes())?;
        match verb {
            Verb::Light => Ok(Ticket::Light(self.order()?)),
            Verb::Quote => Ok(Ticket::Quote(self.order()?)),
            Verb::Trial => Ok(Ticket::Trial(self.trial()?)),
            Verb::Dark => Ok(Ticket::Dark {
                circuit: self.number(1)?,
            }),
            Verb::Shut => Ok(Ticket::Shut {
                span: self.number(1)?,
            }),
            Verb::Slip => Ok(Ticket::Slip {
                circuit: self.number(1)?,
            }),
        }
    }

    // The order that the four words after the verb make.
    fn order(&self) -> Result<Order, TicketFault>
        requires { length self.now.held.items ≡ 5 }
        ensures { result ≡ order_of (drop 1 (map token_of self.now.held.items)) }
    {
        let (circuit, from, to, kind) = self.numbers_and_kind()?;
        Ok(Order {
            circuit,
            from,
            to,
            kind,
        })
    }

    // The trial that they make.
    fn trial(&self) -> Result<Trial, TicketFault>
        requires { length self.now.held.items ≡ 5 }
        ensures { result ≡ trial_of (drop 1 (map token_of self.now.held.items)) }
    {
        let (from, to, span, kind) = self.numbers_and_kind()?;
        Ok(Trial {
            from,
            to,
            span,
            kind,
        })
    }

    // The three numbers and the kind of cost after the verb.
    fn numbers_and_kind(&self) -> Result<(u16, u16, u16, CostKind), TicketFault>
        requires { length self.now.held.items ≡ 5 }
        ensures { result ≡ numbers_and_kind (drop 1 (map token_of self.now.held.items)) }
    {
        Ok((
            self.number(1)?,
            self.number(2)?,
            self.number(3)?,
            self.kind(4)?,
        ))
    }

    // Refuses too many words, or too few, after the verb.
    fn counted(&self, wanted: usize) -> Result<(), TicketFault>
        requires { wanted < 80 }
        ensures { MatchResult result (λ _. length self.now.held.items ≡ wanted + 1) (λ e. (length self.now.held.items ≢ wanted + 1) × (e ≡ ticket_fault.Count (beyond (length self.now.line.now) (drop (wanted + 1) (map token_of self.now.held.items))))) }
    {
        if let Some(surplus) = self.held.get(wanted + 1) {
            return Err(TicketFault::Count {
                at: surplus.place(),
            });
        }
        if self.held.len() <= wanted {
            return Err(TicketFault::Count {
                at: self.line.len() + 1,
            });
        }
        Ok(())
    }

    // The number that the word at `k` is.
    fn number(&self, k: usize) -> Result<u16, TicketFault>
        requires { k < length self.now.held.items }
        ensures { result ≡ number_of (nth (map token_of self.now.held.items) k) }
    {
        let word = self.held[k];
        let Word::Number(part) = word else {
            return Err(TicketFault::Sort { at: word.place() });
        };
        // it is small, and so it fits
        Ok(number(part.bytes) as u16)
    }

    // The kind of cost that the word at `k` is.
    fn kind(&self, k: usize) -> Result<CostKind, TicketFault>
        requires { k < length self.now.held.items }
        ensures { result ≡ kind_of (nth (map token_of self.now.held.items) k) }
    {
        let word = self.held[k];
        let Word::Name(part) = word else {
            return Err(TicketFault::Sort { at: word.place() });
        };
        CostKind::try_from(part)
    }
}
