ghost use Rattle.std.specs.Prelude.{◌≡◌, ◌-◌, ◌<◌, length, Some, None, MatchOption, MatchResult};
ghost use Rattle.fault.specs.Judging.{first};
ghost use Rattle.ticket.specs.Lines.{byte, idle, mixed, of_byte};

use super::word::of_word;
use fault::ticket::WordFault;

// A byte of a line, by its index: it is judged by what stands beside it.
#[derive(Clone, Copy)]
pub(crate) struct Spot<'a> {
    pub(crate) line: &'a [u8],
    pub(crate) i: usize,
    ghost inside: { i < length line.now },
}

impl Spot<'_> {
    // The byte.
    fn here(self) -> u8
        ensures { result ≡ byte self.entry.line.now self.entry.i }
    {
        self.line[self.i]
    }

    // The byte before it, where there is one.
    fn before(self) -> Option<u8>
        ensures { MatchOption result (self.entry.i ≡ 0) (λ b. (0 < self.entry.i) × (b ≡ byte self.entry.line.now (self.entry.i - 1))) }
    {
        self.line[..self.i].last().copied()
    }

    // Whether it is a space that is first, last or after a space.
    fn is_idle(self) -> bool
        ensures { result ≡ idle self.entry.line.now self.entry.i }
    {
        let last = self.i + 1 == self.line.len();
        self.here() == b' ' && (last || self.before().is_none_or(|before| before == b' '))
    }

    // Whether it is a letter after a digit, or a digit after a letter.
    fn is_mixed(self) -> bool
        ensures { result ≡ mixed self.entry.line.now self.entry.i }
    {
        let here = self.here();
        self.before().is_some_and(|before| {
            before.is_ascii_digit() && here.is_ascii_uppercase()
                || before.is_ascii_uppercase() && here.is_ascii_digit()
        })
    }

    // Judges the byte.
    pub(crate) fn judge(self) -> Result<(), WordFault>
        ensures { MatchResult result (λ _. first (of_byte self.entry.line.now self.entry.i) ≡ None) (λ e. first (of_byte self.entry.line.now self.entry.i) ≡ Some e) }
    {
        let at = self.i + 1;
        if self.is_idle() {
            return Err(WordFault::Space { at });
        }
        let here = self.here();
        let of_line = here == b' ' || of_word(here);
        if !of_line || self.is_mixed() {
            return Err(WordFault::Foreign { at });
        }
        Ok(())
    }
}
