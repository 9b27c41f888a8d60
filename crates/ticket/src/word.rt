ghost use Rattle.std.specs.Prelude.{◌≡◌, ◌+◌, ◌<◌, ◌≤◌, true, false, [], length, MatchResult};
ghost use Rattle.fault.specs.declared.ticket.WordFault.TheVariants as word_fault;
ghost use Rattle.ticket.specs.Lines.{of_word, digit, value, part, too_large, name, token, token_of, place};

use fault::ticket::WordFault;

// Some bytes of a line, and their place in it, counted from 1.
#[derive(Clone, Copy)]
pub struct Part<'a> {
    pub bytes: &'a [u8],
    pub at: usize,
}

// A word of a line: of digits, or of capital letters.
#[derive(Clone, Copy)]
pub enum Word<'a> {
    Number(Part<'a>),
    Name(Part<'a>),
}

impl<'a> Word<'a> {
    // The word of a line's bytes from `start` on, up to `end`, unless it is too large a number.
    pub(crate) fn of(line: &'a [u8], start: usize, end: usize) -> Result<Self, WordFault>
        requires { (start < end) × (end ≤ length line.now) }
        ensures { MatchResult result (λ w. (too_large (part line.now start end) ≡ false) × (token_of w ≡ token (start + 1) (part line.now start end))) (λ e. (too_large (part line.now start end) ≡ true) × (e ≡ word_fault.Large (start + 1))) }
    {
        let bytes = &line[start..end];
        let at = start + 1;
        if !bytes[0].is_ascii_digit() {
            return Ok(Word::Name(Part { bytes, at }));
        }
        if bytes.len() > 5 || number(bytes) > 65535 {
            return Err(WordFault::Large { at });
        }
        Ok(Word::Number(Part { bytes, at }))
    }

    // The place of its first byte.
    pub fn place(self) -> usize
        ensures { result ≡ place (token_of self.entry) }
    {
        match self {
            Word::Number(part) | Word::Name(part) => part.at,
        }
    }
}

impl Default for Word<'_> {
    ghost is_default = { λ w. token_of w ≡ name 0 [] };

    // A name of no bytes, which no line has: what a list of words holds where it has no word.
    fn default() -> Self {
        Word::Name(Part { bytes: &[], at: 0 })
    }
}

// Whether a word may have the byte.
pub(crate) fn of_word(byte: u8) -> bool
    ensures { result ≡ of_word byte }
{
    byte.is_ascii_digit() || byte.is_ascii_uppercase()
}

// What a digit counts.
fn digit_value(byte: u8) -> u32
    ensures { result ≡ digit byte }
{
    u32::from(byte.saturating_sub(b'0'))
}

// The value of at most five digits. The sum's bound needs an invariant, so it is no fold.
pub(crate) fn number(digits: &[u8]) -> u32
    requires { length digits.now ≤ 5 }
    ensures { result ≡ value digits.now }
{
    let mut total = 0u32;
    for byte in digits {
        total = total * 10 + digit_value(*byte);
    }
    total
}
