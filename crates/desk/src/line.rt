ghost use Rattle.std.specs.Prelude.{◌≡◌, ◌≤◌, length};

// How much of a line is kept: one byte more than a ticket has, which tells that it is too long.
pub const KEPT: usize = 81;

// The first bytes of a line; those past the first 81 are not kept. A line is `Copy`, so they stand
// in an array with a count: an `ArrayVec` can't be copied.
#[derive(Clone, Copy)]
pub struct Line {
    bytes: [u8; KEPT],
    len: usize,
    ghost long: { length bytes ≡ 81 },
    ghost few: { len ≤ 81 },
}

impl Line {
    ghost use Rattle.std.specs.Prelude.{[], ◌∷◌, ◌++◌, ◌==◌};
    ghost use Rattle.desk.specs.Holding.{held, kept};
    ghost use Rattle.desk.specs.Inputs.{AnsweredByLines, SplitAtTens};
    ghost use Rattle.desk.specs.Serving.{RefusalsChangeNothing};

    // A line of no bytes. An input that comes to it is answered line by line.
    pub fn new() -> Line
        ensures empty { held result ≡ [] }
        ensures answered { AnsweredByLines }
        ensures split { SplitAtTens }
        ensures refused { RefusalsChangeNothing }
    {
        Line {
            bytes: [0; KEPT],
            len: 0,
        }
    }

    // One more byte of the line, which is kept where there is room.
    #[tactic(auto, using(crate::proofs::Lines::room_for, crate::proofs::Lines::no_room))]
    pub fn push(&mut self, byte: u8)
        ensures { held self.new ≡ kept (held self.old ++ byte ∷ []) }
    {
        if self.len < KEPT {
            self.bytes[self.len] = byte;
            self.len += 1;
        }
    }

    // Begins another line.
    pub fn clear(&mut self)
        ensures { held self.new ≡ [] }
    {
        self.len = 0;
    }

    // What is kept of the line.
    pub fn bytes(&self) -> &[u8]
        ensures { result.now ≡ held self.now }
    {
        &self.bytes[..self.len]
    }

    // Whether the line has not begun.
    pub fn is_empty(&self) -> bool
        ensures { result ≡ (length (held self.now) == 0) }
    {
        self.len == 0
    }
}
