ghost use Rattle.std.specs.Prelude.{◌≡◌, ◌+◌, ◌<◌, ◌≤◌, ◌%◌, ◌^◌};
ghost use Rattle.label.specs.Fields.{field, field_bits, part};

// A field of a label: how far its lowest bit stands from the label's, and how many bits it has.
#[derive(Clone, Copy)]
pub struct Field {
    at: u32,
    width: u32,
    ghost placed: { at < 32 },
    ghost narrow: { width < 32 },
    ghost inside: { width + at ≤ 32 },
}

pub const GRID: Field = Field { at: 29, width: 3 };

pub const SPACING: Field = Field { at: 25, width: 4 };

pub const IDENTIFIER: Field = Field { at: 16, width: 9 };

pub const NUMBER: Field = Field { at: 0, width: 16 };

impl Field {
    // The lowest bits of a number, as many as the field has.
    #[tactic(auto, using(std::proofs::lemmas::Grind::common_steps, std::proofs::lemmas::Nat::and_mask))]
    fn lowest(self, x: u32) -> u32
        ensures { result ≡ x % 2 ^ self.width }
    {
        x & (1 << self.width) - 1
    }

    // What the field of a label holds.
    pub fn part(self, bits: u32) -> u32
        ensures { result ≡ part (field self.at self.width) bits }
    {
        self.lowest(bits >> self.at)
    }

    // A number put into the field: as many of its lowest bits as the field has.
    #[tactic(auto, using(crate::proofs::Joined::shifted_whole))]
    pub fn bits(self, x: u32) -> u32
        ensures { result ≡ field_bits (field self.at self.width) x }
    {
        self.lowest(x) << self.at
    }
}
