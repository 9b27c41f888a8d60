ghost use Rattle.std.specs.Prelude.{◌≡◌, ◌+◌};
ghost use Rattle.network.specs.Spacings.{code_of};
ghost use Rattle.label.specs.Fields.{field_bits, grid, identifier, number, part, spacing};
ghost use Rattle.label.specs.Labels.{number_in, label_bits};

use super::fields::{GRID, NUMBER, SPACING};
use network::spacing::Spacing;

// The spacing code in a label.
pub fn code_in(bits: u32) -> u8
    ensures { result ≡ part spacing bits }
{
    SPACING.part(bits) as u8
}

// The number n in a label, in two's complement.
pub fn number_in(bits: u32) -> i16
    ensures { result ≡ number_in bits }
{
    (NUMBER.part(bits) as u16).cast_signed()
}

// These parts beside each other in a label, with Identifier 0.
#[tactic(auto, using(crate::proofs::Joined::joined))]
fn joined(sort: u32, code: u32, n: u32) -> u32
    ensures { result ≡ field_bits grid sort + field_bits spacing code + field_bits identifier 0 + field_bits number n }
{
    GRID.bits(sort) | (SPACING.bits(code) | NUMBER.bits(n))
}

// Grid 1, the spacing's code, Identifier 0 and the number n in two's complement.
pub fn label_bits(spacing: Spacing, n: i16) -> u32
    ensures { result ≡ label_bits (code_of spacing) n }
{
    joined(1, u32::from(spacing.code()), u32::from(n.cast_unsigned()))
}
