//! Labels: the 32-bit names by which a node's cabinet tells channels apart.
#![tactic(auto)]

ghost use Rattle.std.specs.Prelude.{◌≡◌, Ok, Err, if◌then◌else◌};
ghost use Rattle.fault.specs.declared.label.LabelFault.TheVariants as fault;
ghost use Rattle.network.specs.Limits.{in_range};
ghost use Rattle.network.specs.Spacings.{coded, spacing_by};
ghost use Rattle.label.specs.Labels.{is_sound, is_writable, read, write, IsCentred, ReadsBack, RefusesExactly, WritesBack};

use bits::{code_in, label_bits, number_in};
use centre::centre_of;
use fault::label::LabelFault;
use fields::{GRID, IDENTIFIER};
use network::number::in_range;
use network::spacing::Spacing;
use std::fmt;

mod bits;
mod centre;
mod fields;

// A label as it is sent, sound or not.
#[derive(Clone, Copy, PartialEq, Eq, Debug)]
pub struct Label {
    pub bits: u32,
}

// A label is printed as eight hexadecimal digits.
#[tactic(auto, using(crate::proofs::Printed::printed))]
impl fmt::Display for Label {
    ghost use Rattle.std.specs.Prelude.{Some};
    ghost use Rattle.label.specs.Texts.{label_text};

    ghost output = { λ l. Some (label_text l.bits) };

    fn fmt<W: fmt::Write>(&self, f: &mut fmt::Formatter<W>) -> fmt::Result {
        let bits = self.bits;
        write!(f, "{bits:08X}")
    }
}

// What a label tells: its spacing, its number n, and its centre in MHz.
#[derive(Clone, Copy, PartialEq, Eq, Debug)]
pub struct Reading {
    pub spacing: Spacing,
    pub n: i16,
    pub centre: u32,
}

// The spacing that has this code, or the fault where none has.
fn spacing_by(code: u8) -> Result<Spacing, LabelFault>
    ensures { result ≡ if coded code then Ok (spacing_by code) else Err fault.Spacing }
{
    Spacing::try_from(code).map_err(|_| LabelFault::Spacing)
}

// The number n where it is -1000 to 1000, or the fault.
fn number_by(n: i16) -> Result<i16, LabelFault>
    ensures { result ≡ if in_range n then Ok n else Err fault.Number }
{
    if in_range(n) {
        Ok(n)
    } else {
        Err(LabelFault::Number)
    }
}

// A label of these fields, or the fault. `write` promises more of the same answer.
fn label_of(code: u8, n: i16) -> Result<Label, LabelFault>
    ensures { result ≡ write code n }
{
    let spacing = spacing_by(code)?;
    let n = number_by(n)?;
    let bits = label_bits(spacing, n);
    Ok(Label { bits })
}

// What these bits tell, or the fault. `read` promises more of the same answer.
fn reading_of(bits: u32) -> Result<Reading, LabelFault>
    ensures is { result ≡ read bits }
    ensures centred { IsCentred result }
{
    if GRID.part(bits) != 1 {
        return Err(LabelFault::Grid);
    }
    let spacing = spacing_by(code_in(bits))?;
    if IDENTIFIER.part(bits) != 0 {
        return Err(LabelFault::Identifier);
    }
    let n = number_by(number_in(bits))?;
    let centre = centre_of(spacing, n);
    Ok(Reading { spacing, n, centre })
}

impl Label {
    // The label of a spacing code and a number n, or the first of the two that is wrong. Any number
    // is taken for a code, since this is the call that refuses the wrong ones.
    pub fn write(code: u8, n: i16) -> Result<Label, LabelFault>
        ensures is { result ≡ write code n }
        ensures back { ReadsBack code n result }
        ensures exact { RefusesExactly (is_writable code n) result }
    {
        label_of(code, n)
    }

    // What a label tells, or the first of its fields that is wrong, from the high end.
    pub fn read(self) -> Result<Reading, LabelFault>
        ensures is { result ≡ read self.bits }
        ensures back { WritesBack self result }
        ensures exact { RefusesExactly (is_sound self.bits) result }
        ensures centred { IsCentred result }
    {
        reading_of(self.bits)
    }
}
