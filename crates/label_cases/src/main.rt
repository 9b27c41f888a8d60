//! Reads or writes the labels of standard input, one a line: `READ` and a label in hexadecimal, or
//! `WRITE`, a spacing code and a number n. It prints what the label tells and the label that this
//! is written back as, or the label written and what it reads back as, or the refusal.
#![tactic(auto)]

use fault::label::LabelFault;
use fault::report::Fault;
use label::{Label, Reading};
use std::io;
use std::io::{BufRead, BufReader, BufWriter, Write};
use std::str::FromStr;

// What a line asks for.
#[derive(Clone, Copy)]
enum Request {
    Read(Label),
    Write { code: u8, n: i16 },
}

impl FromStr for Request {
    type Err = anyhow::Error;

    // Whatever does not begin with `READ` asks for a label to be written.
    fn from_str(line: &str) -> anyhow::Result<Request> {
        let mut words = line.split(' ');
        let verb = words.next();
        let first = words.next().unwrap_or("");
        if verb == Some("READ") {
            let bits = u32::from_str_radix(first, 16)?;
            return Ok(Request::Read(Label { bits }));
        }
        let n = words.next().unwrap_or("").parse::<i16>()?;
        let code = first.parse::<u8>()?;
        Ok(Request::Write { code, n })
    }
}

// Prints a refusal.
fn refused<W: Write>(out: &mut W, fault: LabelFault) -> io::Result<()> {
    let report = fault.report();
    let layer = report.layer;
    writeln!(out, "NO {report} {layer}")
}

// What a label tells, and the label that this is written back as.
fn told(label: Label) -> Result<(Reading, Label), LabelFault> {
    let reading = label.read()?;
    let again = Label::write(reading.spacing.code(), reading.n)?;
    Ok((reading, again))
}

// Prints what a label tells.
fn read<W: Write>(out: &mut W, label: Label) -> io::Result<()> {
    let (reading, again) = match told(label) {
        Ok(both) => both,
        Err(fault) => return refused(out, fault),
    };
    let code = reading.spacing.code();
    let n = reading.n;
    let centre = reading.centre;
    let bits = again.bits;
    writeln!(out, "{code} {n} {centre} {bits:08X}")
}

// Prints the label that is written, and what it tells.
fn write<W: Write>(out: &mut W, code: u8, n: i16) -> io::Result<()> {
    let label = match Label::write(code, n) {
        Ok(label) => label,
        Err(fault) => return refused(out, fault),
    };
    let bits = label.bits;
    write!(out, "{bits:08X} ")?;
    read(out, label)
}

// Does what a line asks for.
fn run<W: Write>(out: &mut W, line: &str) -> anyhow::Result<()> {
    match line.parse::<Request>()? {
        Request::Read(label) => read(out, label)?,
        Request::Write { code, n } => write(out, code, n)?,
    }
    Ok(())
}

// Line after line. Each program has its own: a shared one would be public and could promise nothing.
fn main(rt: HostRuntime) -> anyhow::Result<()> {
    let heap = rt.alloc();
    let mut out = BufWriter::new(heap, rt.stdout())?;
    for line in BufReader::new(heap, rt.stdin())?.lines(heap) {
        let line = line?;
        run(&mut out, line.as_str())?;
    }
    out.flush()?;
    Ok(())
}

#[cfg(test)]
mod tests {
    use fault::label::LabelFault;
    use label::{Label, Reading};
    use network::spacing::Spacing;
    use std::test::Fail;

    // 193.35 THz at 50 GHz.
    #[test]
    fn the_published_label(rt: HostRuntime) -> Result<(), Fail> {
        let label = Label::write(2, 5)?;
        assert_eq!(rt; label, Label { bits: 0x2400_0005 });
        let told = Reading {
            spacing: Spacing::Ghz50,
            n: 5,
            centre: 193_350_000,
        };
        assert_eq!(rt; label.read(), Ok(told));
        Ok(())
    }

    #[test]
    fn a_number_below_zero(rt: HostRuntime) -> Result<(), Fail> {
        let label = Label::write(1, -1)?;
        assert_eq!(rt; label, Label { bits: 0x2200_FFFF });
        assert_eq!(rt; label.read()?.centre, 193_000_000);
        Ok(())
    }

    // Whatever its other fields are, the first that is wrong is answered.
    #[test]
    fn the_first_wrong_field(rt: HostRuntime) {
        for (bits, fault) in [
            (0xDFFF_FFFF, LabelFault::Grid),
            (0x3FFF_8000, LabelFault::Spacing),
            (0x2201_8000, LabelFault::Identifier),
            (0x2200_8000, LabelFault::Number),
        ] {
            assert_eq!(rt; Label { bits }.read(), Err(fault));
        }
        assert_eq!(rt; Label::write(0, 1001), Err(LabelFault::Spacing));
        assert_eq!(rt; Label::write(4, 1001), Err(LabelFault::Number));
    }
}
