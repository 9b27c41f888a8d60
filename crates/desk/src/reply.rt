ghost use Rattle.std.specs.Prelude.{Some};
ghost use Rattle.desk.specs.Replies.{cost_text, settings_text, text, no_plan};
ghost use Rattle.std.specs.Fmt.{WritesOnOk};

use cost::fee::Fee;
use cost::tally::Tally;
use fault::report::Report;
use slip::setting::Setting;
use std::fmt;

// A cost, by the kind of cost that an order is for.
#[derive(Clone, Copy, PartialEq, Eq, Debug)]
pub enum Cost {
    Sum(Fee),
    Few(Tally),
    Worst(u16),
}

impl fmt::Display for Cost {
    ghost output = { λ v. Some (cost_text v) };

    fn fmt<W: fmt::Write>(&self, f: &mut fmt::Formatter<W>) -> fmt::Result {
        match *self {
            Cost::Sum(fee) => write!(f, "{fee}"),
            Cost::Few(tally) => write!(f, "{tally}"),
            Cost::Worst(tariff) => write!(f, "{tariff}"),
        }
    }
}

// What the desk says to one ticket. It is no `Result`, since it is displayed as one value, which a
// `Result` can't be.
#[derive(Clone, Copy, PartialEq, Eq, Debug)]
pub enum Reply<'s> {
    // the circuit is lit, by a path of this cost
    Lit {
        circuit: u16,
        cost: Cost,
    },
    // a cheapest path costs so much
    Fee {
        cost: Cost,
    },
    // the circuit is free, and so many channels went back
    Dark {
        circuit: u16,
        channels: u16,
    },
    // the span is shut
    Shut {
        span: u16,
    },
    // the circuit's slip
    Slip {
        circuit: u16,
        settings: &'s [Setting],
    },
    // the ticket is refused
    No {
        report: Report,
    },
}

// Writes each setting of a slip on a line of its own.
fn write_settings<W: fmt::Write>(f: &mut fmt::Formatter<W>, settings: &[Setting]) -> fmt::Result
    ensures { WritesOnOk W.write_str_gives f.old result (settings_text settings.now) f.new }
{
    for setting in settings {
        write!(f, "\n{setting}")?;
    }
    Ok(())
}

impl fmt::Display for Reply<'_> {
    ghost output = { λ r. Some (text r) };

    fn fmt<W: fmt::Write>(&self, f: &mut fmt::Formatter<W>) -> fmt::Result {
        match *self {
            Reply::Lit { circuit, cost } => write!(f, "LIT {circuit} {cost}"),
            Reply::Fee { cost } => write!(f, "FEE {cost}"),
            Reply::Dark { circuit, channels } => write!(f, "DARK {circuit} {channels}"),
            Reply::Shut { span } => write!(f, "SHUT {span}"),
            Reply::Slip { circuit, settings } => {
                write!(f, "SLIP {circuit} {}", settings.len())?;
                write_settings(f, settings)
            }
            Reply::No { report } => write!(f, "NO {report}"),
        }
    }
}

// What is said where the plan is refused.
#[derive(Clone, Copy, PartialEq, Eq, Debug)]
pub struct PlanRefusal {
    pub report: Report,
}

impl fmt::Display for PlanRefusal {
    ghost output = { λ p. Some (no_plan p.report) };

    fn fmt<W: fmt::Write>(&self, f: &mut fmt::Formatter<W>) -> fmt::Result {
        let report = self.report;
        write!(f, "PLAN {report}")
    }
}
