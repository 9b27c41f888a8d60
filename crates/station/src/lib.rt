//! The console's run: it loads the plan, and answers the tickets of standard input.
#![tactic(auto)]

ghost use Rattle.desk.specs.Inputs.{AnsweredByLines};

mod conversing;
mod serving;

pub use conversing::converse;
use std::io::ErrorKind;
use std::{fs, io};

// The bytes of the plan; none where there is no such file.
fn read_plan(rt: &HostRuntime) -> io::Result<Vec<u8>> {
    match fs::read(rt, "plan.bin") {
        Ok(bytes) => Ok(bytes),
        Err(error) if error.kind() == ErrorKind::NotFound => Ok(Vec::new(rt.alloc())),
        Err(error) => Err(error),
    }
}

// Reads `plan.bin` in the working folder, then tickets from standard input, and replies to each.
// What a file and the standard streams give and take no contract can say; what is done with it
// `converse` says, and what is said to the lines that are read is a law.
pub fn run(rt: &HostRuntime) -> io::Result<()>
    ensures { AnsweredByLines }
{
    let bytes = read_plan(rt)?;
    converse(
        rt.alloc(),
        bytes.as_slice(),
        &mut rt.stdin(),
        &mut rt.stdout(),
    )
}
