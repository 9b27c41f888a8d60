//! The console where there is no `plan.bin`: an empty plan, which is refused.
#![tactic(auto)]

use std::io;

fn main(rt: HostRuntime) -> io::Result<()> {
    station::run(&rt)
}
