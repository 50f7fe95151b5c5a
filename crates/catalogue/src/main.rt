//! The catalogue's program: what its arguments ask for, its streams, and how it ends.
#![tactic(auto)]

mod arguments;
mod endings;
mod running;
mod system;
mod threading;

use std::process::ExitCode;
use system::Host;

fn main(rt: HostRuntime) -> ExitCode {
    running::run(&rt, &mut Host(&rt))
}
