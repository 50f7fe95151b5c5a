//! The program that judges a folder without changing it: whether an opening reads its commits, and else which file breaks which
//! rule. It can also delete the file of a torn commit.
#![tactic(auto)]

mod arguments;
mod endings;
mod news;
mod running;
mod system;

use std::process::ExitCode;

fn main(rt: HostRuntime) -> ExitCode {
    let mut system = rt;
    running::run(&mut system)
}
