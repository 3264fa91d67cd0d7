//! Runs a script of commands on metadata shards: reads the script from standard input, prints to
//! standard output, and returns an exit status that says how the script ended.
#![tactic(auto)]

mod merge;
mod print_run;
mod run;
mod stop;
mod workspace;
mod write;

use std::io;
use std::process::ExitCode;

fn main(rt: HostRuntime) -> ExitCode {
    let mut input = rt.reader();
    let mut output = io::writer(&rt);
    let status = run::run_script(rt.alloc(), &mut input, &mut output);
    ExitCode::from(status)
}
