//! Looks into `.mdb` files, checks them, and makes new ones of them. The libraries do the work;
//! this crate reads arguments and files, and prints or writes the results.
#![tactic(auto)]

mod folder_lock;
mod run;

use mdb_base::terminals::Terminals;
use std::fs;
use std::io::IsTerminal;
use std::process::ExitCode;

/// What is opened in place of a standard stream that is closed.
const NOTHING: &str = "/dev/null";

fn main(rt: HostRuntime) -> ExitCode {
    // A file gets the lowest number that is free. Were a standard stream closed, an output would get
    // its number, and messages would be written into it. To these, which may only be read, a write
    // fails.
    let _input = fs::open(&rt, NOTHING);
    let _output = fs::open(&rt, NOTHING);
    let _error = fs::open(&rt, NOTHING);
    let terminals = Terminals {
        output: rt.stdout().is_terminal(),
        error: rt.stderr().is_terminal(),
    };
    ExitCode::from(run::run(&rt, terminals))
}
