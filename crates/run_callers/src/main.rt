//! Runs the example callers on two small shards, and prints what they return.
#![tactic(auto)]

mod run;

use std::io;

fn main(rt: HostRuntime) -> io::Result<()> {
    let mut output = io::writer(&rt);
    run::run_callers(rt.alloc(), &mut output)
}
