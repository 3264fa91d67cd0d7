//! A test tool: reads commands from standard input, one a line, each with what it has to print,
//! calls the library and compares. So a worked example is a line of data.
#![tactic(auto)]

mod buffers;
mod device;
mod minimal;
mod numbers;
mod placed;
mod probe;
mod reading;
mod records;
mod repeats;
mod rows;
mod runs;
mod script;
mod search;
mod sections;
mod sets;
mod shards;
mod shared;
mod stop;
mod values;
mod views;
mod writing;

use std::io;

fn main(rt: HostRuntime) -> io::Result<()> {
    let mut input = rt.reader();
    let mut output = io::writer(&rt);
    script::run_script(rt.alloc(), &mut input, &mut output)
}
