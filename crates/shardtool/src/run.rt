//! Running a script, line by line.

ghost use Rattle.std.specs.Prelude.{◌≡◌, ◌≤◌};
ghost use Rattle.shardtool.specs.ScriptEnds.{EndsAt};

use crate::stop::Stop;
use crate::workspace::Workspace;
use script_lines::refusal::Refusal;
use std::alloc::Global;
use std::io::{BufReader, Read, Write};

/// Runs the script in `input`, line by line, and prints to `output`.
///
/// The status is 0 after the last line, 1 at the first command that is refused, 2 at the first
/// unreadable line, and 3 if input or output fails. For 1 and 2 the last line of the output says
/// why.
pub fn run_script<R: Read, W: Write>(alloc: Global, input: &mut R, output: &mut W) -> u8
    ensures { result ≤ 3 }
{
    let ending = run_lines(alloc, input, output);
    match output.flush() {
        Ok(()) => ending.status(),
        Err(_) => ScriptEnd::Failed.status(),
    }
}

/// How a script ended.
#[derive(Clone, Copy)]
enum ScriptEnd {
    Done,
    Refused,
    Unreadable,
    Failed,
}

impl ScriptEnd {
    ghost use Rattle.shardtool.specs.ScriptEnds.{status_of};

    fn status(self) -> u8
        ensures { result ≡ status_of self }
    {
        match self {
            ScriptEnd::Done => 0,
            ScriptEnd::Refused => 1,
            ScriptEnd::Unreadable => 2,
            ScriptEnd::Failed => 3,
        }
    }
}

fn run_lines<R: Read, W: Write>(alloc: Global, input: &mut R, output: &mut W) -> ScriptEnd {
    let mut lines = match BufReader::new(alloc, input) {
        Ok(lines) => lines,
        Err(error) => return report(Stop::from(error), 1, output),
    };
    let mut workspace = Workspace::new(alloc);
    for number in 1..u64::MAX {
        match workspace.run_next_line(alloc, &mut lines, output) {
            Ok(true) => {}
            Ok(false) => return ScriptEnd::Done,
            Err(stop) => return report(stop, number, output),
        }
    }
    // An input with more lines than `u64` counts does not end.
    ScriptEnd::Failed
}

// Prints why the script stops, with the number of the line.
fn report<W: Write>(stop: Stop, number: u64, output: &mut W) -> ScriptEnd
    ensures { EndsAt stop result }
{
    let (ending, printed) = match stop {
        Stop::Refused(error) => {
            let refusal = Refusal(&error);
            (ScriptEnd::Refused, writeln!(output, "refused: {refusal}"))
        }
        Stop::Unreadable => (
            ScriptEnd::Unreadable,
            writeln!(output, "line {number}: unreadable"),
        ),
        Stop::Failed => return ScriptEnd::Failed,
    };
    match printed {
        Ok(()) => ending,
        Err(_) => ScriptEnd::Failed,
    }
}
