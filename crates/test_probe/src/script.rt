//! Running a script line by line. A row is a command, and behind ` => ` what it has to print.

use crate::probe::Probe;
use crate::repeats::write_out;
use crate::stop::Stop;
use script_lines::lines::{is_skipped, split_words, without_end};
use std::alloc::{AllocError, Global};
use std::io::{BufRead, BufReader, Read, Write};
use std::{io, str};

// The bytes of a line, in short and in full, and of what it prints, for which there is room before
// the first line is read. So all that is allocated while a line runs is allocated by its command.
const ROOM: usize = 1 << 20;

/// Runs the rows of `input`, one a line, and writes to `output` the headings, a line for each row
/// whose command prints anything else than it has to, and at last the number of the rows. The error
/// is that of the input, of the output, or of an allocation.
pub fn run_script<R: Read, W: Write>(
    alloc: Global,
    input: &mut R,
    output: &mut W,
) -> io::Result<()> {
    let mut lines = BufReader::new(alloc, input)?;
    let mut script = Script::new(alloc)?;
    let mut line = Vec::with_capacity(alloc, ROOM)?;
    let mut full = Vec::with_capacity(alloc, ROOM)?;
    for number in 1..u64::MAX {
        line.clear();
        if lines.read_until(b'\n', &mut line)? == 0 {
            break;
        }
        script.run_line(number, without_end(line.as_slice()), &mut full, output)?;
    }
    if script.compares {
        let rows = script.rows;
        writeln!(output, "{rows} rows")?;
    }
    output.flush()
}

/// The rows that ran so far.
#[derive(Drop)]
struct Script {
    probe: Probe,
    compares: bool,
    rows: u64,
    printed: Vec<u8>,
    came: Vec<u8>,
}

impl Script {
    fn new(alloc: Global) -> Result<Script, AllocError> {
        Ok(Script {
            probe: Probe::new(alloc),
            compares: true,
            rows: 0,
            printed: Vec::with_capacity(alloc, ROOM)?,
            came: Vec::with_capacity(alloc, ROOM)?,
        })
    }

    fn run_line<W: Write>(
        &mut self,
        number: u64,
        line: &[u8],
        full: &mut Vec<u8>,
        output: &mut W,
    ) -> io::Result<()> {
        if is_skipped(line) {
            return Ok(());
        }
        let Ok(text) = str::from_utf8(line) else {
            return writeln!(output, "line {number}: unreadable");
        };
        if let Some(heading) = text.strip_prefix("say ") {
            return writeln!(output, "{heading}");
        }
        if text == "answers" {
            self.compares = false;
            return Ok(());
        }
        match write_out(text, full) {
            Ok(row) => self.run_row(number, row, output),
            Err(stop) => writeln!(output, "line {number}: {stop}"),
        }
    }

    fn run_row<W: Write>(&mut self, number: u64, row: &str, output: &mut W) -> io::Result<()> {
        let (command, wanted) = split_row(row);
        self.printed.clear();
        if let Err(stop) = self.run_command(command) {
            writeln!(self.printed, "{stop}")?;
        }
        self.rows = self.rows.saturating_add(1);
        if !self.compares {
            return output.write_all(self.printed.as_slice());
        }
        self.came.clear();
        push_printed(self.printed.as_slice(), &mut self.came)?;
        if self.came.as_slice() == wanted.as_bytes() {
            return Ok(());
        }
        write!(output, "line {number}: {command}: wanted {wanted}, came ")?;
        output.write_all(self.came.as_slice())?;
        writeln!(output)
    }

    fn run_command(&mut self, command: &str) -> Result<(), Stop> {
        let words = split_words(self.probe.alloc, command)?;
        self.probe.run(words.as_slice(), &mut self.printed)
    }
}

// How a row says that its command prints nothing.
const NOTHING: &str = "nothing";

// The command of a row, and what it has to print: the lines, joined by ` | `, or `nothing`.
fn split_row(row: &str) -> (&str, &str) {
    match row.split_once(" =>") {
        Some((command, wanted)) => (command, wanted.strip_prefix(' ').unwrap_or(wanted)),
        None => (row, NOTHING),
    }
}

// Appends what a command printed in the form in which a row has it.
fn push_printed(printed: &[u8], row: &mut Vec<u8>) -> Result<(), AllocError> {
    if printed.is_empty() {
        return row.extend_from_slice(NOTHING.as_bytes());
    }
    for byte in printed.strip_suffix(b"\n").unwrap_or(printed) {
        match *byte {
            b'\n' => row.extend_from_slice(b" | ")?,
            byte => row.push(byte)?,
        }
    }
    Ok(())
}
