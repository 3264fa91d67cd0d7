//! Commands that run through devices: once, or once for each call of a device that can fail.

use crate::device::{Device, Output, Plan, Target};
use crate::probe::Probe;
use crate::stop::Stop;
use std::alloc::Global;
use std::io::{self, Write};
use xet_core_structures::source::ShardSource;

/// A command that runs through devices: a source for each input, an output, and its result.
#[derive(Drop)]
pub struct Run<'a> {
    pub alloc: Global,
    pub probe: &'a Probe,
    pub first: Device<'a>,
    pub second: Device<'a>,
    pub output: Output,
    answer: Result<(), Stop>,
}

impl Run<'_> {
    fn has_failed(&self) -> bool {
        self.first.last_failure.is_some()
            || self.second.last_failure.is_some()
            || self.output.has_failed
    }

    // Makes the call of a command, and prints what it returns.
    fn call(&mut self, words: &[&str], out: &mut Vec<u8>) -> Result<(), Stop> {
        match kind_of(words) {
            Kind::Combining => self.combine(words, out),
            Kind::Exporting => self.export(words, out),
            Kind::WritingMinimal => self.write_minimal(words, out),
            Kind::Writing => self.write(words, out),
            Kind::ReadingValue => self.read_value(words, out),
            Kind::ReadingOn | Kind::Reading => self.read(words, out),
        }
    }
}

// What a command does with its devices.
#[derive(Clone, Copy, PartialEq, Eq)]
enum Kind {
    // Reads two sources, and writes.
    Combining,
    // These two read one source from where it is, and write.
    Exporting,
    WritingMinimal,
    // Reads no source, and writes.
    Writing,
    // These two read one source from where it is.
    ReadingValue,
    ReadingOn,
    // Reads one source at any place.
    Reading,
}

fn kind_of(words: &[&str]) -> Kind {
    let Some(command) = words.first() else {
        return Kind::Reading;
    };
    match *command {
        "set_union" | "set_difference" => Kind::Combining,
        "export" | "drop" | "export_streaming" | "drop_streaming" => Kind::Exporting,
        "minimal" | "dropmin" | "subset" | "subset_only" => Kind::WritingMinimal,
        "append" | "write" | "write2" => Kind::Writing,
        "read" => Kind::ReadingValue,
        "minimal_sums" | "dropmin_sizes" | "minimal_records" | "minimal_eligible" => {
            Kind::ReadingOn
        }
        "copy_eligible" | "eligible_chunks" => Kind::ReadingOn,
        _ => Kind::Reading,
    }
}

// The buffer that a command writes, or `None` if it writes none.
fn output_of<'a>(words: &[&'a str]) -> Option<&'a str> {
    match (kind_of(words), words) {
        (Kind::Combining, [_, _, _, name, ..]) => Some(*name),
        (Kind::Exporting | Kind::WritingMinimal | Kind::Writing, [_, _, name, ..]) => Some(*name),
        _ => None,
    }
}

impl Probe {
    /// Runs a command through devices, and stores what it wrote, also if it failed, unless it reads
    /// no source. Prints why it failed, and its costs if they are switched on.
    pub fn run_through_devices(&mut self, words: &[&str], out: &mut Vec<u8>) -> Result<(), Stop> {
        let written = self.run_shown(words, out)?;
        match (words, output_of(words)) {
            (["append", ..], Some(name)) => {
                Ok(
                    self.buffer_mut(name)?
                        .extend_from_slice(written.as_slice())?,
                )
            }
            (_, Some(name)) => self.put_buffer(name, written),
            (_, None) => Ok(()),
        }
    }

    // The bytes that a command writes through devices.
    fn run_shown(&self, words: &[&str], out: &mut Vec<u8>) -> Result<Vec<u8>, Stop> {
        let run = self.run_once(words, self.plan, out)?;
        if kind_of(words) == Kind::Writing {
            run.answer?;
            return Ok(run.output.bytes);
        }
        self.show_end(&run, out)?;
        Ok(run.output.bytes)
    }

    // Prints why a run failed, and its costs if they are switched on.
    fn show_end(&self, run: &Run<'_>, out: &mut Vec<u8>) -> Result<(), Stop> {
        match &run.answer {
            Ok(()) => {}
            Err(Stop::Unreadable) => return Err(Stop::Unreadable),
            Err(stop) => writeln!(out, "{stop}")?,
        }
        if self.shows_costs {
            let seeks = run.first.seeks_made.saturating_add(run.second.seeks_made);
            let read = run.first.bytes_read.saturating_add(run.second.bytes_read);
            writeln!(out, "seeks {seeks} read {read}")?;
        }
        Ok(())
    }

    // Runs a command through devices that work by a plan, once more if one fails and the plan says
    // so. Stores nothing.
    fn run_once(&self, words: &[&str], plan: Plan, out: &mut Vec<u8>) -> Result<Run<'_>, Stop> {
        let kind = kind_of(words);
        let (first, second): (&[u8], &[u8]) = match (kind, words) {
            (Kind::Combining, [_, first, second, ..]) => {
                (self.buffer(first)?, self.buffer(second)?)
            }
            (Kind::Writing, _) => (&[], &[]),
            (Kind::ReadingValue, [_, _, first, ..]) => (self.buffer(first)?, &[]),
            (_, [_, first, ..]) => (self.buffer(first)?, &[]),
            _ => return Err(Stop::Unreadable),
        };
        let output = Output::new(self.alloc, plan.of(Target::Output))?;
        let mut run = Run {
            alloc: self.alloc,
            probe: self,
            first: Device::new(first, plan.of(Target::First)),
            second: Device::new(second, plan.of(Target::Second)),
            output,
            answer: Ok(()),
        };
        let start = out.len();
        run.answer = run.call(words, out);
        if plan.runs_again && run.has_failed() {
            if !matches!(kind, Kind::Combining | Kind::Reading) {
                run.first.seek_to(0)?;
            }
            run.output.bytes.clear();
            out.truncate(start);
            run.answer = run.call(words, out);
        }
        Ok(run)
    }

    /// Runs `each_failure COMMAND ..` or `each_failure_again COMMAND ..`: the command once for each
    /// call of a device, which fails, and at last without a failure. Prints the output of each run,
    /// or `as below` if it is that of the last. `false` if the words are no such command.
    pub fn run_each_failure(&self, words: &[&str], out: &mut Vec<u8>) -> Result<bool, Stop> {
        let (words, runs_again) = match words {
            ["each_failure", words @ ..] => (words, false),
            ["each_failure_again", words @ ..] => (words, true),
            _ => return Ok(false),
        };
        let plan = Plan {
            fault: None,
            runs_again,
            ..self.plan
        };
        self.show_failures(words, plan, out)?;
        Ok(true)
    }

    // Prints what the runs of a command with a failure print, and then what the one without prints.
    fn show_failures(&self, words: &[&str], plan: Plan, out: &mut Vec<u8>) -> Result<(), Stop> {
        let mut printed = Vec::new(self.alloc);
        let Run { answer, output, .. } = self.run_once(words, plan, &mut printed)?;
        if let Err(Stop::Unreadable) = answer {
            return answer;
        }
        let (count, answers) = self.run_failing(words, plan, output.bytes.as_slice())?;
        let is_same = answer.is_ok() && answers == printed;
        let shown = match is_same {
            true => "as below".as_bytes(),
            false => answers.as_slice(),
        };
        show_answers(count, shown, printed.as_slice(), out)?;
        answer
    }

    // Runs a command with the 1st, 2nd .. call of a device failing, until a run meets no failure:
    // how many failed, and what these runs printed, once if it is the same.
    fn run_failing(
        &self,
        words: &[&str],
        plan: Plan,
        wanted: &[u8],
    ) -> Result<(u64, Vec<u8>), Stop> {
        let mut answers = Vec::new(self.alloc);
        let mut last = Vec::new(self.alloc);
        for turn in 1..u64::MAX {
            let Some(printed) = self.run_failed(words, plan.failing_at(turn), wanted)? else {
                return Ok((turn - 1, answers));
            };
            if printed != last {
                add_answer(&mut answers, printed.as_slice())?;
                last = printed;
            }
        }
        Ok((u64::MAX, answers))
    }

    // What a run with a failure prints, or `None` if it meets none. What a command prints that ran
    // once more ends in `other bytes` if it did not write those that are wanted.
    fn run_failed(
        &self,
        words: &[&str],
        plan: Plan,
        wanted: &[u8],
    ) -> Result<Option<Vec<u8>>, Stop> {
        let mut printed = Vec::new(self.alloc);
        let run = self.run_once(words, plan, &mut printed)?;
        if !run.has_failed() {
            return Ok(None);
        }
        if let Err(stop) = &run.answer {
            write!(printed, "{stop}")?;
        }
        if plan.runs_again && run.output.bytes.as_slice() != wanted {
            write!(printed, "other bytes")?;
        }
        Ok(Some(printed))
    }
}

// Prints how many runs failed and what they printed, and then what the one without failure did.
fn show_answers(count: u64, answers: &[u8], printed: &[u8], out: &mut Vec<u8>) -> io::Result<()> {
    write!(out, "failed {count}: ")?;
    out.write_all(answers)?;
    writeln!(out)?;
    out.write_all(printed)
}

// Appends what a run printed to the answers of those before it.
fn add_answer(answers: &mut Vec<u8>, printed: &[u8]) -> io::Result<()> {
    if !answers.is_empty() {
        write!(answers, "; ")?;
    }
    answers.write_all(printed)
}
