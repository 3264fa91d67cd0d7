//! The named shards and buffers of a script, and its commands on them.

ghost use Rattle.std.specs.Prelude.{◌≡◌, ◌⊎◌, ◌↔◌, ◌<◌, length, IfErr, IfOk, IfSome, IsErrAnd, IsTrue, OnErr, OnOk};
ghost use Rattle.std.specs.Bool.{OnFalse};
ghost use Rattle.std.specs.BTreeMap.{IsEmpty, IsUnchanged};
ghost use Rattle.std.specs.Io.BufRead.{DropsThrough};
ghost use Rattle.std.specs.Str.{IsUtf8};
ghost use Rattle.script_lines.specs.Words.{IsSkipped};
ghost use Rattle.shardtool.specs.ScriptEnds.{StopsAtFailure};
ghost use Rattle.shardtool.specs.Lines.{first_line};

mod buffers;
mod printing;
mod shards;

use crate::stop::Stop;
use script_lines::command::{Command, parse_line};
use script_lines::lines::without_end;
use std::alloc::Global;
use std::collections::BTreeMap;
use std::io::{BufRead, Write};
use xet_core_structures::shard_in_memory::MDBInMemoryShard;

/// The shards and buffers that the commands of a script have made so far, by name.
#[derive(Drop)]
pub struct Workspace {
    shards: BTreeMap<String, MDBInMemoryShard>,
    buffers: BTreeMap<String, Vec<u8>>,
}

impl Workspace {
    /// A workspace without shards and buffers.
    pub fn new(alloc: Global) -> Workspace
        ensures shards { IsEmpty result.shards }
        ensures buffers { IsEmpty result.buffers }
    {
        Workspace {
            shards: BTreeMap::new(alloc),
            buffers: BTreeMap::new(alloc),
        }
    }

    /// Runs the next line. `false` at the end of the input.
    ///
    /// The errors are those of the line, of reading it and of the command. An error leaves all
    /// buffers as they were.
    pub fn run_next_line<R: BufRead, W: Write>(
        &mut self,
        alloc: Global,
        input: &mut R,
        output: &mut W,
    ) -> Result<bool, Stop>
        ensures more { IfOk result (λ more. IfSome (R.remaining input.old)
            (λ bytes. IsTrue more ↔ (0 < length bytes))) }
        ensures end { IfOk result (λ more. OnFalse more
            ((self.new ≡ self.old) × (output.new ≡ output.old))) }
        ensures read { OnOk result
            (DropsThrough (R.remaining input.old) (R.remaining input.new) 10) }
        ensures skipped { IfSome (R.remaining input.old) (λ bytes. IsSkipped (first_line bytes)
            → (self.new ≡ self.old) × (output.new ≡ output.old) × IfErr result StopsAtFailure) }
        ensures text { IfSome (R.remaining input.old) (λ bytes. ¬ (IsSkipped (first_line bytes))
            → ¬ (IsUtf8 (first_line bytes))
            → (self.new ≡ self.old) × (output.new ≡ output.old)
            × IsErrAnd result (λ e. (e ≡ Stop.Unreadable) ⊎ StopsAtFailure e)) }
        ensures err { OnErr result (IsUnchanged self.old.buffers self.new.buffers) }
    {
        let mut line = Vec::new(alloc);
        if input.read_until(b'\n', &mut line)? == 0 {
            return Ok(false);
        }
        // A line ends with LF or at the end of the input; one CR before that is part of its end.
        let Some(command) = parse_line(alloc, without_end(line.as_slice()))? else {
            return Ok(true);
        };
        self.run(alloc, command, output)?;
        Ok(true)
    }

    fn run<W: Write>(
        &mut self,
        alloc: Global,
        command: Command<'_>,
        output: &mut W,
    ) -> Result<(), Stop>
        ensures { OnErr result (IsUnchanged self.old.buffers self.new.buffers) }
    {
        match command {
            Command::Shard { shard } => self.make_shard(alloc, shard),
            Command::Xorb { shard, xorb } => self.add_xorb(alloc, shard, xorb),
            Command::File { shard, file } => self.add_file(alloc, shard, file),
            Command::Write {
                version,
                shard,
                buffer,
                expiry,
            } => self.write_shard(alloc, version, shard, buffer, expiry),
            Command::Combine {
                operation,
                first,
                second,
                buffer,
            } => self.combine(alloc, operation, first, second, buffer),
            Command::Merge { buffer, tree } => self.merge(alloc, buffer, &tree),
            Command::Export {
                from,
                buffer,
                export,
            } => self.export(alloc, from, buffer, &export),
            Command::Minimal {
                from,
                buffer,
                now,
                kept,
            } => self.write_minimal(alloc, from, buffer, now, kept),
            Command::Subset {
                from,
                buffer,
                subset,
            } => self.write_subset(alloc, from, buffer, &subset),
            Command::Eligible { buffer } => self.print_eligible(alloc, buffer, output),
            Command::Find { buffer, hash } => self.print_found(alloc, buffer, hash, output),
            Command::Query { buffer, hashes } => {
                self.print_query(alloc, buffer, hashes.as_slice(), output)
            }
            Command::Size { buffer } => self.print_size(buffer, output),
            Command::Hex { buffer, range } => self.print_hex(alloc, buffer, range, output),
        }
    }
}
