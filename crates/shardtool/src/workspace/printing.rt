//! The commands that print.

ghost use Rattle.std.specs.Prelude.{◌≡◌, ◌⊎◌, ◌↔◌, [], ◌∷◌, ◌++◌, IfErr, IsErrOf, IsNone, IsSomeAnd, OnOk};
ghost use Rattle.std.specs.Io.KnownBytes.{Appends};
ghost use Rattle.script_lines.specs.Printed.{hex_text};
ghost use Rattle.shardtool.specs.ScriptEnds.{StopsAtFailure};
ghost use Rattle.shardtool.specs.Naming.{IsUnknown};
ghost use Rattle.shardtool.specs.PrintedRuns.{part_under};

use super::Workspace;
use crate::print_run::print_run;
use crate::stop::Stop;
use script_lines::print::print_file;
use script_lines::ranges::{ByteRange, bytes_in, hex_digits};
use shard_bytes::find::find_file;
use shard_bytes::minimal::eligible_chunks;
use shard_bytes::query::query_chunks;
use std::alloc::Global;
use std::io::Write;
use xet_core_structures::merklehash::MerkleHash;

impl Workspace {
    pub(super) fn print_found<W: Write>(
        &self,
        alloc: Global,
        buffer: &str,
        hash: MerkleHash,
        output: &mut W,
    ) -> Result<(), Stop>
        ensures { IsErrOf result Stop.Unreadable
            ↔ IsUnknown self.now.buffers buffer.now }
    {
        match find_file(alloc, self.buffer_bytes(buffer)?, &hash)? {
            Some(file) => print_file(&file, output)?,
            None => writeln!(output, "none")?,
        }
        Ok(())
    }

    pub(super) fn print_query<W: Write>(
        &self,
        alloc: Global,
        buffer: &str,
        hashes: &[MerkleHash],
        output: &mut W,
    ) -> Result<(), Stop>
        ensures { IsErrOf result Stop.Unreadable
            ↔ IsUnknown self.now.buffers buffer.now }
    {
        match query_chunks(alloc, self.buffer_bytes(buffer)?, hashes)? {
            Some((count, segment)) => print_run(count, &segment, output)?,
            None => writeln!(output, "none")?,
        }
        Ok(())
    }

    pub(super) fn print_eligible<W: Write>(
        &self,
        alloc: Global,
        buffer: &str,
        output: &mut W,
    ) -> Result<(), Stop>
        ensures { IsErrOf result Stop.Unreadable
            ↔ IsUnknown self.now.buffers buffer.now }
    {
        let hashes = eligible_chunks(alloc, self.buffer_bytes(buffer)?)?;
        for hash in hashes.as_slice() {
            writeln!(output, "{hash}")?;
        }
        Ok(())
    }

    pub(super) fn print_size<W: Write>(&self, buffer: &str, output: &mut W) -> Result<(), Stop>
        ensures { IsErrOf result Stop.Unreadable
            ↔ IsUnknown self.now.buffers buffer.now }
    {
        let size = self.buffer_bytes(buffer)?.len();
        writeln!(output, "{size}")?;
        Ok(())
    }

    pub(super) fn print_hex<W: Write>(
        &self,
        alloc: Global,
        buffer: &str,
        range: Option<ByteRange>,
        output: &mut W,
    ) -> Result<(), Stop>
        ensures unreadable { IsErrOf result Stop.Unreadable
            ↔ IsNone (part_under self.now.buffers buffer.now range) }
        ensures printed { OnOk result (IsSomeAnd (part_under self.now.buffers buffer.now range)
            (λ bytes. Appends (W.contents output.old) (W.contents output.new)
            (hex_text bytes ++ 10 ∷ []))) }
        ensures causes { IfErr result (λ e. (e ≡ Stop.Unreadable) ⊎ StopsAtFailure e) }
    {
        let bytes = self.buffer_bytes(buffer)?;
        let bytes = match range {
            Some(range) => bytes_in(bytes, range)?,
            None => bytes,
        };
        let digits = hex_digits(alloc, bytes)?;
        writeln!(output, "{digits}")?;
        Ok(())
    }
}
