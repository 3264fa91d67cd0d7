//! Printing the run that a query finds.

ghost use Rattle.std.specs.Prelude.{OnOk};
ghost use Rattle.std.specs.Io.KnownBytes.{Appends};
ghost use Rattle.shardtool.specs.PrintedRuns.{run_line};

use std::io;
use std::io::Write;
use xet_core_structures::file_structs::FileDataSequenceEntry;

/// Prints a run on a line: its number of chunks, and their segment. The error is the writer's.
pub fn print_run<W: Write>(
    count: usize,
    segment: &FileDataSequenceEntry,
    output: &mut W,
) -> io::Result<()>
    ensures { OnOk result
        (Appends (W.contents output.old) (W.contents output.new) (run_line count segment.now)) }
{
    let xorb = segment.xorb_hash;
    let start = segment.chunk_index_start;
    let end = segment.chunk_index_end;
    let bytes = segment.unpacked_segment_bytes;
    writeln!(output, "run {count} {xorb} {start} {end} {bytes}")
}
