//! Printing the record of a file.

ghost use Rattle.std.specs.Prelude.{OnOk, flat_map};
ghost use Rattle.std.specs.Io.KnownBytes.{Appends};
ghost use Rattle.std.specs.Option.{option_to_list};
ghost use Rattle.xet_core_structures.specs.FileRecord.{FitsItsHeader};
ghost use Rattle.script_lines.specs.Printed.{segment_line, verification_line, sha256_line, aux_line, file_line, printed_file};

use std::io;
use std::io::Write;
use xet_core_structures::file_structs::{
    FileAuxExt, FileDataSequenceEntry, FileMetadataExt, FileVerificationEntry, MDBFileInfo,
};

/// Prints a record: a line for the file, then one for each of its rows, in order. The error is the
/// writer's. Requires that the record's parts match its header.
pub fn print_file<W: Write>(file: &MDBFileInfo, output: &mut W) -> io::Result<()>
    requires { FitsItsHeader file.now }
    ensures { OnOk result
        (Appends (W.contents output.old) (W.contents output.new) (printed_file file.now)) }
{
    print_header(file, output)?;
    print_segments(file.segments.as_slice(), output)?;
    print_verification(file.verification.as_slice(), output)?;
    print_sha256(file.metadata_ext, output)?;
    print_aux(file.aux_ext, output)
}

fn print_header<W: Write>(file: &MDBFileInfo, output: &mut W) -> io::Result<()>
    requires { FitsItsHeader file.now }
    ensures { OnOk result
        (Appends (W.contents output.old) (W.contents output.new) (file_line file.now)) }
{
    let header = file.metadata;
    let hash = header.file_hash;
    let flags = header.file_flags;
    let segments = header.num_entries;
    let size = file.file_size();
    writeln!(
        output,
        "file {hash} flags {flags} segments {segments} bytes {size}"
    )
}

fn print_segments<W: Write>(segments: &[FileDataSequenceEntry], output: &mut W) -> io::Result<()>
    ensures { OnOk result
        (Appends (W.contents output.old) (W.contents output.new)
        (flat_map segment_line segments.now)) }
{
    for segment in segments {
        print_segment(segment, output)?;
    }
    Ok(())
}

fn print_segment<W: Write>(segment: &FileDataSequenceEntry, output: &mut W) -> io::Result<()>
    ensures { OnOk result
        (Appends (W.contents output.old) (W.contents output.new) (segment_line segment.now)) }
{
    let xorb = segment.xorb_hash;
    let start = segment.chunk_index_start;
    let end = segment.chunk_index_end;
    let bytes = segment.unpacked_segment_bytes;
    writeln!(output, "seg {xorb} {start} {end} {bytes}")
}

fn print_verification<W: Write>(rows: &[FileVerificationEntry], output: &mut W) -> io::Result<()>
    ensures { OnOk result
        (Appends (W.contents output.old) (W.contents output.new)
        (flat_map verification_line rows.now)) }
{
    for row in rows {
        let hash = row.range_hash;
        writeln!(output, "ver {hash}")?;
    }
    Ok(())
}

fn print_sha256<W: Write>(row: Option<FileMetadataExt>, output: &mut W) -> io::Result<()>
    ensures { OnOk result
        (Appends (W.contents output.old) (W.contents output.new)
        (flat_map sha256_line (option_to_list row))) }
{
    if let Some(row) = row {
        let sha256 = row.sha256;
        writeln!(output, "sha {sha256}")?;
    }
    Ok(())
}

fn print_aux<W: Write>(row: Option<FileAuxExt>, output: &mut W) -> io::Result<()>
    ensures { OnOk result
        (Appends (W.contents output.old) (W.contents output.new)
        (flat_map aux_line (option_to_list row))) }
{
    if let Some(row) = row {
        let aux_hash = row.aux_hash;
        writeln!(output, "aux {aux_hash}")?;
    }
    Ok(())
}
