//! Commands that write and read single rows, records and shards.

use crate::numbers::{show_number, write_number};
use crate::probe::Probe;
use crate::runs::Run;
use crate::stop::Stop;
use script_lines::command::{Command, parse_words};
use script_lines::files_and_xorbs::{parse_file, parse_xorb};
use script_lines::records::{
    Form, parse_aux, parse_full_chunk, parse_full_segment, parse_metadata, parse_verification_row,
};
use script_lines::show::show_line;
use script_lines::words::{parse_hash, parse_optional_u64, parse_u32};
use std::alloc::Global;
use std::io::{ErrorKind, Read, Write};
use xet_core_structures::error::CoreError;
use xet_core_structures::file_structs::{
    FileAuxExt, FileDataSequenceEntry, FileDataSequenceHeader, FileMetadataExt,
    FileVerificationEntry, MDBFileInfo,
};
use xet_core_structures::record_reader::FormatVersion;
use xet_core_structures::shard_format::{MDBShardFileFooter, MDBShardFileHeader, MDBShardInfo};
use xet_core_structures::source::ShardSource;
use xet_core_structures::xorb_structs::{
    MDBXorbInfo, XorbChunkSequenceEntry, XorbChunkSequenceHeader,
};

impl Run<'_> {
    /// Runs `append KIND B VALUE`, and prints the number that the call returns, or `write S B
    /// [EXPIRY]` or `write2 ..`.
    pub fn write(&mut self, words: &[&str], out: &mut Vec<u8>) -> Result<(), Stop> {
        let ["append", kind, _, value @ ..] = words else {
            return self.write_shard(words);
        };
        let count = write_value(self.alloc, kind, value, &mut self.output)?;
        Ok(writeln!(out, "{count}")?)
    }

    fn write_shard(&mut self, words: &[&str]) -> Result<(), Stop> {
        let alloc = self.alloc;
        let Some(
            Command::Write {
                version,
                shard,
                expiry,
                ..
            },
        ) = parse_words(alloc, words, Form::Full)?
        else {
            return Err(Stop::Unreadable);
        };
        let probe = self.probe;
        let shard = probe.shard(shard)?;
        let output = &mut self.output;
        match version {
            FormatVersion::V2 => MDBShardInfo::serialize_from_v2(alloc, output, shard, expiry)?,
            FormatVersion::V3 => MDBShardInfo::serialize_from(alloc, output, shard, expiry)?,
        };
        Ok(())
    }

    /// Runs `read KIND B [FROM]`, and prints the value.
    pub fn read_value(&mut self, words: &[&str], out: &mut Vec<u8>) -> Result<(), Stop> {
        let [_, kind, _, from @ ..] = words else {
            return Err(Stop::Unreadable);
        };
        if let Some(from) = parse_optional_u64(from)? {
            self.first.seek_to(from)?;
        }
        show_value(self.alloc, kind, &mut self.first, out)
    }
}

impl Probe {
    /// Runs `cuts KIND B`: deserializes from each proper prefix of the bytes, and prints how many
    /// of them end too early. `false` if the words are no such command.
    pub fn show_cuts(&self, words: &[&str], out: &mut Vec<u8>) -> Result<bool, Stop> {
        let ["cuts", kind, name] = words else {
            return Ok(false);
        };
        let bytes = self.buffer(name)?;
        let mut ended = 0u64;
        for len in 0..bytes.len() {
            let answer = show_value(
                self.alloc,
                kind,
                &mut &bytes[..len],
                &mut Vec::new(self.alloc),
            );
            if let Err(Stop::Refused(CoreError::Io(error))) = answer {
                if error.kind() == ErrorKind::UnexpectedEof {
                    ended = ended.saturating_add(1);
                }
            }
        }
        let prefixes = bytes.len();
        writeln!(out, "UnexpectedEof {ended} of {prefixes}")?;
        Ok(true)
    }

    /// The bytes of a buffer from an offset on. `Unreadable` if it is past their end.
    pub fn buffer_from(&self, name: &str, from: u64) -> Result<&[u8], Stop> {
        let bytes = self.buffer(name)?;
        if from > bytes.len() as u64 {
            return Err(Stop::Unreadable);
        }
        Ok(&bytes[from as usize..])
    }
}

// Serializes the value of this kind that words spell, and returns what the call returns.
fn write_value<W: Write>(
    alloc: Global,
    kind: &str,
    value: &[&str],
    output: &mut W,
) -> Result<usize, Stop> {
    match (kind, value) {
        ("file_header", file) => {
            let header = parse_file(alloc, file, Form::Full)?.metadata;
            Ok(header.serialize(output)?)
        }
        ("file", file) => write_file(&parse_file(alloc, file, Form::Full)?, output),
        ("xorb_header", xorb) => {
            let header = parse_xorb(alloc, xorb, Form::Full)?.metadata;
            Ok(header.serialize(output)?)
        }
        ("xorb", xorb) => write_xorb(&parse_xorb(alloc, xorb, Form::Full)?, output),
        ("header", _) => Ok(MDBShardFileHeader::default().serialize(output)?),
        ("footer", _) => Ok(MDBShardFileFooter::default().serialize(output)?),
        ("file_bookend", _) => Ok(FileDataSequenceHeader::bookend().serialize(output)?),
        ("xorb_bookend", _) => Ok(XorbChunkSequenceHeader::bookend().serialize(output)?),
        ("new_metadata", [hash]) => {
            let row = FileMetadataExt::new(parse_hash(hash)?);
            Ok(row.serialize(output)?)
        }
        ("new_xorb_header", [hash, count, bytes]) => {
            let hash = parse_hash(hash)?;
            let header = XorbChunkSequenceHeader::new(hash, parse_u32(count)?, parse_u32(bytes)?);
            Ok(header.serialize(output)?)
        }
        (_, [word]) => write_row_of(kind, word, output),
        _ => Err(Stop::Unreadable),
    }
}

fn write_row_of<W: Write>(kind: &str, word: &str, output: &mut W) -> Result<usize, Stop> {
    match kind {
        "segment" => Ok(parse_full_segment(word)?.serialize(output)?),
        "verification" => Ok(parse_verification_row(word)?.serialize(output)?),
        "metadata" => Ok(parse_metadata(word, Form::Full)?.serialize(output)?),
        "aux" => Ok(parse_aux(word, Form::Full)?.serialize(output)?),
        "chunk" => Ok(parse_full_chunk(word, 0)?.serialize(output)?),
        _ => write_number(kind, word, output),
    }
}

// Serializes a record whose parts are those that its header announces.
fn write_file<W: Write>(file: &MDBFileInfo, output: &mut W) -> Result<usize, Stop> {
    if !file.fits_its_header() {
        return Err(Stop::Unreadable);
    }
    Ok(file.serialize(output)?)
}

fn write_xorb<W: Write>(xorb: &MDBXorbInfo, output: &mut W) -> Result<usize, Stop> {
    if xorb.chunks.len() != xorb.metadata.num_entries as usize {
        return Err(Stop::Unreadable);
    }
    Ok(xorb.serialize(output)?)
}

// Deserializes a value of this kind, and prints it.
fn show_value<R: Read>(
    alloc: Global,
    kind: &str,
    reader: &mut R,
    out: &mut Vec<u8>,
) -> Result<(), Stop> {
    match kind {
        "file" => show_line(&MDBFileInfo::deserialize(alloc, reader)?, out)?,
        "xorb" => show_line(&MDBXorbInfo::deserialize(alloc, reader)?, out)?,
        "header" => show_line(&MDBShardFileHeader::deserialize(alloc, reader)?, out)?,
        "footer" => show_line(&MDBShardFileFooter::deserialize(alloc, reader)?, out)?,
        _ => show_row(kind, reader, out)?,
    }
    Ok(())
}

fn show_row<R: Read>(kind: &str, reader: &mut R, out: &mut Vec<u8>) -> Result<(), Stop> {
    match kind {
        "file_header" => show_line(&FileDataSequenceHeader::deserialize(reader)?, out)?,
        "segment" => show_line(&FileDataSequenceEntry::deserialize(reader)?, out)?,
        "verification" => show_line(&FileVerificationEntry::deserialize(reader)?, out)?,
        "metadata" => show_line(&FileMetadataExt::deserialize(reader)?, out)?,
        "aux" => show_line(&FileAuxExt::deserialize(reader)?, out)?,
        "xorb_header" => show_line(&XorbChunkSequenceHeader::deserialize(reader)?, out)?,
        "chunk" => show_line(&XorbChunkSequenceEntry::deserialize(reader)?, out)?,
        _ => show_number(kind, reader, out)?,
    }
    Ok(())
}
