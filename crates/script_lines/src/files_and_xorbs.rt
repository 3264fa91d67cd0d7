//! The records of files and xorbs that the words of a line spell.

ghost use Rattle.std.specs.Prelude.{IfOk};
ghost use Rattle.script_lines.specs.Commands.{texts, BeginWithHash};

use crate::records::{
    Form, parse_aux, parse_chunks, parse_full_verification, parse_metadata, parse_segments,
    parse_verification,
};
use crate::words::{ParseError, parse_hash, parse_u32, parse_u64, split_option};
use std::alloc::Global;
use xet_core_structures::file_structs::{
    FileDataSequenceHeader, FileVerificationEntry, MDBFileInfo,
};
use xet_core_structures::rows::Rows;
use xet_core_structures::xorb_structs::{
    MDBXorbInfo, XorbChunkSequenceEntry, XorbChunkSequenceHeader,
};

/// The record of words `HASH [v=HASH,HASH..] [s=HASH] [x=HASH] XORB:START:END:BYTES ..`: its flags
/// are those of its parts, its count that of its segments. `Unreadable` if the words do not have
/// this form.
///
/// In full, other flags, another count and a reserved word may stand behind the hash, as `flags=N`,
/// `count=N` and `unused=N`, in this order, and rows and segments are read in full.
pub fn parse_file(alloc: Global, words: &[&str], form: Form) -> Result<MDBFileInfo, ParseError>
    ensures { IfOk result (λ file. BeginWithHash (texts words.now) file.metadata.file_hash) }
{
    let Some((hash, rest)) = words.split_first() else {
        return Err(ParseError::Unreadable);
    };
    let hash = parse_hash(hash)?;
    let (flags, rest) = split_full(rest, "flags=", form);
    let (count, rest) = split_full(rest, "count=", form);
    let (unused, rest) = split_full(rest, "unused=", form);
    let (list, rest) = split_option(rest, "v=");
    let (sha256, rest) = split_option(rest, "s=");
    let (aux_hash, rest) = split_option(rest, "x=");
    let verification = Rows::from(parse_rows(alloc, list, form)?);
    let metadata_ext = match sha256 {
        Some(word) => Some(parse_metadata(word, form)?),
        None => None,
    };
    let aux_ext = match aux_hash {
        Some(word) => Some(parse_aux(word, form)?),
        None => None,
    };
    let segments = Rows::from(parse_segments(alloc, rest, form)?);
    let count = parse_u32_or(count, count_of(segments.len()))?;
    let header = FileDataSequenceHeader::new(hash, count, list.is_some(), sha256.is_some());
    let header = header.with_aux_ext(aux_hash.is_some());
    let metadata = FileDataSequenceHeader {
        file_flags: parse_u32_or(flags, header.file_flags)?,
        _unused: parse_u64(unused.unwrap_or("0"))?,
        ..header
    };
    Ok(MDBFileInfo {
        metadata,
        segments,
        verification,
        metadata_ext,
        aux_ext,
    })
}

// The rows of a list, none if there is no list.
fn parse_rows(
    alloc: Global,
    list: Option<&str>,
    form: Form,
) -> Result<Vec<FileVerificationEntry>, ParseError> {
    match (list, form) {
        (None, _) => Ok(Vec::new(alloc)),
        (Some(list), Form::Plain) => parse_verification(alloc, list),
        (Some(list), Form::Full) => parse_full_verification(alloc, list),
    }
}

/// The record of words `HASH CHUNK:SIZE ..`: its chunks stand one after another from byte 0, its
/// count is that of the chunks, its bytes are the sum of their sizes, modulo 2^32, its flags and
/// its bytes on disk 0. `Unreadable` if the words do not have this form.
///
/// In full, others of these may stand behind the hash, as `flags=N`, `count=N`, `bytes=N` and
/// `disk=N`, in this order, and chunks are read in full.
pub fn parse_xorb(alloc: Global, words: &[&str], form: Form) -> Result<MDBXorbInfo, ParseError>
    ensures { IfOk result (λ xorb. BeginWithHash (texts words.now) xorb.metadata.xorb_hash) }
{
    let Some((hash, rest)) = words.split_first() else {
        return Err(ParseError::Unreadable);
    };
    let xorb_hash = parse_hash(hash)?;
    let (flags, rest) = split_full(rest, "flags=", form);
    let (count, rest) = split_full(rest, "count=", form);
    let (bytes, rest) = split_full(rest, "bytes=", form);
    let (disk, rest) = split_full(rest, "disk=", form);
    let chunks = Rows::from(parse_chunks(alloc, rest, form)?);
    let metadata = XorbChunkSequenceHeader {
        xorb_hash,
        xorb_flags: parse_u32_or(flags, 0)?,
        num_entries: parse_u32_or(count, count_of(chunks.len()))?,
        num_bytes_in_xorb: parse_u32_or(bytes, sum_of(chunks.as_slice()))?,
        num_bytes_on_disk: parse_u32_or(disk, 0)?,
    };
    Ok(MDBXorbInfo { metadata, chunks })
}

// An option that only the full form has, as by `split_option`.
fn split_full<'w, 'a>(
    words: &'w [&'a str],
    prefix: &str,
    form: Form,
) -> (Option<&'a str>, &'w [&'a str]) {
    match form {
        Form::Plain => (None, words),
        Form::Full => split_option(words, prefix),
    }
}

fn parse_u32_or(word: Option<&str>, usual: u32) -> Result<u32, ParseError> {
    match word {
        Some(word) => parse_u32(word),
        None => Ok(usual),
    }
}

// A number of rows as a header has it. More rows than it can count are no record's.
fn count_of(rows: usize) -> u32 {
    u32::try_from(rows).unwrap_or(u32::MAX)
}

// The sum of the chunks' sizes, which wraps.
fn sum_of(chunks: &[XorbChunkSequenceEntry]) -> u32 {
    let mut sum = 0u32;
    for chunk in chunks {
        sum = sum.wrapping_add(chunk.unpacked_segment_bytes);
    }
    sum
}
