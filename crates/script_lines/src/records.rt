//! The hashes, the rows and the records that the words of a line spell.

ghost use Rattle.std.specs.Prelude.{◌≡◌, List, length, IfOk, IfErr, IsErrOf};
ghost use Rattle.xet_core_structures.specs.declared.merklehash.DataHash.{DataHash};
ghost use Rattle.std.specs.List.{AllZip};
ghost use Rattle.script_lines.specs.Commands.{texts};
ghost use Rattle.script_lines.specs.Words.{ListsHashes, ListsVerification, SpellsHash};

use crate::words::{ParseError, parse_hash, parse_u32, parse_u64, split_at_colon};
use std::alloc::Global;
use xet_core_structures::file_structs::{
    FileAuxExt, FileDataSequenceEntry, FileMetadataExt, FileVerificationEntry, HashRow,
};
use xet_core_structures::merklehash::MerkleHash;
use xet_core_structures::xorb_structs::XorbChunkSequenceEntry;

/// Which fields of rows and records a line may have.
#[derive(Clone, Copy)]
pub enum Form {
    /// The fields of well-formed records.
    Plain,
    /// These and flags, counts and reserved words.
    Full,
}

/// The hashes of words, in order. `Unreadable` if a word is not a hash.
pub fn parse_hashes(alloc: Global, words: &[&str]) -> Result<Vec<MerkleHash>, ParseError>
    ensures found { IfOk result (λ hashes. AllZip SpellsHash (texts words.now) hashes.items) }
    ensures every { (hashes : List DataHash) → AllZip SpellsHash (texts words.now) hashes
        → IfErr result (λ e. e ≡ ParseError.OutOfMemory) }
    ensures count { IfOk result (λ hashes. length hashes.items ≡ length words.now) }
{
    let mut hashes = Vec::new(alloc);
    for word in words {
        hashes.push(parse_hash(word)?)?;
    }
    Ok(hashes)
}

/// The chunks of words, in order, each after the one before it, the first from byte 0. `Unreadable`
/// if a word does not have the form of [`parse_chunk`] or [`parse_full_chunk`].
pub fn parse_chunks(
    alloc: Global,
    words: &[&str],
    form: Form,
) -> Result<Vec<XorbChunkSequenceEntry>, ParseError>
    ensures count { IfOk result (λ chunks. length chunks.items ≡ length words.now) }
{
    let mut chunks = Vec::new(alloc);
    let mut next = 0u32;
    for word in words {
        let chunk = match form {
            Form::Plain => parse_chunk(word, next)?,
            Form::Full => parse_full_chunk(word, next)?,
        };
        next = chunk
            .chunk_byte_range_start
            .wrapping_add(chunk.unpacked_segment_bytes);
        chunks.push(chunk)?;
    }
    Ok(chunks)
}

/// The chunk of a word `CHUNK:SIZE`, from byte `start` on. `Unreadable` if the word does not have
/// this form.
pub fn parse_chunk(word: &str, start: u32) -> Result<XorbChunkSequenceEntry, ParseError>
    ensures { IfErr result (λ e. e ≡ ParseError.Unreadable) }
{
    let (hash, size) = split_at_colon(word)?;
    let hash = parse_hash(hash)?;
    let size = parse_u32(size)?;
    Ok(XorbChunkSequenceEntry::new(hash, size, start))
}

/// The chunk of a word `CHUNK:SIZE:START:FLAGS:RESERVED`, of which all but hash and size may be
/// left out; it is then from byte `next` on. `Unreadable` if the word does not have this form.
pub fn parse_full_chunk(word: &str, next: u32) -> Result<XorbChunkSequenceEntry, ParseError> {
    let (hash, numbers) = split_at_colon(word)?;
    let chunk_hash = parse_hash(hash)?;
    let mut fields = [0, next, 0, 0];
    parse_u32s(numbers, 1, &mut fields)?;
    let [size, start, flags, unused] = fields;
    Ok(XorbChunkSequenceEntry {
        chunk_hash,
        chunk_byte_range_start: start,
        unpacked_segment_bytes: size,
        flags,
        _unused: unused,
    })
}

/// The segments of words, in order. `Unreadable` if a word does not have the form of
/// [`parse_segment`] or [`parse_full_segment`].
pub fn parse_segments(
    alloc: Global,
    words: &[&str],
    form: Form,
) -> Result<Vec<FileDataSequenceEntry>, ParseError>
    ensures count { IfOk result (λ segments. length segments.items ≡ length words.now) }
{
    let mut segments = Vec::new(alloc);
    for word in words {
        let segment = match form {
            Form::Plain => parse_segment(word)?,
            Form::Full => parse_full_segment(word)?,
        };
        segments.push(segment)?;
    }
    Ok(segments)
}

/// The segment of a word `XORB:START:END:BYTES`, with no flag set: the chunks of the xorb from
/// index `START` up to, but not including, index `END`, and their size in bytes. `Unreadable` if
/// the word does not have this form.
pub fn parse_segment(word: &str) -> Result<FileDataSequenceEntry, ParseError>
    ensures flags { IfOk result (λ segment. segment.xorb_flags ≡ 0) }
    ensures causes { IfErr result (λ e. e ≡ ParseError.Unreadable) }
{
    let (xorb, numbers) = split_at_colon(word)?;
    let xorb = parse_hash(xorb)?;
    let mut fields = [0; 3];
    parse_u32s(numbers, 3, &mut fields)?;
    let [start, end, bytes] = fields;
    Ok(FileDataSequenceEntry::new(xorb, bytes, start, end))
}

/// The same of a word `XORB:START:END:BYTES:FLAGS`, of which the flags may be left out.
pub fn parse_full_segment(word: &str) -> Result<FileDataSequenceEntry, ParseError> {
    let (xorb, numbers) = split_at_colon(word)?;
    let xorb_hash = parse_hash(xorb)?;
    let mut fields = [0; 4];
    parse_u32s(numbers, 3, &mut fields)?;
    let [start, end, bytes, flags] = fields;
    Ok(FileDataSequenceEntry {
        xorb_hash,
        xorb_flags: flags,
        unpacked_segment_bytes: bytes,
        chunk_index_start: start,
        chunk_index_end: end,
    })
}

// Puts the numbers of a word, separated by colons, in place of the first of others. `Unreadable` if
// they are more than these, or fewer than `least`.
fn parse_u32s(word: &str, least: usize, numbers: &mut [u32]) -> Result<(), ParseError>
    ensures { IfErr result (λ e. e ≡ ParseError.Unreadable) }
{
    let mut count = 0;
    for part in word.split(':') {
        if count >= numbers.len() {
            return Err(ParseError::Unreadable);
        }
        numbers[count] = parse_u32(part)?;
        count += 1;
    }
    if count < least {
        return Err(ParseError::Unreadable);
    }
    Ok(())
}

/// The verification rows of a list of hashes, separated by commas. The empty list has none.
/// `Unreadable` if a part between commas is not a hash.
pub fn parse_verification(
    alloc: Global,
    list: &str,
) -> Result<Vec<FileVerificationEntry>, ParseError>
    ensures rows { IfOk result (λ rows. ListsVerification list.now rows.items) }
    ensures unreadable { IsErrOf result ParseError.Unreadable
        → (hashes : List DataHash) → ¬ (ListsHashes list.now hashes) }
{
    let mut rows = Vec::new(alloc);
    if list.is_empty() {
        return Ok(rows);
    }
    for hash in list.split(',') {
        rows.push(FileVerificationEntry::new(parse_hash(hash)?))?;
    }
    Ok(rows)
}

/// The same of a list of rows in full, each as [`parse_verification_row`] reads it.
pub fn parse_full_verification(
    alloc: Global,
    list: &str,
) -> Result<Vec<FileVerificationEntry>, ParseError> {
    let mut rows = Vec::new(alloc);
    if list.is_empty() {
        return Ok(rows);
    }
    for word in list.split(',') {
        rows.push(parse_verification_row(word)?)?;
    }
    Ok(rows)
}

/// The row of a word `HASH`, or in full also `HASH/A/B` with the two reserved words. `Unreadable`
/// if the word does not have this form.
pub fn parse_row(word: &str, form: Form) -> Result<HashRow, ParseError> {
    let (hash, _unused) = match (form, word.split_once('/')) {
        (Form::Full, Some((hash, reserved))) => (hash, parse_reserved(reserved)?),
        _ => (word, [0; 2]),
    };
    let hash = parse_hash(hash)?;
    Ok(HashRow { hash, _unused })
}

fn parse_reserved(words: &str) -> Result<[u64; 2], ParseError> {
    let Some((first, second)) = words.split_once('/') else {
        return Err(ParseError::Unreadable);
    };
    Ok([parse_u64(first)?, parse_u64(second)?])
}

/// The row of verification that [`parse_row`] reads in full.
pub fn parse_verification_row(word: &str) -> Result<FileVerificationEntry, ParseError> {
    let HashRow { hash, _unused } = parse_row(word, Form::Full)?;
    Ok(FileVerificationEntry {
        range_hash: hash,
        _unused,
    })
}

/// The row with a SHA-256 that [`parse_row`] reads.
pub fn parse_metadata(word: &str, form: Form) -> Result<FileMetadataExt, ParseError> {
    let HashRow { hash, _unused } = parse_row(word, form)?;
    Ok(FileMetadataExt {
        sha256: hash,
        _unused,
    })
}

/// The auxiliary row that [`parse_row`] reads.
pub fn parse_aux(word: &str, form: Form) -> Result<FileAuxExt, ParseError> {
    let HashRow { hash, _unused } = parse_row(word, form)?;
    Ok(FileAuxExt {
        aux_hash: hash,
        _unused,
    })
}
