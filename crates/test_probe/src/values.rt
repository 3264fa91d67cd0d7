//! Commands on hashes, names and errors.

use crate::probe::Probe;
use crate::stop::Stop;
use script_lines::refusal::Refusal;
use script_lines::show::{show_bytes, show_joined, show_line};
use script_lines::words::{parse_hash, parse_key, parse_u32, parse_u64};
use std::alloc::Global;
use std::io::{self, ErrorKind, Write};
use xet_core_structures::error::{CoreError, Result as CoreResult, Validate};
use xet_core_structures::merklehash::{MerkleHash, hash_is_global_dedup_eligible, keyed_hash};
use xet_core_structures::shard_format::MDBShardInfo;
use xet_core_structures::utils::{
    parse_shard_filename, shard_expiry_time, shard_file_name, truncate_hash,
};

impl Probe {
    /// Runs a command on hashes, names or errors. `false` if the words are no such command.
    pub fn show_values(&self, words: &[&str], out: &mut Vec<u8>) -> Result<bool, Stop> {
        let alloc = self.alloc;
        match words {
            ["digits", hash] => show_digits(alloc, hash, out),
            ["bytes_of", hash] => show_bytes_of(alloc, hash, out),
            ["first_word", hash] => show_first_word(hash, out),
            ["is_eligible", hash] => show_is_eligible(hash, out),
            ["from_hex", text @ ..] => show_from_hex(alloc, text, out),
            ["from_bytes", digits @ ..] => self.show_from_bytes(digits, out),
            ["hmac", key, hash] => show_hmac(key, hash, out),
            ["hash_bytes", key, count] => show_hash_bytes(alloc, key, count, out),
            ["name", hash] => show_name(alloc, hash, out),
            ["parse_name", text] => Ok(show_line(&parse_shard_filename(text), out)?),
            ["expiry", now, valid_seconds] => show_expiry(now, valid_seconds, out),
            ["empty_size"] => Ok(show_line(&MDBShardInfo::non_content_byte_size(), out)?),
            ["error", kind, text @ ..] => show_error(alloc, kind, text, out),
            ["equal_errors", first, second] => show_equal(alloc, first, second, out),
            ["validated", "hash", hash] => show_validated(Ok(parse_hash(hash)?), out),
            ["validated", "error", kind, text @ ..] => {
                show_validated(Err(named_error(alloc, kind, text)?), out)
            }
            ["error_of", "other", text] => Err(Stop::Refused(CoreError::other(alloc, text))),
            ["error_of", "invalid_shard", text] => {
                Err(Stop::Refused(CoreError::invalid_shard(alloc, text)))
            }
            _ => return Ok(false),
        }?;
        Ok(true)
    }

    fn show_from_bytes(&self, digits: &[&str], out: &mut Vec<u8>) -> Result<(), Stop> {
        let alloc = self.alloc;
        match MerkleHash::from_slice(self.parse_bytes(digits)?.as_slice()) {
            Ok(hash) => Ok(show_words(hash, out)?),
            Err(error) => Err(Stop::Refused(CoreError::of_bytes_error(alloc, error))),
        }
    }
}

fn show_digits(alloc: Global, hash: &str, out: &mut Vec<u8>) -> Result<(), Stop> {
    let digits = parse_hash(hash)?.hex(alloc)?;
    Ok(writeln!(out, "{digits}")?)
}

fn show_bytes_of(alloc: Global, hash: &str, out: &mut Vec<u8>) -> Result<(), Stop> {
    Ok(show_bytes(alloc, &parse_hash(hash)?.as_bytes(), out)?)
}

fn show_first_word(hash: &str, out: &mut Vec<u8>) -> Result<(), Stop> {
    Ok(show_line(&truncate_hash(&parse_hash(hash)?), out)?)
}

fn show_is_eligible(hash: &str, out: &mut Vec<u8>) -> Result<(), Stop> {
    let is_eligible = hash_is_global_dedup_eligible(&parse_hash(hash)?);
    Ok(writeln!(out, "{is_eligible}")?)
}

fn show_from_hex(alloc: Global, text: &[&str], out: &mut Vec<u8>) -> Result<(), Stop> {
    match MerkleHash::from_hex(text.first().copied().unwrap_or("")) {
        Ok(hash) => Ok(show_words(hash, out)?),
        Err(error) => Err(Stop::Refused(CoreError::of_hex_error(alloc, error))),
    }
}

fn show_hmac(key: &str, hash: &str, out: &mut Vec<u8>) -> Result<(), Stop> {
    let keyed = parse_hash(hash)?.hmac(parse_key(key)?);
    Ok(writeln!(out, "{keyed:?}")?)
}

// Prints the name of an error's variant, as scripts have it, and its message.
fn show_error(alloc: Global, kind: &str, text: &[&str], out: &mut Vec<u8>) -> Result<(), Stop> {
    let error = named_error(alloc, kind, text)?;
    let name = Refusal(&error);
    Ok(writeln!(out, "{name}: {error}")?)
}

// Prints whether two errors, of a word `NAME` or `NAME:TEXT` each, are equal.
fn show_equal(alloc: Global, first: &str, second: &str, out: &mut Vec<u8>) -> Result<(), Stop> {
    let (kind, text) = first.split_once(':').unwrap_or((first, ""));
    let first = named_error(alloc, kind, &[text])?;
    let (kind, text) = second.split_once(':').unwrap_or((second, ""));
    let second = named_error(alloc, kind, &[text])?;
    let is_equal = first == second;
    Ok(writeln!(out, "{is_equal}")?)
}

// Prints the hash that is no error after all, or `none`.
fn show_validated(answer: CoreResult<MerkleHash>, out: &mut Vec<u8>) -> Result<(), Stop> {
    Ok(show_line(&answer.ok_for_format_error()?, out)?)
}

// The error of a name, with the word or the text that it has, if it has one.
fn named_error(alloc: Global, kind: &str, text: &[&str]) -> Result<CoreError, Stop> {
    let text = text.first().copied().unwrap_or("");
    match bare_error(kind) {
        Some(error) => Ok(error),
        None if kind == "TruncatedHashCollision" => {
            Ok(CoreError::TruncatedHashCollision(parse_u64(text)?))
        }
        None => error_with_text(kind, String::from_str(alloc, text)?),
    }
}

// An error without a text.
fn bare_error(kind: &str) -> Option<CoreError> {
    match kind {
        "Io" => Some(CoreError::Io(io::Error::from(ErrorKind::UnexpectedEof))),
        "ShardNotFound" => Some(CoreError::ShardNotFound(MerkleHash::default())),
        "FileNotFound" => Some(CoreError::FileNotFound(MerkleHash::default())),
        "InvalidRange" => Some(CoreError::InvalidRange),
        "InvalidArguments" => Some(CoreError::InvalidArguments),
        "HashMismatch" => Some(CoreError::HashMismatch),
        "ChunkHeaderParse" => Some(CoreError::ChunkHeaderParse),
        "OutOfMemory" => Some(CoreError::OutOfMemory),
        _ => None,
    }
}

// An error with a text, which may be empty.
fn error_with_text(kind: &str, text: String) -> Result<CoreError, Stop> {
    match kind {
        "InternalError" => Ok(CoreError::InternalError(text)),
        "Other" => Ok(CoreError::Other(text)),
        "ShardVersion" => Ok(CoreError::ShardVersion(text)),
        "BadFilename" => Ok(CoreError::BadFilename(text)),
        "QueryFailed" => Ok(CoreError::QueryFailed(text)),
        "SmudgeQueryPolicy" => Ok(CoreError::SmudgeQueryPolicy(text)),
        "InvalidShard" => Ok(CoreError::InvalidShard(text)),
        "MalformedData" => Ok(CoreError::MalformedData(text)),
        _ => Err(Stop::Unreadable),
    }
}

// Prints the keyed hash of so many bytes: 0, 1 and so on to 250, and again.
fn show_hash_bytes(alloc: Global, key: &str, count: &str, out: &mut Vec<u8>) -> Result<(), Stop> {
    let mut bytes = Vec::new(alloc);
    for i in 0..parse_u32(count)? {
        bytes.push((i % 251) as u8)?;
    }
    let hash = keyed_hash(parse_key(key)?, bytes.as_slice());
    Ok(writeln!(out, "{hash}")?)
}

fn show_name(alloc: Global, hash: &str, out: &mut Vec<u8>) -> Result<(), Stop> {
    let name = shard_file_name(alloc, &parse_hash(hash)?)?;
    Ok(writeln!(out, "{name}")?)
}

fn show_expiry(now: &str, valid_seconds: &str, out: &mut Vec<u8>) -> Result<(), Stop> {
    let expiry = shard_expiry_time(parse_u64(now)?, parse_u64(valid_seconds)?)?;
    Ok(writeln!(out, "{expiry}")?)
}

// Prints the four words of a hash in decimal.
fn show_words(hash: MerkleHash, out: &mut Vec<u8>) -> io::Result<()> {
    show_joined("", &[hash[0], hash[1], hash[2], hash[3]], " ", out)?;
    writeln!(out)
}
