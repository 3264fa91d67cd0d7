//! Hashes and keys among arguments.

use crate::fault::RequestFault;
use crate::values::texts_of;
use clap::ArgMatches;
use mdb_command_line::id;
use std::alloc::Global;
use xet_core_structures::merklehash::MerkleHash;

/// The hash of which the text is the digits.
pub fn hash_of<'a>(text: &'a str) -> Result<MerkleHash, RequestFault<'a>> {
    MerkleHash::from_hex(text).or(Err(RequestFault::NoHash(text)))
}

/// The hashes of which the texts are the digits.
pub fn hashes_of<'a>(
    alloc: Global,
    texts: &[&'a str],
) -> Result<Vec<MerkleHash>, RequestFault<'a>> {
    let mut hashes = Vec::new(alloc);
    for text in texts {
        hashes.push(hash_of(text)?)?;
    }
    Ok(hashes)
}

/// The hashes that an option was given, or none.
pub fn given_hashes<'a>(
    alloc: Global,
    matches: &ArgMatches<'a>,
    id: &'static str,
) -> Result<Vec<MerkleHash>, RequestFault<'a>> {
    if !matches.contains_id(id) {
        return Ok(Vec::new(alloc));
    }
    let texts = texts_of(alloc, matches, id)?;
    hashes_of(alloc, texts.as_slice())
}

/// The key of the hashes of bytes, if one is given.
pub fn hash_key_in<'a>(matches: &ArgMatches<'a>) -> Result<Option<MerkleHash>, RequestFault<'a>> {
    match matches.get_str(id::HASH_KEY) {
        Some(text) => Ok(Some(hash_of(text)?)),
        None => Ok(None),
    }
}
