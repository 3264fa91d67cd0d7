//! The shards and the lists that arguments name.

use crate::fault::RequestFault;
use crate::hashes::{given_hashes, hashes_of};
use crate::printing::style_in;
use crate::values::texts_of;
use clap::ArgMatches;
use mdb_base::request::{HashList, Sources};
use mdb_command_line::id;
use std::alloc::Global;
use xet_core_structures::merklehash::MerkleHash;

/// The shards to read, and the list of hashes that goes with them.
pub fn sources_in<'a>(
    alloc: Global,
    matches: &ArgMatches<'a>,
) -> Result<Sources<'a>, RequestFault<'a>> {
    let words = if matches.contains_id(id::FILE) {
        texts_of(alloc, matches, id::FILE)?
    } else {
        Vec::new(alloc)
    };
    Ok(Sources {
        words,
        list: matches.get_str(id::LIST),
        hashes: hash_list_in(matches),
        end: end_in(matches),
        style: style_in(matches),
        recursive: matches.get_flag(id::RECURSIVE),
        may_be_empty: false,
    })
}

/// The shards and hashes of a lookup. Without `--hash` the first word is a shard, and the others are
/// hashes.
pub fn lookup_in<'a>(
    alloc: Global,
    matches: &ArgMatches<'a>,
) -> Result<(Sources<'a>, Vec<MerkleHash>), RequestFault<'a>> {
    let mut sources = sources_in(alloc, matches)?;
    if matches.contains_id(id::HASHES) || sources.hashes.is_some() {
        let hashes = given_hashes(alloc, matches, id::HASHES)?;
        return Ok((sources, hashes));
    }
    if sources.list.is_some() || sources.words.len() < 2 {
        return Err(RequestFault::Missing(id::HASHES));
    }
    let hashes = hashes_of(alloc, &sources.words.as_slice()[1..])?;
    sources.words.truncate(1);
    Ok((sources, hashes))
}

/// The list of more hashes, if one is given.
pub fn hash_list_in<'a>(matches: &ArgMatches<'a>) -> Option<HashList<'a>> {
    let path = matches.get_str(id::HASH_LIST)?;
    Some(HashList {
        path,
        end: end_in(matches),
    })
}

// The byte that ends each path or hash of a list.
fn end_in(matches: &ArgMatches<'_>) -> u8 {
    if matches.get_flag(id::NULL) { 0 } else { b'\n' }
}
