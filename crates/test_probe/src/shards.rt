//! Commands on shards in memory.

use crate::probe::Probe;
use crate::stop::Stop;
use script_lines::records::parse_hashes;
use script_lines::show::{Show, show_line};
use script_lines::words::parse_hash;
use std::collections::BTreeMap;
use std::io;
use std::io::Write;
use xet_core_structures::merklehash::MerkleHash;

impl Probe {
    /// Runs a command that makes a shard of others, or counts the size of one. `false` if the words
    /// are no such command.
    pub fn run_on_shards(&mut self, words: &[&str]) -> Result<bool, Stop> {
        match words {
            ["union_in_memory", first, second, name] => self.put_union(first, second, name),
            ["difference_in_memory", first, second, name] => {
                self.put_difference(first, second, name)
            }
            ["copy", from, name] => self.put_copy(from, name),
            ["recount", name] => {
                self.shard_mut(name)?.recalculate_shard_size();
                Ok(())
            }
            _ => return Ok(false),
        }?;
        Ok(true)
    }

    fn put_union(&mut self, first: &str, second: &str, name: &str) -> Result<(), Stop> {
        let union = self.shard(first)?.union(self.alloc, self.shard(second)?)?;
        self.put_shard(name, union)
    }

    fn put_difference(&mut self, first: &str, second: &str, name: &str) -> Result<(), Stop> {
        let difference = self
            .shard(first)?
            .difference(self.alloc, self.shard(second)?)?;
        self.put_shard(name, difference)
    }

    fn put_copy(&mut self, from: &str, name: &str) -> Result<(), Stop> {
        let copy = self.shard(from)?.try_clone(self.alloc)?;
        self.put_shard(name, copy)
    }

    /// Runs a command that prints what a call on a shard returns. `false` if the words are no such
    /// command.
    pub fn show_shards(&self, words: &[&str], out: &mut Vec<u8>) -> Result<bool, Stop> {
        match words {
            ["get", name, hash] => self.show_file(name, hash, out),
            ["query_in_memory", name, hashes @ ..] => self.show_run(name, hashes, out),
            ["location", name, hash] => self.show_location(name, hash, out),
            ["counts", name] => self.show_counts(name, out),
            ["sums", name] => self.show_sums(name, out),
            ["files", name] => Ok(show_records(self.shard(name)?.file_content(), out)?),
            ["xorbs", name] => Ok(show_records(self.shard(name)?.xorb_content(), out)?),
            _ => return Ok(false),
        }?;
        Ok(true)
    }

    fn show_file(&self, name: &str, hash: &str, out: &mut Vec<u8>) -> Result<(), Stop> {
        let hash = parse_hash(hash)?;
        let file = self
            .shard(name)?
            .get_file_reconstruction_info(self.alloc, &hash)?;
        Ok(show_line(&file, out)?)
    }

    fn show_run(&self, name: &str, hashes: &[&str], out: &mut Vec<u8>) -> Result<(), Stop> {
        let hashes = parse_hashes(self.alloc, hashes)?;
        let run = self.shard(name)?.chunk_hash_dedup_query(hashes.as_slice());
        Ok(show_line(&run, out)?)
    }

    fn show_location(&self, name: &str, hash: &str, out: &mut Vec<u8>) -> Result<(), Stop> {
        let hash = parse_hash(hash)?;
        let Some((xorb, index)) = self.shard(name)?.chunk_hash_lookup().get(&hash) else {
            return Ok(writeln!(out, "none")?);
        };
        xorb.metadata.xorb_hash.show(out)?;
        Ok(writeln!(out, ":{index}")?)
    }

    fn show_counts(&self, name: &str, out: &mut Vec<u8>) -> Result<(), Stop> {
        let shard = self.shard(name)?;
        let files = shard.num_file_entries();
        let xorbs = shard.num_xorb_entries();
        let hashes = shard.chunk_hash_lookup().len();
        let is_empty = shard.is_empty();
        Ok(writeln!(
            out,
            "files {files} xorbs {xorbs} chunk_hashes {hashes} empty {is_empty}"
        )?)
    }

    fn show_sums(&self, name: &str, out: &mut Vec<u8>) -> Result<(), Stop> {
        let shard = self.shard(name)?;
        let stored = shard.stored_bytes();
        let disk = shard.stored_bytes_on_disk();
        let materialized = shard.materialized_bytes();
        let size = shard.shard_file_size();
        Ok(writeln!(
            out,
            "stored {stored} disk {disk} materialized {materialized} size {size}"
        )?)
    }
}

fn show_records<T: Show>(records: &BTreeMap<MerkleHash, T>, out: &mut Vec<u8>) -> io::Result<()> {
    if records.is_empty() {
        return writeln!(out, "none");
    }
    for record in records.values() {
        show_line(record, out)?;
    }
    Ok(())
}
