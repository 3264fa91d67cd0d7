//! Commands on minimal shards, which are read through a device.

use crate::runs::Run;
use crate::sections::Zeros;
use crate::stop::Stop;
use script_lines::command::{Command, parse_kept, parse_words};
use script_lines::records::Form;
use script_lines::show::show_line;
use script_lines::words::{parse_flags, parse_u64};
use shard_bytes::minimal::{KeptXorbs, Subset};
use std::alloc::Global;
use std::cell::Cell;
use std::io::{self, Read, Write};
use xet_core_structures::file_structs::KeptParts;
use xet_core_structures::merklehash::MerkleHash;
use xet_core_structures::streaming_shard::MDBMinimalShard;
use xet_core_structures::xorb_structs::MDBXorbInfoView;

// The number that a call that writes returns.
type Written = Result<usize, Stop>;

impl Run<'_> {
    /// Runs `minimal B1 B2 NOW OPT`, or `dropmin ..` without auxiliary rows, `subset B1 B2 NOW
    /// EXPIRY LIST` or `subset_only B1 B2 NOW LIST` on the minimal shard that is read from the
    /// source of B1, and prints the number that the call returns.
    pub fn write_minimal(&mut self, words: &[&str], out: &mut Vec<u8>) -> Result<(), Stop> {
        let shard = minimal_shard(self.alloc, &mut self.first, "fx")?;
        self.write_parts(&shard, words, out)
    }

    // Writes what words name of a minimal shard.
    fn write_parts(
        &mut self,
        shard: &MDBMinimalShard,
        words: &[&str],
        out: &mut Vec<u8>,
    ) -> Result<(), Stop> {
        let size = match parse_words(self.alloc, words, Form::Full)? {
            Some(Command::Minimal { now, kept, .. }) => self.write_whole(shard, now, kept),
            Some(Command::Subset { subset, .. }) => self.write_subset(shard, &subset),
            _ => return self.write_subset_only(shard, words, out),
        }?;
        Ok(writeln!(out, "{size}")?)
    }

    fn write_whole(&mut self, shard: &MDBMinimalShard, now: u64, kept: KeptParts) -> Written {
        let output = &mut self.output;
        match kept.aux_ext {
            true => Ok(shard.serialize(self.alloc, output, now, kept.verification)?),
            false => Ok(shard.serialize_without_aux(self.alloc, output, now, kept.verification)?),
        }
    }

    fn write_subset(&mut self, shard: &MDBMinimalShard, subset: &Subset) -> Written {
        let kept = &subset.kept;
        let is_kept = |xorb: &MDBXorbInfoView| has(kept, &xorb.xorb_hash());
        let (now, expiry) = (subset.now, subset.expiry);
        let output = &mut self.output;
        Ok(shard.serialize_xorb_subset_with_expiry(self.alloc, output, now, expiry, is_kept)?)
    }

    // Prints the number that the call returns, and how often the filter was called.
    fn write_subset_only(
        &mut self,
        shard: &MDBMinimalShard,
        words: &[&str],
        out: &mut Vec<u8>,
    ) -> Result<(), Stop> {
        let [_, _, _, now, list @ ..] = words else {
            return Err(Stop::Unreadable);
        };
        let now = parse_u64(now)?;
        let kept = parse_kept(self.alloc, list)?;
        let calls = Cell::new(0u64);
        let is_kept = |xorb: &MDBXorbInfoView| {
            calls.set(calls.get().saturating_add(1));
            has(&kept, &xorb.xorb_hash())
        };
        let output = &mut self.output;
        let size = shard.serialize_xorb_subset_only(self.alloc, output, now, is_kept)?;
        let calls = calls.get();
        Ok(writeln!(out, "{size}\ncalls {calls}")?)
    }

    /// Prints what the minimal shard has that is read from the first source. The word names its
    /// parts.
    pub fn show_minimal(
        &mut self,
        command: &str,
        parts: &str,
        out: &mut Vec<u8>,
    ) -> Result<(), Stop> {
        let shard = minimal_shard(self.alloc, &mut self.first, parts)?;
        match command {
            "minimal_sums" => Ok(show_sums(&shard, out)?),
            "dropmin_sizes" => Ok(show_sizes_without_aux(&shard, out)?),
            "minimal_records" => show_records(&shard.try_clone(self.alloc)?, self.alloc, out),
            _ => {
                let hashes = shard.global_dedup_eligible_chunks(self.alloc)?;
                Ok(show_line(&hashes, out)?)
            }
        }
    }
}

// Whether one of the xorbs that are kept has a hash.
fn has(kept: &KeptXorbs, hash: &MerkleHash) -> bool {
    match kept {
        KeptXorbs::All => true,
        KeptXorbs::Listed(hashes) => hashes.as_slice().contains(hash),
    }
}

// The minimal shard that is read from here on, with the parts that two characters name: files, `f`,
// and xorbs, `x`; `-` leaves out.
fn minimal_shard<R: Read>(
    alloc: Global,
    reader: &mut R,
    parts: &str,
) -> Result<MDBMinimalShard, Stop> {
    let [files, xorbs] = parse_flags(parts, b"fx")?;
    Ok(MDBMinimalShard::from_reader(alloc, reader, files, xorbs)?)
}

/// Reads a minimal shard with the parts that the word names from zero bytes without an end, and
/// prints its sums.
pub fn show_endless(alloc: Global, parts: &str, out: &mut Vec<u8>) -> Result<(), Stop> {
    Ok(show_sums(&minimal_shard(alloc, &mut Zeros {}, parts)?, out)?)
}

fn show_sums(shard: &MDBMinimalShard, out: &mut Vec<u8>) -> io::Result<()> {
    let files = shard.num_files();
    let xorbs = shard.num_xorb();
    let verification = shard.has_file_verification();
    write!(
        out,
        "files {files} xorbs {xorbs} verification {verification} "
    )?;
    let with = shard.serialized_size(true);
    let without = shard.serialized_size(false);
    writeln!(out, "bytes {with} {without}")
}

fn show_sizes_without_aux(shard: &MDBMinimalShard, out: &mut Vec<u8>) -> io::Result<()> {
    let with = shard.serialized_size_without_aux(true);
    let without = shard.serialized_size_without_aux(false);
    writeln!(out, "bytes {with} {without}")
}

fn show_records(shard: &MDBMinimalShard, alloc: Global, out: &mut Vec<u8>) -> Result<(), Stop> {
    if shard.num_files() == 0 && shard.num_xorb() == 0 {
        writeln!(out, "none")?;
    }
    for index in 0..shard.num_files() {
        if let Some(file) = shard.file(index) {
            show_line(&file.to_info(alloc)?, out)?;
        }
    }
    for index in 0..shard.num_xorb() {
        if let Some(xorb) = shard.xorb(index) {
            show_line(&xorb.to_info(alloc)?, out)?;
        }
    }
    Ok(())
}
