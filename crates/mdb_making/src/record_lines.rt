//! The command that makes a shard of records that are listed as JSON, one a line.

use mdb_base::failure::Failure;
use mdb_base::request::Target;
use mdb_files::files::read;
use mdb_records::record_line::{LineFault, Record, record_of};
use mdb_report::fault::Fault;
use shard_bytes::records::{Records, write_records};
use std::alloc::Global;
use std::rt::Files;
use xet_core_structures::error::CoreError;
use xet_core_structures::record_reader::FormatVersion;
use xet_core_structures::shard_in_memory::MDBInMemoryShard;

/// The bytes of the shard that has the records in a file, in the version of a target, with an expiry
/// in seconds or none. Of two files, or two xorbs, with one hash the later one counts.
pub fn shard_of_lines<'a, R: Files + Input + AllocGlobal>(
    rt: &R,
    file: &'a str,
    expiry: Option<u64>,
    target: Target<'a>,
) -> Result<Vec<u8>, Failure<'a>> {
    let alloc = rt.alloc();
    let list = match read(rt, file) {
        Ok(list) => list,
        Err(error) => return Err(Failure::on_file(file, Fault::from(error))),
    };
    let list = list.as_slice();
    let written = match records_in(alloc, list) {
        Ok(Records { files, xorbs }) => write_records(alloc, files, xorbs, target.version, expiry),
        Err(fault) => return Err(Failure::on_file(file, fault)),
    };
    match written {
        Ok(bytes) => Ok(bytes),
        Err(CoreError::InvalidArguments) => Err(match line_fault(alloc, list) {
            None if target.version == FormatVersion::V2 => {
                Failure::on_target(target.path, Fault::HasAuxRow)
            }
            fault => Failure::on_file(file, fault.unwrap_or(Fault::OutOfMemory)),
        }),
        Err(_) => Err(Failure::on_file(file, Fault::OutOfMemory)),
    }
}

// The records of a list, in its order.
fn records_in(alloc: Global, list: &[u8]) -> Result<Records, Fault> {
    let mut files = Vec::new(alloc);
    let mut xorbs = Vec::new(alloc);
    for (before, line) in list.split(|byte| *byte == b'\n').enumerate() {
        if line.is_empty() {
            continue;
        }
        match record_of(alloc, line) {
            Ok(Record::File(file)) => files.push(file)?,
            Ok(Record::Xorb(xorb)) => xorbs.push(xorb)?,
            Err(LineFault::OutOfMemory) => return Err(Fault::OutOfMemory),
            Err(fault) => return Err(Fault::NoLine(number_of(before), fault)),
        }
    }
    Ok(Records { files, xorbs })
}

// The first line whose record a shard of those before it does not take. `None` if it takes all.
fn line_fault(alloc: Global, list: &[u8]) -> Option<Fault> {
    let mut shard = MDBInMemoryShard::new(alloc);
    for (before, line) in list.split(|byte| *byte == b'\n').enumerate() {
        let added = match record_of(alloc, line) {
            Ok(Record::File(file)) => shard.add_file_reconstruction_info(alloc, file),
            Ok(Record::Xorb(xorb)) => shard.add_xorb_block(alloc, xorb),
            Err(_) => continue,
        };
        match added {
            Err(CoreError::OutOfMemory) => return Some(Fault::OutOfMemory),
            Err(_) => return Some(Fault::NoRecordOfShard(number_of(before))),
            Ok(_) => {}
        }
    }
    None
}

// The number of a line, from 1 on.
fn number_of(before: usize) -> u64 {
    (before as u64).saturating_add(1)
}
