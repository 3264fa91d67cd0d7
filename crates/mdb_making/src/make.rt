//! Running the commands that write one shard to a target, but for merges.

ghost use Rattle.std.specs.Prelude.{◌≡◌, MatchResult};
ghost use Rattle.xet_core_structures.specs.declared.error.CoreError.{CoreError};
ghost use Rattle.shard_bytes.specs.Exporting.{ExportsBytes, RefusesExport};
ghost use Rattle.shard_bytes.specs.Minimal.{MinimalBytes, RefusesMinimalBytes};
ghost use Rattle.shard_bytes.specs.Versions.{LaidOutIn, NotLaidOutIn};
ghost use Rattle.mdb_report.specs.Faults.{IsExportFault, IsMinimalFault};

use crate::record_lines::shard_of_lines;
use crate::record_removal::remove_records;
use mdb_base::expiry::{new_expiry, with_expiry_if_any};
use mdb_base::failure::{Failure, Subject};
use mdb_base::host::Host;
use mdb_base::input_failure::combine_failure_in;
use mdb_base::outputs::{bytes_in_file, put, sections_of};
use mdb_base::request::{MakeCommand, NewExpiry, Target};
use mdb_files::files::STANDARD_STREAM;
use mdb_report::fault::{Fault, export_fault, fault_of, minimal_fault};
use shard_bytes::combine::{Operation, combine_bytes};
use shard_bytes::export::{Export, export_bytes};
use shard_bytes::minimal::{KeptXorbs, Subset, hashes_without_xorb, minimal_bytes, subset_bytes};
use std::alloc::Global;
use std::rt::Files;
use xet_core_structures::file_structs::KeptParts;
use xet_core_structures::merklehash::MerkleHash;

/// Writes the shard that a command makes to a target. Reports on standard error what runs that were
/// ended have left there. Standard output is a terminal or not.
pub fn make<'a, R: Host>(
    rt: &R,
    making: &MakeCommand<'a>,
    target: Target<'a>,
    terminal: bool,
) -> Result<(), Failure<'a>> {
    if terminal && target.path == STANDARD_STREAM {
        return Err(Failure::on_output(Fault::Terminal));
    }
    let bytes = make_bytes(rt, making, target)?;
    put(rt, target.path, bytes.as_slice())
}

// The bytes of the shard that a command makes, in the version of a target.
fn make_bytes<'a, R: Files + Input + Eprint + AllocGlobal>(
    rt: &R,
    making: &MakeCommand<'a>,
    target: Target<'a>,
) -> Result<Vec<u8>, Failure<'a>> {
    match making {
        MakeCommand::Combine(operation, first, second) => {
            combine_files(rt, *operation, first, second, target)
        }
        MakeCommand::Drop(removal) => remove_records(rt, removal, target),
        MakeCommand::Records(list, expiry) => shard_of_lines(rt, list, *expiry, target),
        MakeCommand::Export(file, export) => export_file(rt, file, export, target),
        MakeCommand::Minimal(file, now, kept) => minimal_of_file(rt, file, *now, *kept, target),
        MakeCommand::Subset(file, kept, _, expiry) => subset(rt, file, kept, *expiry, target),
    }
}

fn export_file<'a, R: Files + Input + AllocGlobal>(
    rt: &R,
    file: &'a str,
    export: &Export,
    target: Target<'a>,
) -> Result<Vec<u8>, Failure<'a>> {
    let bytes = bytes_in_file(rt, file)?;
    export_of_bytes(rt.alloc(), file, bytes.as_slice(), export, target)
}

// The bytes of an export, in the version of a target, of the shard of which a file has these bytes.
fn export_of_bytes<'a>(
    alloc: Global,
    file: &'a str,
    bytes: &[u8],
    export: &Export,
    target: Target<'a>,
) -> Result<Vec<u8>, Failure<'a>>
    ensures { MatchResult result
        (λ out. LaidOutIn target.entry.version (ExportsBytes export.entry.now bytes.now) out.items)
        (λ failure. (e : CoreError)
        × NotLaidOutIn target.entry.version (ExportsBytes export.entry.now bytes.now)
        (RefusesExport export.entry.now bytes.now) e
        × IsExportFault export.entry.now bytes.now e failure.fault) }
{
    match export_bytes(alloc, bytes, export, target.version) {
        Ok(out) => Ok(out),
        Err(error) => {
            let fault = export_fault(alloc, bytes, export, error);
            Err(failure(file, target, fault))
        }
    }
}

// The failure of a command by a fault of a file, or of what is to be written.
fn failure<'a>(file: &'a str, target: Target<'a>, fault: Fault) -> Failure<'a>
    ensures { result.fault ≡ fault }
{
    match fault {
        Fault::HasAuxRow => Failure::on_target(target.path, fault),
        fault => Failure::on_file(file, fault),
    }
}

fn minimal_of_file<'a, R: Files + Input + AllocGlobal>(
    rt: &R,
    file: &'a str,
    now: u64,
    kept: KeptParts,
    target: Target<'a>,
) -> Result<Vec<u8>, Failure<'a>> {
    let bytes = sections_of(rt, file)?.bytes;
    minimal_of_bytes(rt.alloc(), file, bytes.as_slice(), now, kept, target)
}

// The bytes of a minimal shard, in the version of a target, of the shard of which a file has these
// bytes.
fn minimal_of_bytes<'a>(
    alloc: Global,
    file: &'a str,
    bytes: &[u8],
    now: u64,
    kept: KeptParts,
    target: Target<'a>,
) -> Result<Vec<u8>, Failure<'a>>
    ensures { MatchResult result
        (λ out. LaidOutIn target.entry.version (MinimalBytes kept now bytes.now) out.items)
        (λ failure. (e : CoreError)
        × NotLaidOutIn target.entry.version (MinimalBytes kept now bytes.now)
        (RefusesMinimalBytes kept bytes.now) e
        × IsMinimalFault kept bytes.now e failure.fault) }
{
    match minimal_bytes(alloc, bytes, now, kept, target.version) {
        Ok(out) => Ok(out),
        Err(error) => {
            let fault = minimal_fault(alloc, bytes, kept, error);
            Err(failure(file, target, fault))
        }
    }
}

fn subset<'a, R: Files + Input + Eprint + AllocGlobal>(
    rt: &R,
    file: &'a str,
    kept: &Subset,
    expiry: NewExpiry,
    target: Target<'a>,
) -> Result<Vec<u8>, Failure<'a>> {
    let alloc = rt.alloc();
    let bytes = sections_of(rt, file)?.bytes;
    if let KeptXorbs::Listed(hashes) = &kept.kept {
        report_missing_xorb(rt, file, bytes.as_slice(), hashes.as_slice())?;
    }
    let bytes = bytes.as_slice();
    let subset = match subset_bytes(alloc, bytes, kept, target.version) {
        Ok(subset) => subset,
        Err(error) => return Err(Failure::on_file(file, fault_of(alloc, bytes, error))),
    };
    let expiry = new_expiry(alloc, expiry, &[file], &[bytes])?;
    Subject::File(file).in_memory(with_expiry_if_any(alloc, subset, expiry))
}

// Reports each listed hash that no xorb of the shard has, and fails if there is one.
fn report_missing_xorb<'a, R: Eprint + AllocGlobal>(
    rt: &R,
    file: &'a str,
    bytes: &[u8],
    hashes: &[MerkleHash],
) -> Result<(), Failure<'a>> {
    let alloc = rt.alloc();
    let lacking = match hashes_without_xorb(alloc, bytes, hashes) {
        Ok(lacking) => lacking,
        Err(error) => return Err(Failure::on_file(file, fault_of(alloc, bytes, error))),
    };
    let Some((last, others)) = lacking.as_slice().split_last() else {
        return Ok(());
    };
    for hash in others {
        let _ = rt.eprintln(&Failure::on_file(file, Fault::NoXorb(*hash)));
    }
    Err(Failure::on_file(file, Fault::NoXorb(*last)))
}

fn combine_files<'a, R: Files + Input + AllocGlobal>(
    rt: &R,
    operation: Operation,
    first: &'a str,
    second: &'a str,
    target: Target<'a>,
) -> Result<Vec<u8>, Failure<'a>> {
    let alloc = rt.alloc();
    let one = bytes_in_file(rt, first)?;
    let other = bytes_in_file(rt, second)?;
    let inputs = [one.as_slice(), other.as_slice()];
    match combine_bytes(alloc, operation, inputs[0], inputs[1], target.version) {
        Ok(bytes) => Ok(bytes),
        Err(error) => Err(combine_failure_in(alloc, &[first, second], &inputs, target, error)),
    }
}
