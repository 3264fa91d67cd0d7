//! Looking up xorbs, and printing what is found.

ghost use Rattle.std.specs.Prelude.{◌≡◌, ◌≢◌, IfOk, is_some};

use crate::inquiry::{Answer, InquiryFault};
use crate::tables::Table;
use crate::tally::Tally;
use crate::xorb_lookup::{FoundXorb, lacks_xorb_table};
use mdb_records::line::{Layout, print};
use std::alloc::Global;
use std::io;
use std::io::Write;
use xet_core_structures::merklehash::MerkleHash;

/// Looks up xorbs in a shard's bytes.
pub(crate) fn find_xorbs<W: Write>(
    alloc: Global,
    bytes: &[u8],
    hashes: &[MerkleHash],
    layout: Layout<'_>,
    tally: &mut Tally,
    output: &mut W,
) -> Result<Answer, InquiryFault>
    ensures { IfOk result (λ answer. answer ≢ Answer.HasFindings) }
{
    if lacks_xorb_table(alloc, bytes)? {
        return Err(InquiryFault::NoTable(Table::Xorbs));
    }
    let mut found = false;
    for hash in hashes {
        let report = FoundXorb::of_lookup(alloc, bytes, *hash)?;
        found |= print_xorb_lookup(alloc, &report, layout, tally, output)?;
    }
    if found {
        Ok(Answer::Printed)
    } else {
        Ok(Answer::FoundNothing)
    }
}

/// A report of nothing is printed only without shards' names.
pub(crate) fn print_xorb_lookup<W: Write>(
    alloc: Global,
    report: &FoundXorb,
    layout: Layout<'_>,
    tally: &mut Tally,
    output: &mut W,
) -> Result<bool, InquiryFault>
    ensures { IfOk result (λ found. found ≡ is_some report.now.found) }
{
    let found = report.found.is_some();
    if found {
        tally.add_found(report.hash.0)?;
    }
    if found || !layout.is_of_one() {
        print(alloc, report, layout, output)?;
    }
    Ok(found)
}

/// Reports the hashes that no xorb has.
pub(crate) fn print_lacking<W: Write>(
    alloc: Global,
    hashes: &[MerkleHash],
    layout: Layout<'_>,
    tally: &Tally,
    output: &mut W,
) -> io::Result<()> {
    for hash in hashes {
        if !tally.has_found(hash) {
            print(alloc, &FoundXorb::nothing(*hash), layout, output)?;
        }
    }
    Ok(())
}
