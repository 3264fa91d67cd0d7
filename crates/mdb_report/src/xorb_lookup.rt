//! What lookups of xorbs find.

ghost use Rattle.std.specs.Prelude.{◌≡◌, IfOk, IfSome, IsNone};

use mdb_records::hex::Hex;
use mdb_records::records::XorbReport;
use serde::Serialize;
use std::alloc::Global;
use std::fmt;
use xet_core_structures::error::Result;
use xet_core_structures::merklehash::MerkleHash;
use xet_core_structures::shard_format::{MDBShardInfo, MOST_FOUND};
use xet_core_structures::source::{MemorySource, ShardSource};
use xet_core_structures::xorb_structs::MDBXorbInfo;

/// What a lookup of a xorb found.
#[derive(Drop, Serialize)]
pub struct FoundXorb {
    /// The hash looked up.
    pub hash: Hex,
    pub found: Option<XorbReport>,
}

impl FoundXorb {
    /// The report of a lookup that found nothing.
    pub fn nothing(hash: MerkleHash) -> FoundXorb
        ensures hash { result.hash.0 ≡ hash }
        ensures found { IsNone result.found }
    {
        FoundXorb {
            hash: Hex(hash),
            found: None,
        }
    }

    /// Looks up a xorb in a shard's bytes. Fails as [`MDBShardInfo::load_from_reader`] or
    /// `in_source`.
    pub fn of_lookup(alloc: Global, bytes: &[u8], hash: MerkleHash) -> Result<FoundXorb>
        ensures { IfOk result (λ report. report.hash.0 ≡ hash) }
    {
        let mut source = MemorySource::new(bytes);
        let info = MDBShardInfo::load_from_reader(alloc, &mut source)?;
        FoundXorb::in_source(alloc, &info, &mut source, hash)
    }

    /// Looks up a xorb in a source of a shard with this header and footer.
    ///
    /// Fails as [`MDBShardInfo::get_xorb_info_index_by_hash`] or [`MDBShardInfo::read_xorb_info`].
    pub fn in_source<S: ShardSource>(
        alloc: Global,
        info: &MDBShardInfo,
        source: &mut S,
        hash: MerkleHash,
    ) -> Result<FoundXorb>
        ensures { IfOk result (λ report. report.hash.0 ≡ hash) }
    {
        let found = match find_xorb(alloc, info, source, &hash)? {
            Some(xorb) => Some(XorbReport::of_xorb(alloc, &xorb, true)?),
            None => None,
        };
        Ok(FoundXorb {
            hash: Hex(hash),
            found,
        })
    }
}

fn find_xorb<S: ShardSource>(
    alloc: Global,
    info: &MDBShardInfo,
    source: &mut S,
    hash: &MerkleHash,
) -> Result<Option<MDBXorbInfo>>
    ensures { IfOk result (λ found. IfSome found (λ xorb. xorb.metadata.xorb_hash ≡ hash.now)) }
{
    let mut rows = [0u32; MOST_FOUND];
    let count = info.get_xorb_info_index_by_hash(alloc, source, hash, &mut rows)?;
    for row in rows.iter().take(count) {
        let xorb = info.read_xorb_info(alloc, source, *row)?;
        if xorb.metadata.xorb_hash == *hash {
            return Ok(Some(xorb));
        }
    }
    Ok(None)
}

/// Whether a shard has xorbs, but no rows in its xorb table.
///
/// Fails as [`MDBShardInfo::load_from_reader`], or as reading the xorb section.
pub fn lacks_xorb_table(alloc: Global, bytes: &[u8]) -> Result<bool> {
    let mut source = MemorySource::new(bytes);
    let info = MDBShardInfo::load_from_reader(alloc, &mut source)?;
    if info.metadata.xorb_lookup_num_entry != 0 {
        return Ok(false);
    }
    let xorbs = info.read_all_xorb_blocks(alloc, &mut source)?;
    Ok(!xorbs.is_empty())
}

impl fmt::Display for FoundXorb {
    fn fmt<W: fmt::Write>(&self, f: &mut fmt::Formatter<W>) -> fmt::Result {
        match &self.found {
            Some(xorb) => write!(f, "{xorb}"),
            None => {
                let hash = self.hash;
                write!(f, "none {hash}")
            }
        }
    }
}
