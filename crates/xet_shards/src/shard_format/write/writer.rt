//! Writing the records of a shard in memory.

ghost use Rattle.std.specs.Prelude.{◌≡◌, ◌≤◌, None, All, OnOk, IfOk, IfErr, map};
ghost use Rattle.std.specs.Io.KnownBytes.{Appends};
ghost use Rattle.std.specs.BTreeMap.{values};
ghost use Rattle.xet_base.specs.Errors.{IsWriteError};
ghost use Rattle.xet_records.specs.Limits.{MAX_ROWS};
ghost use Rattle.xet_shards.specs.Content.Shard.{IsShard};
ghost use Rattle.xet_shards.specs.Write.Layout.{layout};
ghost use Rattle.xet_shards.specs.Write.Section.{total_rows, section_bytes};

use super::written::WrittenSection;
use crate::shard_format::ends::info::MDBShardInfo;
use crate::shard_in_memory::MDBInMemoryShard;
use std::alloc::Global;
use std::collections::BTreeMap;
use std::io::Write;
use std::rc::Rc;
use xet_base::error::{CoreError, Result};
use xet_base::merklehash::MerkleHash;
use xet_records::file_structs::MDBFileInfo;
use xet_records::xorb_structs::MDBXorbInfo;

impl MDBInMemoryShard {
    /// The bytes of the shard, without expiry: `shard_file_size` of them. `OutOfMemory` if an
    /// allocation fails.
    pub fn to_bytes(&self, alloc: Global) -> Result<Vec<u8>>
        ensures ok { IfOk result (λ bytes. bytes.items ≡ layout self.now.content None) }
        ensures shard { IfOk result (λ _. IsShard self.now.content) }
        ensures causes { IfErr result (λ e. e ≡ CoreError.OutOfMemory) }
    {
        let mut bytes = Vec::new(alloc);
        match MDBShardInfo::serialize_from(alloc, &mut bytes, self, None) {
            Ok(_) => Ok(bytes),
            // Writing to a vector fails only if it is out of memory.
            Err(_) => Err(CoreError::OutOfMemory),
        }
    }
}

/// A record, or an `Rc` of one.
pub trait HoldsRecord<R> {
    ghost held: { Self → R };

    fn record(&self) -> &R
        ensures { result.now ≡ held self.now };
}

impl HoldsRecord<MDBFileInfo> for MDBFileInfo {
    ghost held = { λ file_info. file_info };

    fn record(&self) -> &MDBFileInfo {
        self
    }
}

impl HoldsRecord<MDBXorbInfo> for MDBXorbInfo {
    ghost held = { λ xorb. xorb };

    fn record(&self) -> &MDBXorbInfo {
        self
    }
}

impl HoldsRecord<MDBXorbInfo> for Rc<MDBXorbInfo> {
    ghost held = { λ owner. owner.value };

    fn record(&self) -> &MDBXorbInfo {
        self
    }
}

/// Writes a section of a map's records, in the order of their hashes.
#[tactic(auto, unfolding(crate::specs::Write::Section::section_bytes))]
pub fn write_values<S: WrittenSection + Drop, V: HoldsRecord<S::Record>, W: Write>(
    alloc: Global,
    writer: &mut W,
    records: &BTreeMap<MerkleHash, V>,
) -> Result<S>
    requires whole { All S.is_whole (map V.held (values records.now)) }
    requires rows { total_rows S.Record.kind (map V.held (values records.now)) ≤ MAX_ROWS }
    ensures bytes { OnOk result
        (Appends (W.contents writer.old) (W.contents writer.new)
        (section_bytes S.Record.kind (map V.held (values records.now)))) }
    ensures written { IfOk result
        (λ written. S.has_written written (map V.held (values records.now))) }
    ensures causes { IfErr result IsWriteError }
{
    let mut written = S::new(alloc);
    for value in records.values() {
        written.write(writer, value.record())?;
    }
    S::write_bookend(writer)?;
    Ok(written)
}
