//! Making buffers, from shards and from other buffers.

ghost use Rattle.std.specs.Prelude.{◌≡◌, ◌⊎◌, ◌↔◌, IfOk, OnOk, OnErr, IfErr, IsErrOf, IsErrAnd, Some};
ghost use Rattle.std.specs.BTreeMap.{get_by_text, IsUnchanged};
ghost use Rattle.std.specs.Option.{option_map};
ghost use Rattle.shardtool.specs.ScriptEnds.{IsRefused};
ghost use Rattle.shardtool.specs.Naming.{IsKnown, IsUnknown};
ghost use Rattle.shardtool.specs.NamedTrees.{bytes_under, HasUnknown, StopsAtUnknown};

use super::Workspace;
use crate::merge::merge_buffers;
use crate::stop::Stop;
use crate::write::written_bytes;
use script_lines::tree::NameTree;
use shard_bytes::combine::{Operation, combine_bytes};
use shard_bytes::export::{Export, export_bytes};
use shard_bytes::minimal::{Subset, minimal_bytes, subset_bytes};
use std::alloc::Global;
use xet_core_structures::file_structs::KeptParts;
use xet_core_structures::record_reader::FormatVersion;

impl Workspace {
    // The buffer is replaced only after the shard is written, so an error leaves it unchanged.
    pub(super) fn write_shard(
        &mut self,
        alloc: Global,
        version: FormatVersion,
        shard: &str,
        buffer: &str,
        expiry: Option<u64>,
    ) -> Result<(), Stop>
        ensures unknown { IsErrOf result Stop.Unreadable ↔ IsUnknown self.old.shards shard.now }
        ensures made { OnOk result (IsKnown self.new.buffers buffer.now) }
        ensures err { OnErr result (IsUnchanged self.old.buffers self.new.buffers) }
        ensures shards { self.new.shards ≡ self.old.shards }
    {
        let Some(shard) = self.shards.get(shard) else {
            return Err(Stop::Unreadable);
        };
        let bytes = written_bytes(alloc, version, shard, expiry)?;
        self.keep(alloc, buffer, bytes)
    }

    pub(super) fn combine(
        &mut self,
        alloc: Global,
        operation: Operation,
        first: &str,
        second: &str,
        buffer: &str,
    ) -> Result<(), Stop>
        ensures unknown { IsErrOf result Stop.Unreadable
            ↔ (IsUnknown self.old.buffers first.now
            ⊎ IsUnknown self.old.buffers second.now) }
        ensures made { OnOk result (IsKnown self.new.buffers buffer.now) }
        ensures err { OnErr result (IsUnchanged self.old.buffers self.new.buffers) }
        ensures shards { self.new.shards ≡ self.old.shards }
    {
        let bytes = combine_bytes(
            alloc,
            operation,
            self.buffer_bytes(first)?,
            self.buffer_bytes(second)?,
            FormatVersion::V3,
        )?;
        self.keep(alloc, buffer, bytes)
    }

    pub(super) fn merge(
        &mut self,
        alloc: Global,
        buffer: &str,
        tree: &NameTree<'_>,
    ) -> Result<(), Stop>
        ensures unreadable { IsErrOf result Stop.Unreadable
            → HasUnknown (bytes_under self.old.buffers) tree.now }
        ensures unknown { HasUnknown (bytes_under self.old.buffers) tree.now
            → IsErrAnd result StopsAtUnknown }
        ensures made { OnOk result (IsKnown self.new.buffers buffer.now) }
        ensures err { OnErr result (IsUnchanged self.old.buffers self.new.buffers) }
        ensures shards { self.new.shards ≡ self.old.shards }
    {
        let bytes = merge_buffers(alloc, tree, &self.buffers)?;
        self.keep(alloc, buffer, bytes)
    }

    pub(super) fn export(
        &mut self,
        alloc: Global,
        from: &str,
        buffer: &str,
        export: &Export,
    ) -> Result<(), Stop>
        ensures unknown { IsErrOf result Stop.Unreadable ↔ IsUnknown self.old.buffers from.now }
        ensures made { OnOk result (IsKnown self.new.buffers buffer.now) }
        ensures err { OnErr result (IsUnchanged self.old.buffers self.new.buffers) }
        ensures shards { self.new.shards ≡ self.old.shards }
    {
        let bytes = export_bytes(alloc, self.buffer_bytes(from)?, export, FormatVersion::V3)?;
        self.keep(alloc, buffer, bytes)
    }

    pub(super) fn write_minimal(
        &mut self,
        alloc: Global,
        from: &str,
        buffer: &str,
        now: u64,
        kept: KeptParts,
    ) -> Result<(), Stop>
        ensures unknown { IsErrOf result Stop.Unreadable ↔ IsUnknown self.old.buffers from.now }
        ensures made { OnOk result (IsKnown self.new.buffers buffer.now) }
        ensures err { OnErr result (IsUnchanged self.old.buffers self.new.buffers) }
        ensures shards { self.new.shards ≡ self.old.shards }
    {
        let bytes = minimal_bytes(
            alloc,
            self.buffer_bytes(from)?,
            now,
            kept,
            FormatVersion::V3,
        )?;
        self.keep(alloc, buffer, bytes)
    }

    pub(super) fn write_subset(
        &mut self,
        alloc: Global,
        from: &str,
        buffer: &str,
        subset: &Subset,
    ) -> Result<(), Stop>
        ensures made { OnOk result (IsKnown self.new.buffers buffer.now) }
        ensures err { OnErr result (IsUnchanged self.old.buffers self.new.buffers) }
        ensures shards { self.new.shards ≡ self.old.shards }
        ensures unknown { IsErrOf result Stop.Unreadable ↔ IsUnknown self.old.buffers from.now }
    {
        let bytes = subset_bytes(alloc, self.buffer_bytes(from)?, subset, FormatVersion::V3)?;
        self.keep(alloc, buffer, bytes)
    }

    // Keeps bytes as a buffer, in place of the one that has the name.
    pub(super) fn keep(&mut self, alloc: Global, buffer: &str, bytes: Vec<u8>) -> Result<(), Stop>
        ensures made { OnOk result
            (option_map (λ b. b.items) (get_by_text self.new.buffers buffer.now)
            ≡ Some bytes.items) }
        ensures err { OnErr result (IsUnchanged self.old.buffers self.new.buffers) }
        ensures causes { IfErr result IsRefused }
        ensures shards { self.new.shards ≡ self.old.shards }
    {
        let name = String::from_str(alloc, buffer)?;
        self.buffers.insert(name, bytes)?;
        Ok(())
    }

    pub(super) fn buffer_bytes(&self, buffer: &str) -> Result<&[u8], Stop>
        ensures unknown { IsErrOf result Stop.Unreadable ↔ IsUnknown self.now.buffers buffer.now }
        ensures causes { IfErr result (λ e. e ≡ Stop.Unreadable) }
        ensures found { IfOk result
            (λ bytes. option_map (λ b. b.items) (get_by_text self.now.buffers buffer.now)
            ≡ Some bytes.now) }
    {
        match self.buffers.get(buffer) {
            Some(bytes) => Ok(bytes.as_slice()),
            None => Err(Stop::Unreadable),
        }
    }
}
