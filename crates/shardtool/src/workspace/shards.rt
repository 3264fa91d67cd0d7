//! Making shards, and adding records to them.

ghost use Rattle.std.specs.Prelude.{◌≡◌, ◌↔◌, OnOk, OnErr, IfErr, IsErrOf};
ghost use Rattle.std.specs.BTreeMap.{IsUnchanged};
ghost use Rattle.shardtool.specs.Naming.{IsKnown, IsUnknown};
ghost use Rattle.shardtool.specs.ScriptEnds.{IsRefused};

use super::Workspace;
use crate::stop::Stop;
use std::alloc::Global;
use xet_core_structures::file_structs::MDBFileInfo;
use xet_core_structures::shard_in_memory::MDBInMemoryShard;
use xet_core_structures::xorb_structs::MDBXorbInfo;

impl Workspace {
    pub(super) fn make_shard(&mut self, alloc: Global, name: &str) -> Result<(), Stop>
        ensures made { OnOk result (IsKnown self.new.shards name.now) }
        ensures err { OnErr result (IsUnchanged self.old.shards self.new.shards) }
        ensures causes { IfErr result IsRefused }
        ensures buffers { self.new.buffers ≡ self.old.buffers }
    {
        let name = String::from_str(alloc, name)?;
        self.shards.insert(name, MDBInMemoryShard::new(alloc))?;
        Ok(())
    }

    pub(super) fn add_xorb(
        &mut self,
        alloc: Global,
        shard: &str,
        xorb: MDBXorbInfo,
    ) -> Result<(), Stop>
        ensures unknown { IsErrOf result Stop.Unreadable ↔ IsUnknown self.old.shards shard.now }
        ensures buffers { self.new.buffers ≡ self.old.buffers }
    {
        let Some(shard) = self.shards.get_mut(shard) else {
            return Err(Stop::Unreadable);
        };
        shard.add_xorb_block(alloc, xorb)?;
        Ok(())
    }

    pub(super) fn add_file(
        &mut self,
        alloc: Global,
        name: &str,
        file: MDBFileInfo,
    ) -> Result<(), Stop>
        ensures unknown { IsErrOf result Stop.Unreadable ↔ IsUnknown self.old.shards name.now }
        ensures buffers { self.new.buffers ≡ self.old.buffers }
    {
        let Some(shard) = self.shards.get_mut(name) else {
            return Err(Stop::Unreadable);
        };
        shard.add_file_reconstruction_info(alloc, file)?;
        Ok(())
    }
}
