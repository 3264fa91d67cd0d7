//! The first shard that has a finding's record.

use crate::sections::{TakesFiles, TakesXorbs};
use mdb_garbage::finding::{GarbageFinding, Misfit};
use mdb_garbage::misfit::{start_misfit, total_misfit};
use mdb_garbage::range::HashRange;
use mdb_garbage::segments::Segments;
use std::alloc::{AllocError, Global};
use xet_core_structures::file_structs::MDBFileInfo;
use xet_core_structures::merklehash::MerkleHash;
use xet_core_structures::xorb_structs::MDBXorbInfo;

/// Ascending findings, and for each the number of the first shard with its segment or xorb.
#[derive(Drop)]
pub struct Origins<'f> {
    alloc: Global,
    findings: &'f [GarbageFinding],
    shards: Vec<Option<usize>>,
    /// How many have no number yet.
    pub left: usize,
    /// The number of the shard whose records are added.
    pub shard: usize,
}

impl<'f> Origins<'f> {
    /// Before any shard.
    pub fn new(alloc: Global, findings: &'f [GarbageFinding]) -> Result<Origins<'f>, AllocError> {
        let mut shards = Vec::new(alloc);
        for _ in findings {
            shards.push(None)?;
        }
        Ok(Origins {
            alloc,
            findings,
            shards,
            left: findings.len(),
            shard: 0,
        })
    }

    /// The number of a finding's first shard, if found.
    pub fn shard_of(&self, finding: usize) -> Option<usize> {
        self.shards.as_slice().get(finding).copied().unwrap_or(None)
    }

    // The shard has the record of a xorb's findings from one misfit to another.
    fn note(&mut self, xorb: MerkleHash, first: Misfit, last: Misfit) {
        let first = GarbageFinding {
            xorb,
            misfit: first,
        };
        let last = GarbageFinding { xorb, misfit: last };
        let start = self
            .findings
            .partition_point(|finding: &GarbageFinding| -> bool { *finding < first });
        let end = self
            .findings
            .partition_point(|finding: &GarbageFinding| -> bool { *finding <= last });
        for index in start..end {
            if let Some(shard) = self.shards.as_mut_slice().get_mut(index)
                && shard.is_none()
            {
                *shard = Some(self.shard);
                self.left = self.left.saturating_sub(1);
            }
        }
    }

    fn note_one(&mut self, xorb: MerkleHash, misfit: Misfit) {
        self.note(xorb, misfit, misfit);
    }
}

impl TakesFiles for Origins<'_> {
    fn take_file(&mut self, file: &MDBFileInfo) -> Result<(), AllocError> {
        let mut segments = Segments::new(self.alloc, HashRange::all());
        segments.add_file(file)?;
        for segment in &segments.items {
            let xorb = segment.xorb;
            self.note_one(xorb, Misfit::Lacking(*segment));
            self.note(
                xorb,
                Misfit::Outside(*segment, 0),
                Misfit::Outside(*segment, usize::MAX),
            );
            self.note(
                xorb,
                Misfit::Bytes(*segment, 0),
                Misfit::Bytes(*segment, u64::MAX),
            );
        }
        Ok(())
    }
}

impl TakesXorbs for Origins<'_> {
    fn take_xorb(&mut self, xorb: &MDBXorbInfo) -> Result<(), AllocError> {
        let hash = xorb.metadata.xorb_hash;
        let misfits = [
            Some(Misfit::Unnamed),
            total_misfit(xorb),
            start_misfit(xorb),
        ];
        for misfit in misfits {
            if let Some(misfit) = misfit {
                self.note_one(hash, misfit);
            }
        }
        Ok(())
    }
}
