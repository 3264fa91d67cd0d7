//! What lookups and queries find.

ghost use Rattle.std.specs.Prelude.{◌≡◌, None, IfOk, IfSome, IsNone, MatchResult, OnOk, option_map};
ghost use Rattle.xet_core_structures.specs.FileRecord.{FitsItsHeader};
ghost use Rattle.xet_core_structures.specs.RunReading.{QueryRefused};
ghost use Rattle.xet_core_structures.specs.Source.{NoFailure};
ghost use Rattle.shard_bytes.specs.Query.{RefusesQuery};
ghost use Rattle.mdb_report.specs.Lookups.{FindsIn, FindFileFails, ReportsLookup, ReportsFinding, ReportsQuery, ReportsRun, LookupFails, run_of};

use crate::counting::CountingSource;
use mdb_records::hex::Hex;
use mdb_records::records::{FileReport, SegmentReport};
use serde::Serialize;
use shard_bytes::query::query_chunks;
use std::alloc::Global;
use std::fmt;
use xet_core_structures::error::Result;
use xet_core_structures::file_structs::{FileDataSequenceEntry, MDBFileInfo};
use xet_core_structures::merklehash::MerkleHash;
use xet_core_structures::shard_format::MDBShardInfo;
use xet_core_structures::source::{MemorySource, ShardSource};

/// What a lookup of a file found.
#[derive(Drop, Serialize)]
pub struct FoundReport {
    /// The hash looked up.
    pub hash: Hex,
    pub found: Option<FileReport>,
    #[serde(skip_serializing_if = "Option::is_none")]
    pub costs: Option<Costs>,
}

/// A lookup's seeks and bytes read, without those of header and footer.
#[derive(Clone, Copy, Serialize)]
pub struct Costs {
    pub seeks: u64,
    pub bytes_read: u64,
}

impl FoundReport {
    /// The report of a lookup that found nothing, without its costs.
    pub fn nothing(hash: MerkleHash) -> FoundReport
        ensures hash { result.hash.0 ≡ hash }
        ensures found { IsNone result.found }
        ensures costs { result.costs ≡ None }
    {
        FoundReport {
            hash: Hex(hash),
            found: None,
            costs: None,
        }
    }

    /// Looks up a file in a shard's bytes.
    ///
    /// Fails as [`MDBShardInfo::load_from_reader`] or
    /// [`MDBShardInfo::get_file_reconstruction_info`].
    pub fn of_lookup(
        alloc: Global,
        bytes: &[u8],
        hash: MerkleHash,
        with_costs: bool,
    ) -> Result<FoundReport>
        ensures { MatchResult result (ReportsLookup bytes.now hash with_costs)
            (LookupFails bytes.now hash) }
    {
        let mut source = CountingSource::new(MemorySource::new(bytes));
        let info = MDBShardInfo::load_from_reader(alloc, &mut source)?;
        FoundReport::in_source(alloc, &info, &mut source, hash, with_costs)
    }

    /// Looks up a file in a source of a shard with this header and footer.
    ///
    /// Fails as [`MDBShardInfo::get_file_reconstruction_info`], or with `OutOfMemory`.
    pub fn in_source<S: ShardSource>(
        alloc: Global,
        info: &MDBShardInfo,
        source: &mut CountingSource<S>,
        hash: MerkleHash,
        with_costs: bool,
    ) -> Result<FoundReport>
        ensures { MatchResult result (ReportsFinding info.now hash with_costs
            (S.meaning source.old.source) (S.meaning source.new.source))
            (FindFileFails info.now hash (S.meaning source.old.source)
            (S.meaning source.new.source)) }
    {
        let (file, costs) = find_in(alloc, info, source, &hash)?;
        let found = match file {
            Some(file) => Some(FileReport::of_file(alloc, &file, true)?),
            None => None,
        };
        Ok(FoundReport {
            hash: Hex(hash),
            found,
            costs: if with_costs { Some(costs) } else { None },
        })
    }
}

fn find_in<S: ShardSource>(
    alloc: Global,
    info: &MDBShardInfo,
    source: &mut CountingSource<S>,
    hash: &MerkleHash,
) -> Result<(Option<MDBFileInfo>, Costs)>
    ensures finds { MatchResult result (λ found. FindsIn info.now hash.now
        (S.meaning source.old.source) (S.meaning source.new.source) found.0 found.1)
        (FindFileFails info.now hash.now (S.meaning source.old.source)
        (S.meaning source.new.source)) }
    ensures fits { IfOk result (λ found. IfSome found.0 FitsItsHeader) }
    ensures no_failure { OnOk result (NoFailure (S.meaning source.old.source)
        (S.meaning source.new.source)) }
{
    let seeks = source.seeks();
    let read = source.bytes_read();
    let found = info.get_file_reconstruction_info(alloc, source, hash)?;
    let costs = Costs {
        seeks: source.seeks().saturating_sub(seeks),
        bytes_read: source.bytes_read().saturating_sub(read),
    };
    Ok((found, costs))
}

impl fmt::Display for FoundReport {
    fn fmt<W: fmt::Write>(&self, f: &mut fmt::Formatter<W>) -> fmt::Result {
        match &self.found {
            Some(file) => write!(f, "{file}")?,
            None => {
                let hash = self.hash;
                write!(f, "none {hash}")?;
            }
        }
        if let Some(Costs { seeks, bytes_read }) = self.costs {
            write!(f, "\n  seeks {seeks} bytes read {bytes_read}")?;
        }
        Ok(())
    }
}

/// The run that a query found.
#[derive(Drop, Serialize)]
pub struct RunReport {
    pub run: Option<Run>,
}

/// How many queried chunks, from the first on, a xorb has in a row.
#[derive(Drop, Serialize)]
pub struct Run {
    pub chunks: usize,
    pub segment: SegmentReport,
}

impl RunReport {
    /// Looks for a run of these chunks in a shard's bytes. Fails as [`query_chunks`].
    pub fn of_query(alloc: Global, bytes: &[u8], hashes: &[MerkleHash]) -> Result<RunReport>
        ensures { MatchResult result (ReportsQuery bytes.now hashes.now)
            (RefusesQuery bytes.now hashes.now) }
    {
        Ok(RunReport::of_answer(query_chunks(alloc, bytes, hashes)?))
    }

    /// Looks for a run of these chunks in a source of a shard with this header and footer.
    ///
    /// Fails as [`MDBShardInfo::chunk_hash_dedup_query`].
    pub fn in_source<S: ShardSource>(
        alloc: Global,
        info: &MDBShardInfo,
        source: &mut S,
        hashes: &[MerkleHash],
    ) -> Result<RunReport>
        ensures { MatchResult result (ReportsRun info.now hashes.now
            (S.meaning source.old) (S.meaning source.new))
            (QueryRefused info.now.metadata hashes.now (S.meaning source.old)
            (S.meaning source.new)) }
    {
        let answer = info.chunk_hash_dedup_query(alloc, source, hashes)?;
        Ok(RunReport::of_answer(answer))
    }

    fn of_answer(answer: Option<(usize, FileDataSequenceEntry)>) -> RunReport
        ensures { result.run ≡ option_map run_of answer }
    {
        let run = match answer {
            Some((chunks, segment)) => Some(Run {
                chunks,
                segment: SegmentReport::of_segment(&segment),
            }),
            None => None,
        };
        RunReport { run }
    }
}

impl fmt::Display for RunReport {
    fn fmt<W: fmt::Write>(&self, f: &mut fmt::Formatter<W>) -> fmt::Result {
        match &self.run {
            Some(Run { chunks, segment }) => write!(f, "run {chunks} {segment}"),
            None => f.write_str("none"),
        }
    }
}
