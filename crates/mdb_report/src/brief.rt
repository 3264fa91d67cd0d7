//! A shard in one line, and totals.

ghost use Rattle.std.specs.Prelude.{◌≡◌, ◌⊎◌, ◌-◌, length, IfOk, MatchResult};
ghost use Rattle.xet_core_structures.specs.declared.error.CoreError.{CoreError};
ghost use Rattle.xet_core_structures.specs.declared.shard_format.MDBShardInfo.{MDBShardInfo as Info};
ghost use Rattle.xet_core_structures.specs.Ends.{HasHeaderAndFooter};
ghost use Rattle.xet_core_structures.specs.TwoShards.ByteResults.{LoadRefusal};
ghost use Rattle.mdb_report.specs.Brief.{SaysBriefly, IsCount, AddsTo, sum_if_known};

use crate::parts_bar::Parts;
use crate::summary::key_of;
use mdb_records::hex::Hex;
use mdb_records::moment::Moment;
use mdb_records::shown::ShownText;
use mdb_records::size::Size;
use serde::Serialize;
use shard_bytes::load::load_bytes;
use std::alloc::{AllocError, Global};
use std::fmt;
use xet_core_structures::error::Result;
use xet_core_structures::rows::ROW_SIZE;
use xet_core_structures::shard_format::MDBShardInfo;

/// What a shard's header and footer say, but for where its parts are.
///
/// Records are counted by the rows of tables. A count is unknown if the table has no rows and its
/// section has room for records.
#[derive(Drop, Serialize)]
pub struct Brief<'a> {
    /// The file's name.
    pub shard: &'a str,
    pub version: u64,
    pub bytes: u64,
    /// Whether the footer's offsets ascend within the file.
    pub ascends: bool,
    pub key: Option<Hex>,
    pub files: Option<u64>,
    pub xorbs: Option<u64>,
    pub chunks: Option<u64>,
    pub expires: Moment,
    /// The xorbs' bytes, unpacked.
    pub stored_bytes: u64,
    /// The files' bytes.
    pub materialized_bytes: u64,
}

impl<'a> Brief<'a> {
    /// The brief of the shard in these bytes. Fails as [`load_bytes`], or with `OutOfMemory`.
    pub fn of_bytes(alloc: Global, file: &'a str, bytes: &[u8]) -> Result<Brief<'a>>
        ensures { MatchResult result
            (λ brief. (info : Info) × HasHeaderAndFooter bytes.now info
            × SaysBriefly info file.now (length bytes.now) brief)
            (λ e. LoadRefusal bytes.now e ⊎ (e ≡ CoreError.OutOfMemory)) }
    {
        let info = load_bytes(alloc, bytes)?;
        Ok(Brief::of_info(alloc, file, &info, bytes.len() as u64)?)
    }

    /// The brief of a shard of so many bytes with this header and footer.
    pub fn of_info(
        alloc: Global,
        file: &'a str,
        info: &MDBShardInfo,
        bytes: u64,
    ) -> std::result::Result<Brief<'a>, AllocError>
        ensures { IfOk result (SaysBriefly info.now file.now bytes) }
    {
        let footer = &info.metadata;
        let (files, xorbs) = (footer.file_info_offset, footer.xorb_info_offset);
        let end = footer.file_lookup_offset;
        let xorb_rows = footer.xorb_lookup_num_entry;
        Ok(Brief {
            shard: file,
            version: info.header.version,
            bytes,
            ascends: Parts::of_shard(info, bytes).ascend(),
            key: key_of(info),
            files: count_of(footer.file_lookup_num_entry, files, xorbs, 0),
            xorbs: count_of(xorb_rows, xorbs, end, 0),
            chunks: count_of(footer.chunk_lookup_num_entry, xorbs, end, xorb_rows),
            expires: Moment::of_seconds(alloc, info.metadata.shard_key_expiry)?,
            stored_bytes: info.metadata.stored_bytes,
            materialized_bytes: info.metadata.materialized_bytes,
        })
    }
}

// `None` if the table has no rows, and its section room for one beside its bookend and `others`.
fn count_of(rows: u64, start: u64, end: u64, others: u64) -> Option<u64>
    ensures { IsCount rows (end - start) others result }
{
    let room = end.saturating_sub(start);
    let records = (room / ROW_SIZE as u64).saturating_sub(1);
    if rows == 0 && others < records {
        None
    } else {
        Some(rows)
    }
}

/// Sums over shards, which saturate; a sum is unknown if one of its counts is.
#[derive(Clone, Copy, Serialize)]
pub struct Total {
    pub shards: u64,
    pub bytes: u64,
    pub files: Option<u64>,
    pub xorbs: Option<u64>,
    pub chunks: Option<u64>,
    pub stored_bytes: u64,
    pub materialized_bytes: u64,
}

impl Total {
    /// The sums over no shards.
    pub const NONE: Total = Total {
        shards: 0,
        bytes: 0,
        files: Some(0),
        xorbs: Some(0),
        chunks: Some(0),
        stored_bytes: 0,
        materialized_bytes: 0,
    };

    /// Adds a shard.
    pub fn add(&mut self, shard: &Brief<'_>)
        ensures { AddsTo shard.now self.old self.new }
    {
        self.shards = self.shards.saturating_add(1);
        self.bytes = self.bytes.saturating_add(shard.bytes);
        self.files = sum_of(self.files, shard.files);
        self.xorbs = sum_of(self.xorbs, shard.xorbs);
        self.chunks = sum_of(self.chunks, shard.chunks);
        self.stored_bytes = self.stored_bytes.saturating_add(shard.stored_bytes);
        self.materialized_bytes = self
            .materialized_bytes
            .saturating_add(shard.materialized_bytes);
    }
}

fn sum_of(one: Option<u64>, other: Option<u64>) -> Option<u64>
    ensures { result ≡ sum_if_known one other }
{
    match (one, other) {
        (Some(one), Some(other)) => Some(one.saturating_add(other)),
        _ => None,
    }
}

#[derive(Clone, Copy)]
struct Counts {
    files: Option<u64>,
    xorbs: Option<u64>,
    chunks: Option<u64>,
}

impl fmt::Display for Counts {
    fn fmt<W: fmt::Write>(&self, f: &mut fmt::Formatter<W>) -> fmt::Result {
        let names = [
            ("files", self.files),
            ("xorbs", self.xorbs),
            ("chunks", self.chunks),
        ];
        for (name, count) in names {
            match count {
                Some(count) => write!(f, ", {name} {count}")?,
                None => write!(f, ", {name} unknown")?,
            }
        }
        Ok(())
    }
}

impl fmt::Display for Brief<'_> {
    fn fmt<W: fmt::Write>(&self, f: &mut fmt::Formatter<W>) -> fmt::Result {
        let shard = ShownText(self.shard);
        let version = self.version;
        let human = f.alternate();
        let unit = if human { "" } else { " bytes" };
        let bytes = Size::new(self.bytes, human);
        let stored = Size::new(self.stored_bytes, human);
        let materialized = Size::new(self.materialized_bytes, human);
        let counts = Counts {
            files: self.files,
            xorbs: self.xorbs,
            chunks: self.chunks,
        };
        let expires = &self.expires;
        write!(
            f,
            "{shard}: version {version}, {bytes}{unit}{counts}, stored {stored}, \
            materialized {materialized}, expires {expires}"
        )?;
        if let Some(key) = self.key {
            write!(f, ", key {key}")?;
        }
        if !self.ascends {
            f.write_str(", offsets do not ascend within the file")?;
        }
        Ok(())
    }
}

impl fmt::Display for Total {
    fn fmt<W: fmt::Write>(&self, f: &mut fmt::Formatter<W>) -> fmt::Result {
        let shards = self.shards;
        let human = f.alternate();
        let unit = if human { "" } else { " bytes" };
        let bytes = Size::new(self.bytes, human);
        let stored = Size::new(self.stored_bytes, human);
        let materialized = Size::new(self.materialized_bytes, human);
        let counts = Counts {
            files: self.files,
            xorbs: self.xorbs,
            chunks: self.chunks,
        };
        write!(
            f,
            "total: {shards} shards, {bytes}{unit}{counts}, stored {stored}, \
            materialized {materialized}"
        )
    }
}
