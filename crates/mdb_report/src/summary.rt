//! The summary of a shard.

ghost use Rattle.std.specs.Prelude.{◌≡◌, ◌⊎◌, length, IfOk, MatchResult};
ghost use Rattle.xet_core_structures.specs.declared.error.CoreError.{CoreError};
ghost use Rattle.xet_core_structures.specs.declared.shard_format.MDBShardInfo.{MDBShardInfo as Info};
ghost use Rattle.xet_core_structures.specs.Ends.{HasHeaderAndFooter};
ghost use Rattle.xet_core_structures.specs.TwoShards.ByteResults.{LoadRefusal};
ghost use Rattle.mdb_report.specs.Summary.{Summarizes, key_in};

use crate::parts_bar::{LEGEND, Parts, bar_of};
use mdb_records::hex::Hex;
use mdb_records::moment::Moment;
use mdb_records::shown::ShownText;
use mdb_records::size::Size;
use serde::Serialize;
use shard_bytes::load::load_bytes;
use std::alloc::{AllocError, Global};
use std::fmt;
use xet_core_structures::error::Result;
use xet_core_structures::shard_format::MDBShardInfo;

/// What a shard's header and footer say.
#[derive(Drop, Serialize)]
pub struct Summary<'a> {
    /// The file's name.
    pub shard: &'a str,
    pub bytes: u64,
    pub version: u64,
    /// Whether the footer's offsets ascend within the file.
    pub ascends: bool,
    pub parts: Parts,
    pub key: Option<Hex>,
    pub created: Moment,
    pub expires: Moment,
    /// The xorbs' bytes, unpacked.
    pub stored_bytes: u64,
    /// The xorbs' bytes, as stored.
    pub stored_bytes_on_disk: u64,
    /// The files' bytes.
    pub materialized_bytes: u64,
    pub bar: String,
}

impl<'a> Summary<'a> {
    /// The summary of the shard in these bytes. Fails as [`load_bytes`], or with `OutOfMemory`.
    pub fn of_bytes(alloc: Global, file: &'a str, bytes: &[u8]) -> Result<Summary<'a>>
        ensures { MatchResult result
            (λ summary. (info : Info) × HasHeaderAndFooter bytes.now info
            × Summarizes info file.now (length bytes.now) summary)
            (λ e. LoadRefusal bytes.now e ⊎ (e ≡ CoreError.OutOfMemory)) }
    {
        let info = load_bytes(alloc, bytes)?;
        Ok(Summary::of_info(alloc, file, &info, bytes.len() as u64)?)
    }

    /// The summary of a shard of so many bytes with this header and footer.
    pub fn of_info(
        alloc: Global,
        file: &'a str,
        info: &MDBShardInfo,
        bytes: u64,
    ) -> std::result::Result<Summary<'a>, AllocError>
        ensures { IfOk result (Summarizes info.now file.now bytes) }
    {
        let parts = Parts::of_shard(info, bytes);
        let footer = info.metadata;
        Ok(Summary {
            shard: file,
            bytes,
            version: info.header.version,
            ascends: parts.ascend(),
            parts,
            key: key_of(info),
            created: Moment::of_seconds(alloc, footer.shard_creation_timestamp)?,
            expires: Moment::of_seconds(alloc, footer.shard_key_expiry)?,
            stored_bytes: footer.stored_bytes,
            stored_bytes_on_disk: footer.stored_bytes_on_disk,
            materialized_bytes: footer.materialized_bytes,
            bar: bar_of(alloc, &parts, bytes)?,
        })
    }
}

pub(crate) fn key_of(info: &MDBShardInfo) -> Option<Hex>
    ensures { result ≡ key_in info.now }
{
    info.chunk_hmac_key().map(|key| Hex(key))
}

impl fmt::Display for Summary<'_> {
    fn fmt<W: fmt::Write>(&self, f: &mut fmt::Formatter<W>) -> fmt::Result {
        let human = f.alternate();
        let unit = if human { "" } else { " bytes" };
        let shard = ShownText(self.shard);
        let version = self.version;
        let bytes = Size::new(self.bytes, human);
        let parts = PartLines(&self.parts);
        write!(f, "{shard}: version {version}, {bytes}{unit}{parts}")?;
        if !self.ascends {
            f.write_str("\n  offsets      do not ascend within the file")?;
        }
        match self.key {
            Some(key) => write!(f, "\n  key          {key}")?,
            None => f.write_str("\n  key          none")?,
        }
        let created = &self.created;
        let expires = &self.expires;
        let stored = Size::new(self.stored_bytes, human);
        let on_disk = Size::new(self.stored_bytes_on_disk, human);
        let materialized = Size::new(self.materialized_bytes, human);
        let bar = &self.bar;
        write!(
            f,
            "\n  created      {created}\
             \n  expires      {expires}\
             \n  stored       {stored}{unit}, {on_disk} on disk\
             \n  materialized {materialized}{unit}\
             \n  {bar}\
             \n  {LEGEND}"
        )
    }
}

#[derive(Drop)]
struct PartLines<'a>(&'a Parts);

impl fmt::Display for PartLines<'_> {
    fn fmt<W: fmt::Write>(&self, f: &mut fmt::Formatter<W>) -> fmt::Result {
        let Parts {
            header,
            files,
            xorbs,
            file_table,
            xorb_table,
            chunk_table,
            footer,
        } = *self.0;
        write!(
            f,
            "\n  header       {header}\
             \n  files        {files}\
             \n  xorbs        {xorbs}\
             \n  file table   {file_table}\
             \n  xorb table   {xorb_table}\
             \n  chunk table  {chunk_table}\
             \n  footer       {footer}"
        )
    }
}
