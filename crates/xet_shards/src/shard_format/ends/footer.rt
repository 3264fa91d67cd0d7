//! The last 200 bytes of a shard.

ghost use Rattle.std.specs.Prelude.{◌≡◌, ◌≢◌, ◌⊎◌, ℕ, ◌+◌, ◌*◌, ◌≤◌, List, [], ◌∷◌, ◌++◌, length, take, drop, flat_map, Some, OnOk, IfOk, IfErr};
ghost use Rattle.std.specs.Io.KnownBytes.{Appends, Consumes};
ghost use Rattle.xet_base.specs.Bytes.{u64_bytes};
ghost use Rattle.xet_base.specs.Errors.{IsBareShardVersion, IsDeviceError, IsWriteError};
ghost use Rattle.xet_shards.specs.Ends.Ends.{HasUnsupportedFooter, EndsInFooter, FitsFooter, SaysUnsupported, SaysEndOfInput};
ghost use Rattle.xet_shards.specs.Write.Layout.{shard_footer_bytes, default_footer};

use crate::shard_format::FOOTER_SIZE;
use std::alloc::Global;
use std::io::{Read, Write};
use xet_base::error::{CoreError, Result};
use xet_base::fields::{put_hash, put_u64, split_hash, split_u64, split_u64s};
use xet_base::merklehash::HMACKey;
use xet_base::serialization_utils::{read_bytes, write_bytes};

const MDB_SHARD_FOOTER_VERSION: u64 = 1;

/// The size of a footer after its version, in bytes.
pub(super) const AFTER_VERSION: usize = FOOTER_SIZE as usize - 8;

/// The footer of a shard. Offsets are in bytes from the shard's start, sizes in bytes, timestamps
/// in seconds.
#[derive(Clone, Copy, Debug, PartialEq, Eq)]
pub struct MDBShardFileFooter {
    pub version: u64,
    pub file_info_offset: u64,
    pub xorb_info_offset: u64,
    pub file_lookup_offset: u64,
    pub file_lookup_num_entry: u64,
    pub xorb_lookup_offset: u64,
    pub xorb_lookup_num_entry: u64,
    pub chunk_lookup_offset: u64,
    pub chunk_lookup_num_entry: u64,
    /// All zero if the chunk hashes are not keyed.
    pub chunk_hash_hmac_key: HMACKey,
    pub shard_creation_timestamp: u64,
    /// The shard is not valid after it; `u64::MAX` for no expiry, 0 in a minimal shard without one.
    pub shard_key_expiry: u64,
    pub _buffer: [u64; 6],
    pub stored_bytes_on_disk: u64,
    pub materialized_bytes: u64,
    pub stored_bytes: u64,
    pub footer_offset: u64,
}

impl Default for MDBShardFileFooter {
    ghost is_default = { λ f. f ≡ default_footer };

    fn default() -> Self {
        MDBShardFileFooter {
            version: MDB_SHARD_FOOTER_VERSION,
            file_info_offset: 0,
            xorb_info_offset: 0,
            file_lookup_offset: 0,
            file_lookup_num_entry: 0,
            xorb_lookup_offset: 0,
            xorb_lookup_num_entry: 0,
            chunk_lookup_offset: 0,
            chunk_lookup_num_entry: 0,
            chunk_hash_hmac_key: HMACKey::default(),
            shard_creation_timestamp: 0,
            shard_key_expiry: u64::MAX,
            _buffer: [0; 6],
            stored_bytes_on_disk: 0,
            materialized_bytes: 0,
            stored_bytes: 0,
            footer_offset: 0,
        }
    }
}

impl MDBShardFileFooter {
    /// The bytes of the footer.
    #[tactic(auto, unfolding(crate::specs::Write::Layout::shard_footer_bytes))]
    pub fn to_bytes(&self) -> [u8; FOOTER_SIZE as usize]
        ensures { result ≡ shard_footer_bytes self.now }
    {
        let offsets = [
            self.version,
            self.file_info_offset,
            self.xorb_info_offset,
            self.file_lookup_offset,
            self.file_lookup_num_entry,
            self.xorb_lookup_offset,
            self.xorb_lookup_num_entry,
            self.chunk_lookup_offset,
            self.chunk_lookup_num_entry,
        ];
        let timestamps = [self.shard_creation_timestamp, self.shard_key_expiry];
        let sums = [
            self.stored_bytes_on_disk,
            self.materialized_bytes,
            self.stored_bytes,
            self.footer_offset,
        ];
        let mut bytes = [0u8; FOOTER_SIZE as usize];
        let at = put_u64s(&mut bytes, 0, &offsets);
        let at = put_hash(&mut bytes, at, &self.chunk_hash_hmac_key);
        let at = put_u64s(&mut bytes, at, &timestamps);
        let at = put_u64s(&mut bytes, at, &self._buffer);
        put_u64s(&mut bytes, at, &sums);
        bytes
    }

    /// Writes the footer and returns its size, 200. The error is the writer's.
    pub fn serialize<W: Write>(&self, writer: &mut W) -> Result<usize>
        ensures bytes { OnOk result
            (Appends (W.contents writer.old) (W.contents writer.new)
            (shard_footer_bytes self.now)) }
        ensures count { IfOk result (λ n. n ≡ 200) }
        ensures causes { IfErr result IsWriteError }
    {
        write_bytes(writer, &self.to_bytes())?;
        Ok(FOOTER_SIZE as usize)
    }

    /// Reads the footer. `ShardVersion` if the version, checked after 8 bytes, is not 1; else
    /// `UnexpectedEof` if bytes are missing; or the reader's error.
    pub fn deserialize<R: Read>(alloc: Global, reader: &mut R) -> Result<Self>
        ensures bytes { IfOk result
            (λ f. Consumes (R.remaining reader.old) (R.remaining reader.new)
            (shard_footer_bytes f)) }
        ensures version { IfOk result (λ f. f.version ≡ 1) }
        ensures widths { IfOk result FitsFooter }
        ensures again { (f : MDBShardFileFooter) → (rest : List ℕ) → f.version ≡ 1 → FitsFooter f
            → R.remaining reader.old ≡ Some (shard_footer_bytes f ++ rest)
            → IfOk result (λ found. (found ≡ f) × (R.remaining reader.new ≡ Some rest)) }
        ensures unsupported { IfErr result
            (SaysUnsupported HasUnsupportedFooter (R.remaining reader.old)) }
        ensures end { IfErr result (SaysEndOfInput EndsInFooter (R.remaining reader.old)) }
        ensures causes { IfErr result (λ e. IsDeviceError e ⊎ IsBareShardVersion e) }
    {
        let mut version = [0u8; 8];
        read_bytes(reader, &mut version)?;
        check_version(alloc, &version)?;
        let mut rest = [0u8; AFTER_VERSION];
        read_bytes(reader, &mut rest)?;
        Ok(MDBShardFileFooter::after_version(&rest))
    }

    // The footer with these bytes after its version, 1.
    #[tactic(auto, unfolding(crate::specs::Write::Layout::shard_footer_bytes))]
    pub(in crate::shard_format) fn after_version(rest: &[u8; AFTER_VERSION]) -> Self
        ensures version { result.version ≡ 1 }
        ensures bytes { shard_footer_bytes result ≡ u64_bytes 1 ++ rest.now }
        ensures widths { FitsFooter result }
    {
        let mut offsets = [0u64; 8];
        let rest = split_u64s(rest, &mut offsets);
        let (chunk_hash_hmac_key, rest) = split_hash(rest);
        let mut timestamps = [0u64; 2];
        let rest = split_u64s(rest, &mut timestamps);
        let mut _buffer = [0u64; 6];
        let rest = split_u64s(rest, &mut _buffer);
        let mut sums = [0u64; 4];
        split_u64s(rest, &mut sums);
        let footer = MDBShardFileFooter {
            version: MDB_SHARD_FOOTER_VERSION,
            file_info_offset: offsets[0],
            xorb_info_offset: offsets[1],
            file_lookup_offset: offsets[2],
            file_lookup_num_entry: offsets[3],
            xorb_lookup_offset: offsets[4],
            xorb_lookup_num_entry: offsets[5],
            chunk_lookup_offset: offsets[6],
            chunk_lookup_num_entry: offsets[7],
            chunk_hash_hmac_key,
            shard_creation_timestamp: timestamps[0],
            shard_key_expiry: timestamps[1],
            _buffer,
            stored_bytes_on_disk: sums[0],
            materialized_bytes: sums[1],
            stored_bytes: sums[2],
            footer_offset: sums[3],
        };
        footer.widths();
        footer
    }

    // Called for its contract alone.
    pub(in crate::shard_format) fn widths(self)
        ensures { FitsFooter self }
    {
        six_words(self._buffer);
    }
}

// Returns the offset after the numbers.
fn put_u64s(out: &mut [u8], at: usize, values: &[u64]) -> usize
    requires { at + 8 * length values.now ≤ length out.old }
    ensures end { result ≡ at + 8 * length values.now }
    ensures front { take result out.new ≡ take at out.old ++ flat_map u64_bytes values.now }
    ensures rest { drop result out.new ≡ drop result out.old }
{
    let mut end = at;
    for value in values {
        end = put_u64(out, end, *value);
    }
    end
}

// Called for its contract alone.
fn six_words(words: [u64; 6]) -> (u64, u64, u64, u64, u64, u64)
    ensures { words ≡ result.0 ∷ result.1 ∷ result.2 ∷ result.3 ∷ result.4 ∷ result.5 ∷ [] }
{
    let [a, b, c, d, e, f] = words;
    (a, b, c, d, e, f)
}

// `ShardVersion` if the version is not 1.
pub(in crate::shard_format) fn check_version(alloc: Global, version: &[u8; 8]) -> Result<()>
    ensures ok { OnOk result (version.now ≡ u64_bytes 1) }
    ensures err { IfErr result (λ e. IsBareShardVersion e × (version.now ≢ u64_bytes 1)) }
{
    let (version, _) = split_u64(version);
    if version != MDB_SHARD_FOOTER_VERSION {
        return Err(CoreError::ShardVersion(String::new(alloc)));
    }
    Ok(())
}
