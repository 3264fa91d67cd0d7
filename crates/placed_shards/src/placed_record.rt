//! What files and xorbs that lie in memory have in common.

ghost use Rattle.std.specs.Prelude.{◌≡◌, ◌≢◌, ◌+◌, ◌*◌, ◌^◌, ◌≤◌, ◌↔◌, IsTrue, length, All};
ghost use Rattle.xet_base.specs.Hash.{all_ones};
ghost use Rattle.xet_records.specs.RecordKind.{RecordKind, KindLaws, IsHeaderRow};
ghost use Rattle.xet_records.specs.View.{BeginsWithHeaderRow};
ghost use Rattle.xet_records.specs.Limits.{MAX_ROWS};

use xet_base::merklehash::MerkleHash;
use xet_records::rows::Row;

/// A file or a xorb as its bytes, where they lie: the header row and the rows after it. Contracts
/// see the record.
pub trait PlacedRecord<'a> {
    type Header: Row;

    ghost kind: { RecordKind Self.Header Self };

    /// Whether the header ends a section.
    fn is_bookend(header: &Self::Header) -> bool
        ensures { IsTrue result ↔ (kind.hash_of header.now ≡ all_ones) };

    /// The header that ends a section.
    fn bookend() -> Self::Header
        ensures { result ≡ kind.bookend };

    /// The number of rows after the header.
    fn rows_after(header: &Self::Header) -> u64
        ensures rows { result ≡ kind.rows_after header.now }
        ensures bound { result ≤ 2 ^ 33 };

    /// Whether version 2 does not have the header.
    fn is_new(header: &Self::Header) -> bool
        ensures { result ≡ kind.is_new header.now };

    /// The record of these bytes under this header, which is no bookend's.
    fn under_header(header: &Self::Header, bytes: &'a [u8]) -> Self
        requires begins { BeginsWithHeaderRow kind bytes.now header.now }
        requires is_record { kind.hash_of header.now ≢ all_ones }
        requires few { kind.rows_after header.now ≤ MAX_ROWS }
        requires size { length bytes.now ≡ 48 + 48 * kind.rows_after header.now }
        ensures stored { kind.IsStored result }
        ensures header { kind.header_of result ≡ header.now }
        ensures bytes { kind.record_bytes result ≡ bytes.now };

    /// The record that these bytes are.
    fn of_bytes(bytes: &'a [u8]) -> Self
        requires { (r : Self) × kind.IsStored r × (kind.rows_after (kind.header_of r) ≤ MAX_ROWS)
            × (bytes.now ≡ kind.record_bytes r) }
        ensures { (r : Self) → kind.IsStored r → bytes.now ≡ kind.record_bytes r → result ≡ r };

    /// The same record.
    fn copy(&self) -> Self
        ensures { result ≡ self.now };

    /// The bytes of the record.
    fn bytes(&self) -> &'a [u8]
        ensures bytes { result.now ≡ kind.record_bytes self.now }
        ensures len { length result.now ≡ 48 * kind.row_count self.now };

    /// The header of the record.
    fn header(&self) -> Self::Header
        ensures { result ≡ kind.header_of self.now };

    /// The hash of the file or xorb.
    fn hash(&self) -> MerkleHash
        ensures { result ≡ kind.hash_of (kind.header_of self.now) };

    /// The first word of the hash, kept so that comparing touches few bytes.
    fn word(&self) -> u64
        ensures { result ≡ (kind.hash_of (kind.header_of self.now)).word0 };

    /// Does nothing: the record may be in a section.
    fn is_stored(&self)
        ensures stored { kind.IsStored self.now }
        ensures rows { kind.rows_after (kind.header_of self.now) ≤ MAX_ROWS };

    /// Does nothing: the kind has its laws, and reading a header returns it as it is stored.
    fn laws()
        ensures laws { KindLaws kind }
        ensures header_row { IsHeaderRow kind Self.Header.row_bytes Self.Header.Fits
            Self.Header.as_read };
}

/// Does nothing: these records may be in a section.
pub fn all_stored<'a, P: PlacedRecord<'a>>(records: &[P])
    ensures { All P.kind.IsStored records.now }
{
    for record in records {
        record.is_stored();
    }
}
