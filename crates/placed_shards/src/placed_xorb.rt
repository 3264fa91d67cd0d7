//! Xorb records in memory.

ghost use Rattle.std.specs.Prelude.{◌≡◌, ◌^◌, ◌≤◌, ◌↔◌, false, IsTrue};
ghost use Rattle.xet_base.specs.Hash.{all_ones};
ghost use Rattle.xet_records.specs.XorbRow.{xorb_header_row, FitsXorbHeader};
ghost use Rattle.xet_records.specs.RecordKind.{KindLaws, IsHeaderRow};
ghost use Rattle.xet_records.specs.XorbRecord.{xorb_bookend, xorb_records};

use crate::placed_record::PlacedRecord;
use std::marker::Model;
use xet_base::fields::all_bytes;
use xet_base::merklehash::MerkleHash;
use xet_records::record_bytes::row;
use xet_records::xorb_structs::XorbChunkSequenceHeader;

/// A xorb record as its bytes, where they lie. Contracts see the record.
#[derive(Drop)]
pub struct PlacedXorb<'a> {
    bytes: &'a [u8],
    // The first word of the hash.
    word: u64,
}

impl<'a> Model for PlacedXorb<'a> {
    ghost use Rattle.xet_records.specs.declared.xorb_structs.MDBXorbInfo.{MDBXorbInfo};
    ghost use Rattle.placed_shards.specs.Placed.{xorb_of, IsPlacedXorb};

    ghost Value = { MDBXorbInfo };

    ghost view = { λ v. xorb_of v.bytes.now };

    ghost invariant = { λ v. IsPlacedXorb v.word v.bytes.now };
}

impl<'a> PlacedRecord<'a> for PlacedXorb<'a> {
    type Header = XorbChunkSequenceHeader;

    ghost kind = { xorb_records };

    fn is_bookend(header: &XorbChunkSequenceHeader) -> bool
        ensures { IsTrue result ↔ (header.now.xorb_hash ≡ all_ones) }
    {
        header.is_bookend()
    }

    fn bookend() -> XorbChunkSequenceHeader
        ensures { result ≡ xorb_bookend }
    {
        XorbChunkSequenceHeader::bookend()
    }

    fn rows_after(header: &XorbChunkSequenceHeader) -> u64
        ensures rows { result ≡ header.now.num_entries }
        ensures bound { result ≤ 2 ^ 33 }
    {
        u64::from(header.num_entries)
    }

    fn is_new(_header: &XorbChunkSequenceHeader) -> bool
        ensures { result ≡ false }
    {
        false
    }

    fn under_header(header: &XorbChunkSequenceHeader, bytes: &'a [u8]) -> PlacedXorb<'a> {
        all_bytes(bytes);
        PlacedXorb {
            bytes,
            word: header.xorb_hash.word0,
        }
    }

    fn of_bytes(bytes: &'a [u8]) -> PlacedXorb<'a> {
        let header: XorbChunkSequenceHeader = row(bytes, 0);
        PlacedXorb::under_header(&header, bytes)
    }

    fn copy(&self) -> PlacedXorb<'a> {
        PlacedXorb {
            bytes: self.bytes,
            word: self.word,
        }
    }

    fn bytes(&self) -> &'a [u8] {
        self.bytes
    }

    fn header(&self) -> XorbChunkSequenceHeader {
        row(self.bytes, 0)
    }

    fn hash(&self) -> MerkleHash {
        self.header().xorb_hash
    }

    fn word(&self) -> u64 {
        self.word
    }

    fn is_stored(&self) {
        let _word = self.word;
    }

    fn laws()
        ensures laws { KindLaws xorb_records }
        ensures header_row { IsHeaderRow xorb_records xorb_header_row FitsXorbHeader (λ h. h) }
    {}
}
