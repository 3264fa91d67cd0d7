//! File records in memory.

ghost use Rattle.std.specs.Prelude.{◌≡◌, ◌^◌, ◌≤◌, ◌↔◌, IsTrue};
ghost use Rattle.xet_base.specs.Hash.{all_ones};
ghost use Rattle.xet_records.specs.FileRecord.{file_bookend, file_records, has_aux_ext, rows_after};
ghost use Rattle.xet_records.specs.FileRow.{header_row, FitsHeader};
ghost use Rattle.xet_records.specs.RecordKind.{KindLaws, IsHeaderRow};

use crate::placed_record::PlacedRecord;
use std::marker::Model;
use xet_base::fields::all_bytes;
use xet_base::merklehash::MerkleHash;
use xet_records::file_structs::FileDataSequenceHeader;
use xet_records::record_bytes::row;

/// A file record as its bytes, where they lie. Contracts see the record.
#[derive(Drop)]
pub struct PlacedFile<'a> {
    bytes: &'a [u8],
    // The first word of the hash.
    word: u64,
}

impl<'a> Model for PlacedFile<'a> {
    ghost use Rattle.xet_records.specs.declared.file_structs.MDBFileInfo.{MDBFileInfo};
    ghost use Rattle.placed_shards.specs.Placed.{file_of, IsPlacedFile};

    ghost Value = { MDBFileInfo };

    ghost view = { λ v. file_of v.bytes.now };

    ghost invariant = { λ v. IsPlacedFile v.word v.bytes.now };
}

impl<'a> PlacedRecord<'a> for PlacedFile<'a> {
    type Header = FileDataSequenceHeader;

    ghost kind = { file_records };

    fn is_bookend(header: &FileDataSequenceHeader) -> bool
        ensures { IsTrue result ↔ (header.now.file_hash ≡ all_ones) }
    {
        header.is_bookend()
    }

    fn bookend() -> FileDataSequenceHeader
        ensures { result ≡ file_bookend }
    {
        FileDataSequenceHeader::bookend()
    }

    fn rows_after(header: &FileDataSequenceHeader) -> u64
        ensures rows { result ≡ rows_after header.now }
        ensures bound { result ≤ 2 ^ 33 }
    {
        header.rows_after()
    }

    fn is_new(header: &FileDataSequenceHeader) -> bool
        ensures { result ≡ has_aux_ext header.now.file_flags }
    {
        header.contains_aux_ext()
    }

    fn under_header(header: &FileDataSequenceHeader, bytes: &'a [u8]) -> PlacedFile<'a> {
        all_bytes(bytes);
        PlacedFile {
            bytes,
            word: header.file_hash.word0,
        }
    }

    fn of_bytes(bytes: &'a [u8]) -> PlacedFile<'a> {
        let header: FileDataSequenceHeader = row(bytes, 0);
        PlacedFile::under_header(&header, bytes)
    }

    fn copy(&self) -> PlacedFile<'a> {
        PlacedFile {
            bytes: self.bytes,
            word: self.word,
        }
    }

    fn bytes(&self) -> &'a [u8] {
        self.bytes
    }

    fn header(&self) -> FileDataSequenceHeader {
        row(self.bytes, 0)
    }

    fn hash(&self) -> MerkleHash {
        self.header().file_hash
    }

    fn word(&self) -> u64 {
        self.word
    }

    fn is_stored(&self) {
        let _word = self.word;
    }

    fn laws()
        ensures laws { KindLaws file_records }
        ensures header_row { IsHeaderRow file_records header_row FitsHeader (λ h. h) }
    {}
}
