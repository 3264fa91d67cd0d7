//! Answers about a shard in a file of which only the needed pages are read.

ghost use Rattle.std.specs.Prelude.{◌≡◌, ◌≢◌, IfOk, IfSome};
ghost use Rattle.mdb_report.specs.InquiryAnswers.{IsCheck, LooksUp};

use crate::brief::Brief;
use crate::inquiry::{
    Answer, Inquiry, InquiryFault, print_brief, print_lookup, print_run, print_summary, print_xorb,
};
use crate::paged_file::PagedFile;
use crate::section::SectionReader;
use crate::summary::Summary;
use crate::tally::Tally;
use crate::xorb_printing::print_xorb_lookup;
use mdb_records::line::{Layout, print};
use mdb_records::records::FileReport;
use shard_bytes::check::Section;
use std::alloc::Global;
use std::io::{BufReader, Read, Seek, Write};
use xet_core_structures::merklehash::MerkleHash;
use xet_core_structures::record_reader::FormatVersion;
use xet_core_structures::shard_format::MDBShardInfo;

/// As `print_answer`, but of a file of so many bytes: lookups read the pages that they need, and
/// records are printed as they are read, also those before one that can't be.
///
/// `None`, with nothing printed, if all of the file is to be read: for a check, a name, the global
/// index, or a lookup whose table has no rows. A section that starts past the file's end lacks its
/// bookend.
pub fn print_paged_answer<F: Read + Seek + Drop, W: Write>(
    alloc: Global,
    inquiry: &Inquiry,
    name: &str,
    file: F,
    size: u64,
    layout: Layout<'_>,
    tally: &mut Tally,
    output: &mut W,
) -> Result<Option<Answer>, InquiryFault>
    ensures findings { IfOk result
        (λ found. IfSome found (λ answer. answer ≡ Answer.HasFindings → IsCheck inquiry.now)) }
    ensures nothing { IfOk result
        (λ found. IfSome found (λ answer. answer ≡ Answer.FoundNothing → LooksUp inquiry.now)) }
{
    if let Inquiry::Check(_) | Inquiry::Name { .. } | Inquiry::Eligible = inquiry {
        return Ok(None);
    }
    let mut file = PagedFile::new(alloc, file, size)?;
    let info = file.load(alloc)?;
    match inquiry {
        Inquiry::Summary => {
            let summary = Summary::of_info(alloc, name, &info, size)?;
            return Ok(Some(print_summary(alloc, &summary, layout.style, output)?));
        }
        Inquiry::Brief => {
            let brief = Brief::of_info(alloc, name, &info, size)?;
            return Ok(Some(print_brief(alloc, &brief, layout.style, tally, output)?));
        }
        Inquiry::Files { long } => {
            let reader = file.reader_at(info.metadata.file_info_offset.min(size))?;
            list_files(alloc, reader, &info, *long, layout, output)?;
        }
        Inquiry::Xorbs { .. } | Inquiry::Chunks { .. } => {
            let reader = file.reader_at(info.metadata.xorb_info_offset.min(size))?;
            list_xorbs(alloc, reader, inquiry, layout, output)?;
        }
        Inquiry::Find { hashes, costs } if info.metadata.file_lookup_num_entry != 0 => {
            let hashes = hashes.as_slice();
            let answer = find(
                alloc, &mut file, &info, hashes, *costs, layout, tally, output,
            )?;
            return Ok(Some(answer));
        }
        Inquiry::FindXorbs { hashes } if info.metadata.xorb_lookup_num_entry != 0 => {
            let hashes = hashes.as_slice();
            let answer = find_xorbs(alloc, &mut file, &info, hashes, layout, tally, output)?;
            return Ok(Some(answer));
        }
        Inquiry::Query { hashes } if info.metadata.chunk_lookup_num_entry != 0 => {
            let report = file.query(alloc, &info, hashes.as_slice())?;
            return Ok(Some(print_run(alloc, &report, layout, tally, output)?));
        }
        _ => return Ok(None),
    }
    Ok(Some(Answer::Printed))
}

fn find<F: Read + Seek + Drop, W: Write>(
    alloc: Global,
    file: &mut PagedFile<F>,
    info: &MDBShardInfo,
    hashes: &[MerkleHash],
    costs: bool,
    layout: Layout<'_>,
    tally: &mut Tally,
    output: &mut W,
) -> Result<Answer, InquiryFault>
    ensures { IfOk result (λ answer. answer ≢ Answer.HasFindings) }
{
    let mut found = false;
    for hash in hashes {
        let report = file.find(alloc, info, *hash, costs)?;
        found |= print_lookup(alloc, &report, layout, tally, output)?;
    }
    if found {
        Ok(Answer::Printed)
    } else {
        Ok(Answer::FoundNothing)
    }
}

fn find_xorbs<F: Read + Seek + Drop, W: Write>(
    alloc: Global,
    file: &mut PagedFile<F>,
    info: &MDBShardInfo,
    hashes: &[MerkleHash],
    layout: Layout<'_>,
    tally: &mut Tally,
    output: &mut W,
) -> Result<Answer, InquiryFault>
    ensures { IfOk result (λ answer. answer ≢ Answer.HasFindings) }
{
    let mut found = false;
    for hash in hashes {
        let report = file.find_xorb(alloc, info, *hash)?;
        found |= print_xorb_lookup(alloc, &report, layout, tally, output)?;
    }
    if found {
        Ok(Answer::Printed)
    } else {
        Ok(Answer::FoundNothing)
    }
}

fn list_files<F: Read + Drop, W: Write>(
    alloc: Global,
    file: F,
    info: &MDBShardInfo,
    long: bool,
    layout: Layout<'_>,
    output: &mut W,
) -> Result<(), InquiryFault> {
    let version = FormatVersion::of_header(info.header.version);
    let mut section = SectionReader::new(with_buffer(alloc, file)?, version);
    for _ in 0..u64::MAX {
        let file = match section.next_file(alloc) {
            Ok(Some(file)) => file,
            Ok(None) => break,
            Err(error) => return Err(InquiryFault::Section(Section::Files, error)),
        };
        print(
            alloc,
            &FileReport::of_file(alloc, &file, long)?,
            layout,
            output,
        )?;
    }
    Ok(())
}

fn list_xorbs<F: Read + Drop, W: Write>(
    alloc: Global,
    file: F,
    inquiry: &Inquiry,
    layout: Layout<'_>,
    output: &mut W,
) -> Result<(), InquiryFault> {
    let mut section = SectionReader::new(with_buffer(alloc, file)?, FormatVersion::V3);
    for _ in 0..u64::MAX {
        let xorb = match section.next_xorb(alloc) {
            Ok(Some(xorb)) => xorb,
            Ok(None) => break,
            Err(error) => return Err(InquiryFault::Section(Section::Xorbs, error)),
        };
        print_xorb(alloc, inquiry, &xorb, layout, output)?;
    }
    Ok(())
}

fn with_buffer<F: Read + Drop>(alloc: Global, file: F) -> Result<BufReader<F>, InquiryFault> {
    BufReader::new(alloc, file).map_err(|error| InquiryFault::Input(error))
}
