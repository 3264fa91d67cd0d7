//! A file of which pages are read as they are needed.

ghost use Rattle.std.specs.Prelude.{◌≡◌, ℕ, false, Some, IfOk, IfErr, IfSome, MatchResult};
ghost use Rattle.std.specs.Io.KnownBytes.{Keeps};
ghost use Rattle.std.specs.declared.io.Error.{Error as DeviceError};
ghost use Rattle.xet_core_structures.specs.Ends.{HasHeaderAndFooter};
ghost use Rattle.xet_core_structures.specs.RunReading.{QueryRefused};
ghost use Rattle.mdb_report.specs.Lookups.{FindFileFails};
ghost use Rattle.xet_core_structures.specs.TwoShards.ByteResults.{LoadRefusal};
ghost use Rattle.mdb_report.specs.Pages.{bytes_in, has_page, FindsInPages, QueriesPages, IsEndsFault, IsCallFault, IsFaultWith, FailsInPages};

use crate::counting::CountingSource;
use crate::inquiry::InquiryFault;
use crate::lookup::{FoundReport, RunReport};
use crate::paged_source::{PagedSource, Unread};
use crate::pages::{PAGE_SIZE, Page, Pages};
use crate::xorb_lookup::FoundXorb;
use std::alloc::{AllocError, Global};
use std::io;
use std::io::{Read, Seek, SeekFrom};
use std::marker::Brand;
use xet_core_structures::error::CoreError;
use xet_core_structures::merklehash::MerkleHash;
use xet_core_structures::shard_format::MDBShardInfo;

/// How often a lookup is begun again: by then no record is too long.
const ROUNDS: u32 = 512;

/// The rounds in which one page is read.
const SINGLE_ROUNDS: u32 = 16;

/// The most pages read in a round, as a power of two.
const MOST_PAGES_LOG: u32 = 16;

/// Why a call on the pages in memory has no answer.
#[derive(Drop)]
enum CallFault {
    /// It lacks this page.
    Lacks(usize),
    /// It failed on the bytes in memory.
    Failed(CoreError),
}

/// A file and its pages in memory. A call that lacks a page is made again once it is read, so
/// answers hold whatever the `unread` rest of the file is.
#[derive(Drop)]
pub struct PagedFile<F: Read + Seek + Drop> {
    file: F,
    pages: Pages,
}

impl<F: Read + Seek + Drop> PagedFile<F> {
    /// A file of so many bytes, of which none is in memory.
    pub fn new(alloc: Global, file: F, size: u64) -> Result<PagedFile<F>, AllocError>
        ensures file { IfOk result (λ paged. paged.file ≡ file) }
        ensures size { IfOk result (λ paged. paged.pages.size ≡ size) }
        ensures none { IfOk result (λ paged. (number : ℕ) → has_page paged.pages number ≡ false) }
    {
        Ok(PagedFile {
            file,
            pages: Pages::new(alloc, size)?,
        })
    }

    /// The shard's header and footer. `Ends` if the bytes have none; `Input` if the file can't be
    /// read; `TooManyRounds` if a page is lacking after all rounds.
    pub fn load(&mut self, alloc: Global) -> Result<MDBShardInfo, InquiryFault>
        ghost unread: { ℕ → ℕ }
        ensures { MatchResult result (HasHeaderAndFooter (bytes_in unread self.new.pages))
            (IsEndsFault (bytes_in unread self.new.pages)) }
    {
        for round in 0..ROUNDS {
            match load_in_pages::<Brand>(alloc, &self.pages) {
                Ok(info) => return Ok(info),
                Err(CallFault::Failed(error)) => return Err(InquiryFault::Ends(error)),
                Err(CallFault::Lacks(number)) => self.read_from(alloc, number, round)?,
            }
        }
        Err(InquiryFault::TooManyRounds)
    }

    /// Looks up a file in the shard with this header and footer. `Shard` if the lookup fails on the
    /// pages in memory; `Input` and `TooManyRounds` as for `load`.
    pub fn find(
        &mut self,
        alloc: Global,
        info: &MDBShardInfo,
        hash: MerkleHash,
        costs: bool,
    ) -> Result<FoundReport, InquiryFault>
        ghost unread: { ℕ → ℕ }
        ensures { MatchResult result (FindsInPages info.now hash costs unread self.new.pages)
            (IsFaultWith (FailsInPages (FindFileFails info.now hash) unread self.new.pages)) }
    {
        for round in 0..ROUNDS {
            match find_in_pages::<Brand>(alloc, &self.pages, info, hash, costs) {
                Ok(report) => return Ok(report),
                Err(CallFault::Failed(error)) => return Err(InquiryFault::Shard(error)),
                Err(CallFault::Lacks(number)) => self.read_from(alloc, number, round)?,
            }
        }
        Err(InquiryFault::TooManyRounds)
    }

    /// As `find`, but looks up a xorb.
    pub fn find_xorb(
        &mut self,
        alloc: Global,
        info: &MDBShardInfo,
        hash: MerkleHash,
    ) -> Result<FoundXorb, InquiryFault>
        ensures { IfOk result (λ report. report.hash.0 ≡ hash) }
    {
        for round in 0..ROUNDS {
            let mut source = PagedSource::<Brand>::new(&self.pages);
            let error = match FoundXorb::in_source(alloc, info, &mut source, hash) {
                Ok(report) => return Ok(report),
                Err(error) => error,
            };
            match source.missing_page() {
                Some(number) => self.read_from(alloc, number, round)?,
                None => return Err(InquiryFault::Shard(error)),
            }
        }
        Err(InquiryFault::TooManyRounds)
    }

    /// As `find`, but looks for a run of chunks.
    pub fn query(
        &mut self,
        alloc: Global,
        info: &MDBShardInfo,
        hashes: &[MerkleHash],
    ) -> Result<RunReport, InquiryFault>
        ghost unread: { ℕ → ℕ }
        ensures { MatchResult result (QueriesPages info.now hashes.now unread self.new.pages)
            (IsFaultWith
            (FailsInPages (QueryRefused info.now.metadata hashes.now) unread self.new.pages)) }
    {
        for round in 0..ROUNDS {
            match query_in_pages::<Brand>(alloc, &self.pages, info, hashes) {
                Ok(report) => return Ok(report),
                Err(CallFault::Failed(error)) => return Err(InquiryFault::Shard(error)),
                Err(CallFault::Lacks(number)) => self.read_from(alloc, number, round)?,
            }
        }
        Err(InquiryFault::TooManyRounds)
    }

    /// The file from an offset on. `Input` if it cannot be sought.
    pub fn reader_at(self, offset: u64) -> Result<F, InquiryFault>
        ensures bytes { IfOk result (λ file. Keeps (F.stream_bytes self.file) (F.stream_bytes file)) }
        ensures moved { IfOk result (λ file. IfSome (F.stream_position self.file)
            (λ _. F.stream_position file ≡ Some offset)) }
        ensures causes { IfErr result (λ fault. (e : DeviceError) × (fault ≡ InquiryFault.Input e)) }
    {
        let PagedFile { mut file, .. } = self;
        match file.seek(SeekFrom::Start(offset)) {
            Ok(_) => Ok(file),
            Err(error) => Err(InquiryFault::Input(error)),
        }
    }

    // Reads one page in each of the first rounds, then twice as many in each, for long records.
    fn read_from(&mut self, alloc: Global, first: usize, round: u32) -> Result<(), InquiryFault>
        ensures { IfErr result (λ fault. (e : DeviceError) × (fault ≡ InquiryFault.Input e)) }
    {
        let doubled = round.saturating_sub(SINGLE_ROUNDS).min(MOST_PAGES_LOG);
        let count = 1usize << doubled;
        for number in first..first.saturating_add(count) {
            if !self.pages.has(number) {
                match self.read_page(alloc, number) {
                    Ok(()) => {}
                    Err(error) => return Err(InquiryFault::Input(error)),
                }
            }
        }
        Ok(())
    }

    // Reads nothing past the end.
    fn read_page(&mut self, alloc: Global, number: usize) -> io::Result<()> {
        let start = (number as u64).saturating_mul(PAGE_SIZE as u64);
        let left = self.pages.size().saturating_sub(start);
        if left == 0 {
            return Ok(());
        }
        let count = left.min(PAGE_SIZE as u64) as usize;
        let mut bytes = vec![in alloc; 0u8; PAGE_SIZE]?;
        self.file.seek(SeekFrom::Start(start))?;
        self.file.read_exact(&mut bytes.as_mut_slice()[..count])?;
        if let Some(page) = Page::of_bytes(bytes) {
            self.pages.put(number, page);
        }
        Ok(())
    }
}

fn load_in_pages<U: Unread>(alloc: Global, pages: &Pages) -> Result<MDBShardInfo, CallFault>
    ensures { MatchResult result (HasHeaderAndFooter (bytes_in U.bytes pages.now))
        (IsCallFault (LoadRefusal (bytes_in U.bytes pages.now))) }
{
    let mut source = PagedSource::<U>::new(pages);
    let error = match MDBShardInfo::load_from_reader(alloc, &mut source) {
        Ok(info) => return Ok(info),
        Err(error) => error,
    };
    match source.missing_page() {
        Some(number) => Err(CallFault::Lacks(number)),
        None => Err(CallFault::Failed(error)),
    }
}

fn find_in_pages<U: Unread>(
    alloc: Global,
    pages: &Pages,
    info: &MDBShardInfo,
    hash: MerkleHash,
    costs: bool,
) -> Result<FoundReport, CallFault>
    ensures { MatchResult result (FindsInPages info.now hash costs U.bytes pages.now)
        (IsCallFault (FailsInPages (FindFileFails info.now hash) U.bytes pages.now)) }
{
    let mut source = CountingSource::new(PagedSource::<U>::new(pages));
    let error = match FoundReport::in_source(alloc, info, &mut source, hash, costs) {
        Ok(report) => return Ok(report),
        Err(error) => error,
    };
    match source.inner().missing_page() {
        Some(number) => Err(CallFault::Lacks(number)),
        None => Err(CallFault::Failed(error)),
    }
}

fn query_in_pages<U: Unread>(
    alloc: Global,
    pages: &Pages,
    info: &MDBShardInfo,
    hashes: &[MerkleHash],
) -> Result<RunReport, CallFault>
    ensures { MatchResult result (QueriesPages info.now hashes.now U.bytes pages.now)
        (IsCallFault (FailsInPages (QueryRefused info.now.metadata hashes.now) U.bytes pages.now)) }
{
    let mut source = PagedSource::<U>::new(pages);
    let error = match RunReport::in_source(alloc, info, &mut source, hashes) {
        Ok(report) => return Ok(report),
        Err(error) => error,
    };
    match source.missing_page() {
        Some(number) => Err(CallFault::Lacks(number)),
        None => Err(CallFault::Failed(error)),
    }
}
