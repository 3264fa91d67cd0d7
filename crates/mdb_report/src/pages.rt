//! The pages of a file that were read.

ghost use Rattle.std.specs.Prelude.{◌≡◌, ℕ, false, ◌+◌, ◌*◌, ◌<◌, ◌≤◌, length, take, drop, is_some, nat_eq, IfOk};

use std::alloc::{AllocError, Global};

/// The bytes of a page.
pub const PAGE_SIZE: usize = 16384;

/// A page in memory.
#[derive(Drop)]
pub struct Page {
    bytes: Vec<u8>,
    ghost whole: { length bytes.items ≡ 16384 },
}

/// Some pages of so many bytes.
#[derive(Drop)]
pub struct Pages {
    pub(crate) size: u64,
    pub(crate) pages: Vec<Option<Page>>,
    ghost covers: { size ≤ length pages.items * 16384 },
}

impl Pages {
    ghost use Rattle.mdb_report.specs.Pages.{has_page, PutsPage};

    /// So many bytes, of which no page is in memory.
    pub fn new(alloc: Global, size: u64) -> Result<Pages, AllocError>
        ensures size { IfOk result (λ pages. pages.size ≡ size) }
        ensures none { IfOk result (λ pages. (number : ℕ) → has_page pages number ≡ false) }
    {
        let count = size as usize / PAGE_SIZE + 1;
        let mut pages = Vec::new(alloc);
        for _ in 0..count {
            pages.push(None)?;
        }
        Ok(Pages { size, pages })
    }

    /// The number of bytes.
    pub fn size(&self) -> u64
        ensures { result ≡ self.now.size }
    {
        self.size
    }

    /// Whether a page is in memory.
    pub fn has(&self, number: usize) -> bool
        ensures { result ≡ has_page self.now number }
    {
        match self.pages.as_slice().get(number) {
            Some(page) => page.is_some(),
            None => false,
        }
    }

    /// Puts a page in its place, unless it is past the last one.
    pub fn put(&mut self, number: usize, page: Page)
        ensures { PutsPage self.old number page self.new }
    {
        if number < self.pages.len() {
            self.pages.as_mut_slice()[number] = Some(page);
        }
    }
}

impl Page {
    /// A page of these bytes; `None` if they are not 16384.
    pub fn of_bytes(bytes: Vec<u8>) -> Option<Page>
        ensures { is_some result ≡ nat_eq (length bytes.items) 16384 }
    {
        if bytes.len() == PAGE_SIZE {
            Some(Page { bytes })
        } else {
            None
        }
    }

    // Copies at most `most` bytes from an offset on, and returns how many.
    pub(crate) fn copy_from(&self, from: usize, most: u64, slice: &mut [u8]) -> usize
        requires { from < 16384 }
        ensures fits { result ≤ length slice.old }
        ensures len { length slice.new ≡ length slice.old }
        ensures within { from + result ≤ 16384 }
        ensures most { result ≤ most }
        ensures some { 0 < length slice.old → 0 < most → 0 < result }
        ensures filled { take result slice.new ≡ take result (drop from self.now.bytes.items) }
    {
        let n = slice
            .len()
            .min(PAGE_SIZE - from)
            .min(usize::try_from(most).unwrap_or(usize::MAX));
        slice[..n].copy_from_slice(&self.bytes.as_slice()[from..from + n]);
        n
    }
}
