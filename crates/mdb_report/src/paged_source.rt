//! A source of which only some pages are in memory.

ghost use Rattle.std.specs.Prelude.{◌≡◌, ℕ, ◌<◌, ◌/◌, None, Some, true, false, length, IfOk, IfErr, MatchResult};
ghost use Rattle.xet_core_structures.specs.Source.{Fails, ReadsSome};
ghost use Rattle.mdb_report.specs.Pages.{bytes_in, has_page, source_of};

use crate::pages::{PAGE_SIZE, Pages};
use std::io;
use std::io::ErrorKind;
use std::marker::{Brand, PhantomData};
use xet_core_structures::count::Count;
use xet_core_structures::source::ShardSource;

/// The bytes of a file that are not in memory, for contracts alone; they may be any.
pub trait Unread {
    /// The byte at each place.
    ghost bytes: { ℕ → ℕ };
}

// A placeholder, since contracts hold for any bytes.
impl Unread for Brand {
    ghost bytes = { λ _. 0 };
}

/// A source with some pages in memory. A read elsewhere fails, and `missing_page` is then the page
/// to read first.
#[derive(Drop)]
pub struct PagedSource<'a, U: Unread> {
    pages: &'a Pages,
    at: u64,
    missing: Option<usize>,
    seeks: Count,
    read: Count,
    failures: Count,
    last_failure: Option<io::Error>,
    unread: PhantomData<U>,
    ghost works: { missing ≡ None → failures.value ≡ 0 },
}

impl<'a, U: Unread> PagedSource<'a, U> {
    /// A source over pages, at position 0.
    pub fn new(pages: &'a Pages) -> PagedSource<'a, U>
        ensures { ⟦<PagedSource<'a, U> as ShardSource>⟧.meaning result ≡ source_of U.bytes pages.now }
    {
        PagedSource {
            pages,
            at: 0,
            missing: None,
            seeks: Count::new(),
            read: Count::new(),
            failures: Count::new(),
            last_failure: None,
            unread: PhantomData,
        }
    }

    /// The number of the page that a read lacked.
    pub fn missing_page(&self) -> Option<usize>
        ensures { result ≡ self.now.missing }
    {
        self.missing
    }
}

impl<'a, U: Unread> ShardSource for PagedSource<'a, U> {
    ghost meaning = { λ s. record {
      bytes = bytes_in U.bytes s.pages.now;
      at = s.at;
      seeks = s.seeks.value;
      read = s.read.value;
      failures = s.failures.value;
      last_failure = s.last_failure;
    } };

    /// Reads no further than to the end of a page.
    fn read_some(&mut self, slice: &mut [u8]) -> io::Result<usize>
        ensures reads { MatchResult result
            (ReadsSome (⟦<PagedSource<'a, U> as ShardSource>⟧.meaning self.old)
            (⟦<PagedSource<'a, U> as ShardSource>⟧.meaning self.new) slice.new)
            (Fails (⟦<PagedSource<'a, U> as ShardSource>⟧.meaning self.old)
            (⟦<PagedSource<'a, U> as ShardSource>⟧.meaning self.new) 0) }
        ensures there { IfOk result
            (λ n. 0 < n → has_page self.old.pages.now (self.old.at / 16384) ≡ true) }
        ensures lacks { IfErr result
            (λ _. has_page self.old.pages.now (self.old.at / 16384) ≡ false) }
        ensures missing { IfErr result (λ _. self.new.missing ≡ Some (self.old.at / 16384)) }
    {
        if slice.is_empty() || self.at >= self.pages.size {
            return Ok(0);
        }
        let size = PAGE_SIZE as u64;
        let number = (self.at / size) as usize;
        let from = (self.at % size) as usize;
        let left = self.pages.size - self.at;
        let Some(page) = &self.pages.pages.as_slice()[number] else {
            let error = io::Error::from(ErrorKind::NotFound);
            self.missing = Some(number);
            self.failures.add(1);
            self.last_failure = Some(error);
            return Err(error);
        };
        let n = page.copy_from(from, left, slice);
        self.at += n as u64;
        self.read.add(n as u64);
        Ok(n)
    }

    fn length(&mut self) -> io::Result<u64> {
        Ok(self.pages.size)
    }

    fn position(&mut self) -> io::Result<u64> {
        Ok(self.at)
    }

    fn seek_to(&mut self, to: u64) -> io::Result<()> {
        self.at = to;
        self.seeks.add(1);
        Ok(())
    }
}
