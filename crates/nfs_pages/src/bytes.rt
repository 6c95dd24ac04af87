//! Bytes that are kept, the contents of files and the texts of links.

ghost use Rattle.std.specs.Prelude.{◌≡◌, ◌+◌, ◌^◌, ◌<◌, ◌≤◌, length, take, drop, nat_le, IfOk, OnOk, OnErr};
ghost use Rattle.nfs_xdr.specs.SheetState.{HasRoom, Puts};
ghost use Rattle.nfs_xdr.specs.Spelling.{opaque};
ghost use Rattle.nfs_pages.specs.Bytes.{zeros, text_of, with_text, with_size};
ghost use Rattle.nfs_pages.specs.Page.{page_size};

use crate::pages::Pages;
use crate::pool::Pool;
use nfs_xdr::Sheet;
use std::alloc::{AllocError, Global};
use std::marker::Model;

/// Bytes that an object owns, fewer than 2^63. Contracts see the list of them, and in which pages of 4,096 something was written
/// that no cut has taken.
#[derive(Drop)]
pub struct Bytes {
    size: u64,
    pub(crate) pages: Pages,
    /// In how many pages something was written.
    written: u64,
}

impl Model for Bytes {
    ghost use Rattle.std.specs.Prelude.{◌<◌, ◌^◌};
    ghost use Rattle.nfs_pages.specs.{Bytes.{Content, pages_in, numbers_below}, Pages.{bytes, page_of, is_written, AreClean, AreCounted}};

    ghost Value = { Content };

    ghost view = { λ b. record { bytes = bytes (page_of b.pages) b.size; pages = numbers_below (is_written b.pages) (pages_in b.size) } };

    ghost invariant = { λ b. AreClean (page_of b.pages) b.size × (b.size < 2 ^ 63) × AreCounted (is_written b.pages) b.size b.written };
}

impl Bytes {
    /// So many zeros, which take no memory.
    pub fn zeros(alloc: Global, size: u64) -> Bytes
        requires { size < 2 ^ 63 }
        ensures { result ≡ zeros size }
    {
        Bytes {
            size,
            pages: Pages::new(alloc),
            written: 0,
        }
    }

    /// A copy of bytes of one page.
    fn copied(alloc: Global, bytes: &[u8]) -> Result<Bytes, AllocError>
        requires { length bytes.now ≤ page_size }
        ensures { IfOk result (λ b. b ≡ text_of bytes.now) }
    {
        let pages = Pages::of(alloc, bytes)?;
        Ok(Bytes {
            size: bytes.len() as u64,
            pages,
            written: if bytes.is_empty() { 0 } else { 1 },
        })
    }

    /// A copy of bytes of one page, which is refused where the pool has none.
    pub fn of(alloc: Global, pool: &mut Pool, bytes: &[u8]) -> Result<Bytes, AllocError>
        requires { length bytes.now ≤ page_size }
        ensures { IfOk result (λ b. b ≡ text_of bytes.now) }
    {
        if !pool.budget.has_page() {
            return Err(AllocError);
        }
        let bytes = Bytes::copied(alloc, bytes)?;
        if bytes.taken() > 0 {
            pool.budget.take();
        }
        Ok(bytes)
    }

    /// How many pages of a pool they have: what [`Pool::take_back`] takes, where they are kept nowhere.
    pub fn taken(&self) -> u64 {
        self.pages.taken()
    }

    /// How many there are.
    pub fn len(&self) -> u64
        ensures { result ≡ length self.now.bytes }
    {
        self.size
    }

    /// In how many pages something was written that no cut has taken.
    pub fn page_count(&self) -> u64
        ensures exact { result ≡ length self.now.pages }
        ensures few { result < 2 ^ 52 }
    {
        self.written
    }

    /// Whether at most `count` bytes from `offset` on reach the end.
    pub fn reaches_end(&self, offset: u64, count: u32) -> bool
        ensures { result ≡ nat_le (length self.now.bytes) (offset + length (take count (drop offset self.now.bytes))) }
    {
        let size = self.len();
        size <= offset || size - offset <= count as u64
    }

    /// Puts at most `count` bytes from `offset` on, as an opaque.
    pub fn read(&self, offset: u64, count: u32, out: &mut Sheet)
        requires { HasRoom out.old (opaque (take count (drop offset self.now.bytes))) }
        ensures { Puts out.old out.new (opaque (take count (drop offset self.now.bytes))) }
    {
        let start = offset.min(self.size);
        let count = (count as u64).min(self.size - start);
        self.pages.put_part(start, count as usize, out);
    }

    /// Writes over the bytes from `offset` on, by pages of the pool. A gap is zeros. All growth is before the first change. Answers
    /// how many more pages something was written in.
    pub fn write(
        &mut self,
        alloc: Global,
        pool: &mut Pool,
        offset: u64,
        text: &[u8],
    ) -> Result<u64, AllocError>
        requires { offset + length text.now < 2 ^ 63 }
        ensures ok { OnOk result (self.new ≡ with_text self.old offset text.now) }
        ensures more { IfOk result (λ more. length self.new.pages ≡ length self.old.pages + more) }
        ensures few { OnOk result (length self.new.pages < 2 ^ 52) }
        ensures err { OnErr result (self.new ≡ self.old) }
    {
        let more = self.pages.write(alloc, &mut pool.budget, offset, text)?;
        self.written += more;
        self.size = self.size.max(offset + text.len() as u64);
        Ok(more)
    }

    /// Cuts the bytes, or puts zeros behind them. The pages behind a cut wait to be dropped. It is refused no memory. Answers how
    /// many fewer pages something was written in.
    pub fn resize(&mut self, size: u64, pool: &mut Pool) -> u64
        requires { size < 2 ^ 63 }
        ensures after { self.new ≡ with_size self.old size }
        ensures fewer { length self.new.pages + result ≡ length self.old.pages }
    {
        let fewer = self.written_behind(size);
        self.written -= fewer;
        let behind = self.pages.cut(size, &mut pool.budget);
        self.size = size;
        if let Some(behind) = behind {
            pool.take(behind);
        }
        fewer
    }

    /// In how many of the pages something was written that a cut to so many bytes takes.
    fn written_behind(&self, size: u64) -> u64
        requires { size < 2 ^ 63 }
        ensures { result + length (with_size self.now size).pages ≡ length self.now.pages }
    {
        if size == 0 {
            return self.written;
        }
        self.pages.written_from((size + 4_095) / 4_096)
    }

    /// Leaves all pages to be dropped.
    pub fn leave(self, pool: &mut Pool) {
        pool.take(self.pages);
    }
}
