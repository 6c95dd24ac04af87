//! A page of bytes.

ghost use Rattle.std.specs.Prelude.{◌≡◌, ℕ, ◌+◌, ◌≤◌, ◌++◌, true, not, nat_lt, length, take, map, replicate, slice_index_or, IfOk, OnOk};
ghost use Rattle.std.specs.List.{range_with_len};
ghost use Rattle.nfs_pages.specs.Page.{page_size, blank, put_in};

use crate::budget::Budget;
use nfs_xdr::Sheet;
use std::alloc::{AllocError, Global};
use std::marker::Model;

/// How many bytes a page holds at most.
pub(crate) const PAGE: usize = 4096;

static ZEROS: [u8; 4096] = [0; 4096];

/// At most 4,096 bytes, and whether something was written there. What is behind its end is zeros.
#[derive(Drop)]
pub(crate) struct Page {
    pub(crate) bytes: Vec<u8>,
    written: bool,
}

impl Model for Page {
    ghost use Rattle.std.specs.Prelude.{length, ◌≤◌};
    ghost use Rattle.nfs_pages.specs.Page.{Leaf, page_size};

    ghost Value = { Leaf };

    ghost view = { λ p. record { bytes = p.bytes.items; written = p.written } };

    ghost invariant = { λ p. length p.bytes.items ≤ page_size };
}

/// Puts so many zeros on a sheet.
pub(crate) fn put_zeros(out: &mut Sheet, count: usize)
    requires few { count ≤ page_size }
    requires room { length out.old.bytes + count ≤ out.old.room }
    ensures bytes { out.new.bytes ≡ out.old.bytes ++ replicate count 0 }
    ensures room { out.new.room ≡ out.old.room }
    ensures len { length out.new.bytes ≡ length out.old.bytes + count }
{
    out.put_bytes(&ZEROS[..count]);
}

impl Page {
    /// No bytes, which take no memory.
    pub(crate) fn new(alloc: Global) -> Page
        ensures { result ≡ blank }
    {
        Page {
            bytes: Vec::new(alloc),
            written: false,
        }
    }

    /// A copy of `bytes`, which are written unless they are none.
    pub(crate) fn of(alloc: Global, bytes: &[u8]) -> Result<Page, AllocError>
        requires { length bytes.now ≤ page_size }
        ensures { IfOk result (λ p. p ≡ record { bytes = bytes.now; written = nat_lt 0 (length bytes.now) }) }
    {
        let written = !bytes.is_empty();
        let bytes = Vec::from_slice(alloc, bytes)?;
        Ok(Page { bytes, written })
    }

    /// Puts so many of the page's bytes on a sheet, from a place on.
    pub(crate) fn read(&self, from: usize, count: usize, out: &mut Sheet)
        requires few { from + count ≤ page_size }
        requires room { length out.old.bytes + count ≤ out.old.room }
        ensures bytes { out.new.bytes ≡ out.old.bytes ++ map (λ j. slice_index_or self.now.bytes j 0) (range_with_len from count) }
        ensures room { out.new.room ≡ out.old.room }
        ensures len { length out.new.bytes ≡ length out.old.bytes + count }
    {
        let end = self.bytes.len().min(from + count);
        if from < end {
            out.put_bytes(&self.bytes[from..end]);
            put_zeros(out, from + count - end);
        } else {
            put_zeros(out, count);
        }
    }

    /// Whether it has memory, be it for no bytes any more.
    pub(crate) fn is_taken(&self) -> bool {
        self.bytes.capacity() > 0
    }

    /// Whether something was written there.
    pub(crate) fn is_written(&self) -> bool
        ensures { result ≡ self.now.written }
    {
        self.written
    }

    /// Makes the page whole: its bytes stay.
    fn make_whole(&mut self) -> Result<(), AllocError>
        ensures same { (j : ℕ) → slice_index_or self.new.bytes j 0 ≡ slice_index_or self.old.bytes j 0 }
        ensures whole { OnOk result (length self.new.bytes ≡ page_size) }
        ensures longer { length self.old.bytes ≤ length self.new.bytes }
        ensures written { self.new.written ≡ self.old.written }
    {
        self.bytes.resize(PAGE, 0)
    }

    /// The same. If it has no memory it takes a page, which is refused where none is left.
    pub(crate) fn make(&mut self, budget: &mut Budget) -> Result<(), AllocError>
        ensures same { (j : ℕ) → slice_index_or self.new.bytes j 0 ≡ slice_index_or self.old.bytes j 0 }
        ensures whole { OnOk result (length self.new.bytes ≡ page_size) }
        ensures longer { length self.old.bytes ≤ length self.new.bytes }
        ensures written { self.new.written ≡ self.old.written }
    {
        if self.is_taken() {
            return self.make_whole();
        }
        if !budget.has_page() {
            return Err(AllocError);
        }
        self.make_whole()?;
        budget.take();
        Ok(())
    }

    /// Writes over some of the page's bytes.
    pub(crate) fn put(&mut self, at: usize, text: &[u8])
        requires { at + length text.now ≤ length self.old.bytes }
        ensures { self.new ≡ record self.old { bytes = put_in self.old.bytes at text.now } }
    {
        self.bytes[at..at + text.len()].copy_from_slice(text);
    }

    /// From here on something was written there. Answers whether nothing was before.
    pub(crate) fn mark(&mut self) -> bool
        ensures first { result ≡ not self.old.written }
        ensures after { self.new ≡ record self.old { written = true } }
    {
        let first = !self.written;
        self.written = true;
        first
    }

    /// Drops the bytes from a place on.
    pub(crate) fn cut(&mut self, count: usize)
        ensures { self.new ≡ record self.old { bytes = take count self.old.bytes } }
    {
        self.bytes.truncate(count);
    }
}
