//! Pages that lie side by side.

ghost use Rattle.std.specs.Prelude.{◌≡◌, ◌≢◌, ℕ, ◌+◌, ◌==◌, ◌/◌, ◌<◌, ◌≤◌, ◌++◌, ◌∷◌, ◌&&◌, ◌||◌, [], not, nat_le, nat_lt, length, take, map, max, min, replicate, slice_index_or, IfOk, OnOk};
ghost use Rattle.std.specs.List.{range_with_len};
ghost use Rattle.nfs_pages.specs.Page.{page_size, leaf_in, page_in, is_in, count_below, put_in};
ghost use Rattle.nfs_pages.specs.Bytes.{written_byte, covers};
ghost use Rattle.nfs_pages.specs.Pages.{byte_in, AreMore};

use crate::budget::Budget;
use crate::page::{PAGE, Page, put_zeros};
use nfs_xdr::Sheet;
use std::alloc::{AllocError, Global};
use std::marker::Model;

/// How many pages lie together at most.
pub(crate) const TOGETHER: usize = 64;

/// The pages up to the last that was made, of 64 that lie side by side. One in which nothing was written is empty, or is zeros where a
/// write was refused.
#[derive(Drop)]
pub(crate) struct Extent {
    pages: Vec<Page>,
    /// In how many of them something was written.
    written: u64,
}

impl Model for Extent {
    ghost use Rattle.std.specs.Prelude.{◌≡◌, ◌≤◌, List, length};
    ghost use Rattle.nfs_pages.specs.Page.{Leaf, is_in, count_below};

    ghost Value = { List Leaf };

    ghost view = { λ e. e.pages.items };

    ghost invariant = { λ e. (length e.pages.items ≤ 64) × (e.written ≡ count_below (is_in e.pages.items) 64) };
}

impl Extent {
    /// No pages. What comes later grows by `alloc`.
    pub(crate) fn new(alloc: Global) -> Extent
        ensures { result ≡ [] }
    {
        Extent {
            pages: Vec::new(alloc),
            written: 0,
        }
    }

    /// A page alone, the first.
    pub(crate) fn of(alloc: Global, bytes: &[u8]) -> Result<Extent, AllocError>
        requires { length bytes.now ≤ page_size }
        ensures { IfOk result (λ e. e ≡ record { bytes = bytes.now; written = nat_lt 0 (length bytes.now) } ∷ []) }
    {
        let mut pages = Vec::new(alloc);
        pages.push(Page::of(alloc, bytes)?)?;
        let written = if bytes.is_empty() { 0 } else { 1 };
        Ok(Extent { pages, written })
    }

    /// Makes some pages whole: their bytes stay.
    pub(crate) fn make(
        &mut self,
        alloc: Global,
        budget: &mut Budget,
        first: usize,
        end: usize,
    ) -> Result<(), AllocError>
        requires { end ≤ 64 }
        ensures same { (k : ℕ) (b : ℕ) → slice_index_or (page_in self.new k) b 0 ≡ slice_index_or (page_in self.old k) b 0 }
        ensures before { (k : ℕ) → k < first → page_in self.new k ≡ page_in self.old k }
        ensures whole { OnOk result ((k : ℕ) → first ≤ k → k < end → length (page_in self.new k) ≡ page_size) }
        ensures written { (k : ℕ) → is_in self.new k ≡ is_in self.old k }
    {
        reach(&mut self.pages, alloc, end)?;
        make_all(&mut self.pages, budget, first, end)
    }

    /// Drops the bytes of a page from a place on.
    pub(crate) fn cut_page(&mut self, j: usize, count: usize)
        ensures here { page_in self.new j ≡ take count (page_in self.old j) }
        ensures others { (k : ℕ) → k ≢ j → page_in self.new k ≡ page_in self.old k }
        ensures written { (k : ℕ) → is_in self.new k ≡ is_in self.old k }
    {
        if let Some(page) = self.pages.get_mut(j) {
            page.cut(count);
        }
    }

    /// Drops the pages from one on, and gives those back that had memory.
    pub(crate) fn cut(&mut self, count: usize, budget: &mut Budget)
        ensures { self.new ≡ take count self.old }
    {
        let end = self.pages.len().min(count);
        budget.give_back(taken(&self.pages[end..]));
        self.written -= written(&self.pages[end..]);
        self.pages.truncate(count);
    }

    /// Writes over bytes of whole pages. Answers in how many of them nothing was written before.
    pub(crate) fn write(&mut self, offset: usize, text: &[u8]) -> u64
        requires some { 0 < length text.now }
        requires few { offset + length text.now ≤ 262144 }
        requires whole { (j : ℕ) → offset / 4096 ≤ j → j < (offset + length text.now + 4095) / 4096 → length (page_in self.old j) ≡ page_size }
        ensures bytes { (p : ℕ) → byte_in (page_in self.new) p ≡ written_byte (byte_in (page_in self.old)) offset text.now p }
        ensures lengths { (j : ℕ) → length (page_in self.new j) ≡ length (page_in self.old j) }
        ensures written { (k : ℕ) → is_in self.new k ≡ covers offset (length text.now) k || is_in self.old k }
        ensures more { AreMore (is_in self.old) (is_in self.new) 64 result }
    {
        let more = write_all(&mut self.pages, offset, text);
        self.written += more;
        more
    }

    /// How many of its pages have memory.
    pub(crate) fn taken(&self) -> u64 {
        taken(&self.pages)
    }

    /// In how many of its pages something was written.
    pub(crate) fn written(&self) -> u64
        ensures { result ≡ count_below (is_in self.now) 64 }
    {
        self.written
    }

    /// In how many of its pages from one on something was written.
    pub(crate) fn written_from(&self, first: usize) -> u64
        ensures { result + count_below (is_in self.now) (min first 64) ≡ count_below (is_in self.now) 64 }
    {
        written(&self.pages[self.pages.len().min(first)..])
    }

    /// The pages.
    pub(crate) fn pages(&self) -> &[Page]
        ensures { result.now ≡ self.now }
    {
        &self.pages
    }
}

/// How many pages have memory.
fn taken(pages: &[Page]) -> u64 {
    let mut count: u64 = 0;
    for page in pages {
        if page.is_taken() {
            count = count.saturating_add(1);
        }
    }
    count
}

/// In how many pages something was written.
fn written(pages: &[Page]) -> u64
    ensures { result ≡ count_below (is_in pages.now) (length pages.now) }
{
    let mut count: u64 = 0;
    for page in pages {
        if page.is_written() {
            count += 1;
        }
    }
    count
}

/// Makes a page whole that is there, empty or not: its bytes stay.
fn make_one(pages: &mut [Page], budget: &mut Budget, j: usize) -> Result<(), AllocError>
    requires { j < length pages.old }
    ensures same { (k : ℕ) (b : ℕ) → slice_index_or (page_in pages.new k) b 0 ≡ slice_index_or (page_in pages.old k) b 0 }
    ensures others { (k : ℕ) → k ≢ j → page_in pages.new k ≡ page_in pages.old k }
    ensures whole { OnOk result (length (page_in pages.new j) ≡ page_size) }
    ensures written { (k : ℕ) → is_in pages.new k ≡ is_in pages.old k }
{
    pages[j].make(budget)
}

/// Makes some pages whole that are there.
fn make_all(
    pages: &mut [Page],
    budget: &mut Budget,
    first: usize,
    end: usize,
) -> Result<(), AllocError>
    requires { end ≤ length pages.old }
    ensures same { (k : ℕ) (b : ℕ) → slice_index_or (page_in pages.new k) b 0 ≡ slice_index_or (page_in pages.old k) b 0 }
    ensures before { (k : ℕ) → k < first → page_in pages.new k ≡ page_in pages.old k }
    ensures whole { OnOk result ((k : ℕ) → first ≤ k → k < end → length (page_in pages.new k) ≡ page_size) }
    ensures written { (k : ℕ) → is_in pages.new k ≡ is_in pages.old k }
{
    for j in first..end {
        make_one(pages, budget, j)?;
    }
    Ok(())
}

/// From here on something was written in a page. Answers whether nothing was before.
fn mark_one(pages: &mut [Page], j: usize) -> bool
    requires { j < length pages.old }
    ensures first { result ≡ not (is_in pages.old j) }
    ensures pages { (k : ℕ) → page_in pages.new k ≡ page_in pages.old k }
    ensures written { (k : ℕ) → is_in pages.new k ≡ (k == j) || is_in pages.old k }
{
    pages[j].mark()
}

/// From here on something was written in some pages. Answers in how many nothing was before.
fn mark_all(pages: &mut [Page], first: usize, end: usize) -> u64
    requires order { first ≤ end }
    requires there { end ≤ length pages.old }
    ensures pages { (k : ℕ) → page_in pages.new k ≡ page_in pages.old k }
    ensures written { (k : ℕ) → is_in pages.new k ≡ nat_le first k && nat_lt k end || is_in pages.old k }
    ensures more { AreMore (is_in pages.old) (is_in pages.new) end result }
    ensures few { result ≤ end }
{
    let mut more: u64 = 0;
    for j in first..end {
        if mark_one(pages, j) {
            more += 1;
        }
    }
    more
}

/// Writes over some of the bytes of a whole page.
fn put_one(pages: &mut [Page], j: usize, from: usize, text: &[u8])
    requires there { j < length pages.old }
    requires whole { length (page_in pages.old j) ≡ page_size }
    requires few { from + length text.now ≤ page_size }
    ensures here { page_in pages.new j ≡ put_in (page_in pages.old j) from text.now }
    ensures others { (k : ℕ) → k ≢ j → page_in pages.new k ≡ page_in pages.old k }
    ensures written { (k : ℕ) → is_in pages.new k ≡ is_in pages.old k }
{
    pages[j].put(from, text);
}

/// Puts bytes over whole pages.
fn put_all(pages: &mut [Page], offset: usize, text: &[u8])
    requires few { offset + length text.now ≤ 262144 }
    requires whole { (j : ℕ) → offset / 4096 ≤ j → j < (offset + length text.now + 4095) / 4096 → length (page_in pages.old j) ≡ page_size }
    ensures bytes { (p : ℕ) → byte_in (page_in pages.new) p ≡ written_byte (byte_in (page_in pages.old)) offset text.now p }
    ensures lengths { (j : ℕ) → length (page_in pages.new j) ≡ length (page_in pages.old j) }
    ensures written { (k : ℕ) → is_in pages.new k ≡ is_in pages.old k }
{
    let mut done = 0;
    while done < text.len() {
        let at = offset + done;
        let from = at % PAGE;
        let count = (PAGE - from).min(text.len() - done);
        put_one(pages, at / PAGE, from, &text[done..done + count]);
        done += count;
    }
}

/// Writes over bytes of whole pages. Answers in how many of them nothing was written before.
fn write_all(pages: &mut [Page], offset: usize, text: &[u8]) -> u64
    requires some { 0 < length text.now }
    requires few { offset + length text.now ≤ 262144 }
    requires there { length pages.old ≤ 64 }
    requires whole { (j : ℕ) → offset / 4096 ≤ j → j < (offset + length text.now + 4095) / 4096 → length (page_in pages.old j) ≡ page_size }
    ensures bytes { (p : ℕ) → byte_in (page_in pages.new) p ≡ written_byte (byte_in (page_in pages.old)) offset text.now p }
    ensures lengths { (j : ℕ) → length (page_in pages.new j) ≡ length (page_in pages.old j) }
    ensures written { (k : ℕ) → is_in pages.new k ≡ covers offset (length text.now) k || is_in pages.old k }
    ensures more { AreMore (is_in pages.old) (is_in pages.new) 64 result }
    ensures few { result ≤ 64 }
{
    let end = (offset + text.len() + (PAGE - 1)) / PAGE;
    let more = mark_all(pages, offset / PAGE, end);
    put_all(pages, offset, text);
    more
}

/// Puts some bytes of one page.
fn read_page(pages: &[Page], j: usize, from: usize, count: usize, out: &mut Sheet)
    requires few { from + count ≤ page_size }
    requires room { length out.old.bytes + count ≤ out.old.room }
    ensures bytes { out.new.bytes ≡ out.old.bytes ++ map (λ b. slice_index_or (page_in pages.now j) b 0) (range_with_len from count) }
    ensures room { out.new.room ≡ out.old.room }
    ensures len { length out.new.bytes ≡ length out.old.bytes + count }
{
    match pages.get(j) {
        Some(page) => page.read(from, count, out),
        None => put_zeros(out, count),
    }
}

/// Puts some bytes of pages that lie side by side.
pub(crate) fn read_all(pages: &[Page], offset: usize, count: usize, out: &mut Sheet)
    requires few { offset + count ≤ 262144 }
    requires room { length out.old.bytes + count ≤ out.old.room }
    ensures bytes { out.new.bytes ≡ out.old.bytes ++ map (byte_in (page_in pages.now)) (range_with_len offset count) }
    ensures room { out.new.room ≡ out.old.room }
    ensures len { length out.new.bytes ≡ length out.old.bytes + count }
{
    let mut done = 0;
    while done < count {
        let at = offset + done;
        let from = at % PAGE;
        let part = (PAGE - from).min(count - done);
        read_page(pages, at / PAGE, from, part, out);
        done += part;
    }
}

/// Puts empty pages behind the others until there are so many.
fn reach(pages: &mut Vec<Page>, alloc: Global, count: usize) -> Result<(), AllocError>
    requires { length pages.old.items ≤ 64 }
    ensures same { (j : ℕ) → leaf_in pages.new.items j ≡ leaf_in pages.old.items j }
    ensures few { length pages.new.items ≤ max 64 count }
    ensures long { OnOk result (count ≤ length pages.new.items) }
{
    while pages.len() < count {
        pages.push(Page::new(alloc))?;
    }
    Ok(())
}
