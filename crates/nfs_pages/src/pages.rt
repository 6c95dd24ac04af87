//! Pages by their numbers.

ghost use Rattle.std.specs.Prelude.{◌≡◌, ◌≢◌, ℕ, ◌+◌, ◌*◌, ◌/◌, ◌^◌, ◌<◌, ◌≤◌, ◌++◌, ◌∷◌, ◌&&◌, ◌||◌, [], false, true, nat_lt, length, take, map, replicate, slice_index_or, IfOk, OnOk, OnErr, is_some};
ghost use Rattle.std.specs.List.{range_with_len};
ghost use Rattle.std.specs.BTreeMap.{btree_map_len, get};
ghost use Rattle.std.specs.Ordering.{nat_cmp};
ghost use Rattle.nfs_xdr.specs.Spelling.{number, padding};
ghost use Rattle.nfs_pages.specs.Page.{page_size, page_in, is_in, count_below, put_in};
ghost use Rattle.nfs_pages.specs.Bytes.{written_byte, covers};
ghost use Rattle.nfs_pages.specs.Pages.{extent_of, page_of, is_written, byte_in, IsBelow, AreMore};

use crate::budget::Budget;
use crate::extent::{self, Extent, TOGETHER};
use crate::page::{PAGE, put_zeros};
use nfs_xdr::Sheet;
use std::alloc::{AllocError, Global};
use std::collections::BTreeMap;
use std::ops::Bound;

/// How many bytes a page holds at most, beside a place in a file.
const SIZE: u64 = PAGE as u64;

/// How many pages lie together at most, beside the number of a page.
const NEAR: u64 = TOGETHER as u64;

/// And how many bytes.
const WIDE: u64 = NEAR * SIZE;

/// So many extents, of 64 pages each, are dropped at once: 62 times as many in a record are some milliseconds.
pub(crate) const FEW: usize = 2;

/// The pages in which something was written, by 64 that lie side by side: so one walk of the map finds many, and leads to few entries.
/// Contracts see by `page_of` the bytes of each.
#[derive(Drop)]
pub(crate) struct Pages {
    pub(crate) map: BTreeMap<u64, Extent, Global>,
}

impl Pages {
    /// No pages. What comes later grows by `alloc`.
    pub(crate) fn new(alloc: Global) -> Pages
        ensures pages { (i : ℕ) → page_of result i ≡ [] }
        ensures written { (i : ℕ) → is_written result i ≡ false }
        ensures len { btree_map_len result.map ≡ 0 }
    {
        Pages {
            map: BTreeMap::new(alloc),
        }
    }

    /// One page, the first.
    pub(crate) fn of(alloc: Global, bytes: &[u8]) -> Result<Pages, AllocError>
        requires { length bytes.now ≤ page_size }
        ensures first { IfOk result (λ p. page_of p 0 ≡ bytes.now) }
        ensures others { IfOk result (λ p. (i : ℕ) → 0 < i → page_of p i ≡ []) }
        ensures written { IfOk result (λ p. (i : ℕ) → is_written p i ≡ covers 0 (length bytes.now) i) }
    {
        let mut pages = Pages::new(alloc);
        pages.map.insert(0, Extent::of(alloc, bytes)?)?;
        Ok(pages)
    }

    /// Writes over the bytes from `offset` on, or over none. Answers in how many pages nothing was written before.
    pub(crate) fn write(
        &mut self,
        alloc: Global,
        budget: &mut Budget,
        offset: u64,
        text: &[u8],
    ) -> Result<u64, AllocError>
        requires { offset + length text.now < 2 ^ 63 }
        ensures bytes { OnOk result ((p : ℕ) → byte_in (page_of self.new) p ≡ written_byte (byte_in (page_of self.old)) offset text.now p) }
        ensures same { OnErr result ((p : ℕ) → byte_in (page_of self.new) p ≡ byte_in (page_of self.old) p) }
        ensures written { OnOk result ((i : ℕ) → is_written self.new i ≡ covers offset (length text.now) i || is_written self.old i) }
        ensures more { IfOk result (λ more. AreMore (is_written self.old) (is_written self.new) ((offset + length text.now) / 4096 + 64) more) }
        ensures as_before { OnErr result ((i : ℕ) → is_written self.new i ≡ is_written self.old i) }
    {
        let end = (offset + text.len() as u64 + (SIZE - 1)) / SIZE;
        make_all(self, alloc, budget, (offset / SIZE).min(end), end)?;
        Ok(put_all(self, offset, text))
    }

    /// Takes all bytes away from a place on. The pages behind it come out undropped, unless memory is refused.
    pub(crate) fn cut(&mut self, size: u64, budget: &mut Budget) -> Option<Pages>
        requires { size < 2 ^ 63 }
        ensures kept { (p : ℕ) → p < size → byte_in (page_of self.new) p ≡ byte_in (page_of self.old) p }
        ensures gone { (p : ℕ) → size ≤ p → byte_in (page_of self.new) p ≡ 0 }
        ensures written { (i : ℕ) → is_written self.new i ≡ nat_lt (i * 4096) size && is_written self.old i }
    {
        let behind = take_from(self, (size + (SIZE - 1)) / SIZE, budget);
        cut_page(self, size / SIZE, (size % SIZE) as usize);
        behind
    }

    /// How many pages have memory.
    pub(crate) fn taken(&self) -> u64 {
        let mut count: u64 = 0;
        for extent in self.map.values() {
            count = count.saturating_add(extent.taken());
        }
        count
    }

    /// In how many pages from one on something was written.
    pub(crate) fn written_from(&self, first: u64) -> u64
        requires { IsBelow (is_written self.now) (2 ^ 52) }
        ensures { (n : ℕ) → first ≤ n → IsBelow (is_written self.now) n → result + count_below (is_written self.now) first ≡ count_below (is_written self.now) n }
    {
        let near = first / NEAR;
        written_near(self, near, (first % NEAR) as usize) + written_behind(self, near)
    }

    /// Puts some of the bytes as an opaque.
    #[tactic(auto, using(crate::proofs::Opaque::putting_part))]
    pub(crate) fn put_part(&self, start: u64, count: usize, out: &mut Sheet)
        requires end { start + count < 2 ^ 63 }
        requires few { count < 2 ^ 32 }
        requires room { length out.old.bytes + (4 + (count + padding count)) ≤ out.old.room }
        ensures bytes { out.new.bytes ≡ out.old.bytes ++ (number count ++ (map (byte_in (page_of self.now)) (range_with_len start count) ++ replicate (padding count) 0)) }
        ensures room { out.new.room ≡ out.old.room }
    {
        out.put_u32(count as u32);
        read_all(self, start, count, out);
        put_zeros(out, (4 - count % 4) % 4);
    }
}

/// In how many pages of one extent from one of them on something was written.
fn written_near(pages: &Pages, k: u64, first: usize) -> u64
    requires { first < 64 }
    ensures { result + count_below (is_in (extent_of pages.now k)) first ≡ count_below (is_in (extent_of pages.now k)) 64 }
{
    match pages.map.get(&k) {
        Some(extent) => extent.written_from(first),
        None => 0,
    }
}

/// In how many pages of the extents behind one something was written.
fn written_behind(pages: &Pages, k: u64) -> u64
    requires { IsBelow (is_written pages.now) (2 ^ 52) }
    ensures { (n : ℕ) → k * 64 + 64 ≤ n → IsBelow (is_written pages.now) n → result + count_below (is_written pages.now) (k * 64 + 64) ≡ count_below (is_written pages.now) n }
{
    let mut count: u64 = 0;
    for (_, extent) in pages.map.range((Bound::Excluded(k), Bound::Unbounded)) {
        count = count.saturating_add(extent.written());
    }
    count
}

/// Makes some pages of one extent whole where it is there, and says so; else nothing changes.
fn make_near(
    pages: &mut Pages,
    alloc: Global,
    budget: &mut Budget,
    first: u64,
    end: u64,
) -> Result<bool, AllocError>
    requires { end ≤ (first / 64 + 1) * 64 }
    ensures same { (k : ℕ) (j : ℕ) → slice_index_or (page_of pages.new k) j 0 ≡ slice_index_or (page_of pages.old k) j 0 }
    ensures before { (k : ℕ) → k < first → page_of pages.new k ≡ page_of pages.old k }
    ensures whole { IfOk result (λ near. near ≡ true → (k : ℕ) → first ≤ k → k < end → length (page_of pages.new k) ≡ page_size) }
    ensures absent { IfOk result (λ near. near ≡ false → is_some (get nat_cmp pages.new.map (first / 64)) ≡ false) }
    ensures written { (i : ℕ) → is_written pages.new i ≡ is_written pages.old i }
{
    let near = first / NEAR;
    match pages.map.get_mut(&near) {
        Some(extent) => {
            let end = end.saturating_sub(near * NEAR);
            extent.make(alloc, budget, (first % NEAR) as usize, end as usize)?;
            Ok(true)
        }
        None => Ok(false),
    }
}

/// An extent of pages of zeros, of which some are whole, and those in front of them empty. Where one is refused no page is taken.
fn zeros(alloc: Global, budget: &mut Budget, first: usize, end: usize) -> Result<Extent, AllocError>
    requires { end ≤ 64 }
    ensures zeros { IfOk result (λ e. (k : ℕ) (b : ℕ) → slice_index_or (page_in e k) b 0 ≡ 0) }
    ensures before { IfOk result (λ e. (k : ℕ) → k < first → page_in e k ≡ []) }
    ensures whole { IfOk result (λ e. (k : ℕ) → first ≤ k → k < end → length (page_in e k) ≡ page_size) }
    ensures written { IfOk result (λ e. (k : ℕ) → is_in e k ≡ false) }
{
    let mut extent = Extent::new(alloc);
    if let Err(refused) = extent.make(alloc, budget, first, end) {
        budget.give_back(extent.taken());
        return Err(refused);
    }
    Ok(extent)
}

/// Puts an extent with whole pages where none is, or takes none.
fn add_pages(
    pages: &mut Pages,
    alloc: Global,
    budget: &mut Budget,
    first: u64,
    end: u64,
) -> Result<(), AllocError>
    requires near { end ≤ (first / 64 + 1) * 64 }
    requires absent { is_some (get nat_cmp pages.old.map (first / 64)) ≡ false }
    ensures same { (k : ℕ) (j : ℕ) → slice_index_or (page_of pages.new k) j 0 ≡ slice_index_or (page_of pages.old k) j 0 }
    ensures before { (k : ℕ) → k < first → page_of pages.new k ≡ page_of pages.old k }
    ensures whole { OnOk result ((k : ℕ) → first ≤ k → k < end → length (page_of pages.new k) ≡ page_size) }
    ensures written { (i : ℕ) → is_written pages.new i ≡ is_written pages.old i }
{
    let near = first / NEAR;
    let end = end.saturating_sub(near * NEAR);
    let extent = zeros(alloc, budget, (first % NEAR) as usize, end as usize)?;
    if let Err(refused) = pages.map.insert(near, extent) {
        budget.give_back(refused.value.1.taken());
        return Err(AllocError);
    }
    Ok(())
}

/// Makes some pages of one extent whole: their bytes stay.
fn make_some(
    pages: &mut Pages,
    alloc: Global,
    budget: &mut Budget,
    first: u64,
    end: u64,
) -> Result<(), AllocError>
    requires { end ≤ (first / 64 + 1) * 64 }
    ensures same { (p : ℕ) → byte_in (page_of pages.new) p ≡ byte_in (page_of pages.old) p }
    ensures before { (k : ℕ) → k < first → page_of pages.new k ≡ page_of pages.old k }
    ensures whole { OnOk result ((k : ℕ) → first ≤ k → k < end → length (page_of pages.new k) ≡ page_size) }
    ensures written { (i : ℕ) → is_written pages.new i ≡ is_written pages.old i }
{
    if !make_near(pages, alloc, budget, first, end)? {
        add_pages(pages, alloc, budget, first, end)?;
    }
    Ok(())
}

/// Makes some pages whole.
fn make_all(
    pages: &mut Pages,
    alloc: Global,
    budget: &mut Budget,
    first: u64,
    end: u64,
) -> Result<(), AllocError>
    requires { end < 2 ^ 63 }
    ensures same { (p : ℕ) → byte_in (page_of pages.new) p ≡ byte_in (page_of pages.old) p }
    ensures whole { OnOk result ((k : ℕ) → first ≤ k → k < end → length (page_of pages.new k) ≡ page_size) }
    ensures written { (i : ℕ) → is_written pages.new i ≡ is_written pages.old i }
{
    let mut i = first;
    while i < end {
        let next = ((i / NEAR + 1) * NEAR).min(end);
        make_some(pages, alloc, budget, i, next)?;
        i = next;
    }
    Ok(())
}

/// Writes over some bytes of whole pages of one extent. Answers in how many of them nothing was written before.
fn put_near(pages: &mut Pages, k: u64, from: usize, text: &[u8]) -> u64
    requires some { 0 < length text.now }
    requires few { from + length text.now ≤ 262144 }
    requires whole { (j : ℕ) → from / 4096 ≤ j → j < (from + length text.now + 4095) / 4096 → length (page_in (extent_of pages.old k) j) ≡ page_size }
    ensures bytes { (q : ℕ) → byte_in (page_in (extent_of pages.new k)) q ≡ written_byte (byte_in (page_in (extent_of pages.old k))) from text.now q }
    ensures lengths { (j : ℕ) → length (page_in (extent_of pages.new k) j) ≡ length (page_in (extent_of pages.old k) j) }
    ensures others { (n : ℕ) → n ≢ k → extent_of pages.new n ≡ extent_of pages.old n }
    ensures written { (j : ℕ) → is_in (extent_of pages.new k) j ≡ covers from (length text.now) j || is_in (extent_of pages.old k) j }
    ensures more { AreMore (is_in (extent_of pages.old k)) (is_in (extent_of pages.new k)) 64 result }
{
    match pages.map.get_mut(&k) {
        Some(extent) => extent.write(from, text),
        None => 0,
    }
}

/// Puts bytes over whole pages. Answers in how many of them nothing was written before.
fn put_all(pages: &mut Pages, offset: u64, text: &[u8]) -> u64
    requires few { offset + length text.now < 2 ^ 63 }
    requires whole { (i : ℕ) → offset / 4096 ≤ i → i < (offset + length text.now + 4095) / 4096 → length (page_of pages.old i) ≡ page_size }
    ensures bytes { (p : ℕ) → byte_in (page_of pages.new) p ≡ written_byte (byte_in (page_of pages.old)) offset text.now p }
    ensures written { (i : ℕ) → is_written pages.new i ≡ covers offset (length text.now) i || is_written pages.old i }
    ensures more { AreMore (is_written pages.old) (is_written pages.new) ((offset + length text.now) / 4096 + 64) result }
{
    let mut more: u64 = 0;
    let mut done = 0;
    while done < text.len() {
        let at = offset + done as u64;
        let from = (at % WIDE) as usize;
        let count = (TOGETHER * PAGE - from).min(text.len() - done);
        let first = put_near(pages, at / WIDE, from, &text[done..done + count]);
        more = more.saturating_add(first);
        done += count;
    }
    more
}

/// Drops the last extent, if it is one of those from this one on, and gives its pages back.
fn drop_last(pages: &mut Pages, first: u64, budget: &mut Budget) -> bool
    ensures kept { (k : ℕ) → k < first → extent_of pages.new k ≡ extent_of pages.old k }
    ensures fewer { result ≡ true → btree_map_len pages.new.map < btree_map_len pages.old.map }
    ensures none { result ≡ false → (k : ℕ) → first ≤ k → extent_of pages.new k ≡ [] }
{
    match pages.map.last_key_value() {
        Some((k, _)) if *k >= first => {}
        _ => return false,
    }
    if let Some((_, extent)) = pages.map.pop_last() {
        budget.give_back(extent.taken());
    }
    true
}

/// Drops the extents from this one on, and gives their pages back.
pub(crate) fn drop_from(pages: &mut Pages, first: u64, budget: &mut Budget)
    ensures kept { (k : ℕ) → k < first → extent_of pages.new k ≡ extent_of pages.old k }
    ensures gone { (k : ℕ) → first ≤ k → extent_of pages.new k ≡ [] }
{
    while drop_last(pages, first, budget) {}
}

/// Takes the extents from this one on out of the others, and drops none of them: or drops each, where there are few or memory is
/// refused.
fn take_extents(pages: &mut Pages, first: u64, budget: &mut Budget) -> Option<Pages>
    ensures kept { (k : ℕ) → k < first → extent_of pages.new k ≡ extent_of pages.old k }
    ensures gone { (k : ℕ) → first ≤ k → extent_of pages.new k ≡ [] }
{
    if pages.map.len() > FEW {
        if let Ok(map) = pages.map.split_off(&first) {
            return Some(Pages { map });
        }
    }
    drop_from(pages, first, budget);
    None
}

/// Drops the pages of an extent from one on.
fn cut_extent(pages: &mut Pages, k: u64, count: usize, budget: &mut Budget)
    ensures here { extent_of pages.new k ≡ take count (extent_of pages.old k) }
    ensures others { (n : ℕ) → n ≢ k → extent_of pages.new n ≡ extent_of pages.old n }
{
    if let Some(extent) = pages.map.get_mut(&k) {
        extent.cut(count, budget);
    }
}

/// Takes the pages from this one on away: those of its extent are dropped, and those behind come out undropped, unless memory is refused.
fn take_from(pages: &mut Pages, first: u64, budget: &mut Budget) -> Option<Pages>
    requires { first < 2 ^ 63 }
    ensures kept { (i : ℕ) → i < first → page_of pages.new i ≡ page_of pages.old i }
    ensures gone { (i : ℕ) → first ≤ i → page_of pages.new i ≡ [] }
    ensures written { (i : ℕ) → is_written pages.new i ≡ nat_lt i first && is_written pages.old i }
{
    let behind = take_extents(pages, (first + (NEAR - 1)) / NEAR, budget);
    cut_extent(pages, first / NEAR, (first % NEAR) as usize, budget);
    behind
}

/// Drops the bytes of a page from a place on. Its memory stays.
fn cut_page(pages: &mut Pages, i: u64, count: usize)
    ensures here { page_of pages.new i ≡ take count (page_of pages.old i) }
    ensures others { (k : ℕ) → k ≢ i → page_of pages.new k ≡ page_of pages.old k }
    ensures written { (k : ℕ) → is_written pages.new k ≡ is_written pages.old k }
{
    if let Some(extent) = pages.map.get_mut(&(i / NEAR)) {
        extent.cut_page((i % NEAR) as usize, count);
    }
}

/// Puts some bytes of one extent.
fn read_near(pages: &Pages, k: u64, from: usize, count: usize, out: &mut Sheet)
    requires few { from + count ≤ 262144 }
    requires room { length out.old.bytes + count ≤ out.old.room }
    ensures bytes { out.new.bytes ≡ out.old.bytes ++ map (byte_in (page_in (extent_of pages.now k))) (range_with_len from count) }
    ensures room { out.new.room ≡ out.old.room }
    ensures len { length out.new.bytes ≡ length out.old.bytes + count }
{
    match pages.map.get(&k) {
        Some(extent) => extent::read_all(extent.pages(), from, count, out),
        None => extent::read_all(&[], from, count, out),
    }
}

/// Puts some bytes.
fn read_all(pages: &Pages, offset: u64, count: usize, out: &mut Sheet)
    requires few { offset + count < 2 ^ 63 }
    requires room { length out.old.bytes + count ≤ out.old.room }
    ensures bytes { out.new.bytes ≡ out.old.bytes ++ map (byte_in (page_of pages.now)) (range_with_len offset count) }
    ensures room { out.new.room ≡ out.old.room }
    ensures len { length out.new.bytes ≡ length out.old.bytes + count }
{
    let mut done = 0;
    while done < count {
        let at = offset + done as u64;
        let from = (at % WIDE) as usize;
        let part = (TOGETHER * PAGE - from).min(count - done);
        read_near(pages, at / WIDE, from, part, out);
        done += part;
    }
}
