//! Intervals in blocks, so that an edit moves those of the blocks that it touches alone.

ghost use Rattle.std.specs.Prelude.{◌≡◌, ◌+◌, ◌-◌, ◌*◌, ◌<◌, ◌≤◌, ◌++◌, ◌∷◌, [], IfOk, OnOk, OnErr, take, drop, length, vec_len, vec_capacity, false};
ghost use Rattle.std.specs.Option.{option_to_list};
ghost use Rattle.nfs_ranges.specs.Owners.{is_empty};
ghost use Rattle.nfs_ranges.specs.Clashes.{has_write};
ghost use Rattle.nfs_ranges.specs.Edits.{lead, ends_before, ends_by, head};
ghost use Rattle.nfs_ranges.specs.Blocks.{flat, last_end, block_at, AreSome, AreBlocks, IsPlace, ends_whole, ends_whole_by, spot, edges, spliced, ArePartsOf};

use super::edits::{Edit, ended_before, ended_by, interval_at};
use super::interval::Interval;
use std::alloc::{AllocError, Global};
use std::marker::Model;

/// A block has at most so many intervals.
const MOST: usize = 128;

/// Intervals that stand next to each other.
#[derive(Drop)]
pub(super) struct Block {
    intervals: Vec<Interval>,
    /// Whether one of them is held for writing.
    writes: bool,
}

impl Model for Block {
    ghost use Rattle.std.specs.Prelude.{List, ◌≡◌};
    ghost use Rattle.nfs_ranges.specs.declared.interval.Interval.{Interval};
    ghost use Rattle.nfs_ranges.specs.Clashes.{has_write};

    ghost Value = { List Interval };

    ghost view = { λ b. b.intervals.items };

    ghost invariant = { λ b. b.writes ≡ has_write b.intervals.items };
}

/// Whether one of the intervals is held for writing.
fn any_write(intervals: &[Interval]) -> bool
    ensures { result ≡ has_write intervals.now }
{
    for x in intervals {
        if x.kind.is_write() {
            return true;
        }
    }
    false
}

impl Block {
    /// One interval alone.
    pub(super) fn one(alloc: Global, interval: Interval) -> Result<Block, AllocError>
        ensures { IfOk result (λ b. b ≡ interval ∷ []) }
    {
        let mut intervals = Vec::with_capacity(alloc, 1)?;
        intervals.push(interval)?;
        Ok(Block::of(intervals))
    }

    /// All of the intervals. Each block is made here, so that each has its flag.
    fn of(intervals: Vec<Interval>) -> Block
        ensures { result ≡ intervals.items }
    {
        let writes = any_write(&intervals);
        Block { intervals, writes }
    }

    /// Whether one of the intervals is held for writing.
    pub(super) fn writes(&self) -> bool
        ensures { result ≡ has_write self.now }
    {
        self.writes
    }

    pub(super) fn intervals(&self) -> &[Interval]
        ensures { result.now ≡ self.now }
    {
        &self.intervals
    }

    /// The last byte of the last interval.
    pub(super) fn last_end(&self) -> u64
        ensures { result ≡ last_end self.now }
    {
        match self.intervals.last() {
            Some(x) => x.last,
            None => 0,
        }
    }
}

/// A place among intervals: which block, and where in it.
#[derive(Clone, Copy)]
pub(super) struct Place {
    pub(super) block: usize,
    pub(super) at: usize,
}

/// How many blocks end before the byte.
pub(super) fn block_before(blocks: &[Block], byte: u64) -> usize
    requires { AreBlocks blocks.now }
    ensures place { result ≡ lead (ends_whole byte) blocks.now }
    ensures bound { result ≤ length blocks.now }
{
    blocks.partition_point(|b| b.last_end() < byte)
}

/// How many blocks end by the byte.
fn block_by(blocks: &[Block], byte: u64) -> usize
    requires { AreBlocks blocks.now }
    ensures { result ≡ lead (ends_whole_by byte) blocks.now }
{
    blocks.partition_point(|b| b.last_end() <= byte)
}

/// The intervals of a block, none where there is no such block.
pub(super) fn intervals_at(blocks: &[Block], block: usize) -> &[Interval]
    ensures { result.now ≡ block_at blocks.now block }
{
    match blocks.get(block) {
        Some(b) => b.intervals(),
        None => &[],
    }
}

/// Behind the intervals that end before the byte.
pub(super) fn place_before(blocks: &[Block], byte: u64) -> Place
    requires { AreBlocks blocks.now }
    ensures place { IsPlace (ends_before byte) blocks.now result }
    ensures block { result.block ≡ spot (ends_whole byte) blocks.now }
{
    let block = block_before(blocks, byte).min(blocks.len().saturating_sub(1));
    Place {
        block,
        at: ended_before(intervals_at(blocks, block), byte),
    }
}

/// Behind the intervals that end by the byte.
pub(super) fn place_by(blocks: &[Block], byte: u64) -> Place
    requires { AreBlocks blocks.now }
    ensures place { IsPlace (ends_by byte) blocks.now result }
    ensures block { result.block ≡ spot (ends_whole_by byte) blocks.now }
{
    let block = block_by(blocks, byte).min(blocks.len().saturating_sub(1));
    Place {
        block,
        at: ended_by(intervals_at(blocks, block), byte),
    }
}

/// The interval at the place, if there is one.
pub(super) fn at_place(blocks: &[Block], place: Place) -> Option<Interval>
    ensures { result ≡ head (drop place.at (block_at blocks.now place.block)) }
{
    interval_at(intervals_at(blocks, place.block), place.at)
}

/// The first of the intervals.
fn front(intervals: &[Interval], count: usize) -> &[Interval]
    ensures { result.now ≡ take count intervals.now }
{
    &intervals[..count.min(intervals.len())]
}

/// All but the first of the intervals.
fn rest(intervals: &[Interval], count: usize) -> &[Interval]
    ensures { result.now ≡ drop count intervals.now }
{
    &intervals[count.min(intervals.len())..]
}

fn add(intervals: &mut Vec<Interval>, piece: Option<Interval>) -> Result<(), AllocError>
    ensures { OnOk result (intervals.new.items ≡ intervals.old.items ++ option_to_list piece) }
{
    if let Some(x) = piece {
        intervals.push(x)?;
    }
    Ok(())
}

/// What an edit leaves of the two blocks in which it begins and ends.
fn edges(alloc: Global, blocks: &[Block], edit: Edit) -> Result<Vec<Interval>, AllocError>
    ensures { IfOk result (λ v. v.items ≡ edges edit blocks.now) }
{
    let before = front(intervals_at(blocks, edit.from.block), edit.from.at);
    let behind = rest(
        rest(intervals_at(blocks, edit.to.block), edit.to.at),
        edit.taken,
    );
    let room = before.len().saturating_add(behind.len()).saturating_add(3);
    let mut new = Vec::with_capacity(alloc, room)?;
    new.extend_from_slice(before)?;
    add(&mut new, edit.left)?;
    add(&mut new, edit.middle)?;
    add(&mut new, edit.right)?;
    new.extend_from_slice(behind)?;
    Ok(new)
}

/// The intervals from a place on go into a block of their own.
fn cut(alloc: Global, intervals: &mut Vec<Interval>, at: usize) -> Result<Block, AllocError>
    requires { at < vec_len intervals.old }
    ensures block { IfOk result (λ b. (b ≡ drop at intervals.old.items) × (is_empty b ≡ false)) }
    ensures rest { OnOk result (intervals.new.items ≡ take at intervals.old.items) }
{
    let tail = rest(intervals, at);
    let mut new = Vec::with_capacity(alloc, tail.len())?;
    new.extend_from_slice(tail)?;
    intervals.truncate(at);
    Ok(Block::of(new))
}

/// The blocks that come in the place of others.
#[derive(Drop)]
struct Parts {
    left: Option<Block>,
    middle: Option<Block>,
    right: Option<Block>,
}

/// Intervals in one block, or in three where they are too many for one.
fn parts_of(alloc: Global, mut intervals: Vec<Interval>) -> Result<Parts, AllocError>
    ensures { IfOk result (λ p. ArePartsOf intervals.items p) }
{
    let count = intervals.len();
    if count == 0 {
        return Ok(Parts {
            left: None,
            middle: None,
            right: None,
        });
    }
    if count <= MOST {
        return Ok(Parts {
            left: None,
            middle: Some(Block::of(intervals)),
            right: None,
        });
    }
    let right = cut(alloc, &mut intervals, count / 3 * 2)?;
    let middle = cut(alloc, &mut intervals, count / 3)?;
    Ok(Parts {
        left: Some(Block::of(intervals)),
        middle: Some(middle),
        right: Some(right),
    })
}

/// A part of a list that is being replaced: the new blocks end at `at`, and the old ones that are still to go end at `end`.
#[derive(Clone, Copy)]
struct Gap {
    at: usize,
    end: usize,
}

/// Lays one block into the gap, over an old one where there is one.
fn lay(blocks: &mut Vec<Block>, gap: Gap, block: Block) -> Gap
    requires order { (gap.at ≤ gap.end) × (gap.end ≤ vec_len blocks.old) }
    requires room { vec_len blocks.old + 1 ≤ vec_capacity blocks.old + (gap.end - gap.at) }
    ensures order { (result.at ≤ result.end) × (result.end ≤ vec_len blocks.new) }
    ensures before { take result.at blocks.new.items ≡ take gap.at blocks.old.items ++ block ∷ [] }
    ensures behind { drop result.end blocks.new.items ≡ drop gap.end blocks.old.items }
    ensures room { vec_capacity blocks.old + (gap.end - gap.at) + vec_len blocks.new ≤ vec_capacity blocks.new + (result.end - result.at) + (vec_len blocks.old + 1) }
{
    if gap.at < gap.end {
        blocks[gap.at] = block;
        return Gap {
            at: gap.at + 1,
            end: gap.end,
        };
    }
    blocks.insert(gap.at, block).unwrap();
    Gap {
        at: gap.at + 1,
        end: gap.end + 1,
    }
}

/// Lays the block if there is one.
fn lay_some(blocks: &mut Vec<Block>, gap: Gap, block: Option<Block>) -> Gap
    requires order { (gap.at ≤ gap.end) × (gap.end ≤ vec_len blocks.old) }
    requires room { vec_len blocks.old + length (option_to_list block) ≤ vec_capacity blocks.old + (gap.end - gap.at) }
    ensures order { (result.at ≤ result.end) × (result.end ≤ vec_len blocks.new) }
    ensures before { take result.at blocks.new.items ≡ take gap.at blocks.old.items ++ option_to_list block }
    ensures behind { drop result.end blocks.new.items ≡ drop gap.end blocks.old.items }
    ensures room { vec_capacity blocks.old + (gap.end - gap.at) + vec_len blocks.new ≤ vec_capacity blocks.new + (result.end - result.at) + (vec_len blocks.old + length (option_to_list block)) }
{
    match block {
        None => gap,
        Some(block) => lay(blocks, gap, block),
    }
}

/// Takes out what is still to go.
fn close(blocks: &mut Vec<Block>, gap: Gap)
    requires order { (gap.at ≤ gap.end) × (gap.end ≤ vec_len blocks.old) }
    ensures { blocks.new.items ≡ take gap.at blocks.old.items ++ drop gap.end blocks.old.items }
{
    if gap.at < gap.end {
        blocks.drain(gap.at..gap.end);
    }
}

/// Lays the parts into the gap and closes it.
fn lay_all(blocks: &mut Vec<Block>, gap: Gap, parts: Parts)
    requires order { (gap.at ≤ gap.end) × (gap.end ≤ vec_len blocks.old) }
    requires room { vec_len blocks.old + 3 ≤ vec_capacity blocks.old + (gap.end - gap.at) }
    ensures { blocks.new.items ≡ take gap.at blocks.old.items ++ (option_to_list parts.left ++ (option_to_list parts.middle ++ (option_to_list parts.right ++ drop gap.end blocks.old.items))) }
{
    let Parts {
        left,
        middle,
        right,
    } = parts;
    let gap = lay_some(blocks, gap, left);
    let gap = lay_some(blocks, gap, middle);
    let gap = lay_some(blocks, gap, right);
    close(blocks, gap);
}

/// Carries the edit out.
///
/// `Err`: no memory, and nothing has changed.
pub(super) fn carry_out(
    blocks: &mut Vec<Block>,
    alloc: Global,
    edit: Edit,
) -> Result<(), AllocError>
    requires some { AreSome blocks.old.items }
    requires order { (edit.from.block ≤ edit.to.block) × (edit.to.block ≤ vec_len blocks.old) }
    ensures some { AreSome blocks.new.items }
    ensures ok { OnOk result (flat blocks.new.items ≡ spliced edit blocks.old.items) }
    ensures err { OnErr result (blocks.new.items ≡ blocks.old.items) }
{
    let new = edges(alloc, blocks, edit)?;
    let parts = parts_of(alloc, new)?;
    let at = edit.from.block;
    let end = (edit.to.block + 1).min(blocks.len());
    blocks.reserve(3_usize.saturating_sub(end - at))?;
    lay_all(blocks, Gap { at, end }, parts);
    Ok(())
}
