//! Edits of intervals, each behind one reservation.

ghost use Rattle.std.specs.Prelude.{◌≡◌, ◌+◌, ◌-◌, ◌<◌, ◌≤◌, ◌∷◌, [], length, IfOk, IfSome, OnOk, OnErr, drop, find, None, Some, false, suc, get_or};
ghost use Rattle.std.specs.Bool.{OnFalse};
ghost use Rattle.nfs_ranges.specs.Intervals.{IsCanonical, without, with_range};
ghost use Rattle.nfs_ranges.specs.Holders.{kind_at};
ghost use Rattle.nfs_ranges.specs.Owners.{IsSpan, IsSpanOf, is_empty};
ghost use Rattle.nfs_ranges.specs.Clashes.{has_write, hits};
ghost use Rattle.nfs_ranges.specs.Edits.{lead, ends_before, ends_by, head, begin_at, end_at, left_before, left_behind};
ghost use Rattle.nfs_ranges.specs.Blocks.{flat, AreSome, AreBlocks, spliced};

use super::Kind;
use super::blocks::{Block, Place, at_place, block_before, carry_out, place_before, place_by};
use super::interval::{Edge, Interval};
use super::span::Span;
use std::alloc::{AllocError, Global};
use std::marker::Model;

/// How many intervals end before the byte.
pub(super) fn ended_before(intervals: &[Interval], byte: u64) -> usize
    requires { IsCanonical intervals.now }
    ensures place { result ≡ lead (ends_before byte) intervals.now }
    ensures bound { result ≤ length intervals.now }
{
    intervals.partition_point(|x| x.last < byte)
}

/// How many intervals end by the byte.
pub(super) fn ended_by(intervals: &[Interval], byte: u64) -> usize
    requires { IsCanonical intervals.now }
    ensures { result ≡ lead (ends_by byte) intervals.now }
{
    intervals.partition_point(|x| x.last <= byte)
}

/// The interval at the place, if there is one.
pub(super) fn interval_at(intervals: &[Interval], place: usize) -> Option<Interval>
    ensures { result ≡ head (drop place intervals.now) }
{
    intervals.get(place).copied()
}

impl Interval {
    /// It stands against a wish to lock the range.
    fn hits(&self, kind: Kind, first: u64, last: u64) -> bool
        ensures { result ≡ hits kind first last self.now }
    {
        kind.meets(self.kind) && first <= self.last && self.first <= last
    }
}

/// The first interval that stands against a wish, looked for one after the other.
fn first_of(intervals: &[Interval], kind: Kind, first: u64, last: u64) -> Option<Interval>
    requires { IsCanonical intervals.now }
    ensures { result ≡ find (hits kind first last) intervals.now }
{
    for x in intervals {
        if last < x.first {
            return None;
        }
        if x.hits(kind, first, last) {
            return Some(*x);
        }
    }
    None
}

/// The same of a block, which a wish to read passes over if nothing there is held for writing.
fn first_of_block(block: &Block, kind: Kind, first: u64, last: u64) -> Option<Interval>
    requires { IsCanonical block.now }
    ensures { result ≡ find (hits kind first last) block.now }
{
    if !kind.is_write() && !block.writes() {
        return None;
    }
    first_of(block.intervals(), kind, first, last)
}

/// The same of intervals in blocks.
fn first_in(blocks: &[Block], kind: Kind, first: u64, last: u64) -> Option<Interval>
    requires { AreBlocks blocks.now }
    ensures { result ≡ find (hits kind first last) (flat blocks.now) }
{
    for b in blocks {
        if let Some(x) = first_of_block(b, kind, first, last) {
            return Some(x);
        }
        if last <= b.last_end() {
            return None;
        }
    }
    None
}

/// What the interval at the beginning of a range makes of the range, and the range of it.
fn begin_at(kind: Kind, first: u64, at: Option<Interval>) -> Edge
    ensures { result ≡ begin_at kind first at }
{
    match at {
        Some(x) if x.first < first => {
            if x.kind.is_same(kind) {
                Edge {
                    byte: x.first,
                    piece: None,
                    taken: 0,
                }
            } else {
                Edge {
                    byte: first,
                    piece: Some(Interval {
                        last: first - 1,
                        ..x
                    }),
                    taken: 0,
                }
            }
        }
        _ => Edge {
            byte: first,
            piece: None,
            taken: 0,
        },
    }
}

/// The same at its end, where the interval ends behind the range.
fn end_at(kind: Kind, last: u64, at: Option<Interval>) -> Edge
    requires { IfSome at (λ z. last < z.last) }
    ensures { result ≡ end_at kind last at }
{
    match at {
        Some(z) if kind.is_same(z.kind) && z.first.saturating_sub(1) <= last => Edge {
            byte: z.last,
            piece: None,
            taken: 1,
        },
        Some(z) if z.first <= last => Edge {
            byte: last,
            piece: Some(Interval {
                first: last + 1,
                ..z
            }),
            taken: 1,
        },
        _ => Edge {
            byte: last,
            piece: None,
            taken: 0,
        },
    }
}

/// What is left of the interval at the beginning of a range that is given up.
fn left_before(first: u64, at: Option<Interval>) -> Option<Interval>
    ensures { result ≡ left_before first at }
{
    match at {
        Some(x) if x.first < first => Some(Interval {
            last: first - 1,
            ..x
        }),
        _ => None,
    }
}

/// The same at its end, where the interval ends behind the range.
fn left_behind(last: u64, at: Option<Interval>) -> Option<Interval>
    requires { IfSome at (λ z. last < z.last) }
    ensures { result ≡ left_behind last at }
{
    match at {
        Some(z) if z.first <= last => Some(Interval {
            first: last + 1,
            ..z
        }),
        _ => None,
    }
}

/// Whether there are none.
fn is_none(blocks: &[Block]) -> bool
    requires { AreSome blocks.now }
    ensures { result ≡ is_empty (flat blocks.now) }
{
    blocks.is_empty()
}

/// How a byte is held.
fn kind_in(blocks: &[Block], byte: u64) -> Option<Kind>
    requires { AreBlocks blocks.now }
    ensures { result ≡ kind_at (flat blocks.now) byte }
{
    match at_place(blocks, place_before(blocks, byte)) {
        Some(x) if x.first <= byte => Some(x.kind),
        _ => None,
    }
}

/// The first and the last byte of intervals, where there are any.
fn span_of(blocks: &[Block]) -> (u64, u64)
    requires { AreBlocks blocks.now }
    ensures { IsSpan result.0 result.1 (flat blocks.now) }
{
    let Some(b) = blocks.last() else {
        return (u64::MAX, 0);
    };
    let Some(x) = at_place(blocks, Place { block: 0, at: 0 }) else {
        return (u64::MAX, 0);
    };
    (x.first, b.last_end())
}

/// The first interval that stands against a wish to lock the range.
fn hit_in(blocks: &[Block], kind: Kind, first: u64, last: u64) -> Option<Interval>
    requires { AreBlocks blocks.now }
    ensures { result ≡ find (hits kind first last) (flat blocks.now) }
{
    let from = block_before(blocks, first);
    first_in(&blocks[from..], kind, first, last)
}

/// An edit of intervals: what stands between two places goes, and up to three intervals come.
#[derive(Clone, Copy)]
pub(super) struct Edit {
    pub(super) from: Place,
    pub(super) to: Place,
    /// How many intervals behind `to` go too.
    pub(super) taken: usize,
    pub(super) left: Option<Interval>,
    pub(super) middle: Option<Interval>,
    pub(super) right: Option<Interval>,
}

/// The edit by which a range is held.
fn edit_to_set(blocks: &[Block], kind: Kind, first: u64, last: u64) -> Edit
    requires range { first ≤ last }
    requires blocks { AreBlocks blocks.now }
    ensures order { (result.from.block ≤ result.to.block) × (result.to.block ≤ length blocks.now) }
    ensures spliced { spliced result blocks.now ≡ with_range (record { kind = kind; first = first; last = last }) (flat blocks.now) }
{
    let from = place_before(blocks, first.saturating_sub(1));
    let to = place_by(blocks, last);
    let begin = begin_at(kind, first, at_place(blocks, from));
    let finish = end_at(kind, last, at_place(blocks, to));
    Edit {
        from,
        to,
        taken: finish.taken,
        left: begin.piece,
        middle: Some(Interval {
            kind,
            first: begin.byte,
            last: finish.byte,
        }),
        right: finish.piece,
    }
}

/// The edit by which a range is given up.
fn edit_to_clear(blocks: &[Block], first: u64, last: u64) -> Edit
    requires range { first ≤ last }
    requires blocks { AreBlocks blocks.now }
    ensures order { (result.from.block ≤ result.to.block) × (result.to.block ≤ length blocks.now) }
    ensures spliced { spliced result blocks.now ≡ without first last (flat blocks.now) }
{
    let from = place_before(blocks, first);
    let to = place_by(blocks, last);
    let left = left_before(first, at_place(blocks, from));
    let right = left_behind(last, at_place(blocks, to));
    Edit {
        from,
        to,
        taken: usize::from(right.is_some()),
        left,
        middle: None,
        right,
    }
}

/// What one owner holds of a file.
#[derive(Drop)]
pub(super) struct Intervals {
    blocks: Vec<Block>,
}

impl Model for Intervals {
    ghost use Rattle.std.specs.Prelude.{List};
    ghost use Rattle.nfs_ranges.specs.declared.interval.Interval.{Interval};
    ghost use Rattle.nfs_ranges.specs.Blocks.{flat, AreSome};

    ghost Value = { List Interval };

    ghost view = { λ v. flat v.blocks.items };

    ghost invariant = { λ v. AreSome v.blocks.items };
}

impl Intervals {
    /// One interval alone.
    pub(super) fn one(alloc: Global, interval: Interval) -> Result<Intervals, AllocError>
        ensures { IfOk result (λ v. v ≡ interval ∷ []) }
    {
        let mut blocks = Vec::with_capacity(alloc, 1)?;
        blocks.push(Block::one(alloc, interval)?)?;
        Ok(Intervals { blocks })
    }

    pub(super) fn is_empty(&self) -> bool
        ensures { result ≡ is_empty self.now }
    {
        is_none(&self.blocks)
    }

    /// How the byte is held.
    pub(super) fn kind_at(&self, byte: u64) -> Option<Kind>
        requires { IsCanonical self.now }
        ensures { result ≡ kind_at self.now byte }
    {
        kind_in(&self.blocks, byte)
    }

    /// What is known of the intervals at once. Unless `writes` none of them is held for writing.
    pub(super) fn span(&self, writes: bool) -> Span
        requires canonical { IsCanonical self.now }
        requires read { OnFalse writes (has_write self.now ≡ false) }
        ensures { IsSpanOf result self.now }
    {
        let (first, last) = span_of(&self.blocks);
        Span {
            first,
            last,
            writes,
        }
    }

    /// The first interval that stands against a wish to lock the range.
    pub(super) fn first_hit(&self, kind: Kind, first: u64, last: u64) -> Option<Interval>
        requires { IsCanonical self.now }
        ensures { result ≡ find (hits kind first last) self.now }
    {
        hit_in(&self.blocks, kind, first, last)
    }

    /// The bytes from `first` to `last` are held with this kind from now on.
    ///
    /// `Err`: no memory, and nothing has changed.
    pub(super) fn set(
        &mut self,
        alloc: Global,
        kind: Kind,
        first: u64,
        last: u64,
    ) -> Result<(), AllocError>
        requires range { first ≤ last }
        requires canonical { IsCanonical self.old }
        ensures ok { OnOk result (self.new ≡ with_range (record { kind = kind; first = first; last = last }) self.old) }
        ensures err { OnErr result (self.new ≡ self.old) }
    {
        let edit = edit_to_set(&self.blocks, kind, first, last);
        carry_out(&mut self.blocks, alloc, edit)
    }

    /// None of the bytes from `first` to `last` is held from now on.
    ///
    /// `Err`: no memory, and nothing has changed.
    pub(super) fn clear(&mut self, alloc: Global, first: u64, last: u64) -> Result<(), AllocError>
        requires range { first ≤ last }
        requires canonical { IsCanonical self.old }
        ensures ok { OnOk result (self.new ≡ without first last self.old) }
        ensures err { OnErr result (self.new ≡ self.old) }
    {
        let edit = edit_to_clear(&self.blocks, first, last);
        carry_out(&mut self.blocks, alloc, edit)
    }
}
