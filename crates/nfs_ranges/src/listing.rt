//! Locks in order of their first bytes, in blocks, so that a wish finds whom it meets without a look at each lock state.
//!
//! What is found is confirmed with the lock state itself, so that no contract needs more than that each lock is listed.

ghost use Rattle.std.specs.Prelude.{◌≡◌, ◌==◌, ◌<◌, ◌≤◌, ◌++◌, [], All, OnOk, OnErr, IfOk, length, drop, take, get_or, false, true, None};
ghost use Rattle.std.specs.Bool.{OnTrue, OnFalse};
ghost use Rattle.std.specs.List.{AllWithin};
ghost use Rattle.nfs_ranges.specs.declared.Held.{Held};
ghost use Rattle.nfs_ranges.specs.declared.Kind.TheVariants.{Write};
ghost use Rattle.nfs_ranges.specs.declared.listing.Wish.{Wish};
ghost use Rattle.nfs_ranges.specs.Blocks.{flat};
ghost use Rattle.nfs_ranges.specs.Listing.{Has, stands_against, IsBehind, Yields, IsReached, IsApart, IsIn, side};

use super::{Held, Kind};
use std::alloc::{AllocError, Global};
use std::marker::Model;

/// A block with so many locks is split before one comes.
const MOST: usize = 256;

/// Who wants to lock the bytes from `first` to `last`, and how.
#[derive(Clone, Copy)]
pub(super) struct Wish {
    pub(super) owner: u64,
    pub(super) kind: Kind,
    pub(super) first: u64,
    pub(super) last: u64,
}

/// The bytes from `first` to `last` of one lock state.
#[derive(Clone, Copy)]
pub(super) struct Part {
    pub(super) owner: u64,
    pub(super) first: u64,
    pub(super) last: u64,
}

/// What is known of locks at once: where the first begins and the farthest ends, and the lowest and the highest number.
#[derive(Clone, Copy)]
pub(super) struct Reach {
    pub(super) first: u64,
    pub(super) last: u64,
    pub(super) lowest: u64,
    pub(super) highest: u64,
}

impl Wish {
    /// The lock stands against it.
    fn meets(&self, held: &Held) -> bool
        ensures { result ≡ stands_against self.now held.now }
    {
        held.owner != self.owner
            && self.kind.meets(held.kind)
            && self.first <= held.last
            && held.first <= self.last
    }

    /// What is told, of what was found before and one lock more.
    fn sooner(&self, best: Option<Held>, held: &Held) -> Option<Held>
        ensures this { Yields self.now result held.now }
        ensures others { (h : Held) → Yields self.now best h → Yields self.now result h }
    {
        if !self.meets(held) {
            return best;
        }
        match best {
            Some(b) if !comes_before(self.first, held, b) => best,
            _ => Some(*held),
        }
    }
}

/// Of two that clash the first is told: it does so on a lower byte from `first` on, or on the same one with a lower number.
fn comes_before(first: u64, held: &Held, other: Held) -> bool
    ensures yes { OnTrue result (IsBehind first held.now other) }
    ensures no { OnFalse result (IsBehind first other held.now) }
{
    let (byte, least) = (held.first.max(first), other.first.max(first));
    byte < least || (byte == least && held.owner < other.owner)
}

impl Reach {
    /// Of no locks.
    fn none() -> Reach {
        Reach {
            first: u64::MAX,
            last: 0,
            lowest: u64::MAX,
            highest: 0,
        }
    }

    /// With one lock more.
    fn with(self, held: &Held) -> Reach
        ensures this { IsReached result held.now }
        ensures others { (h : Held) → IsReached self h → IsReached result h }
    {
        Reach {
            first: self.first.min(held.first),
            last: self.last.max(held.last),
            lowest: self.lowest.min(held.owner),
            highest: self.highest.max(held.owner),
        }
    }

    /// None of the locks stands against the wish: all are its lock state's own, or lie before it or behind it.
    fn is_apart(&self, wish: &Wish) -> bool
        ensures { OnTrue result ((h : Held) → IsReached self.now h → stands_against wish.now h ≡ false) }
    {
        (self.lowest == wish.owner && self.highest == wish.owner)
            || self.last < wish.first
            || wish.last < self.first
    }

    /// None of the locks is told in place of what was found.
    fn is_behind(&self, best: Option<Held>, first: u64) -> bool
        ensures { OnTrue result ((w : Wish) (h : Held) → w.first ≡ first → IsReached self.now h → Yields w best h) }
    {
        match best {
            Some(b) => {
                let (byte, least) = (b.first.max(first), self.first.max(first));
                byte < least || (byte == least && b.owner <= self.lowest)
            }
            None => false,
        }
    }

    /// Without the lock the rest may be known to reach less far.
    fn is_at_end(&self, held: &Held) -> bool {
        held.first == self.first
            || held.last == self.last
            || held.owner == self.lowest
            || held.owner == self.highest
    }
}

impl Part {
    /// The lock is of the lock state, and has a byte of these.
    fn meets(&self, held: &Held) -> bool
        ensures { OnTrue result (IsIn self.now held.now) }
    {
        held.owner == self.owner && self.first <= held.last && held.first <= self.last
    }
}

/// Locks that stand next to each other.
#[derive(Drop)]
struct Block {
    locks: Vec<Held>,
    reach: Reach,
}

impl Model for Block {
    ghost use Rattle.std.specs.Prelude.{List, All};
    ghost use Rattle.nfs_ranges.specs.declared.Held.{Held};
    ghost use Rattle.nfs_ranges.specs.Listing.{IsReached};

    ghost Value = { List Held };

    ghost view = { λ b. b.locks.items };

    ghost invariant = { λ b. All (IsReached b.reach) b.locks.items };
}

/// What is known of all of the locks.
fn reach_of(locks: &[Held]) -> Reach
    ensures { All (IsReached result) locks.now }
{
    let mut reach = Reach::none();
    for held in locks {
        reach = reach.with(held);
    }
    reach
}

/// What is told of a wish, of what was found before and of these locks.
fn soonest_of(locks: &[Held], best: Option<Held>, wish: &Wish) -> Option<Held>
    ensures these { All (Yields wish.now result) locks.now }
    ensures others { (h : Held) → Yields wish.now best h → Yields wish.now result h }
{
    let mut told = best;
    for held in locks {
        told = wish.sooner(told, held);
    }
    told
}

/// Behind those locks from a place on that are of the part.
fn end_of(locks: &[Held], from: usize, part: &Part) -> usize
    requires { from ≤ length locks.now }
    ensures order { (from ≤ result) × (result ≤ length locks.now) }
    ensures part { AllWithin (IsIn part.now) locks.now from result }
{
    let mut to = from;
    while to < locks.len() && part.meets(&locks[to]) {
        to += 1;
    }
    to
}

impl Block {
    fn empty(alloc: Global) -> Block
        ensures { result ≡ [] }
    {
        Block {
            locks: Vec::new(alloc),
            reach: Reach::none(),
        }
    }

    fn is_empty(&self) -> bool
        ensures { result ≡ (length self.now == 0) }
    {
        self.locks.is_empty()
    }

    /// Its last lock stands before this one.
    fn ends_before(&self, held: Held) -> bool {
        match self.locks.last() {
            Some(last) => stands_before(last, held),
            None => false,
        }
    }

    /// Where the lock belongs.
    fn place_of(&self, held: Held) -> usize
        ensures { result ≤ length self.now }
    {
        self.locks
            .partition_point(|other| stands_before(other, held))
    }

    /// Whether what is known of them at once shows that the wish meets none.
    fn is_apart(&self, wish: &Wish) -> bool
        ensures { OnTrue result (All (λ h. stands_against wish.now h ≡ false) self.now) }
    {
        self.reach.is_apart(wish)
    }

    /// What is told of a wish, of what was found before and of these locks.
    fn soonest(&self, best: Option<Held>, wish: &Wish) -> Option<Held>
        ensures these { All (Yields wish.now result) self.now }
        ensures others { (h : Held) → Yields wish.now best h → Yields wish.now result h }
    {
        if self.is_apart(wish) || self.reach.is_behind(best, wish.first) {
            return best;
        }
        soonest_of(&self.locks, best, wish)
    }

    /// One lock more.
    ///
    /// `Err`: no memory.
    fn insert(&mut self, held: Held) -> Result<(), AllocError>
        ensures ok { OnOk result (Has self.new held) }
        ensures others { (h : Held) → Has self.old h → Has self.new h }
    {
        let place = self.place_of(held);
        self.reach = self.reach.with(&held);
        self.locks.insert(place, held)?;
        Ok(())
    }

    /// The locks of the part go that stand next to each other from this lock on. Returns where the last of them ends.
    fn cut(&mut self, held: Held, part: &Part) -> u64
        ensures { (h : Held) → IsApart part.now h → Has self.old h → Has self.new h }
    {
        let from = self.place_of(held);
        let to = end_of(&self.locks, from, part);
        if from == to {
            return held.last;
        }
        let last = self.locks[to - 1];
        let stays = to == from + 1 && !self.reach.is_at_end(&last);
        self.locks.drain(from..to);
        if !stays {
            self.reach = reach_of(&self.locks);
        }
        last.last
    }

    /// The second half of the locks goes into a block of its own; nothing does if one comes behind them.
    ///
    /// `Err`: no memory, and nothing has changed.
    fn split(&mut self, held: Held) -> Result<Block, AllocError>
        ensures both { IfOk result (λ b. self.new ++ b ≡ self.old) }
        ensures err { OnErr result (self.new ≡ self.old) }
    {
        let place = self.place_of(held);
        let count = self.locks.len();
        let cut = if place == count { count } else { count / 2 };
        let locks = self.locks.split_off(cut)?;
        self.reach = reach_of(&self.locks);
        let reach = reach_of(&locks);
        Ok(Block { locks, reach })
    }
}

/// In the order of locks one stands before another: it begins at a lower byte, or at the same one with a lower number.
fn stands_before(held: &Held, other: Held) -> bool {
    held.first < other.first || (held.first == other.first && held.owner < other.owner)
}

/// Locks of one kind.
#[derive(Drop)]
pub(super) struct Listing {
    blocks: Vec<Block>,
}

impl Model for Listing {
    ghost use Rattle.std.specs.Prelude.{List};
    ghost use Rattle.nfs_ranges.specs.declared.Held.{Held};
    ghost use Rattle.nfs_ranges.specs.Blocks.{flat};

    ghost Value = { List Held };

    ghost view = { λ l. flat l.blocks.items };
}

/// The block to which a lock belongs: the first that does not end before it, or else the last.
fn block_of(blocks: &[Block], held: Held) -> usize
    requires { 0 < length blocks.now }
    ensures { result < length blocks.now }
{
    blocks
        .partition_point(|b| b.ends_before(held))
        .min(blocks.len() - 1)
}

/// The first block from a place on that a wish may meet.
fn next_met(blocks: &[Block], from: usize, wish: &Wish) -> usize
    requires { from ≤ length blocks.now }
    ensures order { (from ≤ result) × (result ≤ length blocks.now) }
    ensures apart { AllWithin (All (λ h. stands_against wish.now h ≡ false)) blocks.now from result }
{
    let mut at = from;
    while at < blocks.len() && blocks[at].is_apart(wish) {
        at += 1;
    }
    at
}

/// What is told of a wish, of what was found before and of these blocks.
fn soonest_in(blocks: &[Block], best: Option<Held>, wish: &Wish) -> Option<Held>
    ensures these { All (All (Yields wish.now result)) blocks.now }
    ensures others { (h : Held) → Yields wish.now best h → Yields wish.now result h }
{
    let mut told = best;
    let mut at = 0;
    while at < blocks.len() {
        told = blocks[at].soonest(told, wish);
        at = next_met(blocks, at + 1, wish);
    }
    told
}

/// There is a block, into which a lock can come.
///
/// `Err`: no memory.
fn begin(blocks: &mut Vec<Block>, alloc: Global) -> Result<(), AllocError>
    ensures same { flat blocks.new.items ≡ flat blocks.old.items }
    ensures ok { OnOk result (0 < length blocks.new.items) }
{
    if blocks.is_empty() {
        blocks.push(Block::empty(alloc))?;
    }
    Ok(())
}

/// A block that is full becomes two, before a lock comes.
///
/// `Err`: no memory.
fn split_full(blocks: &mut Vec<Block>, at: usize, held: Held) -> Result<(), AllocError>
    requires { at < length blocks.old.items }
    ensures same { flat blocks.new.items ≡ flat blocks.old.items }
    ensures bound { length blocks.old.items ≤ length blocks.new.items }
{
    if blocks[at].locks.len() < MOST {
        return Ok(());
    }
    blocks.reserve(1)?;
    let behind = blocks[at].split(held)?;
    blocks.insert(at + 1, behind).unwrap();
    Ok(())
}

impl Listing {
    pub(super) fn new(alloc: Global) -> Listing
        ensures { result ≡ [] }
    {
        Listing {
            blocks: Vec::new(alloc),
        }
    }

    /// What is told of a wish, of what was found before and of these locks.
    fn soonest(&self, best: Option<Held>, wish: &Wish) -> Option<Held>
        ensures these { (h : Held) → Has self.now h → Yields wish.now result h }
        ensures others { (h : Held) → Yields wish.now best h → Yields wish.now result h }
    {
        soonest_in(&self.blocks, best, wish)
    }

    /// One lock more.
    ///
    /// `Err`: no memory.
    fn insert(&mut self, alloc: Global, held: Held) -> Result<(), AllocError>
        ensures ok { OnOk result (Has self.new held) }
        ensures others { (h : Held) → Has self.old h → Has self.new h }
    {
        begin(&mut self.blocks, alloc)?;
        let full = block_of(&self.blocks, held);
        split_full(&mut self.blocks, full, held)?;
        let at = block_of(&self.blocks, held);
        self.blocks[at].insert(held)
    }

    /// The locks of the part go that stand next to each other from this lock on. Returns where the last of them ends.
    fn cut(&mut self, held: Held, part: &Part) -> u64
        ensures { (h : Held) → IsApart part.now h → Has self.old h → Has self.new h }
    {
        if self.blocks.is_empty() {
            return held.last;
        }
        let at = block_of(&self.blocks, held);
        let last = self.blocks[at].cut(held, part);
        if self.blocks[at].is_empty() {
            let _ = self.blocks.remove(at);
        }
        last
    }
}

/// The locks of a file: those for reading, and those for writing.
#[derive(Drop)]
pub(super) struct Listings {
    pub(super) reads: Listing,
    pub(super) writes: Listing,
}

impl Listings {
    pub(super) fn new(alloc: Global) -> Listings
        ensures { (result.reads ≡ []) × (result.writes ≡ []) }
    {
        Listings {
            reads: Listing::new(alloc),
            writes: Listing::new(alloc),
        }
    }

    /// What is told of a wish.
    pub(super) fn soonest(&self, wish: &Wish) -> Option<Held>
        ensures writes { (h : Held) → Has self.now.writes h → Yields wish.now result h }
        ensures reads { wish.now.kind ≡ Write → (h : Held) → Has self.now.reads h → Yields wish.now result h }
    {
        let best = self.writes.soonest(None, wish);
        match wish.kind {
            Kind::Read => best,
            Kind::Write => self.reads.soonest(best, wish),
        }
    }

    /// One lock more.
    ///
    /// `Err`: no memory.
    pub(super) fn insert(&mut self, alloc: Global, held: Held) -> Result<(), AllocError>
        ensures ok { OnOk result (Has (side held.kind self.new.reads self.new.writes) held) }
        ensures reads { (h : Held) → Has self.old.reads h → Has self.new.reads h }
        ensures writes { (h : Held) → Has self.old.writes h → Has self.new.writes h }
    {
        match held.kind {
            Kind::Read => self.reads.insert(alloc, held),
            Kind::Write => self.writes.insert(alloc, held),
        }
    }

    /// The locks of the part go that stand next to each other from this lock on. Returns where the last of them ends.
    pub(super) fn cut(&mut self, held: Held, part: &Part) -> u64
        ensures reads { (h : Held) → IsApart part.now h → Has self.old.reads h → Has self.new.reads h }
        ensures writes { (h : Held) → IsApart part.now h → Has self.old.writes h → Has self.new.writes h }
    {
        match held.kind {
            Kind::Read => self.reads.cut(held, part),
            Kind::Write => self.writes.cut(held, part),
        }
    }
}
