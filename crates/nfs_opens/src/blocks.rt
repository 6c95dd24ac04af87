//! A list in blocks, so that an item that comes or goes moves those of its block alone.

ghost use Rattle.std.specs.Prelude.{◌≡◌, ◌≢◌, ◌+◌, ◌/◌, ◌<◌, ◌≤◌, ◌++◌, ◌∷◌, [], true, false, length, min, vec_capacity, List, slice_get, slice_index_or, Some, None, IfSome, IfNone, IfOk, OnOk, ℕ, nat_lt};
ghost use Rattle.std.specs.Option.{option_copied};
ghost use Rattle.nfs_ranges.specs.Edits.{lead};
ghost use Rattle.nfs_ranges.specs.Blocks.{flat, AreSome};
ghost use Rattle.nfs_opens.specs.Blocks.{IsParted, found, added, removed, changed, passes, items_in};
ghost use Rattle.nfs_opens.specs.StateId.{last_number};

use std::alloc::{AllocError, Global};
use std::marker::Model;

/// What lies in blocks.
pub(crate) trait InBlocks: Drop {
    ghost use Rattle.std.specs.Prelude.{ℕ, ◌<◌};

    /// A block has fewer items, and room for so many.
    const MOST: usize;

    ghost MOST: { ℕ };

    ghost several: { 1 < MOST };
}

/// What is sought: the first item that does not stand before it, if it is that one.
pub(crate) trait Search<T> {
    ghost use Rattle.std.specs.Prelude.{Bool, ◌≡◌};

    ghost before: { Self → T → Bool };

    ghost is: { Self → T → Bool };

    /// Whether an item stands before what is sought.
    fn skips(&self, item: &T) -> bool
        ensures { result ≡ before self.now item.now };

    /// Whether an item is the one sought, where it is the first that does not stand before it.
    fn finds(&self, item: &T) -> bool
        ensures { result ≡ is self.now item.now };
}

/// A change of an item.
pub(crate) trait Change<T> {
    ghost use Rattle.std.specs.Prelude.{◌≡◌};

    ghost changed: { Self → T → T };

    fn make(&self, item: &mut T)
        ensures { item.new ≡ changed self.now item.old };
}

/// Items that stand next to each other.
#[derive(Drop)]
struct Block<T: InBlocks> {
    items: Vec<T>,
}

impl<T: InBlocks> Model for Block<T> {
    ghost use Rattle.std.specs.Prelude.{List, ◌<◌, ◌≤◌, length, vec_capacity};

    ghost Value = { List T };

    ghost view = { λ b. b.items.items };

    ghost invariant = { λ b. (length b.items.items < T.MOST) × (T.MOST ≤ vec_capacity b.items) };
}

/// How many items stand before what is sought.
fn place_of<T, S: Search<T>>(items: &[T], of: &S) -> usize
    requires { IsParted (S.before of.now) items.now }
    ensures place { result ≡ lead (S.before of.now) items.now }
    ensures bound { result ≤ length items.now }
{
    items.partition_point(|item| of.skips(item))
}

/// What stands at a place.
fn item_at<T>(items: &[T], place: usize) -> Option<&T>
    ensures { option_copied result ≡ slice_get items.now place }
{
    items.get(place)
}

/// The place of what is sought.
fn place_with<T, S: Search<T>>(items: &[T], of: &S) -> Option<usize>
    requires { IsParted (S.before of.now) items.now }
    ensures place { IfSome result (λ i. i ≡ lead (S.before of.now) items.now) }
    ensures bound { IfSome result (λ i. i < length items.now) }
    ensures found { IfSome result (λ i. found (S.before of.now) (S.is of.now) items.now ≡ slice_get items.now i) }
    ensures none { IfNone result (found (S.before of.now) (S.is of.now) items.now ≡ None) }
{
    let place = place_of(items, of);
    match item_at(items, place) {
        Some(item) if of.finds(item) => Some(place),
        _ => None,
    }
}

/// The second half of what is full goes to the tail.
fn split<T: InBlocks>(items: &mut Vec<T>, tail: &mut Vec<T>)
    requires full { length items.old.items ≡ T.MOST }
    requires empty { tail.old.items ≡ [] }
    requires room { T.MOST ≤ vec_capacity tail.old }
    ensures items { items.new.items ++ tail.new.items ≡ items.old.items }
    ensures half { length items.new.items ≡ T.MOST / 2 }
    ensures room { vec_capacity items.new ≡ vec_capacity items.old }
    ensures tail_room { T.MOST ≤ vec_capacity tail.new }
{
    while items.len() > T::MOST / 2 {
        let last = items.pop().unwrap();
        tail.push(last).unwrap();
    }
    tail.reverse();
}

impl<T: InBlocks> Block<T> {
    /// No items.
    fn new(alloc: Global) -> Result<Block<T>, AllocError>
        ensures { IfOk result (λ b. b ≡ []) }
    {
        let items = Vec::with_capacity(alloc, T::MOST)?;
        Ok(Block { items })
    }

    fn len(&self) -> usize
        ensures { result ≡ length self.now }
    {
        self.items.len()
    }

    /// Whether one more may come at the end.
    fn has_room(&self) -> bool
        ensures { result ≡ nat_lt (length self.now + 1) T.MOST }
    {
        self.items.len() + 1 < T::MOST
    }

    /// Whether all stand before what is sought.
    fn passes<S: Search<T>>(&self, of: &S) -> bool
        ensures { result ≡ passes (S.before of.now) self.now }
    {
        match self.items.last() {
            Some(item) => of.skips(item),
            None => true,
        }
    }

    fn find<S: Search<T>>(&self, of: &S) -> Option<&T>
        requires { IsParted (S.before of.now) self.now }
        ensures { option_copied result ≡ found (S.before of.now) (S.is of.now) self.now }
    {
        match place_with(&self.items, of) {
            Some(place) => Some(&self.items[place]),
            None => None,
        }
    }

    /// An item comes behind all others.
    fn push(&mut self, new: T)
        requires { length self.old + 1 < T.MOST }
        ensures { self.new ≡ self.old ++ new ∷ [] }
    {
        self.items.push(new).unwrap();
    }

    /// An item comes to where it is sought. Where the block is full then, the spare one takes its second half and is handed out.
    fn add<S: Search<T>>(
        &mut self,
        of: &S,
        new: T,
        spare: &mut Option<Block<T>>,
    ) -> Option<Block<T>>
        requires parted { IsParted (S.before of.now) self.old }
        requires spare { spare.old ≡ Some [] }
        ensures items { self.new ++ items_in result ≡ added (S.before of.now) new self.old }
        ensures some { self.new ≢ [] }
        ensures tail { IfSome result (λ t. (t ≢ []) × (spare.new ≡ None)) }
        ensures stays { result ≡ None → spare.new ≡ spare.old }
    {
        let place = place_of(&self.items, of);
        self.items.insert(place, new).unwrap();
        if self.items.len() < T::MOST {
            return None;
        }
        let mut tail = spare.take().unwrap();
        split(&mut self.items, &mut tail.items);
        Some(tail)
    }

    /// What is sought goes. Whether an item stays.
    fn remove<S: Search<T>>(&mut self, of: &S) -> bool
        requires { IsParted (S.before of.now) self.old }
        ensures items { self.new ≡ removed (S.before of.now) (S.is of.now) self.old }
        ensures some { result ≡ true → self.new ≢ [] }
        ensures none { result ≡ false → self.new ≡ [] }
    {
        if let Some(place) = place_with(&self.items, of) {
            let _ = self.items.remove(place);
        }
        !self.items.is_empty()
    }

    /// What is sought changes.
    fn change<S: Search<T>, C: Change<T>>(&mut self, of: &S, change: &C)
        requires { IsParted (S.before of.now) self.old }
        ensures items { self.new ≡ changed (S.before of.now) (S.is of.now) (C.changed change.now) self.old }
        ensures some { self.old ≢ [] → self.new ≢ [] }
    {
        if let Some(place) = place_with(&self.items, of) {
            change.make(&mut self.items[place]);
        }
    }
}

/// A list in blocks. One more item may come while a block is spare.
#[derive(Drop)]
pub(crate) struct Blocks<T: InBlocks> {
    blocks: Vec<Block<T>>,
    spare: Option<Block<T>>,
}

impl<T: InBlocks> Model for Blocks<T> {
    ghost use Rattle.std.specs.Prelude.{vec_capacity, is_some};
    ghost use Rattle.nfs_ranges.specs.Blocks.{flat};
    ghost use Rattle.nfs_opens.specs.Blocks.{Listed, AreBlocks};

    ghost Value = { Listed T };

    ghost view = { λ x. record { items = flat x.blocks.items; ready = is_some x.spare } };

    ghost invariant = { λ x. AreBlocks x.blocks.items (vec_capacity x.blocks) x.spare };
}

/// How many blocks stand before what is sought.
fn block_of<T: InBlocks, S: Search<T>>(blocks: &[Block<T>], of: &S) -> usize
    requires some { AreSome blocks.now }
    requires parted { IsParted (S.before of.now) (flat blocks.now) }
    ensures place { result ≡ lead (passes (S.before of.now)) blocks.now }
    ensures bound { result ≤ length blocks.now }
{
    blocks.partition_point(|b| b.passes(of))
}

/// The place of the last block, where it has room for one more item at its end.
fn place_with_room<T: InBlocks>(blocks: &[Block<T>]) -> Option<usize>
    ensures { IfSome result (λ i. (length blocks.now ≡ i + 1) × ((d : List T) → length (slice_index_or blocks.now i d) + 1 < T.MOST)) }
{
    if blocks.is_empty() {
        return None;
    }
    let last = blocks.len() - 1;
    if !blocks[last].has_room() {
        return None;
    }
    Some(last)
}

/// How many items lie in these blocks, or the greatest number where there are more.
fn count_in<T: InBlocks>(blocks: &[Block<T>]) -> u64
    ensures { result ≡ min (length (flat blocks.now)) last_number }
{
    let mut count: u64 = 0;
    for place in 0..blocks.len() {
        count = count.saturating_add(blocks[place].len() as u64);
    }
    count
}

impl<T: InBlocks> Blocks<T> {
    /// No items.
    pub(crate) fn new(alloc: Global) -> Self
        ensures { result.items ≡ [] }
    {
        Blocks {
            blocks: Vec::new(alloc),
            spare: None,
        }
    }

    /// How many items there are, or the greatest number where there are more.
    pub(crate) fn len(&self) -> u64
        ensures { result ≡ min (length self.now.items) last_number }
    {
        count_in(&self.blocks)
    }

    /// What is sought.
    pub(crate) fn find<S: Search<T>>(&self, of: &S) -> Option<&T>
        requires { IsParted (S.before of.now) self.now.items }
        ensures { option_copied result ≡ found (S.before of.now) (S.is of.now) self.now.items }
    {
        match item_at(&self.blocks, block_of(&self.blocks, of)) {
            Some(block) => block.find(of),
            None => None,
        }
    }

    /// Room for one more item.
    pub(crate) fn reserve(&mut self, alloc: Global) -> Result<(), AllocError>
        ensures items { self.new.items ≡ self.old.items }
        ensures ok { OnOk result (self.new.ready ≡ true) }
        ensures kept { self.old.ready ≡ true → self.new.ready ≡ true }
    {
        if self.spare.is_some() {
            return Ok(());
        }
        self.blocks.reserve(1)?;
        self.spare = Some(Block::new(alloc)?);
        Ok(())
    }

    /// An item comes behind all others. It takes no memory.
    pub(crate) fn push(&mut self, new: T)
        requires { self.old.ready ≡ true }
        ensures { self.new.items ≡ self.old.items ++ new ∷ [] }
    {
        if let Some(last) = place_with_room(&self.blocks) {
            self.blocks[last].push(new);
            return;
        }
        let mut block = self.spare.take().unwrap();
        block.push(new);
        self.blocks.push(block).unwrap();
    }

    /// An item comes to where it is sought. It takes no memory.
    pub(crate) fn add<S: Search<T>>(&mut self, of: &S, new: T)
        requires ready { self.old.ready ≡ true }
        requires parted { IsParted (S.before of.now) self.old.items }
        ensures { self.new.items ≡ added (S.before of.now) new self.old.items }
    {
        let place = block_of(&self.blocks, of);
        if place == self.blocks.len() {
            self.push(new);
            return;
        }
        if let Some(tail) = self.blocks[place].add(of, new, &mut self.spare) {
            self.blocks.insert(place + 1, tail).unwrap();
        }
    }

    /// What is sought goes.
    pub(crate) fn remove<S: Search<T>>(&mut self, of: &S)
        requires { IsParted (S.before of.now) self.old.items }
        ensures items { self.new.items ≡ removed (S.before of.now) (S.is of.now) self.old.items }
        ensures ready { self.new.ready ≡ self.old.ready }
    {
        let place = block_of(&self.blocks, of);
        if place == self.blocks.len() {
            return;
        }
        let stays = self.blocks[place].remove(of);
        if !stays {
            let _ = self.blocks.remove(place);
        }
    }

    /// What is sought changes.
    pub(crate) fn change<S: Search<T>, C: Change<T>>(&mut self, of: &S, change: &C)
        requires { IsParted (S.before of.now) self.old.items }
        ensures items { self.new.items ≡ changed (S.before of.now) (S.is of.now) (C.changed change.now) self.old.items }
        ensures ready { self.new.ready ≡ self.old.ready }
    {
        let place = block_of(&self.blocks, of);
        if place < self.blocks.len() {
            self.blocks[place].change(of, change);
        }
    }
}
