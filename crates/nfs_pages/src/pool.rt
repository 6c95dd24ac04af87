//! How many pages there may be, and those that are no file's any more, and wait to be dropped.

ghost use Rattle.std.specs.Prelude.{◌≡◌, ◌+◌, ◌≤◌, true, false};
ghost use Rattle.std.specs.BTreeMap.{btree_map_len};

use crate::budget::Budget;
use crate::pages::{FEW, Pages, drop_from};
use std::alloc::Global;
use std::marker::Model;

/// From where the pages of files come: how many there may be, and those that cuts and ends of files have left. Contracts
/// see in how many steps these are dropped: one for 64 pages that lie side by side, and one a lot.
///
/// How many pages are taken no contract sees: tests alone say that it is right. It is, since a page's memory comes in
/// `Page::make` or `Bytes::of`, and is counted there; and it goes where an extent is dropped or cut, whether a file's, one
/// that waits, or one that was refused its place, and is given back there by how much has memory then.
#[derive(Drop)]
pub struct Pool {
    /// How many pages there may be, and are.
    pub(crate) budget: Budget,
    /// The lot that is being dropped.
    first: Pages,
    /// The lots behind it.
    lots: Vec<Pages>,
}

impl Model for Pool {
    ghost use Rattle.std.specs.Prelude.{ℕ, ◌+◌};
    ghost use Rattle.nfs_pages.specs.Pool.{steps};

    ghost Value = { ℕ };

    ghost view = { λ p. steps p.first p.lots.items };
}

impl Pool {
    /// As many pages as memory holds, and nothing waits. What comes later grows by `alloc`.
    pub fn new(alloc: Global) -> Pool
        ensures { result ≡ 0 }
    {
        Pool {
            budget: Budget::UNBOUNDED,
            first: Pages::new(alloc),
            lots: Vec::new(alloc),
        }
    }

    /// Has so many pages at most from here on. Those that are taken stay, even if they are more.
    pub fn bound(&mut self, pages: u64)
        ensures { self.new ≡ self.old }
    {
        self.budget.most = pages;
    }

    /// Takes the pages back of bytes that nobody was given.
    pub fn take_back(&mut self, pages: u64)
        ensures { self.new ≡ self.old }
    {
        self.budget.give_back(pages);
    }

    /// Takes a lot: a few pages are dropped at once, and as many as there are where memory is refused for one lot more.
    pub(crate) fn take(&mut self, pages: Pages)
        ensures { self.new ≤ self.old + (btree_map_len pages.map + 1) }
    {
        if pages.map.len() <= FEW {
            drop_all(pages, &mut self.budget);
        } else if let Err(refused) = self.lots.push(pages) {
            drop_all(refused.value, &mut self.budget);
        }
    }

    /// Drops pages that lie side by side, or takes the next lot up. Answers false where nothing waits.
    fn step(&mut self) -> bool
        ensures some { result ≡ true → self.new + 1 ≡ self.old }
        ensures none { result ≡ false → self.new ≡ 0 }
    {
        if let Some((_, extent)) = self.first.map.pop_last() {
            self.budget.give_back(extent.taken());
            return true;
        }
        match self.lots.pop() {
            Some(next) => {
                self.first = next;
                true
            }
            None => false,
        }
    }

    /// Takes so many steps at most. Answers false where nothing waits any more.
    pub fn drop_some(&mut self, most: u32) -> bool
        ensures some { result ≡ true → self.new + most ≡ self.old }
        ensures none { result ≡ false → self.new ≡ 0 }
    {
        drop_some(self, most)
    }
}

fn drop_some(pool: &mut Pool, most: u32) -> bool
    ensures some { result ≡ true → pool.new + most ≡ pool.old }
    ensures none { result ≡ false → pool.new ≡ 0 }
{
    for done in 0..most {
        if !pool.step() {
            return false;
        }
    }
    true
}

/// Drops all of a lot.
fn drop_all(pages: Pages, budget: &mut Budget) {
    let mut pages = pages;
    drop_from(&mut pages, 0, budget);
}
