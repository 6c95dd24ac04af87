//! Values that are looked up by rising numbers.

ghost use Rattle.std.specs.Prelude.{◌≡◌, ℕ, Some, option_copied, option_map, IfSome};
ghost use Rattle.nfs_xdr.specs.Tables.{In, record_at};

use crate::shelf::Kept;
use slab::Slab;
use std::alloc::Global;
use std::collections::BTreeMap;
use std::collections::btree_map::Range;
use std::marker::{Model, PhantomData};
use std::ops::Bound;

/// Values that are looked up by rising numbers, where the next one or the one behind it is often the one that is looked
/// for. Contracts see the list of them.
#[derive(Drop)]
pub(crate) struct Rising<'a, K: Kept<T>, T> {
    pub(crate) slab: &'a Slab<K>,
    pub(crate) keys: &'a BTreeMap<u64, u32, Global>,
    /// Those of the keys that were not looked at.
    pub(crate) next: Range<'a, u64, u32>,
    pub(crate) of: PhantomData<T>,
}

impl<'a, K: Kept<T>, T> Model for Rising<'a, K, T> {
    ghost use Rattle.std.specs.Prelude.{List, ℕ};
    ghost use Rattle.slab.specs.Slab.{get};
    ghost use Rattle.nfs_xdr.specs.Tables.{In};
    ghost use Rattle.nfs_tree.specs.Indexed.{stored, IsShelf};

    ghost Value = { List T };

    ghost view = { λ t. stored K.made (get t.slab.now) t.keys.now.entries };

    ghost invariant = { λ t. IsShelf K.made K.number (get t.slab.now) t.keys.now.entries × ((e : ℕ × ℕ) → In e t.next → In e t.keys.now.entries) };
}

/// The key of a number, where it is the next.
fn hit_once(next: &mut Range<'_, u64, u32>, number: u64) -> Option<u32>
    ensures hit { IfSome result (λ key. In (number, key) next.old) }
    ensures rest { (e : ℕ × ℕ) → In e next.new → In e next.old }
{
    let Some((found, key)) = next.next() else {
        return None;
    };
    if *found == number { Some(*key) } else { None }
}

/// The key of a number, where it is one of the next two.
fn hit(next: &mut Range<'_, u64, u32>, number: u64) -> Option<u32>
    ensures hit { IfSome result (λ key. In (number, key) next.old) }
    ensures rest { (e : ℕ × ℕ) → In e next.new → In e next.old }
{
    match hit_once(next, number) {
        Some(key) => Some(key),
        None => hit_once(next, number),
    }
}

impl<'a, K: Kept<T>, T> Rising<'a, K, T> {
    /// What is kept under a number, by a search among all.
    pub(crate) fn sought(&self, number: u64) -> Option<&'a K>
        ensures { option_map (K.made number) (option_copied result) ≡ record_at K.number self.now number }
    {
        match self.keys.get(&number) {
            None => None,
            Some(key) => self.slab.get(*key as usize),
        }
    }

    /// What is kept under a number, where it is one of the next two.
    pub(crate) fn near(&mut self, number: u64) -> Option<&'a K>
        ensures found { IfSome result (λ k. Some (K.made number k.now) ≡ record_at K.number self.old number) }
        ensures same { self.new ≡ self.old }
    {
        match hit(&mut self.next, number) {
            Some(key) => self.slab.get(key as usize),
            None => None,
        }
    }

    /// What is kept under a number.
    pub(crate) fn get(&mut self, number: u64) -> Option<&'a K>
        ensures found { option_map (K.made number) (option_copied result) ≡ record_at K.number self.old number }
        ensures same { self.new ≡ self.old }
    {
        match self.near(number) {
            Some(value) => Some(value),
            None => self.sought(number),
        }
    }

    /// Goes on behind a number.
    pub(crate) fn go_behind(&mut self, number: u64)
        ensures { self.new ≡ self.old }
    {
        self.next = self.keys.range((Bound::Excluded(number), Bound::Unbounded));
    }
}
