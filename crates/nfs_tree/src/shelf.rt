//! Values by rising numbers: a slab, and an ordered map that leads from a number to the key in it.

ghost use Rattle.std.specs.Prelude.{◌≡◌, ◌^◌, ◌<◌, ◌≤◌, ◌++◌, ◌∷◌, [], ℕ, length, option_copied, option_map, OnOk, OnErr, IfSome};
ghost use Rattle.std.specs.Option.{option_copied_mut};
ghost use Rattle.std.specs.Ordering.{nat_cmp};
ghost use Rattle.std.specs.BTreeMap.{is_at};
ghost use Rattle.std.specs.Map.{lookup};
ghost use Rattle.std.specs.Borrow.{LendsIf, sem};
ghost use Rattle.slab.specs.Slab.{Updates, get};
ghost use Rattle.nfs_xdr.specs.Tables.{IsRising, In, record_at, with_record, without_record};

use crate::key::short_key;
use crate::rising::Rising;
use slab::Slab;
use std::alloc::{AllocError, Global};
use std::collections::BTreeMap;
use std::marker::{Model, PhantomData};
use std::ops::Bound;

/// What is kept of a `T` under its number, which the map has and the value leaves out.
pub(crate) trait Kept<T>: Drop {
    ghost use Rattle.std.specs.Prelude.{ℕ, ◌≡◌};

    ghost made: { ℕ → Self → T };

    ghost number: { T → ℕ };

    ghost numbers: { (n : ℕ) (k : Self) → number (made n k) ≡ n };
}

/// Values by their numbers. Contracts see the list of what they are with them, in rising order, and how many have room.
#[derive(Drop)]
pub(crate) struct Shelf<K: Kept<T>, T> {
    slab: Slab<K>,
    keys: BTreeMap<u64, u32, Global>,
    of: PhantomData<T>,
}

impl<K: Kept<T>, T> Model for Shelf<K, T> {
    ghost use Rattle.slab.specs.Slab.{get};
    ghost use Rattle.nfs_tree.specs.Indexed.{stored, Shelved, IsShelf};

    ghost Value = { Shelved T };

    ghost view = { λ t. record { items = stored K.made (get t.slab) t.keys.entries; room = t.slab.capacity } };

    ghost invariant = { λ t. IsShelf K.made K.number (get t.slab) t.keys.entries };
}

impl<K: Kept<T>, T> Shelf<K, T> {
    ghost use Rattle.nfs_tree.specs.contracts.shelf.Shelf.{the_row};

    /// Nothing. What comes later grows by `alloc`.
    pub(crate) fn new(alloc: Global) -> Self
        ensures items { result.items ≡ [] }
        ensures room { result.room ≡ 0 }
    {
        Shelf {
            slab: Slab::new(alloc),
            keys: BTreeMap::new(alloc),
            of: PhantomData,
        }
    }

    pub(crate) fn len(&self) -> usize
        ensures { result ≡ length self.now.items }
    {
        self.keys.len()
    }

    /// What always holds; moves nothing.
    pub(crate) fn kept(&self)
        ensures rising { (high : ℕ) × IsRising K.number 0 self.now.items high }
        ensures few { length self.now.items < 2 ^ 63 }
    {
        let _ = self.keys.len();
    }

    /// What is kept under a number.
    pub(crate) fn get(&self, number: u64) -> Option<&K>
        ensures { option_map (K.made number) (option_copied result) ≡ record_at K.number self.now.items number }
    {
        match self.keys.get(&number) {
            None => None,
            Some(key) => self.slab.get(*key as usize),
        }
    }

    /// What is kept under a number, with the key at which it stands.
    pub(crate) fn get_at(&self, number: u64) -> Option<(u32, &K)>
        ensures { option_map (λ r. K.made number r.1.now) result ≡ record_at K.number self.now.items number }
    {
        match self.keys.get(&number) {
            None => None,
            Some(key) => match self.slab.get(*key as usize) {
                None => None,
                Some(value) => Some((*key, value)),
            },
        }
    }

    /// What stands at a key.
    pub(crate) fn at(&self, key: u32) -> Option<&K>
        ensures { IfSome result (λ k. (n : ℕ) × In (K.made n k.now) self.now.items) }
    {
        self.slab.get(key as usize)
    }

    /// What is kept under a number, to be changed.
    pub(crate) fn get_mut(&mut self, number: u64) -> Option<&mut K>
        ensures* writes_back { sem 𝓛 (LendsIf (the_row K.row T.row K.Kept) K.row self.entry result (λ w. record self.entry.now { items = with_record K.number self.entry.now.items number (λ _. K.made number w) }) self.entry.now) }
        ensures value { option_map (K.made number) (option_copied_mut result) ≡ record_at K.number self.old.items number }
        ensures one { IfSome result (λ k. (x : T) → In x self.old.items → K.number x ≡ number → x ≡ K.made number k.now) }
    {
        match key_of(&self.keys, number) {
            None => None,
            Some(key) => self.slab.get_mut(key as usize),
        }
    }

    /// The values, to be looked up by rising numbers behind this one.
    pub(crate) fn rising(&self, number: u64) -> Rising<'_, K, T>
        ensures { result ≡ self.now.items }
    {
        Rising {
            slab: &self.slab,
            keys: &self.keys,
            next: self.keys.range((Bound::Excluded(number), Bound::Unbounded)),
            of: PhantomData,
        }
    }

    /// How many keys there may be before the values want memory again.
    pub(crate) fn room(&self) -> usize
        ensures { result ≡ self.now.room }
    {
        self.slab.capacity()
    }

    /// Room for the kept part of one more.
    pub(crate) fn reserve(&mut self) -> Result<(), AllocError>
        ensures items { self.new.items ≡ self.old.items }
        ensures room { self.old.room ≤ self.new.room }
    {
        self.slab.reserve(1)
    }

    /// Puts a value behind the others.
    pub(crate) fn push(&mut self, number: u64, value: K) -> Result<(), AllocError>
        requires { IsRising K.number 0 self.old.items number }
        ensures ok { OnOk result (self.new.items ≡ self.old.items ++ K.made number value ∷ []) }
        ensures err { OnErr result (self.new.items ≡ self.old.items) }
        ensures room { self.old.room ≤ self.new.room }
    {
        self.slab.reserve(1)?;
        let key = short_key(self.slab.vacant_key())?;
        self.keys.insert(number, key)?;
        self.slab.insert_reserved(value);
        Ok(())
    }

    /// Takes out what is kept under a number.
    pub(crate) fn remove(&mut self, number: u64) -> Option<K>
        ensures taken { option_map (K.made number) result ≡ record_at K.number self.old.items number }
        ensures items { self.new.items ≡ without_record K.number self.old.items number }
        ensures room { self.new.room ≡ self.old.room }
    {
        match self.keys.remove(&number) {
            Some(key) => take_at(&mut self.slab, key as usize),
            None => None,
        }
    }
}

/// The key to which a number leads.
fn key_of(keys: &BTreeMap<u64, u32, Global>, number: u64) -> Option<u32>
    ensures { result ≡ lookup (is_at (nat_cmp number)) keys.now.entries }
{
    match keys.get(&number) {
        None => None,
        Some(key) => Some(*key),
    }
}

/// Takes out what stands at a key.
fn take_at<K: Drop>(slab: &mut Slab<K>, key: usize) -> Option<K>
    ensures taken { result ≡ get slab.old key }
    ensures updates { Updates slab.old slab.new key None }
    ensures capacity { slab.new.capacity ≡ slab.old.capacity }
{
    slab.try_remove(key)
}
