//! All lock states.

ghost use Rattle.std.specs.Prelude.{◌≡◌, ◌==◌, ◌&&◌, ◌<◌, ◌++◌, ◌∷◌, [], true, not, length, find, filter, map, nat_lt, min, if◌then◌else◌, OnOk};
ghost use Rattle.std.specs.Option.{option_copied};
ghost use Rattle.std.specs.List.{list_any};
ghost use Rattle.nfs_xdr.specs.Tables.{In};
ghost use Rattle.nfs_opens.specs.Keys.{lock_key, key_of};
ghost use Rattle.nfs_opens.specs.TableInvariants.{Rises};
ghost use Rattle.nfs_opens.specs.Locking.{raised};
ghost use Rattle.nfs_opens.specs.StateId.{last_number};

use crate::by_number::ByNumber;
use crate::index::{Index, Pair};
use crate::key::Key;
use crate::owned::Owned;
use crate::owner::Owner;
use crate::records::{LockState, Raise};
use std::alloc::{AllocError, Global};
use std::marker::Model;

/// All lock states in rising order of their numbers. One more may come while there is room.
#[derive(Drop)]
pub(crate) struct LockStates {
    states: ByNumber<LockState>,
    /// The lock states by their files.
    by_file: Index<Pair>,
    /// The lock states by the opens under which they were made.
    by_open: Index<Pair>,
    /// The lock states by their owners on their files.
    by_owner: Index<Owned>,
}

impl Model for LockStates {
    ghost use Rattle.std.specs.Prelude.{◌&&◌};
    ghost use Rattle.nfs_opens.specs.Blocks.{Listed};
    ghost use Rattle.nfs_opens.specs.TableInvariants.{AreLocks};
    ghost use Rattle.nfs_opens.specs.declared.records.LockState.{LockState};

    ghost Value = { Listed LockState };

    ghost view = { λ s. record { items = s.states.items; ready = s.states.ready && (s.by_file.ready && (s.by_open.ready && s.by_owner.ready)) } };

    ghost invariant = { λ s. AreLocks s.states.items s.by_file.items s.by_open.items s.by_owner.items };
}

impl LockStates {
    /// No lock states. What comes later grows by `alloc`.
    pub(crate) fn new(alloc: Global) -> Self
        ensures { result.items ≡ [] }
    {
        LockStates {
            states: ByNumber::new(alloc),
            by_file: Index::new(alloc),
            by_open: Index::new(alloc),
            by_owner: Index::new(alloc),
        }
    }

    /// How many lock states there are, or the greatest number where there are more.
    pub(crate) fn len(&self) -> u64
        ensures { result ≡ min (length self.now.items) last_number }
    {
        self.states.len()
    }

    /// The lock state of a number.
    pub(crate) fn get(&self, number: u64) -> Option<&LockState>
        ensures { option_copied result ≡ find (λ l. l.number == number) self.now.items }
    {
        self.states.get(number)
    }

    /// The lock state on a file with the lowest number behind `after`.
    pub(crate) fn next_on(&self, file: u64, after: u64) -> Option<&LockState>
        ensures { option_copied result ≡ find (λ l. (l.file == file) && nat_lt after l.number) self.now.items }
    {
        self.states.next_by(&self.by_file, &file, after)
    }

    /// The lock state under an open with the lowest number behind `after`.
    pub(crate) fn next_under(&self, opened: u64, after: u64) -> Option<&LockState>
        ensures { option_copied result ≡ find (λ l. (l.opened == opened) && nat_lt after l.number) self.now.items }
    {
        self.states.next_by(&self.by_open, &opened, after)
    }

    /// The lock state that an owner has on a file.
    pub(crate) fn owned(&self, key: &Key<'_>) -> Option<&LockState>
        ensures { option_copied result ≡ find (λ l. lock_key l == key_of key.now) self.now.items }
    {
        self.states.next_by(&self.by_owner, key, 0)
    }

    /// The first lock state under an open.
    pub(crate) fn first_under(&self, opened: u64) -> Option<&LockState>
        ensures found { option_copied result ≡ find (λ l. l.opened == opened) self.now.items }
        ensures rises { Rises (λ l. l.number) 1 self.now.items }
    {
        self.states.kept();
        self.states.next_by(&self.by_open, &opened, 0)
    }

    /// Whether a lock state stands on a file.
    pub(crate) fn is_on(&self, file: u64) -> bool
        ensures { result ≡ list_any (λ l. l.file == file) self.now.items }
    {
        self.states.kept();
        self.next_on(file, 0).is_some()
    }

    /// Room for one more lock state.
    pub(crate) fn reserve(&mut self, alloc: Global) -> Result<(), AllocError>
        ensures items { self.new.items ≡ self.old.items }
        ensures ok { OnOk result (self.new.ready ≡ true) }
    {
        self.states.reserve(alloc)?;
        self.by_file.reserve(alloc)?;
        self.by_open.reserve(alloc)?;
        self.by_owner.reserve(alloc)
    }

    /// A lock state comes behind all others. It takes no memory, but `owner` once more.
    pub(crate) fn push(&mut self, new: LockState, owner: Owner)
        requires same { owner ≡ new.owner }
        requires ready { self.old.ready ≡ true }
        requires behind { (l : LockState) → In l self.old.items → l.number < new.number }
        requires first { 0 < new.number }
        ensures { self.new.items ≡ self.old.items ++ new ∷ [] }
    {
        self.by_file.put_pair(new.file, new.number);
        self.by_open.put_pair(new.opened, new.number);
        let owned = Owned {
            file: new.file,
            client: new.client,
            owner,
            number: new.number,
        };
        self.by_owner.put(&new.key(), owned);
        self.states.push(new);
    }

    /// The seqid of the lock state of a number rises.
    pub(crate) fn raise(&mut self, number: u64)
        ensures { self.new.items ≡ map (λ l. if l.number == number then raised l else l) self.old.items }
    {
        self.states.change(number, &Raise);
    }

    /// The lock state of a number goes.
    pub(crate) fn remove(&mut self, number: u64)
        ensures { self.new.items ≡ filter (λ l. not (l.number == number)) self.old.items }
    {
        self.states.kept();
        if let Some(lock) = self.states.get(number) {
            self.by_file.take(&lock.file, number);
            self.by_open.take(&lock.opened, number);
            self.by_owner.take(&lock.key(), number);
        }
        self.states.remove(number);
    }
}
