//! The table of all opens, lock states and locked bytes.

ghost use Rattle.std.specs.Prelude.{◌≡◌, ◌==◌, ◌&&◌, not, length, filter, find, nat_lt};
ghost use Rattle.std.specs.Option.{option_copied};
ghost use Rattle.std.specs.List.{list_any};
ghost use Rattle.nfs_opens.specs.Table.{table, no_opens, open_at, lock_at, denials};
ghost use Rattle.nfs_opens.specs.TableInvariants.{IsTable};
ghost use Rattle.nfs_opens.specs.Keys.{open_key, lock_key, key_of};
ghost use Rattle.nfs_opens.specs.Share.{bits_of};

use crate::key::Key;
use crate::lock_states::LockStates;
use crate::locked_files::LockedFiles;
use crate::open_states::OpenStates;
use crate::records::{LockState, OpenState};
use crate::share::Share;
use std::alloc::Global;
use std::marker::Model;

/// All opens and lock states in rising order of their numbers, and the locked bytes of all files.
#[derive(Drop)]
pub struct Opens {
    pub(crate) opens: OpenStates,
    pub(crate) locks: LockStates,
    pub(crate) files: LockedFiles,
    /// The last number that was given, to an open or a lock state; 0 before the first.
    pub(crate) last: u64,
    pub(crate) instance: u32,
    /// There is room for one more open.
    pub(crate) ready: bool,
}

impl Model for Opens {
    ghost use Rattle.nfs_opens.specs.TableInvariants.{IsKept};
    ghost use Rattle.nfs_opens.specs.Table.{Kept};

    ghost Value = { Kept };

    ghost view = { λ t. record { opens = t.opens.items; locks = t.locks.items; files = t.files; last = t.last; instance = t.instance; ready = t.ready } };

    ghost invariant = { λ t. IsKept (record { opens = t.opens.items; locks = t.locks.items; files = t.files; last = t.last; instance = t.instance; ready = t.ready }) t.opens.ready };
}

impl Opens {
    /// Nothing is open and nothing is locked. `instance` marks this start of the server off from others, and stands in each
    /// stateid. Later calls grow by `alloc`.
    pub fn new(alloc: Global, instance: u32) -> Self
        ensures { table result ≡ no_opens instance }
    {
        Opens {
            opens: OpenStates::new(alloc),
            locks: LockStates::new(alloc),
            files: LockedFiles::new(alloc),
            last: 0,
            instance,
            ready: false,
        }
    }

    /// How many opens there are.
    pub fn open_count(&self) -> u64
        ensures { result ≡ length (table self.now).opens }
    {
        // (that each has a number of its own, so that they are no more than numbers)
        let _last = self.last;
        self.opens.len()
    }

    /// How many lock states there are.
    pub fn lock_count(&self) -> u64
        ensures { result ≡ length (table self.now).locks }
    {
        // (the same)
        let _last = self.last;
        self.locks.len()
    }

    /// The server's instance.
    pub fn instance(&self) -> u32
        ensures { result ≡ (table self.now).instance }
    {
        self.instance
    }

    /// What holds of every table; moves nothing.
    pub fn kept(&self)
        ensures { IsTable (table self.now) }
    {
        let _ = &self.opens;
    }

    /// The lock state of a number, as a clash that is reported names it: its client and its lock owner.
    pub fn lock_state(&self, number: u64) -> Option<&LockState>
        ensures found { option_copied result ≡ lock_at (table self.now) number }
        ensures kept { IsTable (table self.now) }
    {
        self.locks.get(number)
    }

    /// The open of a file with the lowest number behind `after`.
    pub(crate) fn next_open(&self, file: u64, after: u64) -> Option<&OpenState>
        ensures found { option_copied result ≡ find (λ o. (o.file == file) && nat_lt after o.number) (table self.now).opens }
        ensures kept { IsTable (table self.now) }
    {
        self.opens.next_on(file, after)
    }

    /// The open that an owner has of a file.
    pub(crate) fn owned_open(&self, key: &Key<'_>) -> Option<&OpenState>
        ensures { option_copied result ≡ find (λ o. open_key o == key_of key.now) (table self.now).opens }
    {
        self.opens.owned(key)
    }

    /// The open of a client with the lowest number behind `after`.
    pub fn next_of(&self, client: u64, after: u64) -> Option<&OpenState>
        ensures found { option_copied result ≡ find (λ o. (o.client == client) && nat_lt after o.number) (table self.now).opens }
        ensures kept { IsTable (table self.now) }
    {
        self.opens.next_of(client, after)
    }

    /// The lock state under an open with the lowest number behind `after`.
    pub fn next_under(&self, opened: u64, after: u64) -> Option<&LockState>
        ensures { option_copied result ≡ find (λ l. (l.opened == opened) && nat_lt after l.number) (table self.now).locks }
    {
        self.locks.next_under(opened, after)
    }

    /// The first open of a client.
    pub(crate) fn first_of(&self, client: u64) -> Option<&OpenState>
        ensures found { option_copied result ≡ find (λ o. o.client == client) (table self.now).opens }
        ensures kept { IsTable (table self.now) }
    {
        self.next_of(client, 0)
    }

    /// The lock state that an owner has on a file.
    pub(crate) fn owned_lock(&self, key: &Key<'_>) -> Option<&LockState>
        ensures { option_copied result ≡ find (λ l. lock_key l == key_of key.now) (table self.now).locks }
    {
        self.locks.owned(key)
    }

    /// Whether a file has an open.
    pub fn is_open(&self, file: u64) -> bool
        ensures { result ≡ list_any (λ o. o.file == file) (table self.now).opens }
    {
        self.first_on(file).is_some()
    }

    /// The first open of a file.
    pub fn first_on(&self, file: u64) -> Option<&OpenState>
        ensures found { option_copied result ≡ find (λ o. o.file == file) (table self.now).opens }
        ensures kept { IsTable (table self.now) }
    {
        self.next_open(file, 0)
    }

    /// Whether a client other than this one has a file open.
    pub fn has_other(&self, file: u64, client: u64) -> bool
        ensures { result ≡ list_any (λ o. (o.file == file) && not (o.client == client)) (table self.now).opens }
    {
        self.kept();
        let mut after = 0;
        while let Some(open) = self.next_open(file, after) {
            if open.is_others(client) {
                return true;
            }
            after = open.number;
        }
        false
    }

    /// How many opens a file has.
    pub fn opens_of(&self, file: u64) -> usize
        ensures { result ≡ length (filter (λ o. o.file == file) (table self.now).opens) }
    {
        self.opens.count_on(file).opens() as usize
    }

    /// What the opens of a file deny, joined.
    pub fn denies(&self, file: u64) -> Share
        ensures reads { result.reads ≡ (denials (table self.now) file).reads }
        ensures writes { result.writes ≡ (denials (table self.now) file).writes }
    {
        self.opens.count_on(file).denied()
    }

    /// The same as the number on the wire: 0 is neither, 1 READ, 2 WRITE, 3 both.
    pub fn deny_bits(&self, file: u64) -> u32
        ensures { result ≡ bits_of (denials (table self.now) file) }
    {
        self.denies(file).bits()
    }

    /// Whether a client has an open.
    pub fn has_open(&self, client: u64) -> bool
        ensures found { result ≡ list_any (λ o. o.client == client) (table self.now).opens }
        ensures kept { IsTable (table self.now) }
    {
        self.first_of(client).is_some()
    }
}
