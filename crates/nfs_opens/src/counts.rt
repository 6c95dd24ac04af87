//! How many opens each file has, and what they have and deny.

ghost use Rattle.std.specs.Prelude.{◌≡◌, ◌<◌, ℕ, true, nat_eq, OnOk};
ghost use Rattle.std.specs.HashMap.{get};
ghost use Rattle.nfs_opens.specs.Lean.{IsLean};

use crate::share::Share;
use std::alloc::{AllocError, Global};
use std::collections::HashMap;

/// A share reservation: what an open may do, and what it denies to other owners.
#[derive(Clone, Copy)]
pub(crate) struct Reservation {
    pub(crate) access: Share,
    pub(crate) deny: Share,
}

/// How many opens there are, and how many of them have each kind of access and deny each.
#[derive(Clone, Copy, PartialEq, Eq)]
pub(crate) struct Count {
    opens: u64,
    readers: u64,
    writers: u64,
    read_deniers: u64,
    write_deniers: u64,
}

impl Count {
    ghost use Rattle.nfs_opens.specs.Counts.{no_count, had, share_denied, more, less, with_one, without_one};

    fn more(count: u64, one: bool) -> u64
        ensures { result ≡ more count one }
    {
        if one { count.saturating_add(1) } else { count }
    }

    fn less(count: u64, one: bool) -> u64
        ensures { result ≡ less count one }
    {
        if one { count.saturating_sub(1) } else { count }
    }

    /// No opens.
    fn none() -> Count
        ensures { result ≡ no_count }
    {
        Count {
            opens: 0,
            readers: 0,
            writers: 0,
            read_deniers: 0,
            write_deniers: 0,
        }
    }

    /// One more open, which reserves this.
    fn with(self, reserved: Reservation) -> Count
        ensures { result ≡ with_one reserved self }
    {
        Count {
            opens: Count::more(self.opens, true),
            readers: Count::more(self.readers, reserved.access.reads),
            writers: Count::more(self.writers, reserved.access.writes),
            read_deniers: Count::more(self.read_deniers, reserved.deny.reads),
            write_deniers: Count::more(self.write_deniers, reserved.deny.writes),
        }
    }

    /// One open less, which reserved this.
    pub(crate) fn without(self, reserved: Reservation) -> Count
        ensures { result ≡ without_one reserved self }
    {
        Count {
            opens: Count::less(self.opens, true),
            readers: Count::less(self.readers, reserved.access.reads),
            writers: Count::less(self.writers, reserved.access.writes),
            read_deniers: Count::less(self.read_deniers, reserved.deny.reads),
            write_deniers: Count::less(self.write_deniers, reserved.deny.writes),
        }
    }

    /// How many opens there are.
    pub(crate) fn opens(self) -> u64
        ensures { result ≡ self.opens }
    {
        self.opens
    }

    /// What any of the opens may do.
    pub(crate) fn had(self) -> Share
        ensures { result ≡ had self }
    {
        Share {
            reads: self.readers > 0,
            writes: self.writers > 0,
        }
    }

    /// What any of the opens denies.
    pub(crate) fn denied(self) -> Share
        ensures { result ≡ share_denied self }
    {
        Share {
            reads: self.read_deniers > 0,
            writes: self.write_deniers > 0,
        }
    }
}

/// The count of each file that is open. A file that nobody has open leaves nothing behind.
#[derive(Drop)]
pub(crate) struct Counts {
    files: HashMap<u64, Count>,
    ghost lean: { IsLean (get nat_eq files) },
}

impl Counts {
    ghost use Rattle.nfs_opens.specs.Counts.{no_count, with_one, without_one, count_at, has_room, CountsAnew};

    /// No file is open. What comes later grows by `alloc`.
    pub(crate) fn new(alloc: Global) -> Counts
        ensures { (f : ℕ) → count_at result f ≡ no_count }
    {
        Counts {
            files: HashMap::new(alloc),
        }
    }

    /// What is counted of a file.
    pub(crate) fn of(&self, file: u64) -> Count
        ensures { result ≡ count_at self.now file }
    {
        self.files.get(&file).copied().unwrap_or(Count::none())
    }

    /// Room for one more file.
    pub(crate) fn reserve(&mut self) -> Result<(), AllocError>
        ensures counts { (f : ℕ) → count_at self.new f ≡ count_at self.old f }
        ensures ok { OnOk result (has_room self.new ≡ true) }
        ensures kept { has_room self.old ≡ true → has_room self.new ≡ true }
    {
        self.files.reserve(1)
    }

    /// A file has one more open, which reserves this. It takes no memory.
    pub(crate) fn add(&mut self, file: u64, reserved: Reservation)
        requires { has_room self.old ≡ true }
        ensures { CountsAnew self.old self.new file (with_one reserved (count_at self.old file)) }
    {
        let count = self.of(file).with(reserved);
        let added: Result<_, _> = self.files.insert(file, count);
        let _ = added.unwrap();
    }

    /// A file has one open less, which reserved this. One that has none is not kept.
    pub(crate) fn take(&mut self, file: u64, reserved: Reservation)
        ensures counts { CountsAnew self.old self.new file (without_one reserved (count_at self.old file)) }
        ensures room { has_room self.old ≡ true → has_room self.new ≡ true }
    {
        let count = self.of(file).without(reserved);
        if count == Count::none() {
            let _ = self.files.remove(&file);
        } else if let Some(kept) = self.files.get_mut(&file) {
            *kept = count;
        }
    }

    /// One of a file's opens reserved one thing, and reserves another from now on.
    pub(crate) fn change(&mut self, file: u64, old: Reservation, new: Reservation)
        requires { 0 < (count_at self.old file).opens }
        ensures counts { CountsAnew self.old self.new file (with_one new (without_one old (count_at self.old file))) }
        ensures room { has_room self.new ≡ has_room self.old }
    {
        let count = self.of(file).without(old).with(new);
        if let Some(kept) = self.files.get_mut(&file) {
            *kept = count;
        }
    }
}
