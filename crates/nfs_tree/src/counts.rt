//! How many rows name each object that has more than one.

ghost use Rattle.std.specs.Prelude.{◌≡◌, ℕ, ◌+◌, ◌-◌, ◌<◌, if◌then◌else◌, OnOk, OnErr};
ghost use Rattle.std.specs.BTreeMap.{get};
ghost use Rattle.std.specs.Ordering.{nat_cmp};
ghost use Rattle.nfs_tree.specs.Files.{last_count};
ghost use Rattle.nfs_tree.specs.Maps.{IsLean};

use std::alloc::{AllocError, Global};
use std::collections::BTreeMap;

/// How many rows name each object beside its first: an object of one row takes no memory here. Contracts see by `further`
/// how many.
#[derive(Drop)]
pub(crate) struct Counts {
    counts: BTreeMap<u64, u64, Global>,
    ghost lean: { IsLean (get nat_cmp counts) },
}

impl Counts {
    ghost use Rattle.nfs_tree.specs.Counts.{further, CountsAnew};

    /// No rows. What comes later grows by `alloc`.
    pub(crate) fn new(alloc: Global) -> Counts
        ensures { (n : ℕ) → further result n ≡ 0 }
    {
        Counts {
            counts: BTreeMap::new(alloc),
        }
    }

    /// How many rows name the object beside its first.
    pub(crate) fn of(&self, object: u64) -> u64
        ensures { result ≡ further self.now object }
    {
        self.counts.get(&object).copied().unwrap_or(0)
    }

    /// A row more names the object, which is its first unless the object is named.
    pub(crate) fn add(&mut self, object: u64, named: bool) -> Result<(), AllocError>
        requires { further self.old object < last_count }
        ensures ok { OnOk result (CountsAnew (further self.old) (further self.new) object (if named then further self.old object + 1 else further self.old object)) }
        ensures err { OnErr result ((n : ℕ) → further self.new n ≡ further self.old n) }
    {
        if named {
            let more = self.of(object) + 1;
            self.counts.insert(object, more)?;
        }
        Ok(())
    }

    /// A row less names the object.
    pub(crate) fn take(&mut self, object: u64)
        ensures { CountsAnew (further self.old) (further self.new) object (further self.old object - 1) }
    {
        let left = self.of(object).saturating_sub(1);
        if left == 0 {
            let _ = self.counts.remove(&object);
        } else if let Some(count) = self.counts.get_mut(&object) {
            *count = left;
        }
    }
}
