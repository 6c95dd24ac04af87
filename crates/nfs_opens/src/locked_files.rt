//! The locked bytes of all files.

ghost use Rattle.std.specs.Prelude.{◌≡◌, ◌≤◌, ◌⊎◌, ℕ, true, false, OnOk, OnErr, IfOk, []};
ghost use Rattle.nfs_ranges.specs.Holders.{LockedBytes, at, holding, cleared, dropped, holds_any, nobody};
ghost use Rattle.nfs_ranges.specs.Facts.{Tells};
ghost use Rattle.nfs_opens.specs.Holding.{held_by, on_file, is_listed, ListsNoMore};

use nfs_ranges::{Held, Kind, Ranges};
use std::alloc::{AllocError, Global};
use std::collections::BTreeMap;
use std::marker::Model;

/// The files on which bytes were locked, each with its locked bytes. Contracts see the list of these, in rising order of the files.
#[derive(Drop)]
pub(crate) struct LockedFiles {
    files: BTreeMap<u64, Ranges, Global>,
}

impl Model for LockedFiles {
    ghost use Rattle.std.specs.Prelude.{ℕ, List};
    ghost use Rattle.nfs_ranges.specs.Holders.{LockedBytes};

    ghost Value = { List (ℕ × LockedBytes) };

    ghost view = { λ l. l.files.entries };
}

/// The bytes of a new file, of which a lock state holds some.
fn first_lock(
    alloc: Global,
    state: u64,
    kind: Kind,
    first: u64,
    last: u64,
) -> Result<Ranges, AllocError>
    requires { first ≤ last }
    ensures { IfOk result (λ r. at r ≡ holding nobody state kind first last) }
{
    let mut ranges = Ranges::new(alloc);
    ranges.set(alloc, state, kind, first, last)?;
    Ok(ranges)
}

impl LockedFiles {
    /// No bytes are locked. A later `set` grows by `alloc`.
    pub(crate) fn new(alloc: Global) -> Self
        ensures { result ≡ [] }
    {
        LockedFiles {
            files: BTreeMap::new(alloc),
        }
    }

    /// The lock on a file that stands against a lock state's wish.
    pub(crate) fn clash(
        &self,
        file: u64,
        state: u64,
        kind: Kind,
        first: u64,
        last: u64,
    ) -> Option<Held>
        requires { first ≤ last }
        ensures { Tells (held_by self.now file) state kind first last result }
    {
        match self.files.get(&file) {
            Some(ranges) => ranges.clash(state, kind, first, last),
            None => None,
        }
    }

    /// Whether a lock state holds a byte of a file.
    pub(crate) fn any(&self, file: u64, state: u64) -> bool
        ensures { result ≡ holds_any (held_by self.now file) state }
    {
        match self.files.get(&file) {
            Some(ranges) => ranges.any(state),
            None => false,
        }
    }

    /// A lock state holds bytes of a file in this way.
    pub(crate) fn set(
        &mut self,
        alloc: Global,
        file: u64,
        state: u64,
        kind: Kind,
        first: u64,
        last: u64,
    ) -> Result<(), AllocError>
        requires { first ≤ last }
        ensures ok { OnOk result (held_by self.new ≡ on_file (held_by self.old) file (λ h. holding h state kind first last)) }
        ensures err { OnErr result (self.new ≡ self.old) }
        ensures listed { (f : ℕ) → is_listed f self.new ≡ true → (f ≡ file) ⊎ (is_listed f self.old ≡ true) }
    {
        if let Some(ranges) = self.files.get_mut(&file) {
            return ranges.set(alloc, state, kind, first, last);
        }
        let locked = first_lock(alloc, state, kind, first, last)?;
        self.files.insert(file, locked)?;
        Ok(())
    }

    /// A lock state holds none of these bytes of a file.
    pub(crate) fn clear(
        &mut self,
        alloc: Global,
        file: u64,
        state: u64,
        first: u64,
        last: u64,
    ) -> Result<(), AllocError>
        requires { first ≤ last }
        ensures ok { OnOk result (held_by self.new ≡ on_file (held_by self.old) file (λ h. cleared h state first last)) }
        ensures err { OnErr result (self.new ≡ self.old) }
        ensures listed { ListsNoMore self.old self.new }
    {
        if let Some(ranges) = self.files.get_mut(&file) {
            return ranges.clear(alloc, state, first, last);
        }
        Ok(())
    }

    /// A lock state holds no byte of a file.
    pub(crate) fn drop_state(&mut self, file: u64, state: u64)
        ensures held { held_by self.new ≡ on_file (held_by self.old) file (λ h. dropped h state) }
        ensures listed { ListsNoMore self.old self.new }
    {
        if let Some(ranges) = self.files.get_mut(&file) {
            ranges.drop_owner(state);
            return;
        }
    }

    /// Nobody holds a byte of a file.
    pub(crate) fn forget(&mut self, file: u64)
        ensures held { held_by self.new ≡ on_file (held_by self.old) file (λ h. nobody) }
        ensures gone { is_listed file self.new ≡ false }
        ensures listed { ListsNoMore self.old self.new }
    {
        let _ = self.files.remove(&file);
    }
}
