//! The ids of each owner's records.

ghost use Rattle.std.specs.Prelude.{◌≡◌, ◌≢◌, List, ℕ, true, OnOk, OnErr};
ghost use Rattle.nfs_clients.specs.Filed.{no_ids, ids_without, ids_at, OwnersAnew};

use std::alloc::{AllocError, Global};
use std::collections::BTreeMap;

/// The ids of an owner's records: of the one that a CREATE_SESSION has confirmed, and of the one that none has.
#[derive(Clone, Copy)]
pub(crate) struct Ids {
    pub(crate) confirmed: Option<u64>,
    pub(crate) unconfirmed: Option<u64>,
}

impl Ids {
    /// No records.
    pub(crate) const NONE: Ids = Ids {
        confirmed: None,
        unconfirmed: None,
    };

    /// Whether there are none.
    fn is_none(self) -> bool
        ensures { result ≡ true → self ≡ no_ids }
    {
        self.confirmed.is_none() && self.unconfirmed.is_none()
    }

    /// Without that of the confirmed record, or of the other.
    pub(crate) fn without(self, confirmed: bool) -> Ids
        ensures { result ≡ ids_without self confirmed }
    {
        if confirmed {
            Ids {
                confirmed: None,
                unconfirmed: self.unconfirmed,
            }
        } else {
            Ids {
                confirmed: self.confirmed,
                unconfirmed: None,
            }
        }
    }
}

/// The ids of each owner's records. An owner without any takes no memory. Contracts see by `ids_at` which they are.
#[derive(Drop)]
pub(crate) struct Owners {
    pub(crate) ids: BTreeMap<Vec<u8>, Ids, Global>,
}

impl Owners {
    /// No records. What comes later grows by `alloc`.
    pub(crate) fn new(alloc: Global) -> Owners
        ensures { (owner : List ℕ) → ids_at (λ k. k.items) result.ids.entries owner ≡ no_ids }
    {
        Owners {
            ids: BTreeMap::new(alloc),
        }
    }

    /// The ids of an owner's records.
    pub(crate) fn get(&self, owner: &[u8]) -> Ids
        ensures { result ≡ ids_at (λ k. k.items) self.now.ids.entries owner.now }
    {
        self.ids.get(owner).copied().unwrap_or(Ids::NONE)
    }

    /// An owner has these ids from now on. It wants memory only where the owner had none.
    pub(crate) fn put(&mut self, alloc: Global, owner: &[u8], ids: Ids) -> Result<(), AllocError>
        ensures ok { OnOk result (OwnersAnew (ids_at (λ k. k.items) self.old.ids.entries) (ids_at (λ k. k.items) self.new.ids.entries) owner.now ids) }
        ensures err { OnErr result (self.new.ids.entries ≡ self.old.ids.entries) }
    {
        if let Some(kept) = self.ids.get_mut(owner) {
            *kept = ids;
            return Ok(());
        }
        let key = Vec::from_slice(alloc, owner)?;
        self.ids.insert(key, ids)?;
        Ok(())
    }

    /// An owner that has ids has these from now on, or none.
    pub(crate) fn set(&mut self, owner: &[u8], ids: Ids)
        requires { ids_at (λ k. k.items) self.old.ids.entries owner.now ≢ no_ids }
        ensures { OwnersAnew (ids_at (λ k. k.items) self.old.ids.entries) (ids_at (λ k. k.items) self.new.ids.entries) owner.now ids }
    {
        if ids.is_none() {
            let _ = self.ids.remove(owner);
        } else if let Some(kept) = self.ids.get_mut(owner) {
            *kept = ids;
        }
    }
}
