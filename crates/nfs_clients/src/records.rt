//! The client records by their ids.

ghost use Rattle.std.specs.Prelude.{◌≡◌, ◌∷◌, ◌++◌, [], length, true, find, nat_lt, OnOk, OnErr, Some};
ghost use Rattle.std.specs.Option.{option_copied};
ghost use Rattle.nfs_xdr.specs.Tables.{IsRising, record_at, with_record, without_record};
ghost use Rattle.nfs_xdr.specs.Numbers.{next_number};

use crate::client::Client;
use crate::created::CreateResult;
use std::alloc::{AllocError, Global};
use std::collections::BTreeMap;
use std::marker::Model;
use std::ops::Bound;

/// The client records, each found by its id. Contracts see the list of them, in rising order of their ids.
#[derive(Drop)]
pub(crate) struct Records {
    by_id: BTreeMap<u64, Client, Global>,
}

impl Model for Records {
    ghost use Rattle.std.specs.Prelude.{List};
    ghost use Rattle.std.specs.Map.{values_of};
    ghost use Rattle.nfs_clients.specs.Roster.{ClientRecord};
    ghost use Rattle.nfs_clients.specs.Filed.{IsFiled};

    ghost Value = { List ClientRecord };

    ghost view = { λ r. values_of r.by_id.entries };

    ghost invariant = { λ r. IsFiled r.by_id.entries };
}

impl Records {
    /// No records. What comes later grows by `alloc`.
    pub(crate) fn new(alloc: Global) -> Self
        ensures { result ≡ [] }
    {
        Records {
            by_id: BTreeMap::new(alloc),
        }
    }

    /// How many there are.
    pub(crate) fn len(&self) -> usize
        ensures { result ≡ length self.now }
    {
        self.by_id.len()
    }

    /// The record of an id.
    pub(crate) fn get(&self, id: u64) -> Option<&Client>
        ensures { option_copied result ≡ record_at (λ c. c.id) self.now id }
    {
        self.by_id.get(&id)
    }

    /// The record with the lowest id behind `after`.
    pub(crate) fn next(&self, after: u64) -> Option<&Client>
        ensures { option_copied result ≡ find (λ c. nat_lt after c.id) self.now }
    {
        let mut rest = self.by_id.range((Bound::Excluded(after), Bound::Unbounded));
        match rest.next() {
            Some((_, client)) => Some(client),
            None => None,
        }
    }

    /// Puts a record behind the others.
    pub(crate) fn push(&mut self, client: Client) -> Result<(), AllocError>
        requires { IsRising (λ c. c.id) 0 self.old client.id }
        ensures ok { OnOk result (self.new ≡ self.old ++ client ∷ []) }
        ensures err { OnErr result (self.new ≡ self.old) }
    {
        self.by_id.insert(client.id(), client)?;
        Ok(())
    }

    /// Drops the record of an id.
    pub(crate) fn remove(&mut self, id: u64)
        ensures { self.new ≡ without_record (λ c. c.id) self.old id }
    {
        let _ = self.by_id.remove(&id);
    }

    /// Confirms the record of an id.
    pub(crate) fn confirm(&mut self, id: u64)
        ensures { self.new ≡ with_record (λ c. c.id) self.old id (λ c. record c { confirmed = true }) }
    {
        if let Some(client) = self.by_id.get_mut(&id) {
            client.confirm();
            return;
        }
    }

    /// Keeps a result under the number that the record of an id expects.
    pub(crate) fn keep(&mut self, id: u64, created: CreateResult)
        ensures { self.new ≡ with_record (λ c. c.id) self.old id (λ c. record c { number = next_number c.number; kept = Some created }) }
    {
        if let Some(client) = self.by_id.get_mut(&id) {
            client.keep(created);
            return;
        }
    }

    /// Marks the record of an id as reclaimed.
    pub(crate) fn reclaim(&mut self, id: u64)
        ensures { self.new ≡ with_record (λ c. c.id) self.old id (λ c. record c { reclaimed = true }) }
    {
        if let Some(client) = self.by_id.get_mut(&id) {
            client.reclaim();
            return;
        }
    }
}
