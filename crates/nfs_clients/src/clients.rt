//! The table of client records, and the ids that they get (RFC 8881 section 2.4).

ghost use Rattle.std.specs.Prelude.{◌≡◌, ◌<◌, ◌%◌, ◌^◌, length, option_map, None};
ghost use Rattle.std.specs.Option.{option_copied};
ghost use Rattle.nfs_clients.specs.Roster.{next_id, no_clients, client_at, confirmed_of, unconfirmed_of, without, last_counter};
ghost use Rattle.nfs_clients.specs.Marks.{has_client};

use crate::client::Client;
use crate::owners::{Ids, Owners};
use crate::records::Records;
use std::alloc::Global;
use std::marker::Model;

/// The client records, found by their ids and by their owners.
#[derive(Drop)]
pub struct Clients {
    pub(crate) records: Records,
    /// The ids of each owner's records.
    pub(crate) owners: Owners,
    /// The last id that was given; before the first the instance, and behind it the counter 0.
    pub(crate) last: u64,
    /// How many records there are at most.
    pub(crate) most: u32,
}

impl Model for Clients {
    ghost use Rattle.nfs_clients.specs.Roster.{Roster, IsRoster};
    ghost use Rattle.nfs_clients.specs.Filed.{AreIndexed, ids_at};

    ghost Value = { Roster };

    ghost view = { λ t. record { records = t.records; last = t.last; most = t.most } };

    ghost invariant = { λ t. IsRoster (record { records = t.records; last = t.last; most = t.most }) × AreIndexed t.records (ids_at (λ k. k.items) t.owners.ids.entries) };
}

impl Clients {
    /// The table of a new server: no records, and later so many at most. `instance` marks this start
    /// of the server off from others, and begins each client id.
    pub fn new(alloc: Global, instance: u32, most: u32) -> Self
        ensures { result ≡ no_clients instance most }
    {
        Clients {
            records: Records::new(alloc),
            owners: Owners::new(alloc),
            last: u64::from(instance) << 32,
            most,
        }
    }

    /// How many records there are.
    pub fn count(&self) -> usize
        ensures { result ≡ length self.now.records }
    {
        self.records.len()
    }

    /// The id of the record that `exchange` would add: the instance, and behind it the counter.
    /// No record has it. Where each counter was given none is added, and the number says nothing.
    pub fn next_id(&self) -> u64
        ensures value { self.now.last % 2 ^ 32 < last_counter → result ≡ next_id self.now }
        ensures fresh { client_at self.now result ≡ None }
    {
        self.last.wrapping_add(1)
    }

    /// Whether there is a record of this id.
    pub fn contains(&self, client: u64) -> bool
        ensures { result ≡ has_client self.now client }
    {
        self.record(client).is_some()
    }

    /// Removes the record of this id, if there is one: at the end of a lease.
    pub fn remove(&mut self, client: u64)
        ensures { self.new ≡ without self.old client }
    {
        if let Some(record) = self.records.get(client) {
            let left = self
                .owners
                .get(record.owner())
                .without(record.is_confirmed());
            self.owners.set(record.owner(), left);
            self.records.remove(client);
        }
    }

    /// The record of this id.
    pub(crate) fn record(&self, client: u64) -> Option<&Client>
        ensures { option_copied result ≡ client_at self.now client }
    {
        self.records.get(client)
    }

    /// The ids of an owner's records.
    pub(crate) fn ids(&self, owner: &[u8]) -> Ids
        ensures confirmed { result.confirmed ≡ option_map (λ c. c.id) (confirmed_of self.now owner.now) }
        ensures unconfirmed { result.unconfirmed ≡ option_map (λ c. c.id) (unconfirmed_of self.now owner.now) }
    {
        self.owners.get(owner)
    }

    /// The owner's confirmed record.
    pub(crate) fn confirmed_record(&self, owner: &[u8]) -> Option<&Client>
        ensures { option_copied result ≡ confirmed_of self.now owner.now }
    {
        match self.ids(owner).confirmed {
            Some(id) => self.records.get(id),
            None => None,
        }
    }
}
