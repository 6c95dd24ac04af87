//! The leases as a queue: a renewal goes behind all that stand (RFC 8881 section 8.3).

ghost use Rattle.std.specs.Prelude.{◌≡◌, ◌+◌, ◌<◌, IfOk, OnOk, OnErr, is_some, if◌then◌else◌};
ghost use Rattle.nfs_lease.specs.Renewals.{leases_of, no_leases, with_lease, with_renewal, without_lease};
ghost use Rattle.nfs_lease.specs.Queue.{standing, IsNextOut, IsLatest};

use lru::LruCache;
use std::alloc::{AllocError, Global};
use std::marker::Model;

/// The leases that stand, one a client. A client whose last renewal is more than a lease ago has
/// run out (RFC 8881 section 8.3).
#[derive(Drop)]
pub struct Leases {
    /// The moment of each client's last renewal, the newest first.
    renewals: LruCache<u64, u64>,
}

impl Model for Leases {
    ghost use Rattle.std.specs.Prelude.{◌≡◌, ◌-◌, ◌^◌};
    ghost use Rattle.nfs_lease.specs.Renewals.{KeptLeases};
    ghost use Rattle.nfs_lease.specs.Queue.{IsQueue};

    ghost Value = { KeptLeases };

    ghost view = { λ t. t.renewals.entries };

    ghost invariant = { λ t. IsQueue t.renewals.entries × (t.renewals.cap ≡ 2 ^ 64 - 1) };
}

impl Leases {
    /// No leases. `AllocError` where there is no memory for the ends of the queue.
    pub fn new(alloc: Global) -> Result<Self, AllocError>
        ensures { IfOk result (λ t. leases_of t ≡ no_leases) }
    {
        let renewals = LruCache::unbounded(alloc)?;
        Ok(Leases { renewals })
    }

    /// Begins the client's lease at the moment `now`, or begins it anew. The queue grows by the
    /// allocator that `new` was given. `AllocError` where memory is refused, and then nothing
    /// changes.
    pub fn add(&mut self, _alloc: Global, client: u64, now: u64) -> Result<(), AllocError>
        requires { IsLatest (leases_of self.old) now }
        ensures ok { OnOk result (leases_of self.new ≡ with_lease (leases_of self.old) client now) }
        ensures err { OnErr result (self.new ≡ self.old) }
    {
        // There is always a place, so a new lease puts none out.
        let count = self.renewals.len();
        prove!(count < usize::MAX);
        self.renewals.put(client, now)?;
        Ok(())
    }

    /// Renews the client's lease at the moment `now`, if it has one.
    pub fn renew(&mut self, client: u64, now: u64)
        requires { IsLatest (leases_of self.old) now }
        ensures { leases_of self.new ≡ with_renewal (leases_of self.old) client now }
    {
        if let Some(moment) = self.renewals.get_mut(&client) {
            *moment = now;
        }
    }

    /// Ends the client's lease, if it has one.
    pub fn remove(&mut self, client: u64)
        ensures lease { leases_of self.new ≡ without_lease (leases_of self.old) client }
        ensures standing { standing self.new + (if is_some (leases_of self.old client) then 1 else 0) ≡ standing self.old }
    {
        self.renewals.pop(&client);
    }

    /// The moment of the client's last renewal, if it has a lease.
    pub fn renewed(&self, client: u64) -> Option<u64>
        ensures { result ≡ leases_of self.now client }
    {
        self.renewals.peek(&client).copied()
    }

    /// A client whose lease has run out: `now` minus its last renewal is greater than `lease`, in
    /// the unit of the moments (seconds in the server). None exactly where there is none.
    pub fn next_out(&self, lease: u64, now: u64) -> Option<u64>
        ensures { IsNextOut lease (leases_of self.now) now result }
    {
        let (client, moment) = self.renewals.peek_lru()?;
        if now.saturating_sub(*moment) > lease {
            Some(*client)
        } else {
            None
        }
    }
}

#[cfg(test)]
mod tests;
