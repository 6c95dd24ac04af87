//! The server's tables.

ghost use Rattle.std.specs.Prelude.{◌≡◌, IfOk};
ghost use Rattle.nfs_names.specs.State.{state_of};
ghost use Rattle.nfs_names.specs.StoreInvariants.{IsStore};
ghost use Rattle.nfs_exec.specs.Step.Machine.{starts, machine_of};

use nfs_clients::Clients;
use nfs_lease::Leases;
use nfs_names::{ServerOwner, Start, Store};
use nfs_sessions::Sessions;
use nfs_xdr::Time;
use std::alloc::{AllocError, Global};

/// The tables on which compounds run. Contracts see them as a machine.
#[derive(Drop)]
pub(crate) struct Tables {
    pub(crate) clients: Clients,
    pub(crate) sessions: Sessions,
    pub(crate) leases: Leases,
    pub(crate) store: Store,
    pub(crate) owner: ServerOwner,
}

/// The first moment.
const FIRST: Time = Time {
    seconds: 0,
    nanoseconds: 0,
};

impl Tables {
    /// The tables of a new server, whose root has the first moment as its times. `AllocError` where there is no memory for the root and the ends of the queue of leases.
    pub(crate) fn new(alloc: Global, start: Start) -> Result<Tables, AllocError>
        ensures machine { IfOk result (λ t. machine_of t ≡ starts start) }
        ensures store { IfOk result (λ t. IsStore (state_of t.store)) }
    {
        Ok(Tables {
            clients: Clients::new(alloc, start.instance, start.crowd.clients),
            sessions: Sessions::new(alloc, start.crowd.sessions),
            leases: Leases::new(alloc)?,
            store: Store::new(alloc, &start, FIRST)?,
            owner: start.owner,
        })
    }

    /// Drops some of what waits to be dropped. Answers false where nothing does any more.
    pub(crate) fn tidy(&mut self) -> bool
        ensures { machine_of self.new ≡ machine_of self.old }
    {
        self.store.tidy()
    }
}
