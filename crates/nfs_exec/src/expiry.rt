//! Expiry (RFC 8881 section 8.3).

ghost use Rattle.std.specs.Prelude.{◌≡◌, ◌+◌, is_some, if◌then◌else◌};
ghost use Rattle.nfs_lease.specs.Renewals.{leases_of};
ghost use Rattle.nfs_lease.specs.Queue.{standing};
ghost use Rattle.nfs_names.specs.StoreInvariants.{IsStore};
ghost use Rattle.nfs_exec.specs.Step.Expiry.{expired};
ghost use Rattle.nfs_exec.specs.Step.View.{without_client};
ghost use Rattle.nfs_exec.specs.Step.Machine.{machine_of};

use crate::tables::Tables;

impl Tables {
    /// Drops each client whose lease has run out at the moment `now`, in seconds.
    pub(crate) fn expire(&mut self, now: u64)
        requires { IsStore (machine_of self.old).store }
        ensures machine { machine_of self.new ≡ expired now (machine_of self.old) }
        ensures store { IsStore (machine_of self.new).store }
    {
        while let Some(client) = self.leases.next_out(u64::from(self.store.lease), now) {
            self.drop_client(client);
        }
        self.store.kept();
    }

    /// Drops a client with its sessions, its lease, its opens and its locks.
    fn drop_client(&mut self, client: u64)
        requires { IsStore (machine_of self.old).store }
        ensures machine { machine_of self.new ≡ without_client (machine_of self.old) client }
        ensures standing { standing self.new.leases + (if is_some (leases_of self.old.leases client) then 1 else 0) ≡ standing self.old.leases }
        ensures store { IsStore (machine_of self.new).store }
    {
        self.clients.remove(client);
        self.sessions.drop_client(client);
        self.leases.remove(client);
        self.store.drop_client(client);
    }
}
