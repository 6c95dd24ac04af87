//! DESTROY_SESSION (RFC 8881 section 18.37) and DESTROY_CLIENTID (section 18.50).

ghost use Rattle.std.specs.Prelude.{◌≡◌};
ghost use Rattle.nfs_exec.specs.Step.Machine.{with_result, machine_of};
ghost use Rattle.nfs_exec.specs.Step.Destroy.{destroy_session, destroy_client};
ghost use Rattle.nfs_exec.specs.Step.View.{IsSmall};

use crate::tables::Tables;
use nfs_compound::OpNum;
use nfs_results::Res;
use nfs_sessions::SessionId;
use nfs_xdr::Status;

impl Tables {
    /// Ends a session, with its slots.
    pub(crate) fn destroy_session(&mut self, sessionid: &[u8; 16]) -> Res<'static>
        ensures outcome { with_result (machine_of self.new) result ≡ destroy_session (machine_of self.old) sessionid.now }
        ensures size { IsSmall result }
    {
        if self.sessions.destroy(&SessionId::from_bytes(sessionid)) {
            return Res::DestroySession;
        }
        Res::refusal(OpNum::DestroySession.number(), Status::BadSession)
    }

    /// Ends a client that has neither a session nor an open, with its lease.
    pub(crate) fn destroy_client(&mut self, client: u64) -> Res<'static>
        ensures outcome { with_result (machine_of self.new) result ≡ destroy_client (machine_of self.old) client }
        ensures size { IsSmall result }
    {
        let has_session = self.sessions.has_client(client);
        let has_open = self.store.has_open(client);
        match self.clients.destroy(client, has_session, has_open) {
            Ok(()) => {
                self.leases.remove(client);
                Res::DestroyClientId
            }
            Err(fault) => Res::refusal(OpNum::DestroyClientId.number(), fault.status()),
        }
    }
}
