//! DESTROY_CLIENTID (RFC 8881 section 18.50).

ghost use Rattle.std.specs.Prelude.{◌≡◌};
ghost use Rattle.nfs_xdr.specs.Checks.{judged};
ghost use Rattle.nfs_clients.specs.DestroyClientId.{destroy_fault, destroy_status};
ghost use Rattle.nfs_clients.specs.Calls.{destroyed};

use crate::clients::Clients;
use nfs_xdr::Status;

/// Why DESTROY_CLIENTID is refused.
#[derive(Clone, Copy, Debug, PartialEq, Eq)]
pub enum DestroyFault {
    /// NFS4ERR_STALE_CLIENTID: there is no such record.
    Stale,
    /// NFS4ERR_CLIENTID_BUSY: the client has a session or an open.
    Busy,
}

impl DestroyFault {
    /// The status that DESTROY_CLIENTID answers.
    pub fn status(self) -> Status
        ensures { result ≡ destroy_status self }
    {
        match self {
            DestroyFault::Stale => Status::StaleClientId,
            DestroyFault::Busy => Status::ClientIdBusy,
        }
    }
}

impl Clients {
    /// DESTROY_CLIENTID: removes the record, unless it is not there or in use. Whether the client
    /// has a session or an open is for the caller to say. A refusal changes nothing.
    pub fn destroy(
        &mut self,
        client: u64,
        has_session: bool,
        has_open: bool,
    ) -> Result<(), DestroyFault>
        ensures answer { result ≡ judged (destroy_fault self.old client has_session has_open) }
        ensures table { self.new ≡ destroyed self.old client has_session has_open }
    {
        if !self.contains(client) {
            return Err(DestroyFault::Stale);
        }
        if has_session || has_open {
            return Err(DestroyFault::Busy);
        }
        self.remove(client);
        Ok(())
    }
}
