//! The mark of a client record that its reclaim is complete (RFC 8881 section 18.51).

ghost use Rattle.std.specs.Prelude.{◌≡◌, if◌then◌else◌};
ghost use Rattle.nfs_clients.specs.Marks.{has_reclaimed, with_reclaimed};

use crate::clients::Clients;

impl Clients {
    /// Notes that the client has declared its reclaim complete (RECLAIM_COMPLETE of all, RFC 8881
    /// section 18.51), and answers whether it had before: then the call is refused with
    /// NFS4ERR_COMPLETE_ALREADY, and nothing changes. Where there is no such record nothing changes either.
    pub fn reclaimed(&mut self, client: u64) -> bool
        ensures before { result ≡ has_reclaimed self.old client }
        ensures after { self.new ≡ (if has_reclaimed self.old client then self.old else with_reclaimed self.old client) }
    {
        match self.records.get(client) {
            None => false,
            Some(record) => {
                if record.is_reclaimed() {
                    return true;
                }
                self.records.reclaim(client);
                false
            }
        }
    }
}
