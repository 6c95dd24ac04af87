//! CREATE_SESSION's part of the client table: its number, what is kept under it, and the confirmation (RFC 8881 section 18.36).

ghost use Rattle.std.specs.Prelude.{◌≡◌, Some};
ghost use Rattle.nfs_clients.specs.CreateSession.{create_verdict, verdict_by, leaving, with_confirmed, with_kept};
ghost use Rattle.nfs_clients.specs.Calls.{verdict_of};

use crate::client::Client;
use crate::clients::Clients;
use crate::created::CreateResult;
use crate::owners::Ids;

/// What a CREATE_SESSION comes to by its number and its caller (RFC 8881 section 18.36.4).
#[derive(Clone, Copy)]
pub enum CreateVerdict<'a> {
    /// NFS4ERR_STALE_CLIENTID: there is no such record.
    Stale,
    /// The number before the expected one: the result that was kept under it, whoever calls.
    Again(&'a CreateResult),
    /// NFS4ERR_SEQ_MISORDERED: any other number.
    Misordered,
    /// NFS4ERR_CLID_INUSE: the expected number, from another user than the record's.
    InUse,
    /// The expected number: the call runs.
    Runs,
}

impl Clients {
    /// Judges a CREATE_SESSION of this number by this user, and changes nothing.
    pub fn create_judge(&self, client: u64, number: u32, uid: u32) -> CreateVerdict
        ensures { verdict_of result ≡ create_verdict self.now client number uid }
    {
        match self.record(client) {
            Some(record) => record.create_judge(number, uid),
            None => CreateVerdict::Stale,
        }
    }

    /// The record that this client's confirmation removes: its owner's other confirmed one.
    pub fn leaving(&self, client: u64) -> Option<u64>
        ensures { result ≡ leaving self.now client }
    {
        let _ = &self.records;
        let record = self.record(client)?;
        match self.ids(record.owner()).confirmed {
            Some(other) if other != client => Some(other),
            _ => None,
        }
    }

    /// Confirms the record, and removes its owner's other confirmed one (RFC 8881 section
    /// 18.36.4). Where there is no such record nothing changes.
    pub fn confirm(&mut self, client: u64)
        ensures { self.new ≡ with_confirmed self.old client }
    {
        if let Some(other) = self.leaving(client) {
            self.remove(other);
        }
        if let Some(record) = self.records.get(client) {
            if !record.is_confirmed() {
                let now = Ids {
                    confirmed: Some(client),
                    unconfirmed: None,
                };
                self.owners.set(record.owner(), now);
                self.records.confirm(client);
            }
        }
    }

    /// Takes the result of a CREATE_SESSION that `create_judge` let run. Where it uses its number
    /// up (`CreateResult::uses_up`) it is kept, and the next number is expected. Otherwise, and
    /// where there is no such record, nothing changes.
    pub fn keep_created(&mut self, client: u64, created: CreateResult)
        ensures { self.new ≡ with_kept self.old client created }
    {
        if !created.uses_up() {
            return;
        }
        self.records.keep(client, created);
    }
}

impl Client {
    /// What a CREATE_SESSION of this client comes to.
    fn create_judge(&self, number: u32, uid: u32) -> CreateVerdict
        ensures { verdict_of result ≡ verdict_by (Some self.now) number uid }
    {
        if number == self.number {
            return if self.uid == uid {
                CreateVerdict::Runs
            } else {
                CreateVerdict::InUse
            };
        }
        match &self.kept {
            Some(kept) if number.wrapping_add(1) == self.number => CreateVerdict::Again(kept),
            _ => CreateVerdict::Misordered,
        }
    }
}
