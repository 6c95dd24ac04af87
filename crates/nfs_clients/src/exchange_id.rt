//! EXCHANGE_ID (RFC 8881 section 18.35), by the cases of this server's profile.

ghost use Rattle.std.specs.Prelude.{◌≡◌, ◌∷◌, ◌++◌, [], ℕ, Bool, false, List, IsTrue, OnOk, OnErr, IfOk, option_map, Some};
ghost use Rattle.std.specs.Option.{option_map_or};
ghost use Rattle.nfs_xdr.specs.Tables.{IsRising, without_record};
ghost use Rattle.nfs_clients.specs.Filed.{ids_at, OwnersAnew};
ghost use Rattle.nfs_xdr.specs.Checks.{judged};
ghost use Rattle.nfs_clients.specs.Roster.{confirmed_of};
ghost use Rattle.nfs_clients.specs.ExchangeId.{asks, case_of, case_by, has_room, with_new, answer_added, client_fault_status};
ghost use Rattle.nfs_clients.specs.Calls.{exchange_fault, ExchangesOrWants};
ghost use Rattle.nfs_clients.specs.Seen.{case_seen};
ghost use Rattle.nfs_clients.specs.declared.exchange_id.ClientFault.TheVariants.{Memory};

use crate::client::Client;
use crate::clients::Clients;
use crate::owners::{Ids, Owners};
use crate::records::Records;
use nfs_xdr::Status;
use std::alloc::{AllocError, Global};

/// EXCHGID4_FLAG_CONFIRMED_R (RFC 8881 section 18.35.1): the record is confirmed.
pub const CONFIRMED_R: u32 = 0x8000_0000;

/// EXCHGID4_FLAG_UPD_CONFIRMED_REC_A (RFC 8881 section 18.35.1).
const UPD_CONFIRMED_REC_A: u32 = 0x4000_0000;

/// Why EXCHANGE_ID is refused (RFC 8881 section 18.35.3; the cases are this server's profile).
#[derive(Clone, Copy, Debug, PartialEq, Eq)]
pub enum ClientFault {
    /// The call carries EXCHGID4_FLAG_CONFIRMED_R.
    Inval,
    /// An update, and the owner has no confirmed record.
    NoEnt,
    /// An update with another verifier than the confirmed record's.
    NotSame,
    /// An update by another user than the confirmed record's.
    Perm,
    /// The owner's confirmed record is another user's, and has an open.
    ClidInUse,
    /// A new record is wanted, and as many stand as may or no id is left.
    ServerFault,
    /// A new record is wanted, and memory was refused.
    Memory,
}

impl ClientFault {
    /// The status that EXCHANGE_ID answers: the fault's own, and NFS4ERR_DELAY for want of memory.
    pub fn status(self) -> Status
        ensures { result ≡ client_fault_status self }
    {
        match self {
            ClientFault::Inval => Status::Inval,
            ClientFault::NoEnt => Status::NoEnt,
            ClientFault::NotSame => Status::NotSame,
            ClientFault::Perm => Status::Perm,
            ClientFault::ClidInUse => Status::ClidInUse,
            ClientFault::ServerFault => Status::ServerFault,
            ClientFault::Memory => Status::Delay,
        }
    }
}

impl From<AllocError> for ClientFault {
    ghost from_gives = { λ _ e. e ≡ Memory };

    fn from(_e: AllocError) -> ClientFault {
        ClientFault::Memory
    }
}

/// What a granted EXCHANGE_ID answers.
#[derive(Clone, Copy, Debug, PartialEq, Eq)]
pub struct Exchanged {
    /// The client id.
    pub id: u64,
    /// The number that the record's next CREATE_SESSION must bear (`eir_sequenceid`).
    pub number: u32,
    /// The record is confirmed (EXCHGID4_FLAG_CONFIRMED_R in the answer).
    pub confirmed: bool,
    /// The record was added by this call.
    pub added: bool,
    /// The owner's unconfirmed record that the new one has replaced.
    pub replaced: Option<u64>,
}

impl Clients {
    /// The id of the owner's confirmed record: the client whose open `exchange` wants to know of.
    pub fn confirmed(&self, owner: &[u8]) -> Option<u64>
        ensures { result ≡ option_map (λ c. c.id) (confirmed_of self.now owner.now) }
    {
        self.ids(owner).confirmed
    }

    /// What `exchange` would refuse the call with, but for want of memory; changes nothing.
    pub fn judge_exchange(
        &self,
        owner: &[u8],
        verifier: [u8; 8],
        flags: u32,
        uid: u32,
        has_open: bool,
    ) -> Result<(), ClientFault>
        ensures { result ≡ judged (exchange_fault self.now (asks owner.now verifier flags uid has_open)) }
    {
        if let Case::Refuses(fault) = self.case(owner, verifier, flags, uid, has_open) {
            return Err(fault);
        }
        Ok(())
    }

    /// EXCHANGE_ID (RFC 8881 section 18.35), by the cases of this server's profile. A new record
    /// takes `next_id`, is unconfirmed and replaces the owner's unconfirmed record if there is
    /// one. `owner` is at most 1,024 bytes on the wire, and is copied; `has_open` says whether an
    /// open stands of the client that `confirmed` names.
    ///
    /// A refusal changes nothing. `Memory` comes last, and only where a record is to be added.
    pub fn exchange(
        &mut self,
        alloc: Global,
        owner: &[u8],
        verifier: [u8; 8],
        flags: u32,
        uid: u32,
        has_open: bool,
    ) -> Result<Exchanged, ClientFault>
        ensures { ExchangesOrWants self.old (asks owner.now verifier flags uid has_open) result self.new }
    {
        match self.case(owner, verifier, flags, uid, has_open) {
            Case::Refuses(fault) => Err(fault),
            Case::Stays(client) => Ok(client.answer_standing()),
            Case::Adds => { Ok(self.add(alloc, owner, verifier, uid)?) }
        }
    }

    /// What the call comes to.
    fn case(&self, owner: &[u8], verifier: [u8; 8], flags: u32, uid: u32, has_open: bool) -> Case
        ensures { case_seen result ≡ case_of self.now (asks owner.now verifier flags uid has_open) }
    {
        match self.row(owner, verifier, flags, uid, has_open) {
            Case::Adds => {
                if self.has_room(owner) {
                    Case::Adds
                } else {
                    Case::Refuses(ClientFault::ServerFault)
                }
            }
            row => row,
        }
    }

    /// The row of the call, but for whether there is room.
    fn row(&self, owner: &[u8], verifier: [u8; 8], flags: u32, uid: u32, has_open: bool) -> Case
        ensures { case_seen result ≡ case_by (asks owner.now verifier flags uid has_open) (confirmed_of self.now owner.now) }
    {
        match self.confirmed_record(owner) {
            Some(client) => client.case(verifier, flags, uid, has_open),
            None => case_of_unknown(flags),
        }
    }

    /// Whether a record of this owner can be added.
    fn has_room(&self, owner: &[u8]) -> bool
        ensures { result ≡ has_room self.now owner.now }
    {
        self.last % 0x1_0000_0000 < u64::from(u32::MAX)
            && (self.records.len() < self.most as usize || self.ids(owner).unconfirmed.is_some())
    }

    /// Puts a new record in the place of the owner's unconfirmed one.
    fn add(
        &mut self,
        alloc: Global,
        owner: &[u8],
        verifier: [u8; 8],
        uid: u32,
    ) -> Result<Exchanged, AllocError>
        requires { IsTrue (has_room self.old owner.now) }
        ensures ok { OnOk result (self.new ≡ with_new self.old owner.now verifier uid) }
        ensures answer { IfOk result (λ e. e ≡ answer_added self.old owner.now) }
        ensures err { OnErr result (self.new ≡ self.old) }
    {
        let id = self.next_id();
        let ids = self.ids(owner);
        let client = Client::new(alloc, id, owner, verifier, uid)?;
        file(
            alloc,
            &mut self.records,
            &mut self.owners,
            owner,
            client,
            ids,
        )?;
        self.last = id;
        Ok(Exchanged {
            id,
            number: 1,
            confirmed: false,
            added: true,
            replaced: ids.unconfirmed,
        })
    }
}

/// What a call comes to: a refusal, a record that stands, or a new one.
#[derive(Clone, Copy)]
enum Case<'a> {
    Refuses(ClientFault),
    Stays(&'a Client),
    Adds,
}

impl Client {
    /// The rows of a call whose owner has this confirmed record.
    fn case(&self, verifier: [u8; 8], flags: u32, uid: u32, has_open: bool) -> Case
        ensures { (owner : List ℕ) → case_seen result ≡ case_by (asks owner verifier flags uid has_open) (Some self.now) }
    {
        if flags & CONFIRMED_R != 0 {
            return Case::Refuses(ClientFault::Inval);
        }
        if flags & UPD_CONFIRMED_REC_A != 0 {
            if self.verifier != verifier {
                return Case::Refuses(ClientFault::NotSame);
            }
            if self.uid != uid {
                return Case::Refuses(ClientFault::Perm);
            }
            return Case::Stays(self);
        }
        if self.uid == uid {
            if self.verifier == verifier {
                return Case::Stays(self);
            }
            return Case::Adds;
        }
        if has_open {
            return Case::Refuses(ClientFault::ClidInUse);
        }
        Case::Adds
    }
}

/// Puts an unconfirmed record behind the others, in the place of the owner's unconfirmed one, where the owner has these ids.
fn file(
    alloc: Global,
    records: &mut Records,
    owners: &mut Owners,
    owner: &[u8],
    client: Client,
    ids: Ids,
) -> Result<(), AllocError>
    requires { IsRising (λ c. c.id) 0 records.old client.id }
    ensures filed { OnOk result (records.new ≡ option_map_or (without_record (λ c. c.id) (records.old ++ client ∷ [])) ids.unconfirmed (records.old ++ client ∷ [])) }
    ensures ids { OnOk result (OwnersAnew (ids_at (λ k. k.items) owners.old.ids.entries) (ids_at (λ k. k.items) owners.new.ids.entries) owner.now (record { confirmed = ids.confirmed; unconfirmed = Some client.id })) }
    ensures err { OnErr result ((records.new ≡ records.old) × (owners.new.ids.entries ≡ owners.old.ids.entries)) }
{
    let id = client.id();
    records.push(client)?;
    let now = Ids {
        confirmed: ids.confirmed,
        unconfirmed: Some(id),
    };
    if owners.put(alloc, owner, now).is_err() {
        records.remove(id);
        return Err(AllocError);
    }
    if let Some(old) = ids.unconfirmed {
        records.remove(old);
    }
    Ok(())
}

/// The rows of a call whose owner has no confirmed record.
fn case_of_unknown<'a>(flags: u32) -> Case<'a>
    ensures { (owner verifier : List ℕ) (uid : ℕ) (has_open : Bool) → case_seen result ≡ case_by (asks owner verifier flags uid has_open) None }
{
    if flags & CONFIRMED_R != 0 {
        return Case::Refuses(ClientFault::Inval);
    }
    if flags & UPD_CONFIRMED_REC_A != 0 {
        return Case::Refuses(ClientFault::NoEnt);
    }
    Case::Adds
}
