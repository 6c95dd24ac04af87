//! One client record (RFC 8881 section 2.4).

ghost use Rattle.std.specs.Prelude.{◌≡◌, false, true, None, Some, IfOk};
ghost use Rattle.nfs_xdr.specs.Numbers.{next_number};
ghost use Rattle.nfs_clients.specs.ExchangeId.{answer_standing};

use crate::created::CreateResult;
use crate::exchange_id::Exchanged;
use std::alloc::{AllocError, Global};
use std::marker::Model;

/// The record of a client (RFC 8881 section 2.4).
#[derive(Drop)]
pub(crate) struct Client {
    /// The client id: the server's instance, and behind it a counter.
    pub(crate) id: u64,
    /// The string by which the client names itself.
    owner: Vec<u8>,
    /// The verifier of the client's start: another one means that it began anew.
    pub(crate) verifier: [u8; 8],
    /// The user that made the record.
    pub(crate) uid: u32,
    /// A CREATE_SESSION has confirmed the record.
    pub(crate) confirmed: bool,
    /// The number that the next CREATE_SESSION must bear.
    pub(crate) number: u32,
    /// The result of the number before, if one was used up.
    pub(crate) kept: Option<CreateResult>,
    /// The client has declared its reclaim complete.
    pub(crate) reclaimed: bool,
}

impl Model for Client {
    ghost use Rattle.nfs_clients.specs.Roster.{ClientRecord};

    ghost Value = { ClientRecord };

    ghost view = { λ c. record { id = c.id; owner = c.owner.items; verifier = c.verifier; uid = c.uid; confirmed = c.confirmed; number = c.number; kept = c.kept; reclaimed = c.reclaimed } };
}

impl Client {
    /// A record that no CREATE_SESSION has confirmed.
    pub(crate) fn new(
        alloc: Global,
        id: u64,
        owner: &[u8],
        verifier: [u8; 8],
        uid: u32,
    ) -> Result<Self, AllocError>
        ensures { IfOk result (λ c. c ≡ record { id = id; owner = owner.now; verifier = verifier; uid = uid; confirmed = false; number = 1; kept = None; reclaimed = false }) }
    {
        let owner = Vec::from_slice(alloc, owner)?;
        Ok(Client {
            id,
            owner,
            verifier,
            uid,
            confirmed: false,
            number: 1,
            kept: None,
            reclaimed: false,
        })
    }

    /// The client id.
    pub(crate) fn id(&self) -> u64
        ensures { result ≡ self.now.id }
    {
        self.id
    }

    /// The string by which the client names itself.
    pub(crate) fn owner(&self) -> &[u8]
        ensures { result.now ≡ self.now.owner }
    {
        self.owner.as_slice()
    }

    /// Whether a CREATE_SESSION has confirmed the record.
    pub(crate) fn is_confirmed(&self) -> bool
        ensures { result ≡ self.now.confirmed }
    {
        self.confirmed
    }

    /// What a granted EXCHANGE_ID answers of a record that stands.
    pub(crate) fn answer_standing(&self) -> Exchanged
        ensures { result ≡ answer_standing self.now }
    {
        Exchanged {
            id: self.id,
            number: self.number,
            confirmed: true,
            added: false,
            replaced: None,
        }
    }

    /// A CREATE_SESSION has confirmed the record.
    pub(crate) fn confirm(&mut self)
        ensures { self.new ≡ record self.old { confirmed = true } }
    {
        self.confirmed = true;
    }

    /// The expected number is used up by this result.
    pub(crate) fn keep(&mut self, created: CreateResult)
        ensures { self.new ≡ record self.old { number = next_number self.old.number; kept = Some created } }
    {
        self.number = self.number.wrapping_add(1);
        self.kept = Some(created);
    }

    /// Whether the client has declared its reclaim complete.
    pub(crate) fn is_reclaimed(&self) -> bool
        ensures { result ≡ self.now.reclaimed }
    {
        self.reclaimed
    }

    /// Sets the mark of a complete reclaim.
    pub(crate) fn reclaim(&mut self)
        ensures { self.new ≡ record self.old { reclaimed = true } }
    {
        self.reclaimed = true;
    }
}
