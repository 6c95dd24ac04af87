//! OPEN and OPEN_DOWNGRADE as far as they concern opens (RFC 8881 sections 18.16 and 18.18).

ghost use Rattle.std.specs.Prelude.{◌≡◌, ◌==◌, ◌&&◌, ◌+◌, ◌<◌, not, true, None, IfOk, OnOk, OnErr, map, find, is_some};
ghost use Rattle.std.specs.Option.{option_copied};
ghost use Rattle.std.specs.List.{list_any};
ghost use Rattle.nfs_xdr.specs.Checks.{judged};
ghost use Rattle.nfs_opens.specs.Table.{table, is_owners, clashes_with, answer_of, table_after};
ghost use Rattle.nfs_opens.specs.Counts.{count_of};
ghost use Rattle.nfs_opens.specs.TableInvariants.{IsTable};
ghost use Rattle.nfs_opens.specs.Opening.{opens, own_open, downgrade};
ghost use Rattle.nfs_opens.specs.Calls.{asked, open_fault};
ghost use Rattle.nfs_opens.specs.Keys.{key_of, owner_key};

use crate::counts::{Count, Reservation};
use crate::judging::Sort;
use crate::key::Key;
use crate::opens::Opens;
use crate::owner::Owner;
use crate::records::OpenState;
use crate::share::Share;
use crate::stateid::{StateId, next_seqid};
use nfs_xdr::Status;
use std::alloc::{AllocError, Global};
use std::marker::Model;

/// Who asks to open which file, and how.
#[derive(Clone, Copy, Debug)]
pub struct Ask<'a> {
    /// The client id of the session.
    pub client: u64,
    /// The open owner.
    pub owner: &'a [u8],
    /// The number of the file.
    pub file: u64,
    /// What the open is to be allowed.
    pub access: Share,
    /// What it denies to other owners.
    pub deny: Share,
}

impl<'a> Ask<'a> {
    /// The asking owner on the file.
    pub(crate) fn key(&self) -> Key<'a>
        ensures key { key_of result ≡ owner_key self.now.file self.now.client self.now.owner.now }
        ensures file { result.file ≡ self.now.file }
        ensures client { result.client ≡ self.now.client }
        ensures owner { result.owner.now ≡ self.now.owner.now }
    {
        Key {
            file: self.file,
            client: self.client,
            owner: self.owner,
        }
    }
}

/// Room for one open of an owner: [`Opens::reserve`] alone makes it.
#[derive(Drop)]
pub struct Ready {
    owner: Owner,
    /// The same, for the open's place among others.
    again: Owner,
}

impl Model for Ready {
    ghost use Rattle.std.specs.Prelude.{ℕ, List, ◌≡◌};

    ghost Value = { List ℕ };

    ghost view = { λ r. r.owner };

    ghost invariant = { λ r. r.again ≡ r.owner };
}

impl Opens {
    /// The open that an owner has of a file.
    fn own_open(&self, ask: &Ask) -> Option<&OpenState>
        ensures { option_copied result ≡ own_open (table self.now) (asked ask.now) }
    {
        match self.owned_open(&ask.key()) {
            Some(open) if open.is_own(ask) => Some(open),
            _ => None,
        }
    }

    /// What other owners have and deny of the file.
    fn others_on(&self, ask: &Ask) -> Count
        ensures { result ≡ count_of (λ o. (o.file == ask.now.file) && not (is_owners (asked ask.now) o)) (table self.now).opens }
    {
        self.opens.single();
        self.kept();
        let all = self.opens.count_on(ask.file);
        match self.own_open(ask) {
            Some(own) => all.without(own.reserved()),
            None => all,
        }
    }

    /// Whether an open of another owner stands against what is asked.
    fn has_clash(&self, ask: &Ask) -> bool
        ensures { result ≡ list_any (clashes_with (asked ask.now)) (table self.now).opens }
    {
        let others = self.others_on(ask);
        let is_denied = ask.access.meets(others.denied());
        let denies = ask.deny.meets(others.had());
        is_denied || denies
    }

    /// Whether `open` may be called; changes nothing.
    ///
    /// The checks in their order: SHARE_DENIED where an open of the file by another owner denies what is asked, or has
    /// what is to be denied (RFC 8881 section 9.7); SERVERFAULT where the owner has no open of the file and each
    /// number was given.
    pub fn judge_open(&self, ask: &Ask) -> Result<(), Status>
        ensures { result ≡ judged (open_fault (table self.now) (asked ask.now)) }
    {
        if self.has_clash(ask) {
            return Err(Status::ShareDenied);
        }
        if self.last == u64::MAX && self.own_open(ask).is_none() {
            return Err(Status::ServerFault);
        }
        Ok(())
    }

    /// Room for one open by this owner. `Err`: there is no memory, and nothing has changed.
    pub fn reserve(&mut self, alloc: Global, owner: &[u8]) -> Result<Ready, AllocError>
        ensures owner { IfOk result (λ r. r ≡ owner.now) }
        ensures ok { OnOk result (self.new ≡ record self.old { ready = true }) }
        ensures err { OnErr result (self.new ≡ self.old) }
    {
        let again = Owner::of(alloc, owner)?;
        let owner = Owner::of(alloc, owner)?;
        self.opens.reserve(alloc)?;
        self.ready = true;
        Ok(Ready { owner, again })
    }

    /// OPEN's effect: a new open with seqid 1; or, where the owner has an open of the file, what is asked joined to what
    /// it has, and its seqid raised. Answers its stateid. Takes no memory.
    pub fn open(&mut self, ready: Ready, ask: &Ask) -> StateId
        requires owner { ready ≡ ask.now.owner.now }
        requires room { self.old.ready ≡ true }
        requires judged { open_fault (table self.old) (asked ask.now) ≡ None }
        ensures id { result ≡ (opens (table self.old) (asked ask.now)).id }
        ensures after { table self.new ≡ (opens (table self.old) (asked ask.now)).after }
        ensures room { self.new.ready ≡ is_some (own_open (table self.old) (asked ask.now)) }
    {
        match self.own_open(ask) {
            Some(open) => {
                let (number, seqid) = (open.number, next_seqid(open.seqid));
                self.opens.change(number, ask);
                StateId {
                    seqid,
                    instance: self.instance,
                    number,
                }
            }
            None => {
                let number = self.last + 1;
                self.ready = false;
                self.last = number;
                let Ready { owner, again } = ready;
                let new = OpenState {
                    number,
                    client: ask.client,
                    owner,
                    file: ask.file,
                    seqid: 1,
                    access: ask.access,
                    deny: ask.deny,
                };
                self.opens.push(new, again);
                StateId {
                    seqid: 1,
                    instance: self.instance,
                    number,
                }
            }
        }
    }

    /// OPEN_DOWNGRADE: an open has less access and denies less from now on, and its seqid rises.
    ///
    /// `id` and `file` are judged as of an open; then INVAL where the access is none, or access or deny has a bit that
    /// the open's has not. A refusal changes nothing.
    pub fn downgrade(
        &mut self,
        id: StateId,
        client: u64,
        file: u64,
        access: Share,
        deny: Share,
    ) -> Result<StateId, Status>
        ensures answer { result ≡ answer_of (downgrade (table self.old) id client file access deny) }
        ensures after { table self.new ≡ table_after (table self.old) (downgrade (table self.old) id client file access deny) }
        ensures room { self.new.ready ≡ self.old.ready }
    {
        self.judge(id, client, Some(file), Sort::OpenOnly)?;
        let seqid = match self.opens.get(id.number) {
            None => return Err(Status::BadStateId),
            Some(open) if !open.is_narrower(access, deny) => return Err(Status::Inval),
            Some(open) => next_seqid(open.seqid),
        };
        self.opens.change(id.number, &Reservation { access, deny });
        Ok(StateId {
            seqid,
            instance: self.instance,
            number: id.number,
        })
    }
}
