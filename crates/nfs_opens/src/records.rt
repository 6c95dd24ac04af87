//! The records of opens and of lock states.

ghost use Rattle.std.specs.Prelude.{◌≡◌, ◌==◌, ◌&&◌, not};
ghost use Rattle.nfs_opens.specs.Share.{is_part};
ghost use Rattle.nfs_opens.specs.Table.{is_own};
ghost use Rattle.nfs_opens.specs.Opening.{is_narrower};
ghost use Rattle.nfs_opens.specs.Calls.{asked};
ghost use Rattle.nfs_opens.specs.Locking.{is_locker};
ghost use Rattle.nfs_opens.specs.Keys.{open_key, lock_key, owner_key, key_of};
ghost use Rattle.nfs_opens.specs.Counts.{reserved};

use crate::blocks::{Change, InBlocks};
use crate::counts::Reservation;
use crate::key::Key;
use crate::opening::Ask;
use crate::owner::Owner;
use crate::share::Share;
use crate::stateid::next_seqid;

/// An open: what an open owner has of a file (RFC 8881 section 9.7).
#[derive(Drop)]
pub struct OpenState {
    /// The number in its stateid.
    pub number: u64,
    /// The client id of the session that made it.
    pub client: u64,
    /// The open owner.
    pub owner: Owner,
    /// The number of the file.
    pub file: u64,
    /// The seqid of its stateid now.
    pub seqid: u32,
    /// What it may do.
    pub access: Share,
    /// What it denies to other owners.
    pub deny: Share,
}

/// A lock state: what a lock owner has of a file (RFC 8881 section 9.1).
#[derive(Drop)]
pub struct LockState {
    /// The number in its stateid.
    pub number: u64,
    /// The client id of the session that made it.
    pub client: u64,
    /// The lock owner.
    pub owner: Owner,
    /// The number of the file.
    pub file: u64,
    /// The number of the open under which it was made.
    pub opened: u64,
    /// The seqid of its stateid now.
    pub seqid: u32,
}

/// An open or a lock state.
pub(crate) trait State: InBlocks {
    ghost use Rattle.std.specs.Prelude.{ℕ, ◌≡◌};

    ghost number: { Self → ℕ };

    /// The number in its stateid.
    fn number(&self) -> u64
        ensures { result ≡ number self.now };
}

impl InBlocks for OpenState {
    ghost use Rattle.std.proofs.Common.{arith};

    const MOST: usize = 64;

    ghost MOST = { 64 };

    ghost several = { Prim.omega arith };
}

impl State for OpenState {
    ghost number = { λ o. o.number };

    fn number(&self) -> u64 {
        self.number
    }
}

impl InBlocks for LockState {
    ghost use Rattle.std.proofs.Common.{arith};

    const MOST: usize = 64;

    ghost MOST = { 64 };

    ghost several = { Prim.omega arith };
}

impl State for LockState {
    ghost number = { λ l. l.number };

    fn number(&self) -> u64 {
        self.number
    }
}

/// A change of a state, which keeps its number.
pub(crate) trait StateChange<T: State>: Change<T> {
    ghost use Rattle.std.specs.Prelude.{◌≡◌};

    ghost keeps: { (c : Self) (x : T) → T.number (Self.changed c x) ≡ T.number x };
}

/// A change of an open, which stays its owner's on its file.
pub(crate) trait OpenChange: StateChange<OpenState> {
    ghost use Rattle.std.specs.Prelude.{◌≡◌};
    ghost use Rattle.nfs_opens.specs.declared.records.OpenState.{OpenState};
    ghost use Rattle.nfs_opens.specs.Counts.{reserved};
    ghost use Rattle.nfs_opens.specs.TableInvariants.{whose};

    /// What the open has and denies then.
    fn reserves(&self, state: &OpenState) -> Reservation
        ensures { result ≡ reserved (Self.changed self.now state.now) };

    ghost stays: { (c : Self) (o : OpenState) → whose (Self.changed c o) ≡ whose o };
}

/// What is asked joins.
impl Change<OpenState> for Ask<'_> {
    ghost use Rattle.nfs_opens.specs.Calls.{asked};
    ghost use Rattle.nfs_opens.specs.Opening.{joins};

    ghost changed = { λ a o. joins (asked a) o };

    fn make(&self, item: &mut OpenState) {
        item.seqid = next_seqid(item.seqid);
        item.access = item.access.joined(self.access);
        item.deny = item.deny.joined(self.deny);
    }
}

impl StateChange<OpenState> for Ask<'_> {
    ghost use Rattle.std.specs.Prelude.{refl};

    ghost keeps = { λ c x. refl };
}

impl OpenChange for Ask<'_> {
    ghost use Rattle.std.specs.Prelude.{refl};

    fn reserves(&self, state: &OpenState) -> Reservation {
        Reservation {
            access: state.access.joined(self.access),
            deny: state.deny.joined(self.deny),
        }
    }

    ghost stays = { λ c o. refl };
}

/// The open has this access and denies this from now on.
impl Change<OpenState> for Reservation {
    ghost use Rattle.nfs_opens.specs.Opening.{narrows};

    ghost changed = { λ r o. narrows r.access r.deny o };

    fn make(&self, item: &mut OpenState) {
        item.seqid = next_seqid(item.seqid);
        item.access = self.access;
        item.deny = self.deny;
    }
}

impl StateChange<OpenState> for Reservation {
    ghost use Rattle.std.specs.Prelude.{refl};

    ghost keeps = { λ c x. refl };
}

impl OpenChange for Reservation {
    ghost use Rattle.std.specs.Prelude.{refl};

    fn reserves(&self, _state: &OpenState) -> Reservation {
        *self
    }

    ghost stays = { λ c o. refl };
}

/// The seqid of a lock state rises.
pub(crate) struct Raise;

impl Change<LockState> for Raise {
    ghost use Rattle.nfs_opens.specs.Locking.{raised};

    ghost changed = { λ c l. raised l };

    fn make(&self, item: &mut LockState) {
        item.seqid = next_seqid(item.seqid);
    }
}

impl StateChange<LockState> for Raise {
    ghost use Rattle.std.specs.Prelude.{refl};

    ghost keeps = { λ c x. refl };
}

impl OpenState {
    /// Its owner on its file.
    pub(crate) fn key(&self) -> Key<'_>
        ensures key { key_of result ≡ open_key self.now }
        ensures file { result.file ≡ self.now.file }
        ensures client { result.client ≡ self.now.client }
        ensures owner { result.owner.now ≡ self.now.owner }
    {
        Key {
            file: self.file,
            client: self.client,
            owner: self.owner.bytes(),
        }
    }

    /// What it has and denies.
    pub(crate) fn reserved(&self) -> Reservation
        ensures { result ≡ reserved self.now }
    {
        Reservation {
            access: self.access,
            deny: self.deny,
        }
    }

    /// Whether the asking owner has this open of the file that it asks for.
    pub(crate) fn is_own(&self, ask: &Ask<'_>) -> bool
        ensures own { result ≡ is_own (asked ask.now) self.now }
        ensures key { result ≡ (open_key self.now == owner_key ask.now.file ask.now.client ask.now.owner.now) }
    {
        self.key().is(&ask.key())
    }

    /// Whether it is not this client's.
    pub(crate) fn is_others(&self, client: u64) -> bool
        ensures { result ≡ not (self.now.client == client) }
    {
        self.client != client
    }

    /// Whether this is some access, and neither it nor what is denied has a bit that the open has not.
    pub(crate) fn is_narrower(&self, access: Share, deny: Share) -> bool
        ensures { result ≡ is_narrower access deny self.now }
    {
        !access.is_neither() && access.is_part(self.access) && deny.is_part(self.deny)
    }
}

impl LockState {
    /// Its owner on its file.
    pub(crate) fn key(&self) -> Key<'_>
        ensures key { key_of result ≡ lock_key self.now }
        ensures file { result.file ≡ self.now.file }
        ensures client { result.client ≡ self.now.client }
        ensures owner { result.owner.now ≡ self.now.owner }
    {
        Key {
            file: self.file,
            client: self.client,
            owner: self.owner.bytes(),
        }
    }

    /// Whether this is the lock owner's on the file.
    pub(crate) fn is_lockers(&self, key: &Key<'_>) -> bool
        ensures own { result ≡ is_locker key.now.client key.now.owner.now key.now.file self.now }
        ensures key { result ≡ (lock_key self.now == key_of key.now) }
    {
        self.key().is(key)
    }
}
