//! LOCK, LOCKT and LOCKU (RFC 8881 sections 18.10 to 18.12).

ghost use Rattle.std.specs.Prelude.{◌≡◌, ◌≤◌, IfSome, IsSomeAnd, IsTrue, OnOk, OnErr, not};
ghost use Rattle.std.specs.Option.{option_copied};
ghost use Rattle.nfs_opens.specs.declared.locking.OpenFault.TheVariants.{Refused, Memory};
ghost use Rattle.nfs_ranges.specs.Holders.{cleared};
ghost use Rattle.nfs_opens.specs.Holding.{held_by, on_file, ListsNoMore};
ghost use Rattle.nfs_opens.specs.TableInvariants.{HasNoByteBehind, IsTable};
ghost use Rattle.nfs_opens.specs.Table.{table, open_at, lock_at};
ghost use Rattle.nfs_opens.specs.Locking.{lock_as, lock_first, lock_judged, unlock, test_lock, clash, permits, access_in, state_of};
ghost use Rattle.nfs_opens.specs.Steps.{map_err};
ghost use Rattle.nfs_opens.specs.Calls.{LocksOrWants, UnlocksOrWants, lock, is_whole};

use crate::judging::{Seat, Sort};
use crate::key::Key;
use crate::locked_files::LockedFiles;
use crate::opens::Opens;
use crate::owner::Owner;
use crate::records::LockState;
use crate::share::Share;
use crate::stateid::{StateId, next_seqid};
use nfs_ranges::{Held, Kind};
use nfs_xdr::Status;
use std::alloc::{AllocError, Global};

/// Which bytes of which file a client wishes to lock, and how.
#[derive(Clone, Copy, Debug, PartialEq, Eq)]
pub struct Wish {
    /// The client id of the session.
    pub client: u64,
    /// The number of the file.
    pub file: u64,
    /// READ or WRITE.
    pub kind: Kind,
    /// The first byte, counted from 0.
    pub first: u64,
    /// The last byte, itself locked.
    pub last: u64,
}

/// For whom LOCK locks (`locker4`, RFC 8881 section 18.10.1).
#[derive(Clone, Copy, Debug)]
pub enum Locker<'a> {
    /// A new lock owner, under an open.
    New {
        /// The open's stateid.
        under: StateId,
        /// The lock owner.
        owner: &'a [u8],
    },
    /// A lock state that stands, by its stateid.
    Known(StateId),
}

/// Why a lock was not set or given up.
#[derive(Clone, Copy, Debug, PartialEq, Eq)]
pub enum OpenFault {
    /// The status that is answered.
    Refused(Status),
    /// NFS4ERR_DENIED: another lock state holds these bytes.
    Denied(Held),
    /// There is no memory (NFS4ERR_DELAY).
    Memory,
}

impl From<AllocError> for OpenFault {
    ghost from_gives = { λ _ e. e ≡ Memory };

    fn from(_e: AllocError) -> OpenFault {
        OpenFault::Memory
    }
}

impl From<Status> for OpenFault {
    ghost from_gives = { λ s e. e ≡ Refused s };

    fn from(status: Status) -> OpenFault {
        OpenFault::Refused(status)
    }
}

fn permits(access: Share, kind: Kind) -> bool
    ensures { result ≡ permits access kind }
{
    match kind {
        Kind::Read => access.reads,
        Kind::Write => access.writes,
    }
}

fn access_in(seat: Seat) -> Share
    ensures { result ≡ access_in seat }
{
    match seat {
        Seat::Open { access, .. } | Seat::Lock { access, .. } => access,
        Seat::Anonymous | Seat::ReadBypass => Share::neither(),
    }
}

/// A lock state gives up bytes of a file; those of a whole file without memory.
fn clear_bytes(
    files: &mut LockedFiles,
    alloc: Global,
    file: u64,
    state: u64,
    first: u64,
    last: u64,
) -> Result<(), AllocError>
    requires range { first ≤ last }
    requires within { HasNoByteBehind (held_by files.old file) }
    ensures ok { OnOk result (held_by files.new ≡ on_file (held_by files.old) file (λ h. cleared h state first last)) }
    ensures err { OnErr result (files.new ≡ files.old) }
    ensures listed { ListsNoMore files.old files.new }
    ensures whole { OnErr result (IsTrue (not (is_whole first last))) }
{
    if first == 0 && last == u64::MAX {
        files.drop_state(file, state);
        return Ok(());
    }
    files.clear(alloc, file, state, first, last)
}

impl Opens {
    /// LOCKT: the lock that stands against a lock owner's wish, whatever its client has open; changes nothing.
    ///
    /// What is answered is the lowest byte that clashes, of the lock states that clash there the lowest number, and the whole
    /// run of bytes round it that this one holds with the same kind ([`Ranges::clash`](nfs_ranges::Ranges::clash)).
    pub fn test_lock(&self, owner: &[u8], wish: &Wish) -> Option<Held>
        requires { wish.now.first ≤ wish.now.last }
        ensures { result ≡ test_lock (table self.now) owner.now wish.now }
    {
        let state = match self.locker(wish.client, owner, wish.file) {
            Some(lock) => lock.number,
            None => 0,
        };
        self.clash(state, wish)
    }

    /// The lock state that a lock owner has on a file.
    fn locker(&self, client: u64, owner: &[u8], file: u64) -> Option<&LockState>
        ensures found { option_copied result ≡ state_of (table self.now) client owner.now file }
        ensures kept { IsTable (table self.now) }
    {
        self.kept();
        let key = Key {
            file,
            client,
            owner,
        };
        match self.owned_lock(&key) {
            Some(lock) if lock.is_lockers(&key) => Some(lock),
            _ => None,
        }
    }

    fn clash(&self, state: u64, wish: &Wish) -> Option<Held>
        requires { wish.now.first ≤ wish.now.last }
        ensures { result ≡ clash (table self.now) state wish.now }
    {
        self.files
            .clash(wish.file, state, wish.kind, wish.first, wish.last)
    }

    /// LOCK: a lock state holds bytes with this kind, in place of what it held of them. A lock owner that has no state on
    /// the file gets one with seqid 1; else the seqid of its state rises.
    ///
    /// The checks in their order: the stateid is judged; OPENMODE where the open's access does not permit the kind;
    /// `Denied` as [`test_lock`](Opens::test_lock) reports it; SERVERFAULT where a new state is wanted and each number was
    /// given; `Memory`. A refusal changes nothing. RFC 8881 section 18.10.
    pub fn lock(
        &mut self,
        alloc: Global,
        locker: &Locker,
        wish: &Wish,
    ) -> Result<StateId, OpenFault>
        requires { wish.now.first ≤ wish.now.last }
        ensures locks { LocksOrWants (table self.old) (lock (table self.old) locker.now wish.now) result (table self.new) }
        ensures room { self.new.ready ≡ self.old.ready }
    {
        match *locker {
            Locker::New { under, owner } => {
                let seat = self.judge(under, wish.client, Some(wish.file), Sort::OpenOnly)?;
                match self.locker(wish.client, owner, wish.file) {
                    Some(lock) => {
                        let number = lock.number;
                        self.lock_as(alloc, number, access_in(seat), wish)
                    }
                    None => self.lock_first(alloc, under.number, owner, access_in(seat), wish),
                }
            }
            Locker::Known(state) => {
                let seat = self.judge(state, wish.client, Some(wish.file), Sort::LockOnly)?;
                self.lock_as(alloc, state.number, access_in(seat), wish)
            }
        }
    }

    /// Refuses by the open's access, then by a clash.
    fn judge_lock(&self, state: u64, access: Share, wish: &Wish) -> Result<(), OpenFault>
        requires { wish.now.first ≤ wish.now.last }
        ensures { result ≡ lock_judged (table self.now) state access wish.now }
    {
        if !permits(access, wish.kind) {
            return Err(OpenFault::Refused(Status::OpenMode));
        }
        match self.clash(state, wish) {
            Some(held) => Err(OpenFault::Denied(held)),
            None => Ok(()),
        }
    }

    /// LOCK by a lock state that stands.
    fn lock_as(
        &mut self,
        alloc: Global,
        state: u64,
        access: Share,
        wish: &Wish,
    ) -> Result<StateId, OpenFault>
        requires range { wish.now.first ≤ wish.now.last }
        requires file { IfSome (lock_at (table self.old) state) (λ l. l.file ≡ wish.now.file) }
        ensures locks { LocksOrWants (table self.old) (lock_as (table self.old) wish.now state access) result (table self.new) }
        ensures room { self.new.ready ≡ self.old.ready }
    {
        self.judge_lock(state, access, wish)?;
        let seqid = match self.locks.get(state) {
            Some(lock) => next_seqid(lock.seqid),
            None => return Err(OpenFault::Refused(Status::BadStateId)),
        };
        self.files
            .set(alloc, wish.file, state, wish.kind, wish.first, wish.last)?;
        self.locks.raise(state);
        Ok(StateId {
            seqid,
            instance: self.instance,
            number: state,
        })
    }

    /// LOCK by a lock owner that has no state on the file.
    fn lock_first(
        &mut self,
        alloc: Global,
        opened: u64,
        owner: &[u8],
        access: Share,
        wish: &Wish,
    ) -> Result<StateId, OpenFault>
        requires range { wish.now.first ≤ wish.now.last }
        requires under { IsSomeAnd (open_at (table self.old) opened) (λ o. (o.client ≡ wish.now.client) × (o.file ≡ wish.now.file)) }
        ensures locks { LocksOrWants (table self.old) (lock_first (table self.old) wish.now opened owner.now access) result (table self.new) }
        ensures room { self.new.ready ≡ self.old.ready }
    {
        self.judge_lock(0, access, wish)?;
        if self.last == u64::MAX {
            return Err(OpenFault::Refused(Status::ServerFault));
        }
        let number = self.last + 1;
        let again = Owner::of(alloc, owner)?;
        let owner = Owner::of(alloc, owner)?;
        self.locks.reserve(alloc)?;
        self.files
            .set(alloc, wish.file, number, wish.kind, wish.first, wish.last)?;
        self.last = number;
        let new = LockState {
            number,
            client: wish.client,
            owner,
            file: wish.file,
            opened,
            seqid: 1,
        };
        self.locks.push(new, again);
        Ok(StateId {
            seqid: 1,
            instance: self.instance,
            number,
        })
    }

    /// LOCKU: a lock state holds none of these bytes from now on, whether it held them or not, and its seqid rises.
    ///
    /// The stateid is judged as a lock state's. `Memory`: nothing has changed; the bytes of a whole file (from 0 to
    /// 2^64 - 1) are given up without memory. RFC 8881 section 18.12.
    pub fn unlock(
        &mut self,
        alloc: Global,
        id: StateId,
        client: u64,
        file: u64,
        first: u64,
        last: u64,
    ) -> Result<StateId, OpenFault>
        requires { first ≤ last }
        ensures unlocks { UnlocksOrWants (table self.old) (is_whole first last) (map_err Refused (unlock (table self.old) id client file first last)) result (table self.new) }
        ensures room { self.new.ready ≡ self.old.ready }
    {
        self.judge(id, client, Some(file), Sort::LockOnly)?;
        let seqid = match self.locks.get(id.number) {
            Some(lock) => next_seqid(lock.seqid),
            None => return Err(OpenFault::Refused(Status::BadStateId)),
        };
        clear_bytes(&mut self.files, alloc, file, id.number, first, last)?;
        self.locks.raise(id.number);
        Ok(StateId {
            seqid,
            instance: self.instance,
            number: id.number,
        })
    }
}
