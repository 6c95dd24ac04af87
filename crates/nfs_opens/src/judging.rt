//! What a stateid means (RFC 8881 section 8.2).

ghost use Rattle.std.specs.Prelude.{◌≡◌, ◌==◌, true};
ghost use Rattle.std.specs.Option.{option_map_or};
ghost use Rattle.nfs_opens.specs.Table.{table, open_at};
ghost use Rattle.nfs_opens.specs.Judging.{state_named, judge, seat_named, special, is_sort, lock_named, open_named};
ghost use Rattle.nfs_opens.specs.Share.{neither};

use crate::opens::Opens;
use crate::records::{LockState, OpenState};
use crate::share::Share;
use crate::stateid::StateId;
use nfs_xdr::Status;

/// What a stateid was found to be.
#[derive(Clone, Copy, Debug, PartialEq, Eq)]
pub enum Seat {
    /// The anonymous stateid (RFC 8881 section 8.2.3).
    Anonymous,
    /// The READ bypass stateid.
    ReadBypass,
    /// An open.
    Open {
        /// Its number.
        number: u64,
        /// What it may do.
        access: Share,
    },
    /// A lock state.
    Lock {
        /// Its number.
        number: u64,
        /// What the open may do under which it was made.
        access: Share,
    },
}

/// Which stateids an operation takes.
#[derive(Clone, Copy, Debug, PartialEq, Eq)]
pub enum Sort {
    /// An open's.
    OpenOnly,
    /// A lock state's.
    LockOnly,
    /// Either's, or a special one.
    Either,
}

/// The state that a stateid names.
#[derive(Clone, Copy)]
pub(crate) struct Named {
    client: u64,
    file: u64,
    seqid: u32,
    seat: Seat,
}

impl Sort {
    fn takes(self, seat: Seat) -> bool
        ensures { result ≡ is_sort self seat }
    {
        match self {
            Sort::Either => true,
            Sort::OpenOnly => matches!(seat, Seat::Open { .. }),
            Sort::LockOnly => matches!(seat, Seat::Lock { .. }),
        }
    }

    fn special(self, seat: Seat) -> Result<Seat, Status>
        ensures { result ≡ special self seat }
    {
        match self {
            Sort::Either => Ok(seat),
            _ => Err(Status::BadStateId),
        }
    }
}

fn is_file(wanted: Option<u64>, file: u64) -> bool
    ensures { result ≡ option_map_or (λ f. file == f) wanted true }
{
    match wanted {
        Some(wanted) => file == wanted,
        None => true,
    }
}

impl Named {
    fn judge(self, client: u64, file: Option<u64>, sort: Sort, seqid: u32) -> Result<Seat, Status>
        ensures { result ≡ seat_named client file sort seqid self }
    {
        if self.client != client || !is_file(file, self.file) || !sort.takes(self.seat) {
            return Err(Status::BadStateId);
        }
        if seqid != 0 && seqid < self.seqid {
            return Err(Status::OldStateId);
        }
        if self.seqid < seqid {
            return Err(Status::BadStateId);
        }
        Ok(self.seat)
    }
}

fn open_named(o: &OpenState) -> Named
    ensures { result ≡ open_named o.now }
{
    Named {
        client: o.client,
        file: o.file,
        seqid: o.seqid,
        seat: Seat::Open {
            number: o.number,
            access: o.access,
        },
    }
}

impl Opens {
    /// What a stateid means to a client, and whether an operation takes it there; changes nothing. An argument that may
    /// stand for the current stateid is [resolved](StateId::resolve) beforehand.
    ///
    /// `file`: the file that it must be of; `None`: any. BAD_STATEID: no state has it, or another client's, another
    /// file's or one of another sort. Behind that its seqid is compared, unless it is 0: OLD_STATEID where it is lower
    /// than the state's, BAD_STATEID where it is higher. Special stateids are answered to `Sort::Either` alone.
    /// RFC 8881 sections 8.2.2 to 8.2.4.
    pub fn judge(
        &self,
        id: StateId,
        client: u64,
        file: Option<u64>,
        sort: Sort,
    ) -> Result<Seat, Status>
        ensures { result ≡ judge (table self.now) id client file sort }
    {
        if id.is_anonymous() {
            return sort.special(Seat::Anonymous);
        }
        if id.is_bypass() {
            return sort.special(Seat::ReadBypass);
        }
        match self.named(id) {
            Some(named) => named.judge(client, file, sort, id.seqid),
            None => Err(Status::BadStateId),
        }
    }

    fn named(&self, id: StateId) -> Option<Named>
        ensures { result ≡ state_named (table self.now) id }
    {
        if id.instance != self.instance {
            return None;
        }
        if let Some(open) = self.opens.get(id.number) {
            return Some(open_named(open));
        }
        match self.locks.get(id.number) {
            Some(lock) => Some(self.lock_named(lock)),
            None => None,
        }
    }

    fn lock_named(&self, lock: &LockState) -> Named
        ensures { result ≡ lock_named (table self.now) lock.now }
    {
        Named {
            client: lock.client,
            file: lock.file,
            seqid: lock.seqid,
            seat: Seat::Lock {
                number: lock.number,
                access: self.access_of(lock.opened),
            },
        }
    }

    fn access_of(&self, number: u64) -> Share
        ensures { result ≡ option_map_or (λ o. o.access) (open_at (table self.now) number) neither }
    {
        match self.opens.get(number) {
            Some(open) => open.access,
            None => Share::neither(),
        }
    }
}
