//! Stateids (RFC 8881 section 8.2).

ghost use Rattle.std.specs.Prelude.{◌≡◌};
ghost use Rattle.nfs_opens.specs.StateId.{next_seqid, has_zeros, has_ones, is_anonymous, is_bypass, is_current, resolved};

use nfs_xdr::Status;

/// A stateid4: a seqid, and its 12 bytes `other` as the server's instance (4 bytes) and the number of an open or a lock
/// state (8 bytes), both in network order.
#[derive(Clone, Copy, Debug, PartialEq, Eq)]
pub struct StateId {
    /// How often the state was changed, 1 at first; 0 as an argument means any.
    pub seqid: u32,
    /// The server's instance.
    pub instance: u32,
    /// The number of the open or lock state.
    pub number: u64,
}

/// With which seqid the current stateid is put in for an argument that stands for it.
#[derive(Clone, Copy, Debug, PartialEq, Eq)]
pub enum CurrentSeqid {
    /// With 0, which means any (RFC 8881 section 8.2.3).
    Any,
    /// With its own: in CLOSE and OPEN_DOWNGRADE.
    Own,
}

impl StateId {
    /// The anonymous stateid: seqid 0 and zeros (RFC 8881 section 8.2.3).
    pub const ANONYMOUS: StateId = StateId {
        seqid: 0,
        instance: 0,
        number: 0,
    };

    /// The stateid that an operation uses where `self` is its argument: seqid 1 and zeros stand for the current stateid.
    ///
    /// BAD_STATEID where the current one is special: its `other` is all zeros or all ones (RFC 8881 section 8.2.3).
    pub fn resolve(self, current: StateId, form: CurrentSeqid) -> Result<StateId, Status>
        ensures { result ≡ resolved self current form }
    {
        if !self.is_current() {
            return Ok(self);
        }
        if current.has_zeros() || current.has_ones() {
            return Err(Status::BadStateId);
        }
        match form {
            CurrentSeqid::Any => Ok(StateId {
                seqid: 0,
                ..current
            }),
            CurrentSeqid::Own => Ok(current),
        }
    }

    /// Whether this is the anonymous stateid.
    pub(crate) fn is_anonymous(self) -> bool
        ensures { result ≡ is_anonymous self }
    {
        self.seqid == 0 && self.has_zeros()
    }

    /// Whether this is the READ bypass stateid: all ones.
    pub(crate) fn is_bypass(self) -> bool
        ensures { result ≡ is_bypass self }
    {
        self.seqid == u32::MAX && self.has_ones()
    }

    fn is_current(self) -> bool
        ensures { result ≡ is_current self }
    {
        self.seqid == 1 && self.has_zeros()
    }

    fn has_zeros(self) -> bool
        ensures { result ≡ has_zeros self }
    {
        self.instance == 0 && self.number == 0
    }

    fn has_ones(self) -> bool
        ensures { result ≡ has_ones self }
    {
        self.instance == u32::MAX && self.number == u64::MAX
    }
}

/// The seqid behind `seqid`: behind the last comes 1 (RFC 8881 section 8.2.2).
pub(crate) fn next_seqid(seqid: u32) -> u32
    ensures { result ≡ next_seqid seqid }
{
    if seqid == u32::MAX { 1 } else { seqid + 1 }
}
