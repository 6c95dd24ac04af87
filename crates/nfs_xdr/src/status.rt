//! Statuses (nfsstat4, RFC 8881 section 15.1).

ghost use Rattle.std.specs.Prelude.{◌≡◌};
ghost use Rattle.nfs_xdr.specs.Status.{status_number};
ghost use Rattle.nfs_xdr.specs.StatusCodec.{status_of};

/// How an operation or a compound ended: the statuses that this server answers, under RFC 8881's names (section 15.1).
#[derive(Clone, Copy, Debug, PartialEq, Eq)]
pub enum Status {
    /// NFS4_OK: the operation was done.
    Nfs4Ok,
    /// NFS4ERR_PERM: only the owner may do this.
    Perm,
    /// NFS4ERR_NOENT: there is no such name or record.
    NoEnt,
    /// NFS4ERR_ACCESS: the permission bits refuse it.
    Access,
    /// NFS4ERR_EXIST: the name is taken.
    Exist,
    /// NFS4ERR_NOTDIR: a directory is wanted.
    NotDir,
    /// NFS4ERR_ISDIR: a directory is not wanted.
    IsDir,
    /// NFS4ERR_INVAL: an argument is out of place.
    Inval,
    /// NFS4ERR_FBIG: the file would grow above its limit.
    FBig,
    /// NFS4ERR_NOSPC: a table is full.
    NoSpc,
    /// NFS4ERR_MLINK: the object has all the names that it may have.
    MLink,
    /// NFS4ERR_NAMETOOLONG: the name is above its limit.
    NameTooLong,
    /// NFS4ERR_NOTEMPTY: the directory has entries.
    NotEmpty,
    /// NFS4ERR_STALE: the object is gone.
    Stale,
    /// NFS4ERR_BADHANDLE: no filehandle has this form.
    BadHandle,
    /// NFS4ERR_BAD_COOKIE: no listing goes on from this cookie.
    BadCookie,
    /// NFS4ERR_NOTSUPP: the server does not have the operation.
    NotSupp,
    /// NFS4ERR_TOOSMALL: a size asked for is below what is needed.
    TooSmall,
    /// NFS4ERR_SERVERFAULT: a counter or table of the server is used up.
    ServerFault,
    /// NFS4ERR_BADTYPE: no object of this type can be made.
    BadType,
    /// NFS4ERR_DELAY: memory was refused, and the call may be made again.
    Delay,
    /// NFS4ERR_SAME: the attributes are the same.
    Same,
    /// NFS4ERR_DENIED: another holds a lock in the way.
    Denied,
    /// NFS4ERR_LOCKED: an open denies it.
    Locked,
    /// NFS4ERR_SHARE_DENIED: another open is in the way.
    ShareDenied,
    /// NFS4ERR_CLID_INUSE: another user has the client record.
    ClidInUse,
    /// NFS4ERR_NOFILEHANDLE: there is no current or saved filehandle.
    NoFileHandle,
    /// NFS4ERR_MINOR_VERS_MISMATCH: the server has minor version 1 alone.
    MinorVersMismatch,
    /// NFS4ERR_STALE_CLIENTID: no client record has this id.
    StaleClientId,
    /// NFS4ERR_OLD_STATEID: the state has moved on.
    OldStateId,
    /// NFS4ERR_BAD_STATEID: no state has this stateid.
    BadStateId,
    /// NFS4ERR_NOT_SAME: the values differ.
    NotSame,
    /// NFS4ERR_SYMLINK: a symbolic link is not wanted.
    Symlink,
    /// NFS4ERR_ATTRNOTSUPP: the server does not have the attribute.
    AttrNotSupp,
    /// NFS4ERR_NO_GRACE: nothing can be reclaimed.
    NoGrace,
    /// NFS4ERR_BADXDR: the arguments cannot be read.
    BadXdr,
    /// NFS4ERR_LOCKS_HELD: the state still holds locks.
    LocksHeld,
    /// NFS4ERR_OPENMODE: the open has not the access.
    OpenMode,
    /// NFS4ERR_BADOWNER: no user or group is written so.
    BadOwner,
    /// NFS4ERR_BADCHAR: a name holds a slash or a zero byte.
    BadChar,
    /// NFS4ERR_BADNAME: the name is a dot or two.
    BadName,
    /// NFS4ERR_OP_ILLEGAL: no operation has this number.
    OpIllegal,
    /// NFS4ERR_BADSESSION: no session has this id.
    BadSession,
    /// NFS4ERR_BADSLOT: the session has no such slot.
    BadSlot,
    /// NFS4ERR_COMPLETE_ALREADY: reclaim was declared complete before.
    CompleteAlready,
    /// NFS4ERR_SEQ_MISORDERED: neither the next number nor the last.
    SeqMisordered,
    /// NFS4ERR_SEQUENCE_POS: SEQUENCE stands first or nowhere.
    SequencePos,
    /// NFS4ERR_REQ_TOO_BIG: the request is above the session's size.
    ReqTooBig,
    /// NFS4ERR_REP_TOO_BIG: the reply would be above the session's size.
    RepTooBig,
    /// NFS4ERR_TOO_MANY_OPS: more operations than the session takes.
    TooManyOps,
    /// NFS4ERR_OP_NOT_IN_SESSION: the operation wants a SEQUENCE before it.
    OpNotInSession,
    /// NFS4ERR_CLIENTID_BUSY: the client still has sessions or opens.
    ClientIdBusy,
    /// NFS4ERR_SEQ_FALSE_RETRY: a number repeated with another request.
    SeqFalseRetry,
    /// NFS4ERR_BAD_HIGH_SLOT: the highest slot named is not there.
    BadHighSlot,
    /// NFS4ERR_NOT_ONLY_OP: the operation stands alone or nowhere.
    NotOnlyOp,
    /// NFS4ERR_WRONG_TYPE: the object is of another type.
    WrongType,
}

impl Status {
    /// The number under which the status is sent (RFC 8881 section 15.1).
    pub fn number(self) -> u32
        ensures { result ≡ status_number self }
    {
        match self {
            Status::Nfs4Ok => 0,
            Status::Perm => 1,
            Status::NoEnt => 2,
            Status::Access => 13,
            Status::Exist => 17,
            Status::NotDir => 20,
            Status::IsDir => 21,
            Status::Inval => 22,
            Status::FBig => 27,
            Status::NoSpc => 28,
            Status::MLink => 31,
            Status::NameTooLong => 63,
            Status::NotEmpty => 66,
            Status::Stale => 70,
            Status::BadHandle => 10001,
            Status::BadCookie => 10003,
            Status::NotSupp => 10004,
            Status::TooSmall => 10005,
            Status::ServerFault => 10006,
            Status::BadType => 10007,
            Status::Delay => 10008,
            Status::Same => 10009,
            Status::Denied => 10010,
            Status::Locked => 10012,
            Status::ShareDenied => 10015,
            Status::ClidInUse => 10017,
            Status::NoFileHandle => 10020,
            Status::MinorVersMismatch => 10021,
            Status::StaleClientId => 10022,
            Status::OldStateId => 10024,
            Status::BadStateId => 10025,
            Status::NotSame => 10027,
            Status::Symlink => 10029,
            Status::AttrNotSupp => 10032,
            Status::NoGrace => 10033,
            Status::BadXdr => 10036,
            Status::LocksHeld => 10037,
            Status::OpenMode => 10038,
            Status::BadOwner => 10039,
            Status::BadChar => 10040,
            Status::BadName => 10041,
            Status::OpIllegal => 10044,
            Status::BadSession => 10052,
            Status::BadSlot => 10053,
            Status::CompleteAlready => 10054,
            Status::SeqMisordered => 10063,
            Status::SequencePos => 10064,
            Status::ReqTooBig => 10065,
            Status::RepTooBig => 10066,
            Status::TooManyOps => 10070,
            Status::OpNotInSession => 10071,
            Status::ClientIdBusy => 10074,
            Status::SeqFalseRetry => 10076,
            Status::BadHighSlot => 10077,
            Status::NotOnlyOp => 10081,
            Status::WrongType => 10083,
        }
    }

    /// The status that is sent under `number`, if this server has one.
    pub fn of(number: u32) -> Option<Status>
        ensures { result ≡ status_of number }
    {
        match number {
            0 => Some(Status::Nfs4Ok),
            1 => Some(Status::Perm),
            2 => Some(Status::NoEnt),
            13 => Some(Status::Access),
            17 => Some(Status::Exist),
            20 => Some(Status::NotDir),
            21 => Some(Status::IsDir),
            22 => Some(Status::Inval),
            27 => Some(Status::FBig),
            28 => Some(Status::NoSpc),
            31 => Some(Status::MLink),
            63 => Some(Status::NameTooLong),
            66 => Some(Status::NotEmpty),
            70 => Some(Status::Stale),
            10001 => Some(Status::BadHandle),
            10003 => Some(Status::BadCookie),
            10004 => Some(Status::NotSupp),
            10005 => Some(Status::TooSmall),
            10006 => Some(Status::ServerFault),
            10007 => Some(Status::BadType),
            10008 => Some(Status::Delay),
            10009 => Some(Status::Same),
            10010 => Some(Status::Denied),
            10012 => Some(Status::Locked),
            10015 => Some(Status::ShareDenied),
            10017 => Some(Status::ClidInUse),
            10020 => Some(Status::NoFileHandle),
            10021 => Some(Status::MinorVersMismatch),
            10022 => Some(Status::StaleClientId),
            10024 => Some(Status::OldStateId),
            10025 => Some(Status::BadStateId),
            10027 => Some(Status::NotSame),
            10029 => Some(Status::Symlink),
            10032 => Some(Status::AttrNotSupp),
            10033 => Some(Status::NoGrace),
            10036 => Some(Status::BadXdr),
            10037 => Some(Status::LocksHeld),
            10038 => Some(Status::OpenMode),
            10039 => Some(Status::BadOwner),
            10040 => Some(Status::BadChar),
            10041 => Some(Status::BadName),
            10044 => Some(Status::OpIllegal),
            10052 => Some(Status::BadSession),
            10053 => Some(Status::BadSlot),
            10054 => Some(Status::CompleteAlready),
            10063 => Some(Status::SeqMisordered),
            10064 => Some(Status::SequencePos),
            10065 => Some(Status::ReqTooBig),
            10066 => Some(Status::RepTooBig),
            10070 => Some(Status::TooManyOps),
            10071 => Some(Status::OpNotInSession),
            10074 => Some(Status::ClientIdBusy),
            10076 => Some(Status::SeqFalseRetry),
            10077 => Some(Status::BadHighSlot),
            10081 => Some(Status::NotOnlyOp),
            10083 => Some(Status::WrongType),
            _ => None,
        }
    }
}
