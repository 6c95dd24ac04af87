//! The results of operations.

ghost use Rattle.std.specs.Prelude.{◌≡◌, ◌≤◌, map, length};
ghost use Rattle.std.specs.Int.{w32, from_be_bytes};
ghost use Rattle.nfs_results.specs.AttrSet.{spelled};

use crate::entries::Entries;
use nfs_compound::{ChannelAttrs, Lent, LockType, StableHow, StateOwner, Stateid};
use nfs_xdr::Status;
use std::marker::Model;

/// What an operation answers: a variant for each operation that was done, and what RFC 5662 has behind the
/// status of one that was not.
#[derive(Drop)]
pub enum Res<'a> {
    /// RFC 8881 section 18.1.
    Access(AccessOk),
    /// The stateid that is left of the open (RFC 8881 section 18.2).
    Close(Stateid),
    /// The write verifier (RFC 8881 section 18.3).
    Commit([u8; 8]),
    /// RFC 8881 section 18.4.
    Create(CreateOk),
    /// RFC 8881 section 18.7.
    GetAttr(Fattr<'a>),
    /// The filehandle, of at most 128 bytes (RFC 8881 section 18.8).
    GetFh(Lent<'a>),
    /// The directory's change (RFC 8881 section 18.9).
    Link(ChangeInfo),
    /// The lock stateid (RFC 8881 section 18.10).
    Lock(Stateid),
    /// NFS4ERR_DENIED to a LOCK, and the lock in its way (RFC 8881 section 18.10).
    LockDenied(Denied<'a>),
    /// RFC 8881 section 18.11.
    LockT,
    /// NFS4ERR_DENIED to a LOCKT, and the lock in its way (RFC 8881 section 18.11).
    LockTDenied(Denied<'a>),
    /// The lock stateid (RFC 8881 section 18.12).
    LockU(Stateid),
    /// RFC 8881 section 18.13.
    Lookup,
    /// RFC 8881 section 18.14.
    LookupP,
    /// RFC 8881 section 18.15.
    NVerify,
    /// RFC 8881 section 18.16.
    Open(OpenOk),
    /// The open stateid (RFC 8881 section 18.18).
    OpenDowngrade(Stateid),
    /// RFC 8881 section 18.19.
    PutFh,
    /// RFC 8881 section 18.20.
    PutPubFh,
    /// RFC 8881 section 18.21.
    PutRootFh,
    /// RFC 8881 section 18.22.
    Read(ReadOk<'a>),
    /// RFC 8881 section 18.23.
    ReadDir(ReadDirOk<'a>),
    /// The text of the link, below 2^32 bytes (RFC 8881 section 18.24).
    ReadLink(Lent<'a>),
    /// The directory's change (RFC 8881 section 18.25).
    Remove(ChangeInfo),
    /// RFC 8881 section 18.26.
    Rename(RenameOk),
    /// RFC 8881 section 18.27.
    RestoreFh,
    /// RFC 8881 section 18.28.
    SaveFh,
    /// SETATTR, done or refused: it reports with every status that it can have which attributes were set (RFC 8881 section
    /// 18.30.2).
    SetAttr { status: Status, attrsset: AttrSet },
    /// RFC 8881 section 18.31.
    Verify,
    /// RFC 8881 section 18.32.
    Write(WriteOk),
    /// RFC 8881 section 18.35.
    ExchangeId(ExchangeIdOk<'a>),
    /// RFC 8881 section 18.36.
    CreateSession(CreateSessionOk),
    /// RFC 8881 section 18.37.
    DestroySession,
    /// RFC 8881 section 18.38.
    FreeStateid,
    /// The security flavors of a directory (RFC 8881 sections 18.45.2 and 18.29.2).
    SecinfoNoName(Words<'a>),
    /// RFC 8881 section 18.46.
    Sequence(SequenceOk),
    /// The number of a status for each stateid that was asked for (RFC 8881 section 18.48.2).
    TestStateid(Words<'a>),
    /// RFC 8881 section 18.50.
    DestroyClientId,
    /// RFC 8881 section 18.51.
    ReclaimComplete,
    /// An operation was refused, with nothing beside that (RFC 8881 section 15): its number, from 3 to
    /// 58 whether or not this server reads it, or that of OP_ILLEGAL, and a status other than NFS4_OK.
    Refused { operation: u32, status: Status },
}

/// Which access is known and which is given, in ACCESS4 bits (RFC 8881 section 18.1.2).
#[derive(Clone, Copy)]
pub struct AccessOk {
    pub supported: u32,
    pub access: u32,
}

/// How a directory changed (change_info4, RFC 8881 section 3.3.4).
#[derive(Clone, Copy)]
pub struct ChangeInfo {
    /// Whether nothing else changed it in between.
    pub atomic: bool,
    pub before: u64,
    pub after: u64,
}

/// A set of attributes below number 96 (bitmap4, RFC 8881 section 3.2): bit `i` of word `w` is attribute `32 * w + i`.
/// Contracts see the words that are spelled: those up to the last that is not zero.
#[derive(Drop)]
pub struct AttrSet {
    words: [u32; 3],
}

impl Model for AttrSet {
    ghost use Rattle.std.specs.Prelude.{ℕ, List};
    ghost use Rattle.nfs_results.specs.AttrSet.{spelled};

    ghost Value = { List ℕ };

    ghost view = { λ s. spelled s.words };
}

impl AttrSet {
    /// The set of these words.
    pub fn of(words: [u32; 3]) -> Self
        ensures { result ≡ spelled words }
    {
        AttrSet { words }
    }

    /// Its three words.
    pub fn words(&self) -> [u32; 3]
        ensures value { spelled result ≡ self.now }
        ensures bound { length self.now ≤ 3 }
    {
        self.words
    }
}

/// An object that was made (RFC 8881 section 18.4.2).
#[derive(Drop)]
pub struct CreateOk {
    /// The directory's change.
    pub cinfo: ChangeInfo,
    /// The attributes that were set.
    pub attrset: AttrSet,
}

/// Attributes and their values (fattr4, RFC 8881 section 3.3.7).
#[derive(Drop)]
pub struct Fattr<'a> {
    pub attrmask: AttrSet,
    /// The values, one behind the other in rising order of attribute: below 2^32 bytes.
    pub attr_vals: Lent<'a>,
}

/// The lock that is in the way (RFC 8881 section 18.10.2).
#[derive(Drop)]
pub struct Denied<'a> {
    /// Its first byte.
    pub offset: u64,
    /// Its length in bytes; all ones is up to the last byte that there can be.
    pub length: u64,
    /// How it is held.
    pub locktype: LockType,
    /// Who holds it.
    pub owner: StateOwner<'a>,
}

/// A file that was opened, with no delegation (RFC 8881 section 18.16.2).
#[derive(Drop)]
pub struct OpenOk {
    /// The open stateid.
    pub stateid: Stateid,
    /// The directory's change.
    pub cinfo: ChangeInfo,
    /// The bits OPEN4_RESULT_*.
    pub rflags: u32,
    /// The attributes that were set.
    pub attrset: AttrSet,
}

/// Bytes of a file (RFC 8881 section 18.22.2).
#[derive(Drop)]
pub struct ReadOk<'a> {
    /// Whether what is given ends where the file does.
    pub eof: bool,
    /// Below 2^32 bytes.
    pub bytes: Lent<'a>,
}

/// Entries of a directory (RFC 8881 section 18.23.2).
#[derive(Drop)]
pub struct ReadDirOk<'a> {
    pub cookieverf: [u8; 8],
    pub entries: Entries<'a>,
    /// Whether no entry is left behind these.
    pub eof: bool,
}

/// An entry of a directory (entry4, RFC 8881 section 18.23.2).
#[derive(Drop)]
pub struct Entry<'a> {
    pub cookie: u64,
    /// Below 2^32 bytes.
    pub name: Lent<'a>,
    pub attrs: Fattr<'a>,
}

/// A name that was moved (RFC 8881 section 18.26.2).
#[derive(Clone, Copy)]
pub struct RenameOk {
    /// The change of the directory that it left.
    pub source_cinfo: ChangeInfo,
    /// The change of the directory that it is in.
    pub target_cinfo: ChangeInfo,
}

/// Bytes that were written (RFC 8881 section 18.32.2).
#[derive(Clone, Copy)]
pub struct WriteOk {
    /// How many bytes.
    pub count: u32,
    /// How lasting they are.
    pub committed: StableHow,
    pub writeverf: [u8; 8],
}

/// A granted EXCHANGE_ID, with no state protection and no implementation named (RFC 8881 section 18.35.2;
/// this server's profile).
#[derive(Drop)]
pub struct ExchangeIdOk<'a> {
    /// The client id.
    pub clientid: u64,
    /// The number that the client's next CREATE_SESSION is to bear.
    pub sequenceid: u32,
    /// EXCHGID4_FLAG bits (RFC 8881 section 18.35.3).
    pub flags: u32,
    /// The minor id of the server's owner.
    pub minor_id: u64,
    /// The major id of the server's owner: at most 1,024 bytes.
    pub major_id: Lent<'a>,
    /// At most 1,024 bytes.
    pub server_scope: Lent<'a>,
}

/// A session that was made (RFC 8881 section 18.36.2).
#[derive(Clone, Copy)]
pub struct CreateSessionOk {
    pub sessionid: [u8; 16],
    /// The number that the call bore.
    pub sequence: u32,
    /// CREATE_SESSION4_FLAG bits.
    pub flags: u32,
    pub fore_chan_attrs: ChannelAttrs,
    pub back_chan_attrs: ChannelAttrs,
}

/// Words, lent: fewer than 2^32. Contracts see them one after the other.
#[derive(Drop)]
pub struct Words<'a> {
    spelled: &'a [[u8; 4]],
}

impl<'a> Model for Words<'a> {
    ghost use Rattle.std.specs.Prelude.{ℕ, List, map};
    ghost use Rattle.std.specs.Int.{w32, from_be_bytes};

    ghost Value = { List ℕ };

    ghost view = { λ w. map (from_be_bytes w32) w.spelled.now };
}

impl<'a> Words<'a> {
    /// The words that are spelled so, each big-endian.
    pub fn of(spelled: &'a [[u8; 4]]) -> Self
        ensures { result ≡ map (from_be_bytes w32) spelled.now }
    {
        Words { spelled }
    }

    /// Each as it is spelled: big-endian.
    pub fn spelled(&self) -> &'a [[u8; 4]]
        ensures { map (from_be_bytes w32) result.now ≡ self.now }
    {
        self.spelled
    }
}

/// An accepted SEQUENCE (RFC 8881 section 18.46.2).
#[derive(Clone, Copy)]
pub struct SequenceOk {
    pub sessionid: [u8; 16],
    pub sequenceid: u32,
    pub slotid: u32,
    pub highest_slotid: u32,
    pub target_highest_slotid: u32,
    /// SEQ4_STATUS bits.
    pub status_flags: u32,
}
