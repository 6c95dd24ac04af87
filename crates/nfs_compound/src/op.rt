//! The operations with their arguments, lent from the record.

ghost use Rattle.std.specs.Prelude.{◌≡◌};
ghost use Rattle.nfs_compound.specs.OpNum.{op_number};
ghost use Rattle.nfs_compound.specs.Arguments.{arguments};
ghost use Rattle.nfs_compound.specs.Request.{item_number};
ghost use Rattle.nfs_compound.specs.ReadRequest.{is_fault};

use crate::attributes::{Attributes, Bitmap};
use crate::file_args::{Commit, Read, SetAttr, Write};
use crate::lent::Lent;
use crate::lock_args::{Lock, LockT, LockU};
use crate::name_args::{Create, ReadDir, Rename, SecinfoStyle};
use crate::op_num::OpNum;
use crate::open_args::{Close, Open, OpenDowngrade};
use crate::session_args::{CreateSession, ExchangeId, Sequence};
use crate::stateid::{Stateid, Stateids};
use nfs_xdr::Status;

/// An operation of RFC 8881 section 18 with its arguments.
#[derive(Drop)]
pub enum Op<'a> {
    /// Section 18.1.
    Access { access: u32 },
    /// Section 18.2.
    Close(Close),
    /// Section 18.3.
    Commit(Commit),
    /// Section 18.4.
    Create(Create<'a>),
    /// Section 18.7.
    GetAttr { attr_request: Bitmap<'a> },
    /// Section 18.8.
    GetFh,
    /// Section 18.9.
    Link { newname: Lent<'a> },
    /// Section 18.10.
    Lock(Lock<'a>),
    /// Section 18.11.
    LockT(LockT<'a>),
    /// Section 18.12.
    LockU(LockU),
    /// Section 18.13.
    Lookup { objname: Lent<'a> },
    /// Section 18.14.
    LookupP,
    /// Section 18.15.
    NVerify { obj_attributes: Attributes<'a> },
    /// Section 18.16.
    Open(Open<'a>),
    /// Section 18.18.
    OpenDowngrade(OpenDowngrade),
    /// Section 18.19.
    PutFh { object: Lent<'a> },
    /// Section 18.20.
    PutPubFh,
    /// Section 18.21.
    PutRootFh,
    /// Section 18.22.
    Read(Read),
    /// Section 18.23.
    ReadDir(ReadDir<'a>),
    /// Section 18.24.
    ReadLink,
    /// Section 18.25.
    Remove { target: Lent<'a> },
    /// Section 18.26.
    Rename(Rename<'a>),
    /// Section 18.27.
    RestoreFh,
    /// Section 18.28.
    SaveFh,
    /// Section 18.30.
    SetAttr(SetAttr<'a>),
    /// Section 18.31.
    Verify { obj_attributes: Attributes<'a> },
    /// Section 18.32.
    Write(Write<'a>),
    /// Section 18.35.
    ExchangeId(ExchangeId<'a>),
    /// Section 18.36.
    CreateSession(CreateSession<'a>),
    /// Section 18.37.
    DestroySession { sessionid: [u8; 16] },
    /// Section 18.38.
    FreeStateid { stateid: Stateid },
    /// Section 18.45.
    SecinfoNoName { style: SecinfoStyle },
    /// Section 18.46.
    Sequence(Sequence),
    /// Section 18.48.
    TestStateid { stateids: Stateids<'a> },
    /// Section 18.50.
    DestroyClientId { clientid: u64 },
    /// Section 18.51.
    ReclaimComplete { one_fs: bool },
}

/// What stands at a place of a compound: an operation, or the fault that ends the list.
#[derive(Drop)]
pub enum Item<'a> {
    Operation(Op<'a>),
    /// No operation that can be run, and nothing behind it is read: the operation number and the status of its result.
    /// `NotSupp` for an operation of minor version 1 that this server does not have, `OpIllegal` under the number of
    /// OP_ILLEGAL for a number that is no operation's, `BadXdr` for arguments that are not spelled as RFC 5662 has them,
    /// and `Inval` for an EXCHANGE_ID that wants state protection (section 15.1; this server's profile).
    Fault { number: u32, status: Status },
}

impl Op<'_> {
    /// Its number (RFC 5662).
    pub fn number(&self) -> u32
        ensures { result ≡ op_number (arguments self.now).op }
    {
        let op = match self {
            Op::Access { .. } => OpNum::Access,
            Op::Close(_) => OpNum::Close,
            Op::Commit(_) => OpNum::Commit,
            Op::Create(_) => OpNum::Create,
            Op::GetAttr { .. } => OpNum::GetAttr,
            Op::GetFh => OpNum::GetFh,
            Op::Link { .. } => OpNum::Link,
            Op::Lock(_) => OpNum::Lock,
            Op::LockT(_) => OpNum::LockT,
            Op::LockU(_) => OpNum::LockU,
            Op::Lookup { .. } => OpNum::Lookup,
            Op::LookupP => OpNum::LookupP,
            Op::NVerify { .. } => OpNum::NVerify,
            Op::Open(_) => OpNum::Open,
            Op::OpenDowngrade(_) => OpNum::OpenDowngrade,
            Op::PutFh { .. } => OpNum::PutFh,
            Op::PutPubFh => OpNum::PutPubFh,
            Op::PutRootFh => OpNum::PutRootFh,
            Op::Read(_) => OpNum::Read,
            Op::ReadDir(_) => OpNum::ReadDir,
            Op::ReadLink => OpNum::ReadLink,
            Op::Remove { .. } => OpNum::Remove,
            Op::Rename(_) => OpNum::Rename,
            Op::RestoreFh => OpNum::RestoreFh,
            Op::SaveFh => OpNum::SaveFh,
            Op::SetAttr(_) => OpNum::SetAttr,
            Op::Verify { .. } => OpNum::Verify,
            Op::Write(_) => OpNum::Write,
            Op::ExchangeId(_) => OpNum::ExchangeId,
            Op::CreateSession(_) => OpNum::CreateSession,
            Op::DestroySession { .. } => OpNum::DestroySession,
            Op::FreeStateid { .. } => OpNum::FreeStateid,
            Op::SecinfoNoName { .. } => OpNum::SecinfoNoName,
            Op::Sequence(_) => OpNum::Sequence,
            Op::TestStateid { .. } => OpNum::TestStateid,
            Op::DestroyClientId { .. } => OpNum::DestroyClientId,
            Op::ReclaimComplete { .. } => OpNum::ReclaimComplete,
        };
        op.number()
    }
}

impl Item<'_> {
    /// The operation number under which it is answered.
    pub fn number(&self) -> u32
        ensures { result ≡ item_number self.now }
    {
        match self {
            Item::Operation(op) => op.number(),
            Item::Fault { number, .. } => *number,
        }
    }

    /// Whether it is the fault that ends the list.
    pub fn is_fault(&self) -> bool
        ensures { result ≡ is_fault self.now }
    {
        matches!(self, Item::Fault { .. })
    }
}
