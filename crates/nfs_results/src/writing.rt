//! Putting results onto a sheet.

ghost use Rattle.std.specs.Prelude.{◌≡◌, ◌≤◌, length};
ghost use Rattle.nfs_xdr.specs.SheetState.{HasRoom, Puts};
ghost use Rattle.nfs_xdr.specs.Status.{status_number};
ghost use Rattle.nfs_results.specs.Results.{spell_result, head, operation_of, status_of_result, refusal};
ghost use Rattle.nfs_results.specs.ResultCodec.{IsBounded, HasArrays};
ghost use Rattle.nfs_results.specs.Parts.{parts};

use crate::item_writing::{
    put_access, put_attr_set, put_change_info, put_create, put_create_session, put_denied,
    put_exchange_id, put_fattr, put_numbers, put_open, put_read, put_read_dir, put_rename,
    put_sequence, put_stateid, put_write,
};
use crate::res::{AttrSet, Res};
use nfs_compound::OpNum;
use nfs_xdr::{Sheet, Status};

/// Puts a result: the operation number and the status, 4 bytes each, and what RFC 5662 has behind them. The
/// result has a spelling: no opaque is above its bound, and a refusal is one that a reply can bear.
#[tactic(auto, using(nfs_xdr::proofs::Putting::putting))]
pub fn write(res: &Res<'_>, out: &mut Sheet)
    requires bounds { IsBounded res.now }
    requires room { HasArrays res.now → HasRoom out.old (spell_result res.now) }
    ensures { Puts out.old out.new (spell_result res.now) }
{
    measure(res);
    put_head(res.operation(), res.status(), out);
    put_behind(res, out);
}

/// Puts both words at once, so that the room is looked at once.
#[tactic(auto, unfolding(nfs_xdr::specs::Spelling::number))]
#[inline(always)]
pub(crate) fn put_head(operation: u32, status: Status, out: &mut Sheet)
    requires room { HasRoom out.old (head operation status) }
    ensures { Puts out.old out.new (head operation status) }
{
    let words = [operation.to_be_bytes(), status.number().to_be_bytes()];
    out.put_bytes(words.as_flattened());
}

/// Looks at the arrays, which are as long as their types say.
fn measure(res: &Res<'_>) -> usize
    ensures { HasArrays res.now }
{
    match res {
        Res::Close(stateid)
        | Res::Lock(stateid)
        | Res::LockU(stateid)
        | Res::OpenDowngrade(stateid) => measured(&stateid.other),
        Res::Commit(writeverf) => measured(writeverf),
        Res::Open(opened) => measured(&opened.stateid.other),
        Res::ReadDir(listed) => measured(&listed.cookieverf),
        Res::Write(written) => measured(&written.writeverf),
        Res::CreateSession(made) => measured(&made.sessionid),
        Res::Sequence(accepted) => measured(&accepted.sessionid),
        Res::Access(_)
        | Res::Create(_)
        | Res::GetAttr(_)
        | Res::GetFh(_)
        | Res::Link(_)
        | Res::LockDenied(_)
        | Res::LockT
        | Res::LockTDenied(_)
        | Res::Lookup
        | Res::LookupP
        | Res::NVerify
        | Res::PutFh
        | Res::PutPubFh
        | Res::PutRootFh
        | Res::Read(_)
        | Res::ReadLink(_)
        | Res::Remove(_)
        | Res::Rename(_)
        | Res::RestoreFh
        | Res::SaveFh
        | Res::SetAttr { .. }
        | Res::Verify
        | Res::ExchangeId(_)
        | Res::DestroySession
        | Res::FreeStateid
        | Res::SecinfoNoName(_)
        | Res::TestStateid(_)
        | Res::DestroyClientId
        | Res::ReclaimComplete
        | Res::Refused { .. } => 0,
    }
}

fn measured<const N: usize>(array: &[u8; N]) -> usize
    ensures { length array.now ≡ N }
{
    array.len()
}

/// What stands behind the status.
#[tactic(auto, using(nfs_xdr::proofs::Putting::putting, crate::proofs::Nothing::puts_nothing), unfolding(crate::specs::Items::flavors, crate::specs::Items::status_codes))]
fn put_behind(res: &Res<'_>, out: &mut Sheet)
    requires bounds { IsBounded res.now }
    requires room { HasRoom out.old (parts res.now).behind }
    ensures { Puts out.old out.new (parts res.now).behind }
{
    match res {
        Res::Access(access) => put_access(access, out),
        Res::Close(stateid)
        | Res::Lock(stateid)
        | Res::LockU(stateid)
        | Res::OpenDowngrade(stateid) => put_stateid(stateid, out),
        Res::Commit(writeverf) => out.put_fixed(writeverf),
        Res::Create(created) => put_create(created, out),
        Res::GetAttr(attributes) => put_fattr(attributes, out),
        Res::GetFh(object) => out.put_opaque(object.bytes()),
        Res::Link(cinfo) | Res::Remove(cinfo) => put_change_info(cinfo, out),
        Res::LockDenied(denied) | Res::LockTDenied(denied) => put_denied(denied, out),
        Res::Open(opened) => put_open(opened, out),
        Res::Read(read) => put_read(read, out),
        Res::ReadDir(listed) => put_read_dir(listed, out),
        Res::ReadLink(link) => out.put_opaque(link.bytes()),
        Res::Rename(renamed) => put_rename(renamed, out),
        Res::SetAttr { attrsset, .. } => put_attr_set(attrsset, out),
        Res::Write(written) => put_write(written, out),
        Res::ExchangeId(granted) => put_exchange_id(granted, out),
        Res::CreateSession(made) => put_create_session(made, out),
        Res::SecinfoNoName(flavors) => put_numbers(flavors.spelled(), out),
        Res::Sequence(accepted) => put_sequence(accepted, out),
        Res::TestStateid(codes) => put_numbers(codes.spelled(), out),
        Res::LockT
        | Res::Lookup
        | Res::LookupP
        | Res::NVerify
        | Res::PutFh
        | Res::PutPubFh
        | Res::PutRootFh
        | Res::RestoreFh
        | Res::SaveFh
        | Res::Verify
        | Res::DestroySession
        | Res::FreeStateid
        | Res::DestroyClientId
        | Res::ReclaimComplete
        | Res::Refused { .. } => {}
    }
}

impl Res<'_> {
    /// How an operation of this number is refused with nothing beside that: SETATTR reports that it set no
    /// attribute (RFC 8881 section 18.30.2).
    pub fn refusal(operation: u32, status: Status) -> Res<'static>
        ensures { result ≡ refusal operation status }
    {
        if operation == OpNum::SetAttr.number() {
            let attrsset = AttrSet::of([0, 0, 0]);
            return Res::SetAttr { status, attrsset };
        }
        Res::Refused { operation, status }
    }

    /// The number of its operation (RFC 5662).
    pub fn operation(&self) -> u32
        ensures { result ≡ operation_of self.now }
    {
        let op = match self {
            Res::Access(_) => OpNum::Access,
            Res::Close(_) => OpNum::Close,
            Res::Commit(_) => OpNum::Commit,
            Res::Create(_) => OpNum::Create,
            Res::GetAttr(_) => OpNum::GetAttr,
            Res::GetFh(_) => OpNum::GetFh,
            Res::Link(_) => OpNum::Link,
            Res::Lock(_) | Res::LockDenied(_) => OpNum::Lock,
            Res::LockT | Res::LockTDenied(_) => OpNum::LockT,
            Res::LockU(_) => OpNum::LockU,
            Res::Lookup => OpNum::Lookup,
            Res::LookupP => OpNum::LookupP,
            Res::NVerify => OpNum::NVerify,
            Res::Open(_) => OpNum::Open,
            Res::OpenDowngrade(_) => OpNum::OpenDowngrade,
            Res::PutFh => OpNum::PutFh,
            Res::PutPubFh => OpNum::PutPubFh,
            Res::PutRootFh => OpNum::PutRootFh,
            Res::Read(_) => OpNum::Read,
            Res::ReadDir(_) => OpNum::ReadDir,
            Res::ReadLink(_) => OpNum::ReadLink,
            Res::Remove(_) => OpNum::Remove,
            Res::Rename(_) => OpNum::Rename,
            Res::RestoreFh => OpNum::RestoreFh,
            Res::SaveFh => OpNum::SaveFh,
            Res::SetAttr { .. } => OpNum::SetAttr,
            Res::Verify => OpNum::Verify,
            Res::Write(_) => OpNum::Write,
            Res::ExchangeId(_) => OpNum::ExchangeId,
            Res::CreateSession(_) => OpNum::CreateSession,
            Res::DestroySession => OpNum::DestroySession,
            Res::FreeStateid => OpNum::FreeStateid,
            Res::SecinfoNoName(_) => OpNum::SecinfoNoName,
            Res::Sequence(_) => OpNum::Sequence,
            Res::TestStateid(_) => OpNum::TestStateid,
            Res::DestroyClientId => OpNum::DestroyClientId,
            Res::ReclaimComplete => OpNum::ReclaimComplete,
            Res::Refused { operation, .. } => return *operation,
        };
        op.number()
    }

    /// How the operation ended.
    pub fn status(&self) -> Status
        ensures { result ≡ status_of_result self.now }
    {
        match self {
            Res::LockDenied(_) | Res::LockTDenied(_) => Status::Denied,
            Res::SetAttr { status, .. } | Res::Refused { status, .. } => *status,
            _ => Status::Nfs4Ok,
        }
    }
}
