//! Reading results.

ghost use Rattle.std.specs.Prelude.{◌≡◌};
ghost use Rattle.nfs_xdr.specs.Readers.{ReadsPartBy};
ghost use Rattle.nfs_xdr.specs.StatusCodec.{status};
ghost use Rattle.nfs_results.specs.Refusals as refusals;
ghost use Rattle.nfs_results.specs.ResultCodec as result_codec;

use crate::item_reading as item;
use crate::res::Res;
use nfs_compound::{FIRST_OP, LAST_OP, Lent, OP_ILLEGAL, OpNum, Stateid};
use nfs_xdr::{Cursor, FHSIZE, Status, Unreadable};

/// A result, from its operation number on. A refusal leaves the cursor anywhere.
pub(crate) fn res<'a>(c: &mut Cursor<'a>) -> Result<Res<'a>, Unreadable>
    ensures { ReadsPartBy (λ x. x) result (result_codec.result.read c.old) c.new }
{
    let operation = c.u32()?;
    let status = status(c)?;
    if status != Status::Nfs4Ok {
        return refused(operation, status, c);
    }
    let Some(op) = OpNum::of(operation) else {
        return Err(Unreadable);
    };
    done(op, c)
}

/// A status that this server answers.
pub(crate) fn status(c: &mut Cursor<'_>) -> Result<Status, Unreadable>
    ensures { ReadsPartBy (λ s. s) result (status.read c.old) c.new }
{
    let number = c.u32()?;
    let Some(status) = Status::of(number) else {
        return Err(Unreadable);
    };
    Ok(status)
}

/// What an operation that was done has behind NFS4_OK.
#[tactic(auto, unfolding(crate::specs::ResultCodec::done_at))]
fn done<'a>(op: OpNum, c: &mut Cursor<'a>) -> Result<Res<'a>, Unreadable>
    ensures { ReadsPartBy (λ x. x) result (result_codec.done_at op c.old) c.new }
{
    Ok(match op {
        OpNum::Access => Res::Access(item::access(c)?),
        OpNum::Close => Res::Close(Stateid::read(c)?),
        OpNum::Commit => Res::Commit(c.fixed::<8>()?),
        OpNum::Create => Res::Create(item::create(c)?),
        OpNum::GetAttr => Res::GetAttr(item::fattr(c)?),
        OpNum::GetFh => Res::GetFh(Lent::read(c, FHSIZE)?),
        OpNum::Link => Res::Link(item::change_info(c)?),
        OpNum::Lock => Res::Lock(Stateid::read(c)?),
        OpNum::LockT => Res::LockT,
        OpNum::LockU => Res::LockU(Stateid::read(c)?),
        OpNum::Lookup => Res::Lookup,
        OpNum::LookupP => Res::LookupP,
        OpNum::NVerify => Res::NVerify,
        OpNum::Open => Res::Open(item::open_ok(c)?),
        OpNum::OpenDowngrade => Res::OpenDowngrade(Stateid::read(c)?),
        OpNum::PutFh => Res::PutFh,
        OpNum::PutPubFh => Res::PutPubFh,
        OpNum::PutRootFh => Res::PutRootFh,
        OpNum::Read => Res::Read(item::read_ok(c)?),
        OpNum::ReadDir => Res::ReadDir(item::read_dir(c)?),
        OpNum::ReadLink => Res::ReadLink(Lent::read(c, u32::MAX)?),
        OpNum::Remove => Res::Remove(item::change_info(c)?),
        OpNum::Rename => Res::Rename(item::rename(c)?),
        OpNum::RestoreFh => Res::RestoreFh,
        OpNum::SaveFh => Res::SaveFh,
        OpNum::SetAttr => Res::SetAttr {
            status: Status::Nfs4Ok,
            attrsset: item::attr_set(c)?,
        },
        OpNum::Verify => Res::Verify,
        OpNum::Write => Res::Write(item::write_ok(c)?),
        OpNum::ExchangeId => Res::ExchangeId(item::exchange_id(c)?),
        OpNum::CreateSession => Res::CreateSession(item::create_session(c)?),
        OpNum::DestroySession => Res::DestroySession,
        OpNum::FreeStateid => Res::FreeStateid,
        OpNum::SecinfoNoName => Res::SecinfoNoName(item::flavors(c)?),
        OpNum::Sequence => Res::Sequence(item::sequence(c)?),
        OpNum::TestStateid => Res::TestStateid(item::status_codes(c)?),
        OpNum::DestroyClientId => Res::DestroyClientId,
        OpNum::ReclaimComplete => Res::ReclaimComplete,
    })
}

/// What an operation that was refused has behind its status.
#[tactic(auto, unfolding(crate::specs::ResultCodec::refused_at))]
fn refused<'a>(operation: u32, status: Status, c: &mut Cursor<'a>) -> Result<Res<'a>, Unreadable>
    ensures { ReadsPartBy (λ x. x) result (result_codec.refused_at operation status c.old) c.new }
{
    if operation == OpNum::SetAttr.number() && status != Status::OpIllegal {
        let attrsset = item::attr_set(c)?;
        return Ok(Res::SetAttr { status, attrsset });
    }
    let denied = status == Status::Denied;
    if operation == OpNum::Lock.number() && denied {
        return Ok(Res::LockDenied(item::denied(c)?));
    }
    if operation == OpNum::LockT.number() && denied {
        return Ok(Res::LockTDenied(item::denied(c)?));
    }
    if !can_refuse(operation, status) {
        return Err(Unreadable);
    }
    Ok(Res::Refused { operation, status })
}

/// Whether a reply can bear this number and this status with nothing behind them.
pub fn can_refuse(operation: u32, status: Status) -> bool
    ensures { result ≡ refusals.can_refuse operation status }
{
    bears(operation, status) && !tells(operation, status)
}

/// Whether an operation of this number can be refused with this status.
fn bears(operation: u32, status: Status) -> bool
    ensures { result ≡ refusals.may_return operation status }
{
    let number = status.number();
    if operation == OP_ILLEGAL {
        return number == Status::OpIllegal.number() || number == Status::RepTooBig.number();
    }
    let own = number == Status::Nfs4Ok.number() || number == Status::OpIllegal.number();
    operation >= FIRST_OP && operation <= LAST_OP && !own
}

/// Whether it then has more behind its status.
fn tells(operation: u32, status: Status) -> bool
    ensures { result ≡ refusals.tells operation status }
{
    let denied = status == Status::Denied;
    let locks = operation == OpNum::Lock.number() || operation == OpNum::LockT.number();
    operation == OpNum::SetAttr.number() || locks && denied
}
