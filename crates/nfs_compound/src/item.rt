//! Reading what stands at a place: an operation, or the fault that ends the list.

ghost use Rattle.std.specs.Prelude.{◌≡◌, MatchOption, Some, None, true, false};
ghost use Rattle.nfs_xdr.specs.Readers.{ReadsPartBy};
ghost use Rattle.nfs_xdr.specs.Combinators.{in_arm};
ghost use Rattle.nfs_compound.specs.OpCodec.{op_at, fault_at, flaw};
ghost use Rattle.nfs_compound.specs.ReadRequest.{item_at, is_fault};

use crate::attributes::{Attributes, Bitmap};
use crate::file_args::{Commit, Read, SetAttr, Write};
use crate::lent::Lent;
use crate::lock_args::{Lock, LockT, LockU};
use crate::name_args::{Create, ReadDir, Rename, SecinfoStyle};
use crate::op::{Item, Op};
use crate::op_num::{FIRST_OP, LAST_OP, OP_ILLEGAL, OpNum};
use crate::open_args::{Close, Open, OpenDowngrade};
use crate::session_args::{CreateSession, ExchangeId, Sequence};
use crate::stateid::{Stateid, Stateids};
use nfs_xdr::{Cursor, FHSIZE, Status, Unreadable};

/// What stands at the cursor, with the cursor behind it; behind a fault nothing is left. `None` where no operation
/// number can be read.
#[tactic(auto, unfolding(crate::specs::ReadRequest::item_at))]
pub(crate) fn item<'a>(c: &mut Cursor<'a>) -> Option<Item<'a>>
    ensures { MatchOption result
        ((item_at c.old ≡ None) × (c.new ≡ c.old))
        (λ a. item_at c.old ≡ Some (a, c.new)) }
{
    let Ok(number) = c.u32() else {
        return None;
    };
    let behind = c.rest();
    if let Some(op) = OpNum::of(number) {
        if let Ok(op) = arguments(op, c) {
            return Some(Item::Operation(op));
        }
    }
    *c = Cursor::new(&[]);
    Some(fault(number, behind))
}

/// Passes over what stands at the cursor as [`item`] does, and says only whether it is a fault. `None` where no operation
/// number can be read.
pub(crate) fn pass_item(c: &mut Cursor<'_>) -> Option<bool>
    ensures { MatchOption result
        (item_at c.old ≡ None)
        (λ f. in_arm is_fault (item_at c.old) ≡ Some (f, c.new)) }
{
    let mut ahead = Cursor::new(c.rest());
    if pass_common(&mut ahead) {
        *c = ahead;
        return Some(false);
    }
    let Some(found) = item(c) else {
        return None;
    };
    Some(found.is_fault())
}

/// Passes over one of the operations that most compounds have, and makes no value of its arguments. Where it says no, it
/// says nothing of what stands there.
#[tactic(auto, unfolding(crate::specs::ReadRequest::item_at, crate::specs::OpCodec::op_at))]
fn pass_common(c: &mut Cursor<'_>) -> bool
    ensures { result ≡ true → in_arm is_fault (item_at c.old) ≡ Some (false, c.new) }
{
    let Ok(number) = c.u32() else {
        return false;
    };
    match OpNum::of(number) {
        Some(OpNum::GetAttr) => Bitmap::read(c).is_ok(),
        Some(OpNum::Lookup) => c.opaque(u32::MAX).is_ok(),
        Some(OpNum::PutFh) => c.opaque(FHSIZE).is_ok(),
        Some(OpNum::Sequence) => Sequence::pass(c).is_ok(),
        Some(OpNum::GetFh | OpNum::PutRootFh | OpNum::RestoreFh | OpNum::SaveFh) => true,
        _ => false,
    }
}

/// The arguments of an operation, which stand at the cursor.
#[tactic(auto, unfolding(crate::specs::OpCodec::op_at))]
fn arguments<'a>(op: OpNum, c: &mut Cursor<'a>) -> Result<Op<'a>, Unreadable>
    ensures { ReadsPartBy (λ x. x) result (op_at op c.old) c.new }
{
    Ok(match op {
        OpNum::Access => Op::Access { access: c.u32()? },
        OpNum::Close => Op::Close(Close::read(c)?),
        OpNum::Commit => Op::Commit(Commit::read(c)?),
        OpNum::Create => Op::Create(Create::read(c)?),
        OpNum::GetAttr => Op::GetAttr {
            attr_request: Bitmap::read(c)?,
        },
        OpNum::GetFh => Op::GetFh,
        OpNum::Link => Op::Link {
            newname: Lent::read(c, u32::MAX)?,
        },
        OpNum::Lock => Op::Lock(Lock::read(c)?),
        OpNum::LockT => Op::LockT(LockT::read(c)?),
        OpNum::LockU => Op::LockU(LockU::read(c)?),
        OpNum::Lookup => Op::Lookup {
            objname: Lent::read(c, u32::MAX)?,
        },
        OpNum::LookupP => Op::LookupP,
        OpNum::NVerify => Op::NVerify {
            obj_attributes: Attributes::read(c)?,
        },
        OpNum::Open => Op::Open(Open::read(c)?),
        OpNum::OpenDowngrade => Op::OpenDowngrade(OpenDowngrade::read(c)?),
        OpNum::PutFh => Op::PutFh {
            object: Lent::read(c, FHSIZE)?,
        },
        OpNum::PutPubFh => Op::PutPubFh,
        OpNum::PutRootFh => Op::PutRootFh,
        OpNum::Read => Op::Read(Read::read(c)?),
        OpNum::ReadDir => Op::ReadDir(ReadDir::read(c)?),
        OpNum::ReadLink => Op::ReadLink,
        OpNum::Remove => Op::Remove {
            target: Lent::read(c, u32::MAX)?,
        },
        OpNum::Rename => Op::Rename(Rename::read(c)?),
        OpNum::RestoreFh => Op::RestoreFh,
        OpNum::SaveFh => Op::SaveFh,
        OpNum::SetAttr => Op::SetAttr(SetAttr::read(c)?),
        OpNum::Verify => Op::Verify {
            obj_attributes: Attributes::read(c)?,
        },
        OpNum::Write => Op::Write(Write::read(c)?),
        OpNum::ExchangeId => Op::ExchangeId(ExchangeId::read(c)?),
        OpNum::CreateSession => Op::CreateSession(CreateSession::read(c)?),
        OpNum::DestroySession => Op::DestroySession {
            sessionid: c.fixed::<16>()?,
        },
        OpNum::FreeStateid => Op::FreeStateid {
            stateid: Stateid::read(c)?,
        },
        OpNum::SecinfoNoName => Op::SecinfoNoName {
            style: SecinfoStyle::read(c)?,
        },
        OpNum::Sequence => Op::Sequence(Sequence::read(c)?),
        OpNum::TestStateid => Op::TestStateid {
            stateids: Stateids::read(c)?,
        },
        OpNum::DestroyClientId => Op::DestroyClientId { clientid: c.u64()? },
        OpNum::ReclaimComplete => Op::ReclaimComplete { one_fs: c.flag()? },
    })
}

/// Why no operation is read of this number and the bytes behind it.
#[tactic(auto, unfolding(crate::specs::OpCodec::fault_at))]
fn fault<'a>(number: u32, behind: &[u8]) -> Item<'a>
    ensures { result ≡ fault_at number behind.now }
{
    match (OpNum::of(number), number) {
        (Some(op), _) => Item::Fault {
            number,
            status: flaw(op, behind),
        },
        (None, FIRST_OP..=LAST_OP) => Item::Fault {
            number,
            status: Status::NotSupp,
        },
        (None, _) => Item::Fault {
            number: OP_ILLEGAL,
            status: Status::OpIllegal,
        },
    }
}

fn flaw(op: OpNum, behind: &[u8]) -> Status
    ensures { result ≡ flaw op behind.now }
{
    match op {
        OpNum::ExchangeId if ExchangeId::wants_protection(behind) => Status::Inval,
        _ => Status::BadXdr,
    }
}
