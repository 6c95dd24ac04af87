//! How large a result can be.

ghost use Rattle.std.specs.Prelude.{◌≡◌, ◌≤◌, ◌+◌, length};
ghost use Rattle.nfs_xdr.specs.Spelling.{padding};
ghost use Rattle.nfs_xdr.specs.Limits.{most_transfer};
ghost use Rattle.nfs_compound.specs.declared.op.Item.TheVariants.{Operation};
ghost use Rattle.nfs_results.specs.declared.res.Res.{Res};
ghost use Rattle.nfs_results.specs.Results.{spell_result};
ghost use Rattle.nfs_results.specs.ResultCodec.{HasArrays};
ghost use Rattle.nfs_results.specs.Largest as limit;
ghost use Rattle.nfs_results.specs.MayAnswer as may_answer;

use nfs_compound::{Item, Op};
use nfs_xdr::MAX_TRANSFER;

/// How many bytes the result of an operation behind a SEQUENCE takes at most, from its operation number on
/// (this server's profile). A refusal always fits.
pub fn largest(item: &Item<'_>) -> u64
    ensures value { result ≡ limit.largest item.now }
    ensures within { (r : Res) → HasArrays r → may_answer.MayAnswer item.now r → length (spell_result r) ≤ result }
{
    size(item)
}

fn size(item: &Item<'_>) -> u64
    ensures { result ≡ limit.largest item.now }
{
    match item {
        Item::Operation(op) => size_of(op),
        Item::Fault { .. } => 64,
    }
}

fn size_of(op: &Op<'_>) -> u64
    ensures { result ≡ limit.largest (Operation op.now) }
{
    match op {
        Op::Sequence(_) => 44,
        Op::CreateSession(_) => 92,
        Op::Read(read) => 16 + padded(given(read.count)),
        Op::ReadDir(listed) => 8 + u64::from(given(listed.maxcount)),
        Op::Lock(_) | Op::LockT(_) => 1064,
        Op::ReadLink => 1036,
        Op::GetAttr { .. } => 640,
        Op::GetFh => 28,
        Op::Open(_) => 128,
        Op::TestStateid { stateids } => 12 + 4 * stateids.len() as u64,
        Op::Access { .. }
        | Op::Close(_)
        | Op::Commit(_)
        | Op::Create(_)
        | Op::Link { .. }
        | Op::LockU(_)
        | Op::Lookup { .. }
        | Op::LookupP
        | Op::NVerify { .. }
        | Op::OpenDowngrade(_)
        | Op::PutFh { .. }
        | Op::PutPubFh
        | Op::PutRootFh
        | Op::Remove { .. }
        | Op::Rename(_)
        | Op::RestoreFh
        | Op::SaveFh
        | Op::SetAttr(_)
        | Op::Verify { .. }
        | Op::Write(_)
        | Op::ExchangeId(_)
        | Op::DestroySession { .. }
        | Op::FreeStateid { .. }
        | Op::SecinfoNoName { .. }
        | Op::DestroyClientId { .. }
        | Op::ReclaimComplete { .. } => 64,
    }
}

/// How many bytes one READ or READDIR gives of so many that it asks for: no more than [`MAX_TRANSFER`].
pub fn given(count: u32) -> u32
    ensures value { result ≡ limit.given count }
    ensures most { result ≤ most_transfer }
{
    if count > MAX_TRANSFER {
        MAX_TRANSFER
    } else {
        count
    }
}

/// So many bytes, filled up to a whole word.
fn padded(count: u32) -> u64
    requires { count ≤ most_transfer }
    ensures { result ≡ count + padding count }
{
    let count = u64::from(count);
    count + (4 - count % 4) % 4
}
