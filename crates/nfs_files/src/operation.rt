//! One operation of a compound.

ghost use Rattle.std.specs.Prelude.{◌+◌, ◌≤◌, ◌<◌, ◌^◌, length};
ghost use Rattle.nfs_compound.specs.declared.op.Item.TheVariants.{Operation};
ghost use Rattle.nfs_results.specs.Largest.{largest};
ghost use Rattle.nfs_names.specs.State.{state_of, time_at};
ghost use Rattle.nfs_names.specs.StoreInvariants.{IsStore};
ghost use Rattle.nfs_names.specs.Comes.{OpComes};
ghost use Rattle.nfs_files.specs.Operation.{comes_to};

use crate::bytes::{commit, read, write_bytes};
use crate::closing::{close, open_downgrade};
use crate::entering::open_file;
use crate::locking::{lock, lock_t, lock_u};
use crate::setting::set_attr;
use crate::stateids::{free_stateid, test_stateid};
use nfs_compound::Op;
use nfs_names::{Context, Store, time_at};
use nfs_results::write;
use nfs_xdr::{Sheet, Status};
use std::alloc::Global;

/// Runs one operation on open files at a moment, in seconds: puts its result behind what stands on the sheet, and
/// answers its status. Of the other operations it does nothing, and answers `None`.
///
/// LOCK, LOCKU of a part of a file, OPEN and WRITE of bytes may want memory: where it is refused, they answer
/// NFS4ERR_DELAY as their last check and change nothing; WRITE answers NFS4ERR_NOSPC in the profile `unix`. No other
/// operation does.
pub fn file_op(
    alloc: Global,
    store: &mut Store,
    context: &mut Context<'_>,
    op: &Op<'_>,
    now: u64,
    out: &mut Sheet,
) -> Option<Status>
    requires moment { now < 2 ^ 63 }
    requires store { IsStore (state_of store.old) }
    requires room { length out.old.bytes + largest (Operation op.now) ≤ out.old.room }
    ensures comes { OpComes comes_to (state_of store.old) context.old (time_at (state_of store.old) now) op.now out.old out.new result (state_of store.new) context.new }
    ensures store { IsStore (state_of store.new) }
    ensures within { length out.new.bytes ≤ length out.old.bytes + largest (Operation op.now) }
{
    store.tree.kept();
    store.kept();
    let now = time_at(store, now);
    let res = match op {
        Op::Close(asked) => close(store, context, asked),
        Op::Commit(_) => commit(store, context),
        Op::FreeStateid { stateid } => free_stateid(store, context, stateid),
        Op::Lock(asked) => return Some(lock(alloc, store, context, asked, out)),
        Op::LockT(asked) => return Some(lock_t(store, context, asked, out)),
        Op::LockU(asked) => lock_u(alloc, store, context, asked),
        Op::Open(asked) => open_file(alloc, store, context, asked, now),
        Op::OpenDowngrade(asked) => open_downgrade(store, context, asked),
        Op::Read(asked) => return Some(read(store, context, asked, out)),
        Op::SetAttr(asked) => set_attr(store, context, asked, now),
        Op::TestStateid { stateids } => {
            return Some(test_stateid(store, context, stateids, out));
        }
        Op::Write(asked) => write_bytes(alloc, store, context, asked, now),
        // on names and attributes
        Op::Access { .. }
        | Op::Create(_)
        | Op::GetAttr { .. }
        | Op::GetFh
        | Op::Link { .. }
        | Op::Lookup { .. }
        | Op::LookupP
        | Op::NVerify { .. }
        | Op::PutFh { .. }
        | Op::PutPubFh
        | Op::PutRootFh
        | Op::ReadDir(_)
        | Op::ReadLink
        | Op::Remove { .. }
        | Op::Rename(_)
        | Op::RestoreFh
        | Op::SaveFh
        | Op::SecinfoNoName { .. }
        | Op::Verify { .. }
        // not on the store
        | Op::CreateSession(_)
        | Op::DestroyClientId { .. }
        | Op::DestroySession { .. }
        | Op::ExchangeId(_)
        | Op::ReclaimComplete { .. }
        | Op::Sequence(_) => return None,
    };
    write(&res, out);
    Some(res.status())
}
