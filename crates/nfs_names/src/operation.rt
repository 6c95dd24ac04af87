//! One operation of a compound.

ghost use Rattle.std.specs.Prelude.{◌≡◌, ◌+◌, ◌≤◌, ◌<◌, ◌^◌, length};
ghost use Rattle.nfs_compound.specs.declared.op.Item.TheVariants.{Operation};
ghost use Rattle.nfs_results.specs.Largest.{largest};
ghost use Rattle.nfs_names.specs.State.{state_of, time_at};
ghost use Rattle.nfs_names.specs.StoreInvariants.{IsStore};
ghost use Rattle.nfs_names.specs.Comes.{OpComes};
ghost use Rattle.nfs_names.specs.Operation.{comes_to};

use crate::attributes::{access, get_attr, get_fh, nverify, verify};
use crate::context::Context;
use crate::listing::{read_dir, read_link};
use crate::making::{create, link, remove, rename};
use crate::store::Store;
use crate::walking::{
    lookup, lookup_p, put_fh, put_pub_fh, put_root_fh, restore_fh, save_fh, secinfo_no_name,
};
use nfs_compound::Op;
use nfs_results::write;
use nfs_xdr::{Sheet, Status, Time};
use std::alloc::Global;

/// The time of what changes at a moment, in seconds, as the profile has it.
pub fn time_at(store: &Store, now: u64) -> Time
    requires { now < 2 ^ 63 }
    ensures { result ≡ time_at (state_of store.now) now }
{
    store.tree.stamp(Time {
        seconds: now as i64,
        nanoseconds: 0,
    })
}

/// Runs one operation on names and attributes at a moment, in seconds: puts its result behind what stands on the sheet,
/// and answers its status. Of the other operations it does nothing, and answers `None`.
///
/// CREATE, LINK and RENAME may want memory: where it is refused, they answer NFS4ERR_DELAY as their last check and change
/// nothing. No other operation does.
pub fn name_op(
    alloc: Global,
    store: &mut Store,
    context: &mut Context<'_>,
    op: &Op<'_>,
    now: u64,
    out: &mut Sheet,
) -> Option<Status>
    requires moment { now < 2 ^ 63 }
    requires store { IsStore (state_of store.old) }
    requires room { length out.old.bytes + largest (Operation op.now) ≤ out.old.room }
    ensures comes { OpComes comes_to (state_of store.old) context.old (time_at (state_of store.old) now) op.now out.old out.new result (state_of store.new) context.new }
    ensures store { IsStore (state_of store.new) }
    ensures within { length out.new.bytes ≤ length out.old.bytes + largest (Operation op.now) }
{
    store.tree.kept();
    let now = time_at(store, now);
    let res = match op {
        Op::Access { access: asked } => access(store, context, *asked),
        Op::Create(asked) => create(alloc, store, context, asked, now),
        Op::GetAttr { attr_request } => {
            return Some(get_attr(store, context, attr_request, out));
        }
        Op::GetFh => return Some(get_fh(store, context, out)),
        Op::Link { newname } => link(alloc, store, context, newname.bytes(), now),
        Op::Lookup { objname } => lookup(store, context, objname.bytes()),
        Op::LookupP => lookup_p(store, context),
        Op::NVerify { obj_attributes } => nverify(store, context, obj_attributes),
        Op::PutFh { object } => put_fh(store, context, object.bytes()),
        Op::PutPubFh => put_pub_fh(store, context),
        Op::PutRootFh => put_root_fh(store, context),
        Op::ReadDir(asked) => return Some(read_dir(store, context, asked, out)),
        Op::ReadLink => return Some(read_link(store, context, out)),
        Op::Remove { target } => remove(store, context, target.bytes(), now),
        Op::Rename(asked) => rename(alloc, store, context, asked, now),
        Op::RestoreFh => restore_fh(store, context),
        Op::SaveFh => save_fh(store, context),
        Op::SecinfoNoName { style } => secinfo_no_name(store, context, *style),
        Op::Verify { obj_attributes } => verify(store, context, obj_attributes),
        // on open files
        Op::Close(_)
        | Op::Commit(_)
        | Op::FreeStateid { .. }
        | Op::Lock(_)
        | Op::LockT(_)
        | Op::LockU(_)
        | Op::Open(_)
        | Op::OpenDowngrade(_)
        | Op::Read(_)
        | Op::SetAttr(_)
        | Op::TestStateid { .. }
        | Op::Write(_)
        // not on the store
        | Op::CreateSession(_)
        | Op::DestroyClientId { .. }
        | Op::DestroySession { .. }
        | Op::ExchangeId(_)
        | Op::ReclaimComplete { .. }
        | Op::Sequence(_) => return None,
    };
    write(&res, out);
    Some(res.status())
}
