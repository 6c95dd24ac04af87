//! LOCK, LOCKT and LOCKU (RFC 8881 sections 18.10 to 18.12).

ghost use Rattle.std.specs.Prelude.{◌≡◌, ◌+◌, ◌≤◌, not, IfOk, length, take};
ghost use Rattle.nfs_xdr.specs.declared.status.Status.TheVariants as S;
ghost use Rattle.nfs_compound.specs.declared.op_num.OpNum.TheVariants as Num;
ghost use Rattle.nfs_compound.specs.StateOwner as state_owner;
ghost use Rattle.nfs_xdr.specs.SheetState.{Puts};
ghost use Rattle.nfs_xdr.specs.Limits.{opaque_limit};
ghost use Rattle.nfs_results.specs.declared.res.Res.TheVariants as Res;
ghost use Rattle.nfs_results.specs.Results.{spell_result};
ghost use Rattle.nfs_opens.specs.Table.{table, lock_at};
ghost use Rattle.nfs_opens.specs.Calls.{LocksOrWants, is_whole};
ghost use Rattle.nfs_names.specs.State.{state_of};
ghost use Rattle.nfs_names.specs.Comes.{Comes};
ghost use Rattle.nfs_names.specs.Outcome.{checked};
ghost use Rattle.nfs_names.specs.View.{MayWant, ComesOrWants};
ghost use Rattle.nfs_files.specs.Denied as of_denied;
ghost use Rattle.nfs_files.specs.Parts as parts;
ghost use Rattle.nfs_files.specs.Lock as of_lock;
ghost use Rattle.nfs_files.specs.LockT as of_lock_t;
ghost use Rattle.nfs_files.specs.LockU as of_lock_u;
ghost use Rattle.nfs_files.specs.Ranges as of_ranges;

use crate::ranges::{Wished, wish_for};
use crate::stateids::{meant, wire_id};
use nfs_compound::{Lent, Lock, LockT, LockType, LockU, Locker, OpNum, StateOwner, Stateid};
use nfs_names::{Context, Store, put_refusal, refuse};
use nfs_opens::{CurrentSeqid, OpenFault, Opens, StateId, Wish};
use nfs_ranges::{Held, Kind};
use nfs_results::{Denied, Res, write};
use nfs_xdr::{OPAQUE_LIMIT, Sheet, Status};
use std::alloc::Global;

fn type_of(kind: Kind) -> LockType
    ensures { result ≡ of_denied.type_of kind }
{
    match kind {
        Kind::Read => LockType::Read,
        Kind::Write => LockType::Write,
    }
}

/// How many bytes a lock that is reported has; all ones where it reaches the last byte.
fn size_of(held: &Held) -> u64
    ensures { result ≡ of_denied.size_of held.now }
{
    if held.last == u64::MAX {
        u64::MAX
    } else {
        (held.last + 1).saturating_sub(held.first)
    }
}

/// No owner has more bytes than [`OPAQUE_LIMIT`].
fn owner_of(bytes: &[u8]) -> &[u8]
    ensures { result.now ≡ take opaque_limit bytes.now }
{
    let most = OPAQUE_LIMIT as usize;
    if bytes.len() > most {
        &bytes[..most]
    } else {
        bytes
    }
}

/// Who holds the bytes, by the number of the lock state.
fn holder(opens: &Opens, number: u64) -> StateOwner<'_>
    ensures { result ≡ of_denied.holder (lock_at (table opens.now) number) }
{
    match opens.lock_state(number) {
        Some(lock) => StateOwner {
            clientid: lock.client,
            owner: Lent::of(owner_of(lock.owner.bytes())),
        },
        None => StateOwner {
            clientid: 0,
            owner: Lent::of(&[]),
        },
    }
}

/// The lock that is in the way.
#[tactic(auto, unfolding(crate::specs::Denied::lock_denied))]
fn denied<'a>(opens: &'a Opens, held: &Held) -> Denied<'a>
    ensures { result ≡ of_denied.lock_denied (table opens.now) held.now }
{
    Denied {
        offset: held.first,
        length: size_of(held),
        locktype: type_of(held.kind),
        owner: holder(opens, held.owner),
    }
}

/// The status of what the table of opens refuses.
fn status_of(fault: OpenFault) -> Status
    ensures { result ≡ of_denied.open_fault_status fault }
{
    match fault {
        OpenFault::Refused(status) => status,
        OpenFault::Denied(_) => Status::Denied,
        OpenFault::Memory => Status::Delay,
    }
}

/// Puts the lock that is in the way of a LOCK, as it answers it.
fn put_denied(opens: &Opens, held: &Held, out: &mut Sheet) -> Status
    requires { length out.old.bytes + of_denied.most_denied ≤ out.old.room }
    ensures put { Puts out.old out.new (spell_result (Res.LockDenied (of_denied.lock_denied (table opens.now) held.now))) }
    ensures status { result ≡ S.Denied }
{
    write(&Res::LockDenied(denied(opens, held)), out);
    Status::Denied
}

/// Puts the lock that is in the way of a LOCKT, as it answers it.
fn put_denied_test(opens: &Opens, held: &Held, out: &mut Sheet) -> Status
    requires { length out.old.bytes + of_denied.most_denied ≤ out.old.room }
    ensures put { Puts out.old out.new (spell_result (Res.LockTDenied (of_denied.lock_denied (table opens.now) held.now))) }
    ensures status { result ≡ S.Denied }
{
    write(&Res::LockTDenied(denied(opens, held)), out);
    Status::Denied
}

/// Puts the stateid of a lock that was set, as LOCK answers it.
fn put_locked(id: Stateid, out: &mut Sheet) -> Status
    requires { length out.old.bytes + of_denied.most_denied ≤ out.old.room }
    ensures put { Puts out.old out.new (spell_result (Res.Lock id)) }
    ensures status { result ≡ S.Nfs4Ok }
{
    write(&Res::Lock(id), out);
    Status::Nfs4Ok
}

/// Puts that no lock is in the way, as LOCKT answers it.
fn put_free(out: &mut Sheet) -> Status
    requires { length out.old.bytes + of_denied.most_denied ≤ out.old.room }
    ensures put { Puts out.old out.new (spell_result Res.LockT) }
    ensures status { result ≡ S.Nfs4Ok }
{
    write(&Res::LockT, out);
    Status::Nfs4Ok
}

/// LOCKT.
#[tactic(auto, unfolding(crate::specs::LockT::lock_t))]
pub(crate) fn lock_t(
    store: &Store,
    context: &Context<'_>,
    asked: &LockT<'_>,
    out: &mut Sheet,
) -> Status
    requires { length out.old.bytes + of_denied.most_denied ≤ out.old.room }
    ensures { Comes (of_lock_t.lock_t (state_of store.now) context.now asked.now) out.old out.new result (state_of store.now) context.now }
{
    match wish_for(store, context, asked.locktype, asked.offset, asked.length) {
        Ok(wish) => match store.opens.test_lock(asked.owner.owner.bytes(), &wish) {
            Some(held) => put_denied_test(&store.opens, &held, out),
            None => put_free(out),
        },
        Err(status) => put_refusal(OpNum::LockT, status, out),
    }
}

/// The stateid by which a lock owner asks.
fn stateid_in(locker: &Locker<'_>) -> Stateid
    ensures { result ≡ of_lock.stateid_in locker.now }
{
    match locker {
        Locker::OpenOwner(first) => first.open_stateid,
        Locker::LockOwner(further) => further.lock_stateid,
    }
}

/// The bytes that are to be locked, and by which open or lock state.
fn judge_lock(store: &Store, context: &Context<'_>, asked: &Lock<'_>) -> Result<Wished, Status>
    ensures wish { result ≡ parts.locking (state_of store.now) context.now asked.now }
    ensures order { IfOk result (λ k. k.wish.first ≤ k.wish.last) }
{
    let wish = wish_for(store, context, asked.locktype, asked.offset, asked.length)?;
    if asked.reclaim {
        return Err(Status::NoGrace);
    }
    let id = meant(context, CurrentSeqid::Any, &stateid_in(&asked.locker))?;
    Ok(Wished { wish, id })
}

/// Sets a lock.
fn lock_bytes(
    alloc: Global,
    opens: &mut Opens,
    locker: &Locker<'_>,
    wished: &Wished,
) -> Result<StateId, OpenFault>
    requires { wished.now.wish.first ≤ wished.now.wish.last }
    ensures { LocksOrWants (table opens.old) (of_lock.locks_as (table opens.old) locker.now wished.now.id wished.now.wish) result (table opens.new) }
{
    match locker {
        Locker::OpenOwner(first) => {
            let locker = nfs_opens::Locker::New {
                under: wished.id,
                owner: first.lock_owner.owner.bytes(),
            };
            opens.lock(alloc, &locker, &wished.wish)
        }
        Locker::LockOwner(_) => {
            opens.lock(alloc, &nfs_opens::Locker::Known(wished.id), &wished.wish)
        }
    }
}

/// Sets a lock, and puts what LOCK answers.
fn set_lock(
    alloc: Global,
    store: &mut Store,
    context: &mut Context<'_>,
    locker: &Locker<'_>,
    wished: &Wished,
    out: &mut Sheet,
) -> Status
    requires order { wished.now.wish.first ≤ wished.now.wish.last }
    requires room { length out.old.bytes + of_denied.most_denied ≤ out.old.room }
    ensures { ComesOrWants (state_of store.old) context.old Num.Lock (parts.locks (state_of store.old) context.old locker.now wished.now)
        out.old out.new result (state_of store.new) context.new }
{
    match lock_bytes(alloc, &mut store.opens, locker, wished) {
        Ok(id) => {
            let id = wire_id(id);
            context.stateid = id;
            put_locked(id, out)
        }
        Err(OpenFault::Denied(held)) => put_denied(&store.opens, &held, out),
        Err(OpenFault::Refused(status)) => put_refusal(OpNum::Lock, status, out),
        Err(OpenFault::Memory) => put_refusal(OpNum::Lock, Status::Delay, out),
    }
}

/// LOCK.
pub(crate) fn lock(
    alloc: Global,
    store: &mut Store,
    context: &mut Context<'_>,
    asked: &Lock<'_>,
    out: &mut Sheet,
) -> Status
    requires { length out.old.bytes + of_denied.most_denied ≤ out.old.room }
    ensures { ComesOrWants (state_of store.old) context.old Num.Lock (of_lock.lock (state_of store.old) context.old asked.now) out.old out.new result (state_of store.new) context.new }
{
    match judge_lock(store, context, asked) {
        Ok(wished) => set_lock(alloc, store, context, &asked.locker, &wished, out),
        Err(status) => put_refusal(OpNum::Lock, status, out),
    }
}

/// The bytes that are to be given up, and by which lock state.
fn judge_unlock(store: &Store, context: &Context<'_>, asked: &LockU) -> Result<Wished, Status>
    ensures wish { result ≡ parts.unlocking (state_of store.now) context.now asked.now }
    ensures order { IfOk result (λ k. k.wish.first ≤ k.wish.last) }
{
    let wish = wish_for(store, context, asked.locktype, asked.offset, asked.length)?;
    let id = meant(context, CurrentSeqid::Any, &asked.lock_stateid)?;
    Ok(Wished { wish, id })
}

/// Gives up bytes.
fn give_up(
    alloc: Global,
    store: &mut Store,
    context: &mut Context<'_>,
    wished: &Wished,
) -> Res<'static>
    requires order { wished.now.wish.first ≤ wished.now.wish.last }
    ensures { MayWant (not (is_whole wished.now.wish.first wished.now.wish.last)) (state_of store.old) context.old Num.LockU
        (parts.unlocks (state_of store.old) context.old wished.now) result (state_of store.new) context.new }
{
    let wish = &wished.wish;
    match store.opens.unlock(
        alloc,
        wished.id,
        wish.client,
        wish.file,
        wish.first,
        wish.last,
    ) {
        Ok(id) => {
            let id = wire_id(id);
            context.stateid = id;
            Res::LockU(id)
        }
        Err(fault) => refuse(OpNum::LockU, status_of(fault)),
    }
}

/// LOCKU.
pub(crate) fn lock_u(
    alloc: Global,
    store: &mut Store,
    context: &mut Context<'_>,
    asked: &LockU,
) -> Res<'static>
    ensures { MayWant (of_lock_u.wants_memory asked.now) (state_of store.old) context.old Num.LockU
        (of_lock_u.lock_u (state_of store.old) context.old asked.now) result (state_of store.new) context.new }
{
    match judge_unlock(store, context, asked) {
        Ok(wished) => give_up(alloc, store, context, &wished),
        Err(status) => refuse(OpNum::LockU, status),
    }
}
