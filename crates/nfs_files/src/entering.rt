//! OPEN: a file is made, cut or left, and opened (RFC 8881 section 18.16).

ghost use Rattle.std.specs.Prelude.{◌≡◌, true, Ok};
ghost use Rattle.nfs_xdr.specs.Checks.{first_fault, judged};
ghost use Rattle.nfs_compound.specs.declared.op_num.OpNum.TheVariants as Num;
ghost use Rattle.nfs_tree.specs.Calls.{new_of, DoesOrWants};
ghost use Rattle.nfs_tree.specs.Files as files;
ghost use Rattle.nfs_opens.specs.Calls as of_opens;
ghost use Rattle.nfs_names.specs.State.{state_of};
ghost use Rattle.nfs_names.specs.StoreInvariants.{IsStore, IsRooted};
ghost use Rattle.nfs_names.specs.Outcome.{checked, mapped};
ghost use Rattle.nfs_names.specs.View.{MayWant};
ghost use Rattle.nfs_names.specs.Create as of_create;
ghost use Rattle.nfs_files.specs.Open as of_open;
ghost use Rattle.nfs_files.specs.OpenParts as part;

use crate::access::behind_sets;
use crate::opening::{Found, access_of, attributes_in, deny_of, judge, name_of, verifier_of};
use crate::stateids::wire_id;
use nfs_attrs::{Wanted, attribute, made_in};
use nfs_compound::{OpNum, Open};
use nfs_names::{
    Context, Making, Store, attr_set, change_info, mask_in, refuse, status_of, time_of,
};
use nfs_opens::Ask;
use nfs_results::{AttrSet, ChangeInfo, OpenOk, Res};
use nfs_tree::{Change, New, Profile, Sets, Tree, TreeFault};
use nfs_xdr::{Status, Time};
use std::alloc::Global;

/// The first word of a mask that has the attribute `size` alone.
const SIZE: u32 = 1 << attribute::SIZE;

/// OPEN4_RESULT_LOCKTYPE_POSIX.
const LOCKTYPE_POSIX: u32 = 4;

/// OPEN4_RESULT_PRESERVE_UNLINKED.
const PRESERVE_UNLINKED: u32 = 8;

/// Whether the object is there and can change once more.
fn can_change(tree: &Tree, number: u64) -> bool
    ensures { result ≡ files.can_change tree.now number }
{
    match tree.change(number) {
        Some(change) => change < u64::MAX,
        None => false,
    }
}

/// Whether a directory can get one more file.
fn judge_new(tree: &Tree, directory: u64) -> Result<(), Status>
    ensures { result ≡ judged (first_fault (of_create.room_checks tree.now directory)) }
{
    match tree.judge_create(directory) {
        Ok(()) => Ok(()),
        Err(fault) => Err(status_of(fault)),
    }
}

/// Whether there is a place for what is new, and a count for what changes.
fn judge_room(tree: &Tree, found: &Found) -> Result<(), Status>
    ensures { result ≡ judged (first_fault (of_open.room_checks tree.now found.now)) }
{
    match found {
        Found::There { file, cut, .. } => {
            if *cut && !can_change(tree, file.number) {
                return Err(Status::ServerFault);
            }
            Ok(())
        }
        Found::Absent(making) => {
            if making.wanted.size.unwrap_or(0) > tree.limits().bytes {
                return Err(Status::FBig);
            }
            judge_new(tree, making.place.number)
        }
    }
}

/// What is asked of the opens of a file.
fn ask_for<'a>(context: &Context<'_>, asked: &Open<'a>, file: u64) -> Ask<'a>
    ensures { of_opens.asked result ≡ of_open.asking context.now asked.now file }
{
    Ask {
        client: context.client,
        owner: asked.owner.owner.bytes(),
        file,
        access: access_of(asked),
        deny: deny_of(asked),
    }
}

/// The number of a file that is there; of one that is to be made 0, which none has.
fn number_of(found: &Found) -> u64
    ensures { result ≡ part.number_of found.now }
{
    match found {
        Found::There { file, .. } => file.number,
        Found::Absent(_) => 0,
    }
}

/// Whether it may be opened beside the other opens, and there is a place for it.
fn judge_last(
    store: &Store,
    context: &Context<'_>,
    asked: &Open<'_>,
    found: &Found,
) -> Result<(), Status>
    ensures { result ≡ judged (first_fault (part.last_checks (state_of store.now) context.now asked.now found.now)) }
{
    let room = judge_room(&store.tree, found);
    let ask = ask_for(context, asked, number_of(found));
    match store.opens.judge_open(&ask) {
        Ok(()) => room,
        Err(status) => {
            if status == Status::ShareDenied {
                return Err(status);
            }
            match room {
                Ok(()) => Err(status),
                Err(other) => Err(other),
            }
        }
    }
}

/// What is to be opened, if it may be.
fn judge_whole(store: &Store, context: &Context<'_>, asked: &Open<'_>) -> Result<Found, Status>
    requires { IsStore (state_of store.now) }
    ensures { result ≡ checked (part.asked_for (state_of store.now) context.now asked.now) (of_open.last_checks (state_of store.now) context.now asked.now) }
{
    store.tree.kept();
    let found = judge(store, context, asked)?;
    match judge_last(store, context, asked, &found) {
        Ok(()) => Ok(found),
        Err(status) => Err(status),
    }
}

/// How the directory changes, or the object that is reported in its place.
fn info_of(tree: &Tree, found: &Found) -> ChangeInfo
    requires { part.can_enter tree.now found.now ≡ true }
    ensures { result ≡ of_open.info_of tree.now found.now }
{
    match found {
        Found::There { place, .. } => {
            let change = tree.change(*place).unwrap_or(0);
            change_info(Change {
                before: change,
                after: change,
            })
        }
        Found::Absent(making) => {
            let change = tree.change(making.place.number).unwrap_or(0);
            change_info(Change {
                before: change,
                after: change + 1,
            })
        }
    }
}

/// What a new file is.
fn new_file(asked: &Open<'_>, wanted: &Wanted) -> New<'static>
    ensures { new_of result ≡ of_open.new_of asked.now wanted.now }
{
    New::File {
        size: wanted.size.unwrap_or(0),
        verifier: verifier_of(&asked.openhow),
    }
}

/// What its attributes are, where nothing else is given.
fn sets_of(context: &Context<'_>, now: Time, asked: &Open<'_>, wanted: &Wanted) -> Sets
    ensures { result ≡ of_open.sets_of context.now now asked.now wanted.now }
{
    let _ = &asked.openhow;
    Sets {
        mode: Some(wanted.mode.unwrap_or(0o644)),
        owner: Some(wanted.owner.unwrap_or(context.who.who().uid)),
        group: Some(wanted.group.unwrap_or(context.who.who().gid)),
        access: time_of(wanted.access, now),
        modify: time_of(wanted.modify, now),
    }
}

/// The same of a file that is made in a directory, by the profile.
fn made_sets(
    tree: &Tree,
    context: &Context<'_>,
    now: Time,
    asked: &Open<'_>,
    making: &Making,
) -> Sets
    ensures { result ≡ of_open.made_sets tree.now context.now now asked.now making.now }
{
    let (place, who) = (&making.place.object, context.who.who());
    let wanted = made_in(tree.profile(), place, who, false, 0o644, making.wanted);
    sets_of(context, now, asked, &wanted)
}

/// The flags of an open.
fn result_flags(profile: Profile) -> u32
    ensures { result ≡ of_open.result_flags profile }
{
    if profile.is_unix() {
        LOCKTYPE_POSIX
    } else {
        LOCKTYPE_POSIX | PRESERVE_UNLINKED
    }
}

/// The attributes that are set.
fn set_of(asked: &Open<'_>, found: &Found) -> AttrSet
    ensures { result ≡ of_open.set_of asked.now found.now }
{
    match found {
        Found::There { cut, .. } => AttrSet::of([if *cut { SIZE } else { 0 }, 0, 0]),
        Found::Absent(_) => attr_set(&mask_in(&attributes_in(&asked.openhow).attrmask)),
    }
}

/// The file is made, cut or left. Answers its number.
fn enter(
    alloc: Global,
    tree: &mut Tree,
    context: &Context<'_>,
    asked: &Open<'_>,
    found: &Found,
    now: Time,
) -> Result<u64, TreeFault>
    requires { IsRooted tree.old }
    ensures { DoesOrWants tree.old true (part.entered tree.old context.now now asked.now found.now) result tree.new }
{
    match found {
        Found::There { file, cut, .. } => {
            if *cut {
                let sets = behind_sets(tree, context, file);
                tree.resize(file.number, 0, &sets, now)?;
            }
            Ok(file.number)
        }
        Found::Absent(making) => {
            let name = name_of(&asked.claim);
            let new = new_file(asked, &making.wanted);
            let sets = made_sets(tree, context, now, asked, making);
            let created = tree.create(alloc, making.place.number, name, &new, &sets, now)?;
            Ok(created.number)
        }
    }
}

/// Opens what may be opened. Fails only for want of memory, and then nothing has changed.
fn open_found(
    alloc: Global,
    store: &mut Store,
    context: &mut Context<'_>,
    asked: &Open<'_>,
    found: &Found,
    now: Time,
) -> Result<OpenOk, Status>
    requires granted { checked (part.asked_for (state_of store.old) context.old asked.now) (of_open.last_checks (state_of store.old) context.old asked.now) ≡ Ok found.now }
    requires store { IsStore (state_of store.old) }
    ensures { part.OpensOr result (of_open.opened (state_of store.old) context.old now asked.now found.now) (state_of store.old) context.old (state_of store.new) context.new }
{
    store.tree.kept();
    let Ok(ready) = store.opens.reserve(alloc, asked.owner.owner.bytes()) else {
        return Err(Status::Delay);
    };
    let cinfo = info_of(&store.tree, found);
    let file = match enter(alloc, &mut store.tree, context, asked, found, now) {
        Ok(file) => file,
        Err(fault) => return Err(status_of(fault)),
    };
    let stateid = wire_id(store.opens.open(ready, &ask_for(context, asked, file)));
    context.current = Some(file);
    context.stateid = stateid;
    Ok(OpenOk {
        stateid,
        cinfo,
        rflags: result_flags(store.tree.profile()),
        attrset: set_of(asked, found),
    })
}

/// OPEN.
pub(crate) fn open_file(
    alloc: Global,
    store: &mut Store,
    context: &mut Context<'_>,
    asked: &Open<'_>,
    now: Time,
) -> Res<'static>
    requires { IsStore (state_of store.old) }
    ensures { MayWant true (state_of store.old) context.old Num.Open (of_open.open_file (state_of store.old) context.old now asked.now) result (state_of store.new) context.new }
{
    match judge_whole(store, context, asked) {
        Ok(found) => match open_found(alloc, store, context, asked, &found, now) {
            Ok(ok) => Res::Open(ok),
            Err(status) => refuse(OpNum::Open, status),
        },
        Err(status) => refuse(OpNum::Open, status),
    }
}
