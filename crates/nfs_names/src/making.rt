//! Operations that make, name and remove objects (RFC 8881 sections 18.4, 18.9, 18.25 and 18.26).

ghost use Rattle.std.specs.Prelude.{◌≡◌, ◌==◌, ℕ, Some, true, false, length, nat_lt, option_map};
ghost use Rattle.nfs_compound.specs.declared.op_num.OpNum.TheVariants as Num;
ghost use Rattle.nfs_tree.specs.{Calls.new_of, Object.is_directory};
ghost use Rattle.nfs_tree.specs.Files.{most_text, has_entries};
ghost use Rattle.nfs_attrs.specs.Mask.{trimmed_words};
ghost use Rattle.nfs_names.specs.State.{state_of};
ghost use Rattle.nfs_names.specs.StoreInvariants.{IsRooted};
ghost use Rattle.nfs_names.specs.Operation.{moves_in};
ghost use Rattle.nfs_names.specs.View.{outcome_of, MayWant};
ghost use Rattle.nfs_names.specs.Checks as check;
ghost use Rattle.nfs_names.specs.Fronts as front;
ghost use Rattle.nfs_names.specs.Create as of_create;
ghost use Rattle.nfs_names.specs.Link as of_link;
ghost use Rattle.nfs_names.specs.Remove as of_remove;
ghost use Rattle.nfs_names.specs.Rename as of_rename;
ghost use Rattle.nfs_names.specs.Faults as of_tree;

use crate::attributes::mask_in;
use crate::checks::{both, current, judge_name, permits, refuse};
use crate::context::Context;
use crate::node::{Node, Pair};
use crate::store::Store;
use nfs_attrs::{Mask, SetTime, Want, Wanted, made_in, may_make, read_attrs};
use nfs_compound::{Attributes, Create, CreateType, OpNum, Rename};
use nfs_results::{AttrSet, ChangeInfo, CreateOk, RenameOk, Res};
use nfs_tree::{Change, Created, New, Renamed, Sets, Tree, TreeFault};
use nfs_xdr::{Status, Time};
use std::alloc::Global;

/// An object that is to be made in a directory, with these attributes.
#[derive(Clone, Copy, Debug, PartialEq, Eq)]
pub struct Making {
    /// The directory.
    pub place: Node,
    /// Its attributes.
    pub wanted: Wanted,
}

fn is_made(objtype: &CreateType<'_>) -> bool
    ensures { result ≡ of_create.is_made objtype.now }
{
    match objtype {
        CreateType::Block(_) => false,
        CreateType::Character(_) => false,
        CreateType::Symlink { .. } => true,
        CreateType::Other { objtype } => *objtype == 2,
    }
}

fn is_empty_text(objtype: &CreateType<'_>) -> bool
    ensures { result ≡ of_create.text_is (λ n. n == 0) objtype.now }
{
    match objtype {
        CreateType::Symlink { linkdata } => linkdata.bytes().is_empty(),
        CreateType::Block(_) => false,
        CreateType::Character(_) => false,
        CreateType::Other { .. } => false,
    }
}

fn is_long_text(objtype: &CreateType<'_>) -> bool
    ensures { result ≡ of_create.text_is (nat_lt most_text) objtype.now }
{
    match objtype {
        CreateType::Symlink { linkdata } => linkdata.bytes().len() > Tree::MAX_TEXT as usize,
        CreateType::Block(_) => false,
        CreateType::Character(_) => false,
        CreateType::Other { .. } => false,
    }
}

fn new_of<'a>(objtype: &CreateType<'a>) -> New<'a>
    ensures { new_of result ≡ of_create.new_of objtype.now }
{
    match objtype {
        CreateType::Symlink { linkdata } => New::Link(linkdata.bytes()),
        CreateType::Block(_) => New::Directory,
        CreateType::Character(_) => New::Directory,
        CreateType::Other { .. } => New::Directory,
    }
}

fn plain_mode(new: &New<'_>) -> u32
    ensures { result ≡ of_create.plain_mode (new_of new.now) }
{
    match new {
        New::Link(_) => 0o777,
        New::Directory => 0o755,
        New::File { .. } => 0o755,
    }
}

/// The directory in which an object is to be made, where its type and its name may be.
fn judge_place(store: &Store, context: &Context<'_>, asked: &Create<'_>) -> Result<Node, Status>
    ensures { result ≡ front.placing (state_of store.now) context.now asked.now }
{
    let d = current(store, context)?;
    if !d.object.kind.is_directory() {
        return Err(Status::NotDir);
    }
    if !permits(context, &d, Want::CHANGE) {
        return Err(Status::Access);
    }
    if !is_made(&asked.objtype) {
        return Err(Status::BadType);
    }
    if is_empty_text(&asked.objtype) {
        return Err(Status::Inval);
    }
    if is_long_text(&asked.objtype) {
        return Err(Status::NameTooLong);
    }
    judge_name(asked.objname.bytes())?;
    Ok(d)
}

/// The attributes that are given, or the status of the fault for which they cannot be read.
#[tactic(auto, unfolding(crate::specs::Create::attributes_in))]
pub fn wanted_of(given: &Attributes<'_>) -> Result<Wanted, Status>
    ensures { result ≡ of_create.attributes_in given.now }
{
    match read_attrs(mask_in(&given.attrmask), given.attr_vals.bytes()) {
        Ok(wanted) => Ok(wanted),
        Err(fault) => Err(fault.status()),
    }
}

/// The time that a request sets, where it sets one at this moment.
pub fn time_of(time: Option<SetTime>, now: Time) -> Option<Time>
    ensures { result ≡ option_map (of_create.time_of now) time }
{
    match time {
        Some(SetTime::Now) => Some(now),
        Some(SetTime::Given(given)) => Some(given),
        None => None,
    }
}

/// What a new object's attributes are, where nothing else is given.
fn sets_of(context: &Context<'_>, now: Time, new: &New<'_>, wanted: &Wanted) -> Sets
    ensures { result ≡ of_create.sets_of context.now now (new_of new.now) wanted.now }
{
    Sets {
        mode: Some(wanted.mode.unwrap_or(plain_mode(new))),
        owner: Some(wanted.owner.unwrap_or(context.who.who().uid)),
        group: Some(wanted.group.unwrap_or(context.who.who().gid)),
        access: time_of(wanted.access, now),
        modify: time_of(wanted.modify, now),
    }
}

fn makes_directory(new: &New<'_>) -> bool
    ensures { result ≡ is_directory (new_of new.now).kind }
{
    match new {
        New::Directory => true,
        New::Link(_) => false,
        New::File { .. } => false,
    }
}

/// The same of an object that is made in a directory, by the profile.
fn made_sets(
    store: &Store,
    context: &Context<'_>,
    now: Time,
    new: &New<'_>,
    making: &Making,
) -> Sets
    ensures { result ≡ of_create.made_sets (state_of store.now) context.now now making.now.place (new_of new.now) making.now.wanted }
{
    let wanted = made_in(
        store.tree.profile(),
        &making.place.object,
        context.who.who(),
        makes_directory(new),
        plain_mode(new),
        making.wanted,
    );
    sets_of(context, now, new, &wanted)
}

/// How a directory changed, with nothing else in between.
pub fn change_info(change: Change) -> ChangeInfo
    ensures { result ≡ of_create.change_info change }
{
    ChangeInfo {
        atomic: true,
        before: change.before,
        after: change.after,
    }
}

/// What is to be made where, if the caller may.
#[tactic(auto, using(crate::proofs::Fronted::creating_by))]
fn judge_making(store: &Store, context: &Context<'_>, asked: &Create<'_>) -> Result<Making, Status>
    ensures { result ≡ front.creating (state_of store.now) context.now asked.now }
{
    let place = judge_place(store, context, asked)?;
    let wanted = wanted_of(&asked.createattrs)?;
    may_make(&wanted, context.who.who())?;
    if wanted.size.is_some() {
        return Err(Status::Inval);
    }
    Ok(Making { place, wanted })
}

/// The status of what the tree refuses.
pub fn status_of(fault: TreeFault) -> Status
    ensures { result ≡ of_tree.tree_fault_status fault }
{
    match fault {
        TreeFault::NoEnt => Status::NoEnt,
        TreeFault::Exist => Status::Exist,
        TreeFault::NotDir => Status::NotDir,
        TreeFault::IsDir => Status::IsDir,
        TreeFault::NotEmpty => Status::NotEmpty,
        TreeFault::Inval => Status::Inval,
        TreeFault::Fbig => Status::FBig,
        TreeFault::NoSpc => Status::NoSpc,
        TreeFault::Mlink => Status::MLink,
        TreeFault::Deep => Status::NameTooLong,
        TreeFault::Counter => Status::ServerFault,
        TreeFault::Memory => Status::Delay,
    }
}

/// CREATE.
pub(crate) fn create(
    alloc: Global,
    store: &mut Store,
    context: &mut Context<'_>,
    asked: &Create<'_>,
    now: Time,
) -> Res<'static>
    requires { IsRooted store.old.tree }
    ensures { MayWant true (state_of store.old) context.old Num.Create (of_create.create (state_of store.old) context.old now asked.now) result (state_of store.new) context.new }
{
    match judge_making(store, context, asked) {
        Ok(making) => {
            let new = new_of(&asked.objtype);
            let sets = made_sets(store, context, now, &new, &making);
            match store.tree.create(
                alloc,
                making.place.number,
                asked.objname.bytes(),
                &new,
                &sets,
                now,
            ) {
                Ok(created) => {
                    context.go_to(created.number);
                    let given = mask_in(&asked.createattrs.attrmask);
                    Res::Create(create_ok(&created, &given))
                }
                Err(fault) => refuse(OpNum::Create, status_of(fault)),
            }
        }
        Err(status) => refuse(OpNum::Create, status),
    }
}

/// The attributes of a mask, as a result reports them.
pub fn attr_set(mask: &Mask) -> AttrSet
    ensures { result ≡ trimmed_words mask.now }
{
    let words = mask.words;
    measure(&words);
    AttrSet::of(words)
}

/// An array is as long as its type says.
fn measure(words: &[u32; 3])
    ensures { length words.now ≡ 3 }
{
    let _ = words.len();
}

/// What is reported of an object that was made.
fn create_ok(created: &Created, given: &Mask) -> CreateOk
    ensures { result ≡ record { cinfo = of_create.change_info created.now.directory; attrset = trimmed_words given.now } }
{
    CreateOk {
        cinfo: change_info(created.directory),
        attrset: attr_set(given),
    }
}

/// The directory and the object that is to get one more name.
fn judge_link(store: &Store, context: &Context<'_>, name: &[u8]) -> Result<Pair, Status>
    ensures { result ≡ front.linking (state_of store.now) context.now name.now }
{
    let p = both(store, context)?;
    if !p.current.object.kind.is_directory() {
        return Err(Status::NotDir);
    }
    if p.saved.object.kind.is_directory() {
        return Err(Status::IsDir);
    }
    if !permits(context, &p.current, Want::CHANGE) {
        return Err(Status::Access);
    }
    judge_name(name)?;
    Ok(p)
}

/// LINK.
pub(crate) fn link(
    alloc: Global,
    store: &mut Store,
    context: &Context<'_>,
    name: &[u8],
    now: Time,
) -> Res<'static>
    requires { IsRooted store.old.tree }
    ensures { MayWant true (state_of store.old) context.now Num.Link (of_link.link (state_of store.old) context.now now name.now) result (state_of store.new) context.now }
{
    match judge_link(store, context, name) {
        Ok(p) => match store
            .tree
            .link(alloc, p.saved.number, p.current.number, name, now)
        {
            Ok(change) => Res::Link(change_info(change)),
            Err(fault) => refuse(OpNum::Link, status_of(fault)),
        },
        Err(status) => refuse(OpNum::Link, status),
    }
}

/// What had a name that another object has now goes as by REMOVE.
fn drop_replaced(store: &mut Store, replaced: Option<u64>)
    requires { (n : ℕ) → replaced ≡ Some n → has_entries store.old.tree.rows n ≡ false }
    ensures { state_of store.new ≡ of_rename.without_replaced (state_of store.old) replaced }
{
    if let Some(number) = replaced {
        store.drop_empty(number);
    }
}

/// The directory of a name that is to go.
fn judge_remove(store: &Store, context: &Context<'_>, name: &[u8]) -> Result<Node, Status>
    ensures { result ≡ front.removing (state_of store.now) context.now name.now }
{
    let d = current(store, context)?;
    if !d.object.kind.is_directory() {
        return Err(Status::NotDir);
    }
    if !permits(context, &d, Want::CHANGE) {
        return Err(Status::Access);
    }
    judge_name(name)?;
    Ok(d)
}

/// REMOVE.
pub(crate) fn remove(
    store: &mut Store,
    context: &Context<'_>,
    name: &[u8],
    now: Time,
) -> Res<'static>
    ensures { outcome_of result (state_of store.new) context.now ≡ of_remove.remove (state_of store.old) context.now now name.now }
{
    match judge_remove(store, context, name) {
        Ok(d) => match store.tree.remove(d.number, name, now) {
            Ok(removed) => {
                store.drop_empty(removed.number);
                Res::Remove(change_info(removed.directory))
            }
            Err(fault) => refuse(OpNum::Remove, status_of(fault)),
        },
        Err(status) => refuse(OpNum::Remove, status),
    }
}

/// The two directories of an entry that is to move.
fn judge_rename(store: &Store, context: &Context<'_>, asked: &Rename<'_>) -> Result<Pair, Status>
    ensures { result ≡ front.renaming (state_of store.now) context.now asked.now }
{
    let p = both(store, context)?;
    if !p.saved.object.kind.is_directory() {
        return Err(Status::NotDir);
    }
    if !p.current.object.kind.is_directory() {
        return Err(Status::NotDir);
    }
    if !permits(context, &p.saved, Want::CHANGE) {
        return Err(Status::Access);
    }
    if !permits(context, &p.current, Want::CHANGE) {
        return Err(Status::Access);
    }
    judge_name(asked.oldname.bytes())?;
    judge_name(asked.newname.bytes())?;
    Ok(p)
}

/// RENAME.
pub(crate) fn rename(
    alloc: Global,
    store: &mut Store,
    context: &Context<'_>,
    asked: &Rename<'_>,
    now: Time,
) -> Res<'static>
    requires { IsRooted store.old.tree }
    ensures { MayWant (moves_in (state_of store.old) asked.now (check.both (state_of store.old) context.now)) (state_of store.old) context.now Num.Rename
        (of_rename.rename (state_of store.old) context.now now asked.now) result (state_of store.new) context.now }
{
    match judge_rename(store, context, asked) {
        Ok(p) => match store.tree.rename(
            alloc,
            p.saved.number,
            asked.oldname.bytes(),
            p.current.number,
            asked.newname.bytes(),
            now,
        ) {
            Ok(renamed) => {
                drop_replaced(store, renamed.replaced);
                Res::Rename(rename_ok(&renamed))
            }
            Err(fault) => refuse(OpNum::Rename, status_of(fault)),
        },
        Err(status) => refuse(OpNum::Rename, status),
    }
}

fn rename_ok(renamed: &Renamed) -> RenameOk
    ensures { result ≡ record { source_cinfo = of_create.change_info renamed.now.source; target_cinfo = of_create.change_info renamed.now.target } }
{
    RenameOk {
        source_cinfo: change_info(renamed.source),
        target_cinfo: change_info(renamed.target),
    }
}
