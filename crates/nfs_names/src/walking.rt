//! Operations that move the current filehandle (RFC 8881 sections 18.8, 18.13, 18.14, 18.19 to 18.21, 18.27, 18.28 and
//! 18.45).

ghost use Rattle.std.specs.Prelude.{◌≡◌};
ghost use Rattle.nfs_names.specs.State.{state_of};
ghost use Rattle.nfs_names.specs.View.{outcome_of};
ghost use Rattle.nfs_names.specs.Fronts as front;
ghost use Rattle.nfs_names.specs.Lookup as of_lookup;
ghost use Rattle.nfs_names.specs.LookupP as of_lookup_p;
ghost use Rattle.nfs_names.specs.PutFh as of_put_fh;
ghost use Rattle.nfs_names.specs.PutPubFh as of_put_pub_fh;
ghost use Rattle.nfs_names.specs.PutRootFh as of_put_root_fh;
ghost use Rattle.nfs_names.specs.RestoreFh as of_restore_fh;
ghost use Rattle.nfs_names.specs.SaveFh as of_save_fh;
ghost use Rattle.nfs_names.specs.SecinfoNoName as of_secinfo;

use crate::checks::{current, is_link, is_there, judge_name, permits, refuse};
use crate::context::{Context, Saved};
use crate::node::Node;
use crate::store::Store;
use nfs_attrs::{Handle, Want};
use nfs_compound::{OpNum, SecinfoStyle};
use nfs_results::{Res, Words};
use nfs_tree::Tree;
use nfs_xdr::Status;

/// AUTH_SYS, as it is spelled.
const AUTH_SYS: [[u8; 4]; 1] = [[0, 0, 0, 1]];

/// The object of a name in the current directory.
fn find(store: &Store, context: &Context<'_>, name: &[u8]) -> Result<u64, Status>
    ensures { result ≡ front.looking_up (state_of store.now) context.now name.now }
{
    let d = current(store, context)?;
    if is_link(d.object.kind) {
        return Err(Status::Symlink);
    }
    if !d.object.kind.is_directory() {
        return Err(Status::NotDir);
    }
    if !permits(context, &d, Want::EXECUTE) {
        return Err(Status::Access);
    }
    judge_name(name)?;
    match store.tree.lookup(d.number, name) {
        Some(number) => Ok(number),
        None => Err(Status::NoEnt),
    }
}

/// LOOKUP.
#[tactic(auto, using(crate::proofs::Fronted::lookup_by))]
pub(crate) fn lookup(store: &Store, context: &mut Context<'_>, name: &[u8]) -> Res<'static>
    ensures { outcome_of result (state_of store.now) context.new ≡ of_lookup.lookup (state_of store.now) context.old name.now }
{
    match find(store, context, name) {
        Ok(number) => {
            context.go_to(number);
            Res::Lookup
        }
        Err(status) => refuse(OpNum::Lookup, status),
    }
}

/// The directory in which the current one stands.
fn find_parent(store: &Store, context: &Context<'_>) -> Result<u64, Status>
    ensures { result ≡ front.looking_above (state_of store.now) context.now }
{
    let d = current(store, context)?;
    if !d.object.kind.is_directory() {
        return Err(Status::NotDir);
    }
    if !permits(context, &d, Want::EXECUTE) {
        return Err(Status::Access);
    }
    match store.tree.parent(d.number) {
        Some(number) => Ok(number),
        None => Err(Status::NoEnt),
    }
}

/// LOOKUPP.
#[tactic(auto, unfolding(crate::specs::LookupP::lookup_p))]
pub(crate) fn lookup_p(store: &Store, context: &mut Context<'_>) -> Res<'static>
    ensures { outcome_of result (state_of store.now) context.new ≡ of_lookup_p.lookup_p (state_of store.now) context.old }
{
    match find_parent(store, context) {
        Ok(number) => {
            context.go_to(number);
            Res::LookupP
        }
        Err(status) => refuse(OpNum::LookupP, status),
    }
}

/// The object that the filehandle names.
fn read_handle(store: &Store, object: &[u8]) -> Result<Handle, Status>
    ensures { result ≡ front.putting_fh (state_of store.now) object.now }
{
    let Ok(handle) = Handle::read(object) else {
        return Err(Status::BadHandle);
    };
    if handle.instance != store.opens.instance() {
        return Err(Status::Stale);
    }
    if !is_there(store, handle.number) {
        return Err(Status::Stale);
    }
    Ok(handle)
}

/// PUTFH.
#[tactic(auto, unfolding(crate::specs::PutFh::put_fh))]
pub(crate) fn put_fh(store: &Store, context: &mut Context<'_>, object: &[u8]) -> Res<'static>
    ensures { outcome_of result (state_of store.now) context.new ≡ of_put_fh.put_fh (state_of store.now) context.old object.now }
{
    match read_handle(store, object) {
        Ok(handle) => {
            context.go_to(handle.number);
            Res::PutFh
        }
        Err(status) => refuse(OpNum::PutFh, status),
    }
}

/// PUTPUBFH.
#[tactic(auto, unfolding(crate::specs::PutPubFh::put_pub_fh))]
pub(crate) fn put_pub_fh(store: &Store, context: &mut Context<'_>) -> Res<'static>
    ensures { outcome_of result (state_of store.now) context.new ≡ of_put_pub_fh.put_pub_fh (state_of store.now) context.old }
{
    let _ = &store.tree;
    context.go_to(Tree::ROOT);
    Res::PutPubFh
}

/// PUTROOTFH.
#[tactic(auto, unfolding(crate::specs::PutRootFh::put_root_fh))]
pub(crate) fn put_root_fh(store: &Store, context: &mut Context<'_>) -> Res<'static>
    ensures { outcome_of result (state_of store.now) context.new ≡ of_put_root_fh.put_root_fh (state_of store.now) context.old }
{
    let _ = &store.tree;
    context.go_to(Tree::ROOT);
    Res::PutRootFh
}

/// The saved filehandle, whose object is there.
fn saved(store: &Store, context: &Context<'_>) -> Result<Saved, Status>
    ensures { result ≡ front.restoring_fh (state_of store.now) context.now }
{
    let Some(saved) = context.saved else {
        return Err(Status::NoFileHandle);
    };
    if !is_there(store, saved.object) {
        return Err(Status::Stale);
    }
    Ok(saved)
}

/// RESTOREFH.
#[tactic(auto, unfolding(crate::specs::RestoreFh::restore_fh))]
pub(crate) fn restore_fh(store: &Store, context: &mut Context<'_>) -> Res<'static>
    ensures { outcome_of result (state_of store.now) context.new ≡ of_restore_fh.restore_fh (state_of store.now) context.old }
{
    match saved(store, context) {
        Ok(saved) => {
            context.current = Some(saved.object);
            context.stateid = saved.stateid;
            Res::RestoreFh
        }
        Err(status) => refuse(OpNum::RestoreFh, status),
    }
}

/// SAVEFH.
#[tactic(auto, unfolding(crate::specs::SaveFh::save_fh))]
pub(crate) fn save_fh(store: &Store, context: &mut Context<'_>) -> Res<'static>
    ensures { outcome_of result (state_of store.now) context.new ≡ of_save_fh.save_fh (state_of store.now) context.old }
{
    match current(store, context) {
        Ok(d) => {
            context.saved = Some(Saved {
                object: d.number,
                stateid: context.stateid,
            });
            Res::SaveFh
        }
        Err(status) => refuse(OpNum::SaveFh, status),
    }
}

/// The object whose flavors are asked for, or in whose directory.
fn judge_style(store: &Store, context: &Context<'_>, style: SecinfoStyle) -> Result<Node, Status>
    ensures { result ≡ front.asking_flavors (state_of store.now) context.now style }
{
    let d = current(store, context)?;
    match style {
        SecinfoStyle::CurrentFh => Ok(d),
        SecinfoStyle::Parent => {
            if !d.object.kind.is_directory() {
                return Err(Status::NotDir);
            }
            match store.tree.parent(d.number) {
                Some(_) => Ok(d),
                None => Err(Status::NoEnt),
            }
        }
    }
}

/// SECINFO_NO_NAME.
#[tactic(auto, unfolding(crate::specs::SecinfoNoName::secinfo_no_name))]
pub(crate) fn secinfo_no_name(
    store: &Store,
    context: &mut Context<'_>,
    style: SecinfoStyle,
) -> Res<'static>
    ensures { outcome_of result (state_of store.now) context.new ≡ of_secinfo.secinfo_no_name (state_of store.now) context.old style }
{
    match judge_style(store, context, style) {
        Ok(_) => {
            context.current = None;
            Res::SecinfoNoName(Words::of(&AUTH_SYS))
        }
        Err(status) => refuse(OpNum::SecinfoNoName, status),
    }
}
