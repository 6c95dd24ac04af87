//! Operations that report attributes and rights (RFC 8881 sections 18.1, 18.7, 18.8, 18.15 and 18.31).

ghost use Rattle.std.specs.Prelude.{◌≡◌, ◌+◌, ◌-◌, ◌^◌, ◌≤◌, length, min};
ghost use Rattle.nfs_tree.specs.Files.{size_at};
ghost use Rattle.nfs_xdr.specs.SheetState.{Puts};
ghost use Rattle.nfs_results.specs.Results.{spell_result};
ghost use Rattle.nfs_results.specs.declared.res.Res.TheVariants as Res;
ghost use Rattle.nfs_attrs.specs.Attributes.{values};
ghost use Rattle.nfs_attrs.specs.Comparing as comparing;
ghost use Rattle.nfs_attrs.specs.Mask.{mask_of};
ghost use Rattle.nfs_attrs.specs.Wire.{nfs_fh4};
ghost use Rattle.nfs_names.specs.State.{state_of};
ghost use Rattle.nfs_names.specs.Comes.{Comes};
ghost use Rattle.nfs_names.specs.View.{outcome_of};
ghost use Rattle.nfs_names.specs.Fronts as front;
ghost use Rattle.nfs_names.specs.Attributes as attributes;
ghost use Rattle.nfs_names.specs.Access as of_access;
ghost use Rattle.nfs_names.specs.GetAttr as of_get_attr;
ghost use Rattle.nfs_names.specs.GetFh as of_get_fh;
ghost use Rattle.nfs_names.specs.Verify as of_verify;
ghost use Rattle.nfs_names.specs.NVerify as of_nverify;

use crate::checks::{current, current_and_size, put_refusal, refuse};
use crate::context::Context;
use crate::node::Node;
use crate::store::Store;
use nfs_attrs::{About, Handle, Mask, attribute, judge_access, same, write_attrs};
use nfs_compound::{Attributes, Bitmap, OpNum};
use nfs_results::{AccessOk, Res, write_done_head};
use nfs_tree::{Limits, Profile, Size, Tree};
use nfs_xdr::{Sheet, Status};

/// The attributes of a mask that a record lends.
pub fn mask_in(lent: &Bitmap<'_>) -> Mask
    ensures { result ≡ mask_of lent.now }
{
    Mask::new(lent.words())
}

/// How many names the object has: a directory has one.
fn links_of(store: &Store, node: &Node) -> u32
    ensures { result ≡ attributes.links_of (state_of store.now) node.now }
{
    if node.object.kind.is_directory() {
        1
    } else {
        store.tree.links(node.number)
    }
}

/// The bytes that an object takes: in [`Profile::Unix`] whole pages of 4,096, those in which something was written.
fn taken_by(profile: Profile, size: Size) -> u64
    ensures { result ≡ attributes.taken_by profile size }
{
    match profile {
        Profile::Exact => size.bytes,
        Profile::Unix => size.pages.saturating_mul(4_096),
    }
}

/// How many bytes there may be: as many as the pages have, or, where only memory bounds these, as many as the largest file
/// may have.
fn space_of(limits: &Limits) -> u64
    ensures { result ≡ attributes.space_of limits.now }
{
    if limits.pages == Limits::ANY_PAGES {
        limits.bytes
    } else {
        limits.pages.saturating_mul(4_096)
    }
}

/// How many objects and bytes there may be, and how many more.
#[derive(Clone, Copy, Debug, PartialEq, Eq)]
struct Room {
    files_free: u64,
    files_total: u64,
    space_free: u64,
    space_total: u64,
}

impl Room {
    /// Where it is not asked for.
    const NONE: Room = Room {
        files_free: 0,
        files_total: 0,
        space_free: 0,
        space_total: 0,
    };
}

/// In how many bytes' pages something was written, where the pages are bounded.
fn space_used(tree: &Tree) -> u128
    ensures { result ≡ min (attributes.space_used tree.now) (2 ^ 128 - 1) }
{
    if tree.limits().pages == Limits::ANY_PAGES {
        0
    } else {
        tree.pages_used().saturating_mul(4_096)
    }
}

fn room_in(tree: &Tree) -> Room
    ensures { result ≡ attributes.room_in tree.now }
{
    let limits = tree.limits();
    let space = space_of(&limits);
    Room {
        files_free: u64::from(limits.objects).saturating_sub(tree.count() as u64),
        files_total: u64::from(limits.objects),
        space_free: u128::from(space).saturating_sub(space_used(tree)) as u64,
        space_total: space,
    }
}

/// What is reported of an object of this size beside the object itself, as far as it is asked for: names are counted only
/// where their number is, and so is the room that is left.
#[inline(always)]
pub(crate) fn about(store: &Store, node: &Node, size: Size, asked: Mask) -> About
    requires { size ≡ size_at store.now.tree node.now.number }
    ensures values { values asked result node.now.object ≡ values asked (attributes.about (state_of store.now) node.now) node.now.object }
    ensures profile { result.profile ≡ store.now.tree.profile }
{
    let links = if asked.has(attribute::NUMLINKS) {
        links_of(store, node)
    } else {
        0
    };
    let room = if asked.asks_room() {
        room_in(&store.tree)
    } else {
        Room::NONE
    };
    let profile = store.tree.profile();
    About {
        number: node.number,
        size: size.bytes,
        links,
        instance: store.opens.instance(),
        lease: store.lease,
        most_bytes: store.tree.limits().bytes,
        profile,
        used: taken_by(profile, size),
        files_free: room.files_free,
        files_total: room.files_total,
        space_free: room.space_free,
        space_total: room.space_total,
    }
}

/// ACCESS.
#[tactic(auto, unfolding(crate::specs::Access::access))]
pub(crate) fn access(store: &Store, context: &Context<'_>, asked: u32) -> Res<'static>
    ensures { outcome_of result (state_of store.now) context.now ≡ of_access.access (state_of store.now) context.now asked }
{
    match current(store, context) {
        Ok(d) => {
            let judged = judge_access(&d.object, context.who.who(), asked);
            Res::Access(AccessOk {
                supported: judged.supported,
                access: judged.granted,
            })
        }
        Err(status) => refuse(OpNum::Access, status),
    }
}

/// The object whose attributes are asked for, and its size: those that can only be set are not reported.
fn judge_mask(
    store: &Store,
    context: &Context<'_>,
    mask: &Bitmap<'_>,
) -> Result<(Node, Size), Status>
    ensures { result ≡ front.sized (state_of store.now) (front.getting_attr (state_of store.now) context.now mask.now) }
{
    let found = current_and_size(store, context)?;
    if mask_in(mask).asks_set_only() {
        return Err(Status::Inval);
    }
    Ok(found)
}

/// Whether the attributes of the current object are those that are given.
fn compare(store: &Store, context: &Context<'_>, given: &Attributes<'_>) -> Result<bool, Status>
    ensures { result ≡ of_verify.compared (state_of store.now) context.now given.now }
{
    let (d, size) = current_and_size(store, context)?;
    same_at(store, &d, size, given)
}

fn same_at(store: &Store, node: &Node, size: Size, given: &Attributes<'_>) -> Result<bool, Status>
    requires { size ≡ size_at store.now.tree node.now.number }
    ensures { result ≡ comparing.same (mask_of given.now.attrmask) given.now.attr_vals (attributes.about (state_of store.now) node.now) node.now.object }
{
    let asked = mask_in(&given.attrmask);
    match same(
        &node.object,
        &about(store, node, size, asked),
        asked,
        given.attr_vals.bytes(),
    ) {
        Ok(equal) => Ok(equal),
        Err(fault) => Err(fault.status()),
    }
}

/// VERIFY.
#[tactic(auto, unfolding(crate::specs::Verify::verify))]
pub(crate) fn verify(store: &Store, context: &Context<'_>, given: &Attributes<'_>) -> Res<'static>
    ensures { outcome_of result (state_of store.now) context.now ≡ of_verify.verify (state_of store.now) context.now given.now }
{
    match compare(store, context, given) {
        Ok(true) => Res::Verify,
        Ok(false) => refuse(OpNum::Verify, Status::NotSame),
        Err(status) => refuse(OpNum::Verify, status),
    }
}

/// NVERIFY.
#[tactic(auto, unfolding(crate::specs::NVerify::nverify))]
pub(crate) fn nverify(store: &Store, context: &Context<'_>, given: &Attributes<'_>) -> Res<'static>
    ensures { outcome_of result (state_of store.now) context.now ≡ of_nverify.nverify (state_of store.now) context.now given.now }
{
    match compare(store, context, given) {
        Ok(true) => refuse(OpNum::NVerify, Status::Same),
        Ok(false) => Res::NVerify,
        Err(status) => refuse(OpNum::NVerify, status),
    }
}

/// Puts the attributes of an object of this size, as GETATTR answers them.
fn put_attributes(store: &Store, node: &Node, size: Size, asked: Mask, out: &mut Sheet)
    requires size { size ≡ size_at store.now.tree node.now.number }
    requires room { length out.old.bytes + 640 ≤ out.old.room }
    ensures { Puts out.old out.new (spell_result (Res.GetAttr (attributes.attributes_of (state_of store.now) asked node.now))) }
{
    write_done_head(OpNum::GetAttr, out);
    write_attrs(&node.object, &about(store, node, size, asked), asked, out);
}

/// GETATTR.
#[tactic(auto, unfolding(crate::specs::GetAttr::get_attr))]
pub(crate) fn get_attr(
    store: &Store,
    context: &Context<'_>,
    asked: &Bitmap<'_>,
    out: &mut Sheet,
) -> Status
    requires { length out.old.bytes + 640 ≤ out.old.room }
    ensures { Comes (of_get_attr.get_attr (state_of store.now) context.now asked.now) out.old out.new result (state_of store.now) context.now }
{
    match judge_mask(store, context, asked) {
        Ok((d, size)) => {
            put_attributes(store, &d, size, mask_in(asked), out);
            Status::Nfs4Ok
        }
        Err(status) => put_refusal(OpNum::GetAttr, status, out),
    }
}

/// Puts a filehandle, as GETFH answers it.
fn put_handle(handle: &Handle, out: &mut Sheet)
    requires { length out.old.bytes + 28 ≤ out.old.room }
    ensures { Puts out.old out.new (spell_result (Res.GetFh (nfs_fh4 handle.now).bytes)) }
{
    write_done_head(OpNum::GetFh, out);
    out.put_opaque(&handle.bytes());
}

/// GETFH.
#[tactic(auto, unfolding(crate::specs::GetFh::get_fh))]
pub(crate) fn get_fh(store: &Store, context: &Context<'_>, out: &mut Sheet) -> Status
    requires { length out.old.bytes + 28 ≤ out.old.room }
    ensures { Comes (of_get_fh.get_fh (state_of store.now) context.now) out.old out.new result (state_of store.now) context.now }
{
    match current(store, context) {
        Ok(d) => {
            let handle = Handle {
                instance: store.opens.instance(),
                number: d.number,
            };
            put_handle(&handle, out);
            Status::Nfs4Ok
        }
        Err(status) => put_refusal(OpNum::GetFh, status, out),
    }
}
