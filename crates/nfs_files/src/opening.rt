//! OPEN: what is to be opened, and whether it may be (RFC 8881 section 18.16).

ghost use Rattle.std.specs.Prelude.{◌≡◌, Ok};
ghost use Rattle.nfs_names.specs.State.{state_of};
ghost use Rattle.nfs_names.specs.Outcome.{checked};
ghost use Rattle.nfs_files.specs.OpenParts as part;
ghost use Rattle.nfs_files.specs.Open as of_open;

use crate::access::{judge_file, lets_use};
use nfs_attrs::{Want, Wanted, may_make};
use nfs_compound::{Attributes, Bitmap, CreateHow, Lent, Open, OpenClaim, OpenHow};
use nfs_names::{Context, Making, Node, Store, current, judge_name, node_at, permits, wanted_of};
use nfs_opens::Share;
use nfs_tree::Tree;
use nfs_xdr::Status;

/// What OPEN comes upon.
#[derive(Clone, Copy, Debug, PartialEq, Eq)]
pub(crate) enum Found {
    /// A file that is there, which may be cut, and the object of which the change is reported.
    There { place: u64, file: Node, cut: bool },
    /// None: a file is to be made.
    Absent(Making),
}

/// What the open is to be allowed.
pub(crate) fn access_of(asked: &Open<'_>) -> Share
    ensures { result ≡ of_open.access_of asked.now }
{
    Share::from_bits(asked.share_access % 4).unwrap_or(Share::neither())
}

/// What it is to deny.
pub(crate) fn deny_of(asked: &Open<'_>) -> Share
    ensures { result ≡ of_open.deny_of asked.now }
{
    Share::from_bits(asked.share_deny).unwrap_or(Share::neither())
}

fn creates(how: &OpenHow<'_>) -> bool
    ensures { result ≡ (of_open.makes how.now).creates }
{
    match how {
        OpenHow::NoCreate => false,
        OpenHow::Create(_) => true,
    }
}

/// Whether an exclusive create by this verifier made the object.
fn is_made_by(verifier: [u8; 8], made: Option<[u8; 8]>) -> bool
    ensures { result ≡ of_open.is_made_by verifier made }
{
    match made {
        None => false,
        Some(made) => verifier.as_slice() == made.as_slice(),
    }
}

/// Whether an object that was made with this verifier, if with one, is opened.
fn opens(how: &OpenHow<'_>, made: Option<[u8; 8]>) -> bool
    ensures { result ≡ (of_open.makes how.now).opens made }
{
    match how {
        OpenHow::NoCreate => true,
        OpenHow::Create(CreateHow::Unchecked { .. }) => true,
        OpenHow::Create(CreateHow::Guarded { .. }) => false,
        OpenHow::Create(CreateHow::Exclusive { createverf }) => is_made_by(*createverf, made),
        OpenHow::Create(CreateHow::Exclusive41 { verf, .. }) => is_made_by(*verf, made),
    }
}

fn is_unchecked(how: &OpenHow<'_>) -> bool
    ensures { result ≡ (of_open.makes how.now).cuts }
{
    match how {
        OpenHow::NoCreate => false,
        OpenHow::Create(CreateHow::Unchecked { .. }) => true,
        OpenHow::Create(CreateHow::Guarded { .. }) => false,
        OpenHow::Create(CreateHow::Exclusive { .. }) => false,
        OpenHow::Create(CreateHow::Exclusive41 { .. }) => false,
    }
}

/// The verifier of an exclusive create.
pub(crate) fn verifier_of(how: &OpenHow<'_>) -> Option<[u8; 8]>
    ensures { result ≡ (of_open.makes how.now).verifier }
{
    match how {
        OpenHow::NoCreate => None,
        OpenHow::Create(CreateHow::Unchecked { .. }) => None,
        OpenHow::Create(CreateHow::Guarded { .. }) => None,
        OpenHow::Create(CreateHow::Exclusive { createverf }) => Some(*createverf),
        OpenHow::Create(CreateHow::Exclusive41 { verf, .. }) => Some(*verf),
    }
}

/// The attributes that are given.
pub(crate) fn attributes_in<'a>(how: &OpenHow<'a>) -> Attributes<'a>
    ensures { result ≡ (of_open.makes how.now).attributes }
{
    match how {
        OpenHow::NoCreate => no_attributes(),
        OpenHow::Create(CreateHow::Unchecked { createattrs }) => lent_again(createattrs),
        OpenHow::Create(CreateHow::Guarded { createattrs }) => lent_again(createattrs),
        OpenHow::Create(CreateHow::Exclusive { .. }) => no_attributes(),
        OpenHow::Create(CreateHow::Exclusive41 { attrs, .. }) => lent_again(attrs),
    }
}

/// The same attributes, lent once more.
fn lent_again<'a>(given: &Attributes<'a>) -> Attributes<'a>
    ensures { result ≡ given.now }
{
    Attributes {
        attrmask: Bitmap::of(given.attrmask.words()),
        attr_vals: Lent::of(given.attr_vals.bytes()),
    }
}

fn no_attributes() -> Attributes<'static>
    ensures { result ≡ of_open.no_attributes }
{
    Attributes {
        attrmask: Bitmap::of(&[]),
        attr_vals: Lent::of(&[]),
    }
}

/// The name of the file, which a claim by filehandle does not have.
pub(crate) fn name_of<'a>(claim: &OpenClaim<'a>) -> &'a [u8]
    ensures { result.now ≡ of_open.name_of claim.now }
{
    match claim {
        OpenClaim::Null { file } => file.bytes(),
        OpenClaim::Previous { .. } => &[],
        OpenClaim::DelegateCur { .. } => &[],
        OpenClaim::DelegatePrev { .. } => &[],
        OpenClaim::Fh => &[],
        OpenClaim::DelegCurFh { .. } => &[],
        OpenClaim::DelegPrevFh => &[],
    }
}

/// The current filehandle's object, where such things may be asked for.
fn judge_arguments(asked: &Open<'_>, node: Node) -> Result<Node, Status>
    ensures { result ≡ checked (Ok node) (part.argument_checks asked.now) }
{
    if asked.share_access % 4 == 0 {
        return Err(Status::Inval);
    }
    if Share::from_bits(asked.share_deny).is_none() {
        return Err(Status::Inval);
    }
    Ok(node)
}

/// The directory in which the name is looked for.
fn judge_place(context: &Context<'_>, name: &[u8], node: Node) -> Result<Node, Status>
    ensures { result ≡ checked (Ok node) (part.place_checks context.now name.now) }
{
    if !node.object.kind.is_directory() {
        return Err(Status::NotDir);
    }
    if !permits(context, &node, Want::EXECUTE) {
        return Err(Status::Access);
    }
    judge_name(name)?;
    Ok(node)
}

/// What is to be made where, if it may be.
fn judge_absent(context: &Context<'_>, asked: &Open<'_>, making: Making) -> Result<Making, Status>
    ensures { result ≡ checked (Ok making) (part.absent_checks context.now asked.now) }
{
    if !creates(&asked.openhow) {
        return Err(Status::NoEnt);
    }
    if !permits(context, &making.place, Want::WRITE) {
        return Err(Status::Access);
    }
    may_make(&making.wanted, context.who.who())?;
    Ok(making)
}

/// The object that is there, if it may be opened.
fn judge_there(
    tree: &Tree,
    context: &Context<'_>,
    asked: &Open<'_>,
    file: Node,
) -> Result<Node, Status>
    ensures { result ≡ checked (Ok file) (of_open.there_checks tree.now context.now asked.now) }
{
    if !opens(&asked.openhow, file.object.verifier) {
        return Err(Status::Exist);
    }
    let file = judge_file(file)?;
    if !lets_use(tree, context, &file, access_of(asked)) {
        return Err(Status::Access);
    }
    Ok(file)
}

/// Whether the file is cut.
fn cuts(asked: &Open<'_>, wanted: &Wanted) -> bool
    ensures { result ≡ of_open.cuts asked.now wanted.now }
{
    is_unchecked(&asked.openhow) && wanted.size == Some(0) && access_of(asked).writes
}

fn found_by(
    store: &Store,
    context: &Context<'_>,
    asked: &Open<'_>,
    making: Making,
    number: Option<u64>,
) -> Result<Found, Status>
    ensures { result ≡ part.found_by (state_of store.now) context.now asked.now making number }
{
    match number {
        Some(number) => {
            let file = node_at(store, Some(number))?;
            let file = judge_there(&store.tree, context, asked, file)?;
            Ok(Found::There {
                place: making.place.number,
                file,
                cut: cuts(asked, &making.wanted),
            })
        }
        None => {
            let making = judge_absent(context, asked, making)?;
            Ok(Found::Absent(making))
        }
    }
}

/// What stands under the name in a directory.
fn by_name(
    store: &Store,
    context: &Context<'_>,
    asked: &Open<'_>,
    name: &[u8],
    node: Node,
) -> Result<Found, Status>
    ensures { result ≡ part.by_name (state_of store.now) context.now asked.now name.now node }
{
    let place = judge_place(context, name, node)?;
    let wanted = wanted_of(&attributes_in(&asked.openhow))?;
    let number = store.tree.lookup(place.number, name);
    found_by(store, context, asked, Making { place, wanted }, number)
}

/// The current filehandle's file itself.
fn by_handle(
    tree: &Tree,
    context: &Context<'_>,
    asked: &Open<'_>,
    node: Node,
) -> Result<Found, Status>
    ensures { result ≡ part.by_handle tree.now context.now asked.now node }
{
    let file = judge_there(tree, context, asked, node)?;
    Ok(Found::There {
        place: file.number,
        file,
        cut: false,
    })
}

/// What an open of this claim comes upon.
fn by_claim(
    store: &Store,
    context: &Context<'_>,
    asked: &Open<'_>,
    claim: &OpenClaim<'_>,
    node: Node,
) -> Result<Found, Status>
    ensures { result ≡ part.by_claim (state_of store.now) context.now asked.now claim.now node }
{
    match claim {
        OpenClaim::Null { file } => by_name(store, context, asked, file.bytes(), node),
        OpenClaim::Fh => {
            if creates(&asked.openhow) {
                return Err(Status::Inval);
            }
            by_handle(&store.tree, context, asked, node)
        }
        OpenClaim::Previous { .. } => Err(Status::NoGrace),
        OpenClaim::DelegateCur { .. } => Err(Status::NotSupp),
        OpenClaim::DelegatePrev { .. } => Err(Status::NotSupp),
        OpenClaim::DelegCurFh { .. } => Err(Status::NotSupp),
        OpenClaim::DelegPrevFh => Err(Status::NotSupp),
    }
}

/// What is to be opened.
#[tactic(auto, unfolding(crate::specs::OpenParts::asked_for))]
pub(crate) fn judge(store: &Store, context: &Context<'_>, asked: &Open<'_>) -> Result<Found, Status>
    ensures { result ≡ part.asked_for (state_of store.now) context.now asked.now }
{
    let node = current(store, context)?;
    let node = judge_arguments(asked, node)?;
    by_claim(store, context, asked, &asked.claim, node)
}
