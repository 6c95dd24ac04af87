//! Checks that several operations share.

ghost use Rattle.std.specs.Prelude.{◌≡◌, ◌+◌, ◌≤◌, ◌==◌, ◌||◌, [], ◌∷◌, is_some, length, bytes_eq};
ghost use Rattle.std.specs.List.{list_any};
ghost use Rattle.nfs_xdr.specs.Checks.{first_fault, judged};
ghost use Rattle.nfs_compound.specs.OpNum.{op_number};
ghost use Rattle.nfs_xdr.specs.SheetState.{Puts};
ghost use Rattle.nfs_results.specs.declared.res.Res.TheVariants as Res;
ghost use Rattle.nfs_results.specs.Results.{refusal, spell_result};
ghost use Rattle.nfs_tree.specs.Object.{is_link};
ghost use Rattle.nfs_tree.specs.Files.{object_at};
ghost use Rattle.nfs_names.specs.State.{state_of};
ghost use Rattle.nfs_names.specs.Checks.{node_at, current, both, saved_object, permits, name_checks};
ghost use Rattle.nfs_names.specs.Fronts.{sized};

use crate::context::{Context, Saved};
use crate::node::{Node, Pair};
use crate::store::Store;
use nfs_attrs::{Want, may};
use nfs_compound::OpNum;
use nfs_results::Res;
use nfs_tree::{FileType, Size, Tree};
use nfs_xdr::{Sheet, Status};

/// The refusal of an operation.
pub fn refuse(op: OpNum, status: Status) -> Res<'static>
    ensures { result ≡ refusal (op_number op) status }
{
    Res::refusal(op.number(), status)
}

/// Puts the refusal of an operation that has nothing behind its status then, and answers the status.
pub fn put_refusal(op: OpNum, status: Status, out: &mut Sheet) -> Status
    requires { length out.old.bytes + 8 ≤ out.old.room }
    ensures put { Puts out.old out.new (spell_result (Res.Refused (op_number op) status)) }
    ensures status { result ≡ status }
{
    out.put_u32(op.number());
    out.put_u32(status.number());
    status
}

/// The object of a filehandle: there may be no filehandle, or no object any more.
pub fn node_at(store: &Store, number: Option<u64>) -> Result<Node, Status>
    ensures { result ≡ node_at (state_of store.now) number }
{
    let Some(number) = number else {
        return Err(Status::NoFileHandle);
    };
    match store.tree.object(number) {
        Some(object) => Ok(Node {
            number,
            object: *object,
        }),
        None => Err(Status::Stale),
    }
}

fn saved_object(saved: Option<Saved>) -> Option<u64>
    ensures { result ≡ saved_object saved }
{
    match saved {
        Some(saved) => Some(saved.object),
        None => None,
    }
}

/// The object of the current filehandle: NOFILEHANDLE where there is none, STALE where its object is gone.
#[tactic(auto, unfolding(crate::specs::Checks::current))]
pub fn current(store: &Store, context: &Context<'_>) -> Result<Node, Status>
    ensures { result ≡ current (state_of store.now) context.now }
{
    node_at(store, context.current)
}

/// The same object, and how many bytes and pages it has.
#[tactic(auto, unfolding(crate::specs::Checks::current))]
pub(crate) fn current_and_size(store: &Store, context: &Context<'_>) -> Result<(Node, Size), Status>
    ensures { result ≡ sized (state_of store.now) (current (state_of store.now) context.now) }
{
    let Some(number) = context.current else {
        return Err(Status::NoFileHandle);
    };
    match store.tree.object_and_size(number) {
        Some((object, size)) => {
            let object = *object;
            Ok((Node { number, object }, size))
        }
        None => Err(Status::Stale),
    }
}

/// The objects of the current filehandle and of the saved one.
#[tactic(auto, unfolding(crate::specs::Checks::both, crate::specs::Checks::current))]
pub(crate) fn both(store: &Store, context: &Context<'_>) -> Result<Pair, Status>
    ensures { result ≡ both (state_of store.now) context.now }
{
    let current = node_at(store, context.current)?;
    let saved = node_at(store, saved_object(context.saved))?;
    Ok(Pair { current, saved })
}

/// Whether the object of the number is there.
pub(crate) fn is_there(store: &Store, number: u64) -> bool
    ensures { result ≡ is_some (object_at store.now.tree number) }
{
    store.tree.object(number).is_some()
}

/// Whether the permission bits let the caller do it.
#[tactic(auto, unfolding(crate::specs::Checks::permits))]
pub fn permits(context: &Context<'_>, node: &Node, want: Want) -> bool
    ensures { result ≡ permits context.now node.now want }
{
    may(&node.object, context.who.who(), want)
}

/// Whether it is a symbolic link.
pub fn is_link(kind: FileType) -> bool
    ensures { result ≡ is_link kind }
{
    match kind {
        FileType::Link => true,
        FileType::Regular => false,
        FileType::Directory => false,
    }
}

fn is_barred(name: &[u8]) -> bool
    ensures { result ≡ list_any (λ byte. byte == 0x2f || byte == 0) name.now }
{
    name.iter().any(|byte| *byte == b'/' || *byte == 0)
}

fn is_dots(name: &[u8]) -> bool
    ensures { result ≡ (bytes_eq name.now (0x2e ∷ []) || bytes_eq name.now (0x2e ∷ 0x2e ∷ [])) }
{
    name == b".".as_slice() || name == b"..".as_slice()
}

/// The refusal of what is no name.
pub fn judge_name(name: &[u8]) -> Result<(), Status>
    ensures { result ≡ judged (first_fault (name_checks name.now)) }
{
    if name.is_empty() {
        return Err(Status::Inval);
    }
    if name.len() > Tree::MAX_NAME {
        return Err(Status::NameTooLong);
    }
    if is_barred(name) {
        return Err(Status::BadChar);
    }
    if is_dots(name) {
        return Err(Status::BadName);
    }
    Ok(())
}
