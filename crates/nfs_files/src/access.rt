//! Whether bytes of a file may be read or changed (RFC 8881 sections 8.2.3, 9.1.2 and 9.7).

ghost use Rattle.std.specs.Prelude.{◌≡◌, Ok};
ghost use Rattle.nfs_names.specs.State.{state_of};
ghost use Rattle.nfs_names.specs.Outcome.{checked};
ghost use Rattle.nfs_files.specs.Parts as parts;
ghost use Rattle.nfs_files.specs.Bytes as of_bytes;

use crate::stateids::meant;
use nfs_attrs::{Want, may_use_bytes, mode_behind};
use nfs_compound::Stateid;
use nfs_names::{Context, Node, Store, is_link};
use nfs_opens::{CurrentSeqid, Seat, Share, Sort};
use nfs_tree::{Sets, Tree};
use nfs_xdr::Status;

const READING: Share = Share {
    reads: true,
    writes: false,
};

const WRITING: Share = Share {
    reads: false,
    writes: true,
};

/// The permission bits that an access wants.
fn want_of(access: Share) -> Want
    ensures { result ≡ of_bytes.want_of access }
{
    Want {
        read: access.reads,
        write: access.writes,
        execute: false,
    }
}

/// Whether the permission bits let the caller use a file's bytes so, by the profile.
#[tactic(auto, unfolding(crate::specs::Bytes::lets_use))]
pub(crate) fn lets_use(tree: &Tree, context: &Context<'_>, node: &Node, access: Share) -> bool
    ensures { result ≡ of_bytes.lets_use tree.now context.now node.now access }
{
    let want = want_of(access);
    may_use_bytes(tree.profile(), &node.object, context.who.who(), want)
}

/// What a change of a file's bytes sets beside them.
pub(crate) fn behind_sets(tree: &Tree, context: &Context<'_>, node: &Node) -> Sets
    ensures { result ≡ of_bytes.behind_sets tree.now context.now node.now }
{
    Sets {
        mode: mode_behind(tree.profile(), &node.object, context.who.who()),
        ..Sets::none()
    }
}

/// A file alone has bytes.
pub(crate) fn judge_file(node: Node) -> Result<Node, Status>
    ensures { result ≡ checked (Ok node) of_bytes.file_checks }
{
    if node.object.kind.is_directory() {
        return Err(Status::IsDir);
    }
    if is_link(node.object.kind) {
        return Err(Status::Symlink);
    }
    Ok(node)
}

/// The state of a file by which its bytes are to be changed.
#[tactic(auto, unfolding(crate::specs::Bytes::seat))]
fn seat(store: &Store, context: &Context<'_>, given: &Stateid, node: &Node) -> Result<Seat, Status>
    ensures { result ≡ of_bytes.seat (state_of store.now) context.now given.now node.now }
{
    let id = meant(context, CurrentSeqid::Any, given)?;
    store
        .opens
        .judge(id, context.client, Some(node.number), Sort::Either)
}

/// Whether the state lets the bytes of a file be read or changed, as it is wanted.
fn judge_seat(
    store: &Store,
    context: &Context<'_>,
    node: &Node,
    wanted: Share,
    seat: Seat,
) -> Result<Seat, Status>
    ensures { result ≡ checked (Ok seat) (of_bytes.seat_checks (state_of store.now) context.now wanted node.now) }
{
    match seat {
        Seat::Open { access, .. } if !wanted.is_part(access) => Err(Status::OpenMode),
        Seat::Lock { access, .. } if !wanted.is_part(access) => Err(Status::OpenMode),
        Seat::Open { .. } => Ok(seat),
        Seat::Lock { .. } => Ok(seat),
        Seat::Anonymous if wanted.meets(store.opens.denies(node.number)) => Err(Status::Locked),
        Seat::ReadBypass if wanted.writes && store.opens.denies(node.number).writes => {
            Err(Status::Locked)
        }
        _ => {
            if !lets_use(&store.tree, context, node, wanted) {
                return Err(Status::Access);
            }
            Ok(seat)
        }
    }
}

/// The state by which bytes of a file may be read or changed, as it is wanted.
#[tactic(auto, unfolding(crate::specs::Bytes::may_use))]
fn may_use(
    store: &Store,
    context: &Context<'_>,
    wanted: Share,
    given: &Stateid,
    node: &Node,
) -> Result<Seat, Status>
    ensures { result ≡ of_bytes.may_use (state_of store.now) context.now wanted given.now node.now }
{
    let seat = seat(store, context, given, node)?;
    judge_seat(store, context, node, wanted, seat)
}

/// The object, where it is a file whose bytes may be read by the stateid.
#[tactic(auto, unfolding(crate::specs::Parts::readable))]
pub(crate) fn readable(
    store: &Store,
    context: &Context<'_>,
    given: &Stateid,
    node: Node,
) -> Result<Node, Status>
    ensures { result ≡ parts.readable (state_of store.now) context.now given.now (Ok node) }
{
    let node = judge_file(node)?;
    may_use(store, context, READING, given, &node)?;
    Ok(node)
}

/// The object, where it is a file whose bytes may be changed by the stateid.
#[tactic(auto, unfolding(crate::specs::Parts::writable))]
pub(crate) fn writable(
    store: &Store,
    context: &Context<'_>,
    given: &Stateid,
    node: Node,
) -> Result<Node, Status>
    ensures { result ≡ parts.writable (state_of store.now) context.now given.now (Ok node) }
{
    let node = judge_file(node)?;
    may_use(store, context, WRITING, given, &node)?;
    Ok(node)
}
