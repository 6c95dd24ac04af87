//! The open or lock state that an operation is for.

ghost use Rattle.std.specs.Prelude.{◌≡◌};
ghost use Rattle.nfs_names.specs.State.{state_of};
ghost use Rattle.nfs_files.specs.{Target.the_file, Parts.target};

use crate::access::judge_file;
use crate::stateids::meant;
use nfs_compound::Stateid;
use nfs_names::{Context, Node, Store, current};
use nfs_opens::{CurrentSeqid, StateId};
use nfs_xdr::Status;

/// A state of a file.
#[derive(Clone, Copy, Debug, PartialEq, Eq)]
pub(crate) struct Target {
    /// The number of the current filehandle's object, which is a file.
    pub(crate) file: u64,
    /// The stateid that the argument stands for.
    pub(crate) id: StateId,
}

/// The current filehandle's object: ISDIR where it is a directory, SYMLINK where it is a symbolic link.
#[tactic(auto, unfolding(crate::specs::Target::the_file))]
pub(crate) fn the_file(store: &Store, context: &Context<'_>) -> Result<Node, Status>
    ensures { result ≡ the_file (state_of store.now) context.now }
{
    let node = current(store, context)?;
    judge_file(node)
}

/// The file, and then the stateid, that an operation is for.
#[tactic(auto, unfolding(crate::specs::Parts::target))]
pub(crate) fn target_for(
    store: &Store,
    context: &Context<'_>,
    form: CurrentSeqid,
    given: &Stateid,
) -> Result<Target, Status>
    ensures { result ≡ target (state_of store.now) context.now form given.now }
{
    let d = the_file(store, context)?;
    let id = meant(context, form, given)?;
    Ok(Target { file: d.number, id })
}
