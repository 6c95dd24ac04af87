//! The bytes that LOCK, LOCKT and LOCKU are for (RFC 8881 sections 18.10 to 18.12).

ghost use Rattle.std.specs.Prelude.{◌≡◌, ◌≤◌, IfOk};
ghost use Rattle.nfs_names.specs.State.{state_of};
ghost use Rattle.nfs_files.specs.Ranges.{range, kind_of, wished};

use crate::target::the_file;
use nfs_compound::LockType;
use nfs_names::{Context, Store};
use nfs_opens::{StateId, Wish};
use nfs_ranges::Kind;
use nfs_xdr::Status;

/// Bytes of a file that are to be locked or given up, and the stateid that the argument stands for.
#[derive(Clone, Copy, Debug, PartialEq, Eq)]
pub(crate) struct Wished {
    /// Which bytes, and how.
    pub(crate) wish: Wish,
    /// By which open or lock state.
    pub(crate) id: StateId,
}

/// The last byte of a range, whose length is at least 1; a length of all ones is up to byte 2^64 - 1.
///
/// INVAL where the length is 0, or another range than such a one passes byte 2^64 - 2.
#[tactic(auto, unfolding(crate::specs::Ranges::range))]
fn range(offset: u64, length: u64) -> Result<u64, Status>
    ensures last { result ≡ range offset length }
    ensures order { IfOk result (λ last. offset ≤ last) }
{
    if length == 0 {
        return Err(Status::Inval);
    }
    if length == u64::MAX {
        return Ok(u64::MAX);
    }
    if offset > u64::MAX - length {
        return Err(Status::Inval);
    }
    Ok(offset + length - 1)
}

/// A client that would wait is answered at once.
fn kind_of(how: LockType) -> Kind
    ensures { result ≡ kind_of how }
{
    match how {
        LockType::Read => Kind::Read,
        LockType::Write => Kind::Write,
        LockType::ReadW => Kind::Read,
        LockType::WriteW => Kind::Write,
    }
}

/// The bytes of the current filehandle's file.
#[tactic(auto, unfolding(crate::specs::Ranges::wished))]
pub(crate) fn wish_for(
    store: &Store,
    context: &Context<'_>,
    how: LockType,
    offset: u64,
    length: u64,
) -> Result<Wish, Status>
    ensures wish { result ≡ wished (state_of store.now) context.now how offset length }
    ensures order { IfOk result (λ w. w.first ≤ w.last) }
{
    let d = the_file(store, context)?;
    let last = range(offset, length)?;
    Ok(Wish {
        client: context.client,
        file: d.number,
        kind: kind_of(how),
        first: offset,
        last,
    })
}
