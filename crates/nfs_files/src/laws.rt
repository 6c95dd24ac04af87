//! Laws of the operations on open files, over their definitions. Each is the contract of a function that does nothing.

ghost use Rattle.nfs_files.specs.Laws.{OpensLeaveTrees, ClashesAreRefused, ToldLocksAreHeld, OthersKeepTheirs};
ghost use Rattle.nfs_files.specs.Written.{WritesLeaveBytes, SparedBytesLast, NamesLeaveBytes, ReadsGiveBytes};
ghost use Rattle.nfs_files.specs.OpenLaws.{ToldOpensStand, ForbiddenOpensAreRefused};

/// While a lock stands, no LOCK that clashes with it answers NFS4_OK and a stateid.
pub fn clashes_are_refused()
    ensures { ClashesAreRefused }
{}

/// A LOCK that answers NFS4_OK and the stateid of a lock state leaves each byte that it asked for held by that lock state.
pub fn told_locks_are_held()
    ensures { ToldLocksAreHeld }
{}

/// An OPEN that answers NFS4_OK and a stateid leaves the open that the stateid names: the client's and the owner's, of the file that the claim leads to,
/// with the bits that were asked for, joined to what the owner had of the file.
pub fn told_opens_stand()
    ensures { ToldOpensStand }
{}

/// While an open stands, no OPEN of its file that its bits forbid answers NFS4_OK and a stateid.
pub fn forbidden_opens_are_refused()
    ensures { ForbiddenOpensAreRefused }
{}

/// OPEN leaves a tree that is one.
pub fn opens_leave_trees()
    ensures { OpensLeaveTrees }
{}

/// An operation of one client leaves another its opens, its lock states, their stateids and the bytes that they hold.
pub fn others_keep_theirs()
    ensures { OthersKeepTheirs }
{}

/// A WRITE that answers NFS4_OK leaves its file the bytes that it brought, as many as it answered. An operation that is no WRITE over one of them, sets no
/// size at or below it and opens the file with size 0, each answered NFS4_OK, leaves it; and a READ of it that answers NFS4_OK is given it.
pub fn written_bytes_last()
    ensures writes { WritesLeaveBytes }
    ensures spared { SparedBytesLast }
    ensures names { NamesLeaveBytes }
    ensures reads { ReadsGiveBytes }
{}
