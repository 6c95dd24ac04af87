//! What is promised of locks and of opens.

ghost use Rattle.nfs_promises.specs.Locks.{LockKeptWorked.{IsHeldTo, AreBothTold}, OpenKeptWorked.IsOpenTo, LockKept.{LockKept, EachIsTold, OnlyOneIsTold}};
ghost use Rattle.nfs_promises.specs.Locks.{OneWriterByHandle.OnlyOneByHandle, OneWriterByHandleWorked.IsOneWriter, LockMade.EachLockWasMade};
ghost use Rattle.nfs_promises.specs.Locks.{LockMadeWorked.MadeUnderItsOwn, LockOwners.{StatesHaveOneOwner, OnlyOneOwnerIsTold}, LockOwnersWorked.OneOwnerEach};
ghost use Rattle.nfs_promises.specs.Locks.{LockOwned.EachIsOwned, LockOwnedWorked.OwnersApart, NoIsTrue.NoIsTrue, SharesDenied.ShareDenialsAreTrue};
ghost use Rattle.nfs_promises.specs.Locks.{SharesDenied.LockedIsTrue, SharesDeniedWorked.{AreRefusedTruly, SharesRefused}, OpenKept.{OpenKept, EachOpenIsTold}};
ghost use Rattle.nfs_promises.specs.Locks.{Others.{OthersLeaveAll, StrangersChangeNothing}, OthersWorked.ComeInTime, NoneOutlives.NoneOutlives};
ghost use Rattle.nfs_promises.specs.Locks.{NoIsTrueWorked.{IsDeniedTruly, DenialsRefused}, WrongLocks.AreRefused, WrongOpens.OpensAreRefused};
ghost use Rattle.nfs_promises.specs.Runs.Points.{NoClash};

/// In every run no byte has a writer beside another holder and no two opens clash: behind each record, and before each operation of one.
pub fn no_clash()
    ensures { NoClash }
{}

/// In every run the lock that a LOCK told, by NFS4_OK and a stateid, is held from then on, while its client renews in time and nothing ends it; and no LOCK
/// that clashes with it is answered NFS4_OK.
pub fn lock_kept()
    ensures { LockKept }
{}

/// Whatever LOCK is answered NFS4_OK and a stateid, it told a lock of which `lock_kept` speaks: all the bytes that it asked for.
pub fn each_lock_is_told()
    ensures { EachIsTold }
{}

/// A LOCK of a new lock owner that is answered NFS4_OK names a lock state of that owner's string and of the client.
pub fn each_lock_is_its_owners()
    ensures { EachIsOwned }
{}

/// The definitions compute: the LOCK of that run names a lock state of its owner, and `each_lock_is_its_owners` refuses a server that gives it to another owner of the
/// client.
#[tactic(auto, using(crate::proofs::Locks::LockOwnedWorked::owners_apart))]
pub fn lock_owners_are_apart()
    ensures { OwnersApart }
{}

/// Of two LOCKs that clash on a byte, each answered NFS4_OK and a stateid of its own, the second comes behind an end of the first.
pub fn only_one_writer_is_told()
    ensures { OnlyOneIsTold }
{}

/// Of two LOCKs under one filehandle that clash on a byte, each answered NFS4_OK and a stateid of its own, the second comes behind an end of the first.
pub fn only_one_writer_by_handle()
    ensures { OnlyOneByHandle }
{}

/// The definitions compute: two clients open a file, get its filehandle and ask for its first byte; the second one is denied. That run meets the premises of
/// `only_one_writer_by_handle`, and would meet them all if the second LOCK were granted.
#[tactic(auto, using(crate::proofs::Locks::OneWriterByHandleWorked::is_one_writer))]
pub fn a_handle_has_one_writer()
    ensures { IsOneWriter }
{}

/// A lock state is of one lock owner: two LOCKs of new lock owners that are told it give the same string, in sessions of the same client. So of two LOCKs of different
/// owners that clash on a byte, each answered NFS4_OK and whatever stateid, the second comes behind an end of the first.
pub fn lock_states_have_one_owner()
    ensures states { StatesHaveOneOwner }
    ensures owners { OnlyOneOwnerIsTold }
{}

/// The definitions compute: a client that locked a byte for one owner asks for it for another, and is denied; `lock_states_have_one_owner` refuses a server that gives
/// both owners one lock state.
#[tactic(auto, using(crate::proofs::Locks::LockOwnersWorked::one_owner_each))]
pub fn owners_share_no_lock()
    ensures { OneOwnerEach }
{}

/// A no is true: in every run a LOCK or a LOCKT that is answered NFS4ERR_DENIED reports a lock of another owner that clashes with it. Each byte of it was granted by a
/// LOCK that was answered NFS4_OK, to that owner of that client, and nothing has ended that since.
#[tactic(auto, using(crate::proofs::Locks::NoIsTrue::no_is_true))]
pub fn denials_are_true()
    ensures { NoIsTrue }
{}

/// The definitions compute: a client asks for a byte that another one locked, and is denied. That run meets the premises of `denials_are_true`.
#[tactic(auto, using(crate::proofs::Locks::NoIsTrueWorked::is_denied_truly))]
pub fn a_denial_is_true()
    ensures { IsDeniedTruly }
{}

/// The definitions compute: `denials_are_true` refuses a LOCK that is denied where nobody locked, one that is denied for a lock whose client's lease has run out, one that
/// reports another client, and one that is denied for the owner's own lock.
#[tactic(auto, using(crate::proofs::Locks::NoIsTrueWorked::denials_refused))]
pub fn wrong_denials_are_refused()
    ensures { DenialsRefused }
{}

/// A no is true where an open is the reason: in every run an OPEN that is answered NFS4ERR_SHARE_DENIED is forbidden by an open of another owner of its file, and a READ, WRITE
/// or SETATTR that is answered NFS4ERR_LOCKED has a special stateid and is denied by an open of its file. That open was granted by an OPEN that was answered NFS4_OK, with these
/// bits by what was answered since, and nothing has ended it.
#[tactic(auto, using(crate::proofs::Locks::SharesDenied::share_denials_are_true, crate::proofs::Locks::SharesDenied::locked_is_true))]
pub fn shares_deny_truly()
    ensures opening { ShareDenialsAreTrue }
    ensures bytes { LockedIsTrue }
{}

/// The definitions compute: a client opens a file and denies others to write; another client's OPEN for writing is refused, and so is a WRITE under the anonymous stateid. Those
/// runs meet the premises of `shares_deny_truly`.
#[tactic(auto, using(crate::proofs::Locks::SharesDeniedWorked::are_refused_truly))]
pub fn shares_deny_an_open()
    ensures { AreRefusedTruly }
{}

/// The definitions compute: `shares_deny_truly` refuses an OPEN and a WRITE that are refused where nobody opened a file, or for an open whose client's lease has run out; an
/// OPEN that is refused for its own owner's open; and a WRITE by the stateid of an open that is answered NFS4ERR_LOCKED.
#[tactic(auto, using(crate::proofs::Locks::SharesDeniedWorked::shares_refused))]
pub fn wrong_shares_are_refused()
    ensures { SharesRefused }
{}

/// A lock stands under the open that a LOCK named by its own argument: of each LOCK that is told a lock, the one that made its lock state, which is this one or one before it.
pub fn each_lock_was_made()
    ensures { EachLockWasMade }
{}

/// The definitions compute: a client opens a file and locks it under the current stateid; `each_lock_was_made` refuses a server that puts the lock state under another open.
#[tactic(auto, using(crate::proofs::Locks::LockMadeWorked::made_under_its_own))]
pub fn a_lock_is_under_its_open()
    ensures { MadeUnderItsOwn }
{}

/// In every run a byte is held only by a lock state of a client that renewed its lease, by the records, at most a lease before.
#[tactic(auto, using(crate::proofs::Locks::NoneOutlives::none_outlives))]
pub fn no_lock_outlives_its_client()
    ensures { NoneOutlives }
{}

/// The definitions compute: a client locks a byte and renews its lease at the last second, twice; another client's LOCK is denied a lease behind
/// that, and the byte is free once it is unlocked. That run meets the premises of `lock_kept`.
#[tactic(auto, using(crate::proofs::Locks::LockKeptWorked::is_held_to))]
pub fn lock_kept_by_renewals()
    ensures { IsHeldTo }
{}

/// The definitions compute: that run meets the premises of `no_lock_outlives_its_client`; and where the other client asks for the byte beside it, those
/// of `only_one_writer_is_told` but for the clash.
#[tactic(auto, using(crate::proofs::Locks::LockKeptWorked::are_both_told))]
pub fn locks_beside_are_told()
    ensures { AreBothTold }
{}

/// The definitions compute: over that run `lock_kept` refuses a denied LOCK that answers NFS4_OK, a CLOSE of another open that drops the lock, leases shorter
/// than the client was told and a lease that is set back; and `no_lock_outlives_its_client` refuses a lease that never runs out.
#[tactic(auto, using(crate::proofs::Locks::WrongLocks::are_refused))]
pub fn wrong_locks_are_refused()
    ensures { AreRefused }
{}

/// Nobody else touches what is a client's: behind a record that ran in a session of it, while its lease lasts and no CREATE_SESSION puts another
/// id in its place, records of others leave its opens, its lock states, their stateids and the bytes that they hold as they were.
pub fn others_leave_all()
    ensures { OthersLeaveAll }
{}

/// What does not name a client, by a session, an id or its owner, leaves it all while its lease lasts: its record, its sessions with the replies that they
/// keep, its lease, its opens, its lock states and the bytes that they hold.
pub fn strangers_change_nothing()
    ensures { StrangersChangeNothing }
{}

/// The definitions compute: behind a client's LOCK another client comes, opens the same file and asks for the byte. That run meets the premises of
/// `others_leave_all` and `strangers_change_nothing`, which refuse one that drops the lock state or closes the open meanwhile.
#[tactic(auto, using(crate::proofs::Locks::OthersWorked::come_in_time))]
pub fn others_come_in_time()
    ensures { ComeInTime }
{}

/// In every run the open that an OPEN told, by NFS4_OK and a stateid, stands from then on, while its client renews in time and no CLOSE of it is answered NFS4_OK.
/// Its bits are those that its OPENs asked for, joined, or those of the last OPEN_DOWNGRADE; and no OPEN that they forbid is answered NFS4_OK.
pub fn open_kept()
    ensures { OpenKept }
{}

/// Whatever OPEN is answered NFS4_OK and a stateid, it told an open of which `open_kept` speaks: of the file that its claim leads to, with all that it asked for.
pub fn each_open_is_told()
    ensures { EachOpenIsTold }
{}

/// The definitions compute: a client opens a file and denies others to write; another client's OPEN for writing is denied while the first renews its lease, and
/// also behind a second OPEN of the first owner; it is granted behind an OPEN_DOWNGRADE. That run meets the premises of `open_kept`.
#[tactic(auto, using(crate::proofs::Locks::OpenKeptWorked::is_open_to))]
pub fn open_kept_to_a_downgrade()
    ensures { IsOpenTo }
{}

/// The definitions compute: over that run `open_kept` refuses a second OPEN that puts its bits in the place of the first one's, an OPEN_DOWNGRADE that changes
/// nothing, a CLOSE of another open that closes this one and an OPEN that is forbidden and answers NFS4_OK.
#[tactic(auto, using(crate::proofs::Locks::WrongOpens::opens_are_refused))]
pub fn wrong_opens_are_refused()
    ensures { OpensAreRefused }
{}
