//! What is promised of permission.

ghost use Rattle.nfs_promises.specs.Permission.{Permitted.PermissionsHold, PermittedWorked.{IsAskedOfTheOwner, GrantsAreRefused}, RightsTold.RightsAreTold};
ghost use Rattle.nfs_promises.specs.Permission.{RightsTold.RootIsTold, NoSetUid.NoneRunsAsOwner, NoSetUidWorked.{IsCleared, ModesAreRefused}};

/// Whoever is answered NFS4_OK may do what was asked: a LOOKUP, LOOKUPP, READDIR, CREATE, LINK, REMOVE and OPEN by a name were granted by the mode, owner and group of the
/// directory; an OPEN of a file that is there by the file's; a READ and a WRITE by the file's too under a special stateid, and else by an open of the client that stands.
/// Where they grant all that was wanted, NFS4ERR_ACCESS is not the answer to any of these. A file's bytes are read with r; in the profile `unix` with r or x, since no
/// program runs that is not read.
pub fn permissions_hold()
    ensures { PermissionsHold }
{}

/// The mode, owner and group of an object are those that a CREATE or an OPEN made it with, and that SETATTRs which were answered NFS4_OK set since; and in the profile
/// `unix` what its directory gave, and what changes of its bytes, owner and group have left of set-user-ID and set-group-ID.
pub fn rights_are_told()
    ensures made { RightsAreTold }
    ensures root { RootIsTold }
{}

/// In the profile `unix` nobody makes a program that runs as its owner by writing it: a file whose bytes another user than 0 changed has no set-user-ID bit, until a
/// SETATTR gives it one.
pub fn written_programs_run_as_their_users()
    ensures { NoneRunsAsOwner }
{}

/// The definitions compute: the user is the credential's; a user makes a file and lets its group alone read it; the user's READ is refused; then the owner alone may read
/// it, and the READ is answered. In the profile `unix` it is answered where the owner may execute the file alone, and refused where the owner may write it alone; in `exact`
/// it is refused in both. That run meets the premises of `permissions_hold` and `rights_are_told`.
#[tactic(auto, using(crate::proofs::Permission::PermittedWorked::is_asked_of_the_owner))]
pub fn a_mode_is_asked()
    ensures { IsAskedOfTheOwner }
{}

/// The definitions compute: over that run `permissions_hold` refuses a READ that is granted by the group's digit of the mode, and a READ that is refused though the owner
/// may read; in the profile `unix` a READ of a program that is refused for want of r, and one that is granted with neither r nor x, and in `exact` one that is granted for x;
/// `rights_are_told` refuses a SETATTR that sets nothing, and `nfs_rpc::laws::auth_sys_bodies` a credential of user 4242 that is taken for user 0.
#[tactic(auto, using(crate::proofs::Permission::PermittedWorked::grants_are_refused))]
pub fn wrong_grants_are_refused()
    ensures { GrantsAreRefused }
{}

/// The definitions compute: in `unix` the owner of a file gives it set-user-ID and lets everybody write it; another user writes it; then a GETATTR tells the mode without the bit.
/// That run meets the premises of `written_programs_run_as_their_users`.
#[tactic(auto, using(crate::proofs::Permission::NoSetUidWorked::is_cleared))]
pub fn a_written_program_is_cleared()
    ensures { IsCleared }
{}

/// The definitions compute: over that run `written_programs_run_as_their_users` refuses a WRITE that leaves the mode, one that leaves set-user-ID alone, and a GETATTR before
/// which the bit is there again.
#[tactic(auto, using(crate::proofs::Permission::NoSetUidWorked::modes_are_refused))]
pub fn wrong_modes_are_refused()
    ensures { ModesAreRefused }
{}
