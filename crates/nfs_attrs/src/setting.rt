//! Who may set which attributes (RFC 8881 sections 6.2.4, 18.4.3 and 18.30.3).

ghost use Rattle.std.specs.Prelude.{◌≡◌, ℕ};
ghost use Rattle.nfs_xdr.specs.Caller.{caller};
ghost use Rattle.nfs_attrs.specs.Setting as setting;

use crate::permission::{Want, in_group, may};
use crate::set_time::SetTime;
use crate::wanted::Wanted;
use nfs_tree::{Object, Profile};
use nfs_xdr::{Status, Who};

/// Whether the caller is the owner or the user 0.
fn owns(owner: u32, who: &Who<'_>) -> bool
    ensures { result ≡ setting.owns owner (caller who.now) }
{
    who.uid == 0 || who.uid == owner
}

/// Whether it wants another owner, and the caller may not give the object to anybody.
fn takes_owner(wanted: Option<u32>, owner: u32, who: &Who<'_>) -> bool
    ensures { result ≡ setting.takes_owner wanted owner (caller who.now) }
{
    match wanted {
        None => false,
        Some(new) => new != owner && who.uid != 0,
    }
}

/// Whether it wants another group, and the caller may not give the object to that group.
fn takes_group(wanted: Option<u32>, owner: u32, group: u32, who: &Who<'_>) -> bool
    ensures { result ≡ setting.takes_group wanted owner group (caller who.now) }
{
    match wanted {
        None => false,
        Some(new) => new != group && !(who.uid == 0 || (who.uid == owner && in_group(new, who))),
    }
}

/// Whether it sets an owner or a group, as they are or not, which in `unix` is for the owner alone: it clears set-user-ID and set-group-ID.
fn gives_away(profile: Profile, wanted: &Wanted) -> bool
    ensures { result ≡ setting.gives_away profile wanted.now }
{
    profile.is_unix() && (wanted.owner.is_some() || wanted.group.is_some())
}

fn is_given(time: Option<SetTime>) -> bool
    ensures { result ≡ setting.is_given time }
{
    match time {
        Some(SetTime::Given(_)) => true,
        Some(SetTime::Now) => false,
        None => false,
    }
}

fn is_now(time: Option<SetTime>) -> bool
    ensures { result ≡ setting.is_now time }
{
    match time {
        Some(SetTime::Now) => true,
        Some(SetTime::Given(_)) => false,
        None => false,
    }
}

/// Whether the caller may set these attributes of an object, as SETATTR asks. The user 0 may set them all.
///
/// [`Status::Perm`] where it takes another owner, or another group of which the caller is not the owning member, or where
/// somebody else than the owner sets the mode, gives a time or, in the profile `unix`, sets the owner or the group as they
/// are; else [`Status::Access`] where the server's own time is set by one who is not the owner and may not write.
pub fn may_set(
    profile: Profile,
    object: &Object,
    wanted: &Wanted,
    who: &Who<'_>,
) -> Result<(), Status>
    ensures { result ≡ setting.may_set profile object.now wanted.now (caller who.now) }
{
    let owns = owns(object.owner, who);
    if gives_away(profile, wanted) && !owns {
        return Err(Status::Perm);
    }
    if takes_owner(wanted.owner, object.owner, who) {
        return Err(Status::Perm);
    }
    if takes_group(wanted.group, object.owner, object.group, who) {
        return Err(Status::Perm);
    }
    if wanted.mode.is_some() && !owns {
        return Err(Status::Perm);
    }
    if (is_given(wanted.access) || is_given(wanted.modify)) && !owns {
        return Err(Status::Perm);
    }
    if (is_now(wanted.access) || is_now(wanted.modify))
        && !(owns || may(object, who, Want::WRITE))
    {
        return Err(Status::Access);
    }
    Ok(())
}

/// Whether the caller may make an object with these attributes, as CREATE and OPEN ask: it is his own and of his first
/// group until then.
///
/// [`Status::Perm`] where it takes another owner, or another group that the caller is not in.
pub fn may_make(wanted: &Wanted, who: &Who<'_>) -> Result<(), Status>
    ensures { result ≡ setting.may_make wanted.now (caller who.now) }
{
    if takes_owner(wanted.owner, who.uid, who) {
        return Err(Status::Perm);
    }
    if takes_group(wanted.group, who.uid, who.gid, who) {
        return Err(Status::Perm);
    }
    Ok(())
}
