//! The bits set-user-ID and set-group-ID of a mode, and what a directory with set-group-ID gives to what is made in it (POSIX).

ghost use Rattle.std.specs.Prelude.{◌≡◌};
ghost use Rattle.nfs_xdr.specs.Caller.{caller};
ghost use Rattle.nfs_tree.specs.Object.{is_regular};
ghost use Rattle.nfs_attrs.specs.SetId as set_id;

use crate::permission::in_group;
use crate::wanted::Wanted;
use nfs_tree::{Object, Profile};
use nfs_xdr::Who;

/// The mode without set-user-ID, and without set-group-ID where the group may execute.
fn cleared(mode: u32) -> u32
    ensures { result ≡ set_id.cleared mode }
{
    if (mode >> 3) % 2 == 1 {
        mode & 0xffff_f3ff
    } else {
        mode & 0xffff_f7ff
    }
}

/// What a change of a file's bytes by a caller sets of its mode beside them, if anything: in [`Profile::Unix`] another user than 0
/// clears set-user-ID, and set-group-ID where the group may execute.
pub fn mode_behind(profile: Profile, object: &Object, who: &Who<'_>) -> Option<u32>
    ensures { result ≡ set_id.mode_behind profile object.now.mode (caller who.now) }
{
    if profile.is_unix() && who.uid != 0 {
        Some(cleared(object.mode))
    } else {
        None
    }
}

/// The mode that a caller can give to an object of a group: with set-group-ID only to one of the caller's own.
fn mode_given(group: u32, who: &Who<'_>, mode: u32) -> u32
    ensures { result ≡ set_id.mode_given group (caller who.now) mode }
{
    if who.uid == 0 || in_group(group, who) {
        mode
    } else {
        mode & 0xffff_fbff
    }
}

/// Whether what is set clears the bits of a file.
fn clears(wanted: &Wanted, who: &Who<'_>) -> bool
    ensures { result ≡ set_id.clears wanted.now (caller who.now) }
{
    wanted.owner.is_some() || wanted.group.is_some() || (wanted.size.is_some() && who.uid != 0)
}

fn mode_if(clear: bool, given: Option<u32>, mode: u32) -> Option<u32>
    ensures { result ≡ set_id.mode_if clear given mode }
{
    if clear {
        Some(cleared(given.unwrap_or(mode)))
    } else {
        given
    }
}

/// What a SETATTR of what is wanted sets of an object, where the caller may. In [`Profile::Unix`] a file loses set-user-ID, and
/// set-group-ID where its group may execute, with a size that another user than 0 sets, and with an owner or a group; and
/// set-group-ID is set only by user 0 and by who is in the group.
pub fn settled(profile: Profile, object: &Object, who: &Who<'_>, wanted: Wanted) -> Wanted
    ensures { result ≡ set_id.settled profile (is_regular object.now.kind) object.now.mode object.now.group (caller who.now) wanted }
{
    if !profile.is_unix() {
        return wanted;
    }
    let group = wanted.group.unwrap_or(object.group);
    let given = match wanted.mode {
        Some(mode) => Some(mode_given(group, who, mode)),
        None => None,
    };
    let clear = object.kind.is_regular() && clears(&wanted, who);
    Wanted {
        mode: mode_if(clear, given, object.mode),
        ..wanted
    }
}

fn made_mode(directory: bool, group: u32, who: &Who<'_>, mode: u32) -> u32
    ensures { result ≡ set_id.made_mode directory group (caller who.now) mode }
{
    if directory {
        mode | 0x400
    } else {
        mode_given(group, who, mode)
    }
}

/// What a new object has of what is wanted in a directory, with the mode `plain` where none is given. In [`Profile::Unix`] what is
/// made in a directory with set-group-ID has the directory's group, and a directory set-group-ID too.
pub fn made_in(
    profile: Profile,
    place: &Object,
    who: &Who<'_>,
    directory: bool,
    plain: u32,
    wanted: Wanted,
) -> Wanted
    ensures { result ≡ set_id.made_in profile place.now.mode place.now.group (caller who.now) directory plain wanted }
{
    if !profile.is_unix() || (place.mode >> 10) % 2 == 0 {
        return wanted;
    }
    let group = wanted.group.unwrap_or(place.group);
    let mode = wanted.mode.unwrap_or(plain);
    Wanted {
        mode: Some(made_mode(directory, group, who, mode)),
        group: Some(group),
        ..wanted
    }
}
