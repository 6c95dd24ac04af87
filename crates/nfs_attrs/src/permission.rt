//! Permission bits (RFC 8881 sections 6.2.4 and 18.1).

ghost use Rattle.std.specs.Prelude.{◌≡◌, ◌==◌, ℕ};
ghost use Rattle.std.specs.List.{list_any};
ghost use Rattle.nfs_xdr.specs.Caller.{caller};
ghost use Rattle.nfs_attrs.specs.Permissions as permission;

use nfs_tree::{FileType, Object, Profile};
use nfs_xdr::Who;

/// What a caller wants to do with an object: any of the three kinds of permission bits.
#[derive(Clone, Copy, Debug, PartialEq, Eq)]
pub struct Want {
    /// To read a file, or to list a directory (4).
    pub read: bool,
    /// To write a file, or to change a directory's entries (2).
    pub write: bool,
    /// To execute a file, or to look a name up in a directory (1).
    pub execute: bool,
}

impl Want {
    /// To read a file or list a directory.
    pub const READ: Want = Want {
        read: true,
        write: false,
        execute: false,
    };
    /// To write a file.
    pub const WRITE: Want = Want {
        read: false,
        write: true,
        execute: false,
    };
    /// To look names up in a directory.
    pub const EXECUTE: Want = Want {
        read: false,
        write: false,
        execute: true,
    };
    /// To change the entries of a directory.
    pub const CHANGE: Want = Want {
        read: false,
        write: true,
        execute: true,
    };
}

/// The two words of ACCESS's answer (RFC 8881 section 18.1).
#[derive(Clone, Copy, Debug, PartialEq, Eq)]
pub struct Access {
    /// The bits that were asked for and can be judged for an object of its type.
    pub supported: u32,
    /// Those of them that the caller has.
    pub granted: u32,
}

/// Whether the group is one of the caller's further groups.
fn in_further_group(group: u32, who: &Who<'_>) -> bool
    ensures { result ≡ list_any (λ g. g == group) (caller who.now).gids }
{
    who.groups
        .iter()
        .map(|word| u32::from_be_bytes(*word))
        .any(|gid| gid == group)
}

/// Whether the caller is in the group.
pub fn in_group(group: u32, who: &Who<'_>) -> bool
    ensures { result ≡ permission.in_group group (caller who.now) }
{
    who.gid == group || in_further_group(group, who)
}

/// The three bits of the class that the caller belongs to.
fn class_bits(object: &Object, who: &Who<'_>) -> u32
    ensures { result ≡ permission.class_bits object.now (caller who.now) }
{
    if who.uid == 0 {
        7
    } else if who.uid == object.owner {
        object.mode / 64 % 8
    } else if in_group(object.group, who) {
        object.mode / 8 % 8
    } else {
        object.mode % 8
    }
}

/// Whether the permission bits let the caller do all that is wanted.
///
/// The user 0 may do everything. For others only the bits of one class count: the owner's, else the group's where the
/// caller is in the group, else the others'.
pub fn may(object: &Object, who: &Who<'_>, want: Want) -> bool
    ensures { result ≡ permission.may object.now (caller who.now) want }
{
    let bits = class_bits(object, who);
    (!want.read || (bits >> 2) % 2 == 1)
        && (!want.write || (bits >> 1) % 2 == 1)
        && (!want.execute || bits % 2 == 1)
}

/// The same with x in place of r.
fn by_executing(want: Want) -> Want
    ensures { result ≡ permission.by_executing want }
{
    Want {
        read: false,
        execute: true,
        ..want
    }
}

/// Whether the permission bits let the caller use the bytes of a regular file as it is wanted. In [`Profile::Unix`] whoever may execute
/// a file may read it too: no program runs that is not read.
pub fn may_use_bytes(profile: Profile, object: &Object, who: &Who<'_>, want: Want) -> bool
    ensures { result ≡ permission.may_use_bytes profile object.now (caller who.now) want }
{
    may(object, who, want) || (profile.is_unix() && may(object, who, by_executing(want)))
}

fn bits_if(granted: bool, bits: u32) -> u32
    ensures { result ≡ permission.bits_if granted bits }
{
    if granted { bits } else { 0 }
}

/// What ACCESS answers where the bits `asked` are asked (RFC 8881 section 18.1.3).
pub fn judge_access(object: &Object, who: &Who<'_>, asked: u32) -> Access
    ensures { result ≡ permission.judge_access object.now (caller who.now) asked }
{
    let read = bits_if(may(object, who, Want::READ), 0x01);
    let execute = may(object, who, Want::EXECUTE);
    match object.kind {
        FileType::Directory => {
            let change = bits_if(may(object, who, Want::CHANGE), 0x1c);
            Access {
                supported: asked & 0x1f,
                granted: asked & (read + bits_if(execute, 0x02) + change),
            }
        }
        FileType::Regular | FileType::Link => {
            let write = bits_if(may(object, who, Want::WRITE), 0x0c);
            Access {
                supported: asked & 0x2d,
                granted: asked & (read + write + bits_if(execute, 0x20)),
            }
        }
    }
}
