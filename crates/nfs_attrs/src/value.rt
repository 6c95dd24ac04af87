//! The value of each attribute that can be read (RFC 8881 section 5).

ghost use Rattle.std.specs.Prelude.{◌≡◌, ◌≤◌, ◌%◌, ◌++◌, ℕ, List, [], length, if◌then◌else◌};
ghost use Rattle.nfs_tree.specs.Profile.{is_unix};
ghost use Rattle.nfs_xdr.specs.SheetState.{HasRoom, Puts};
ghost use Rattle.nfs_attrs.specs.Asked.{values_of};
ghost use Rattle.nfs_attrs.specs.Following.{Follows};
ghost use Rattle.nfs_attrs.specs.Value.{spell_value, spell_found, asked_at};
ghost use Rattle.nfs_attrs.specs.Mask.{numbers_of};
ghost use Rattle.nfs_attrs.specs.Attributes as table;

use crate::about::About;
use crate::attribute;
use crate::following::{hyper_follows, number_follows, opaque_follows, time_follows};
use crate::handle::Handle;
use crate::mask::{ALL_SUPPORTED, Mask, SETTABLE, supported};
use crate::spelled::Spelled;
use itoa::Buffer;
use nfs_tree::{FileType, Object, Tree};
use nfs_xdr::{Cursor, MAX_TRANSFER, Time};

/// The value of an attribute, by the kind of its spelling.
#[derive(Clone, Copy, Debug, PartialEq, Eq)]
pub(crate) enum Value {
    Number(u32),
    Hyper(u64),
    Flag(bool),
    FsId(u64, u64),
    Handle(Handle),
    /// A user or a group, as text.
    Owner(u32),
    Mask(Mask),
    Time(Time),
}

impl Value {
    /// Puts the value, which is whole words.
    #[tactic(auto, using(nfs_xdr::proofs::Putting::putting, crate::proofs::Lengths::measuring), unfolding(nfs_xdr::specs::Time::time))]
    pub(crate) fn put(self, out: &mut Spelled)
        requires room { HasRoom out.old (spell_value self) }
        ensures put { Puts out.old out.new (spell_value self) }
        ensures words { length (spell_value self) % 4 ≡ 0 }
    {
        match self {
            Value::Number(n) => out.put_u32(n),
            Value::Hyper(n) => out.put_u64(n),
            Value::Flag(b) => out.put_flag(b),
            Value::FsId(major, minor) => {
                out.put_u64(major);
                out.put_u64(minor);
            }
            Value::Handle(handle) => out.put_opaque(&handle.bytes()),
            Value::Owner(number) => out.put_opaque(Buffer::new().format(number).as_bytes()),
            Value::Mask(mask) => mask.put(out),
            Value::Time(time) => out.put_time(time),
        }
    }

    /// Whether the value stands at the cursor, which is then behind it.
    pub(crate) fn follows(self, cursor: &mut Cursor<'_>) -> bool
        ensures { Follows result (spell_value self) cursor.old cursor.new }
    {
        match self {
            Value::Number(n) => number_follows(n, cursor),
            Value::Hyper(n) => hyper_follows(n, cursor),
            Value::Flag(b) => number_follows(if b { 1 } else { 0 }, cursor),
            Value::FsId(major, minor) => hyper_follows(major, cursor)
                && hyper_follows(minor, cursor),
            Value::Handle(handle) => opaque_follows(&handle.bytes(), cursor),
            Value::Owner(number) => opaque_follows(Buffer::new().format(number).as_bytes(), cursor),
            Value::Mask(mask) => mask.follows(cursor),
            Value::Time(time) => time_follows(time, cursor),
        }
    }

    /// How many bytes the value has.
    #[tactic(auto, using(crate::proofs::Lengths::measuring))]
    pub(crate) fn len(self) -> usize
        ensures exact { result ≡ length (spell_value self) }
        ensures small { result ≤ 20 }
        ensures words { result % 4 ≡ 0 }
    {
        match self {
            Value::Number(_) => 4,
            Value::Flag(_) => 4,
            Value::Hyper(_) => 8,
            Value::FsId(_, _) => 16,
            Value::Handle(_) => 20,
            Value::Owner(number) => {
                let length = Buffer::new().format(number).len();
                4 + length + (4 - length % 4) % 4
            }
            Value::Mask(mask) => mask.len(),
            Value::Time(_) => 12,
        }
    }
}

/// How many bytes the value of the attribute of this number has, where it can be read.
fn value_len(number: u32, object: &Object, about: &About) -> usize
    ensures exact { result ≡ length (table.value_at table.attributes number about.now object.now) }
    ensures small { result ≤ 20 }
    ensures words { result % 4 ≡ 0 }
{
    match value_of(number, object, about) {
        Some(value) => value.len(),
        None => 0,
    }
}

/// Puts the value of the attribute of this number, where it can be read.
fn put_value(number: u32, object: &Object, about: &About, out: &mut Spelled)
    requires room { HasRoom out.old (table.value_at table.attributes number about.now object.now) }
    ensures put { Puts out.old out.new (table.value_at table.attributes number about.now object.now) }
    ensures words { length (table.value_at table.attributes number about.now object.now) % 4 ≡ 0 }
{
    if let Some(value) = value_of(number, object, about) {
        value.put(out);
    }
}

/// Whether the attribute of this number stands at the cursor where it is asked for and can be read. The cursor is then
/// behind it.
fn asked_follows(
    number: u32,
    asked: &Mask,
    object: &Object,
    about: &About,
    cursor: &mut Cursor<'_>,
) -> bool
    ensures { Follows result (asked_at asked.now about.now object.now number) cursor.old cursor.new }
{
    if !asked.has(number) {
        return true;
    }
    match value_of(number, object, about) {
        Some(value) => value.follows(cursor),
        None => true,
    }
}

/// How many bytes the values have that are asked for.
pub(crate) fn values_len(asked: &Mask, object: &Object, about: &About) -> usize
    ensures exact { result ≡ length (table.values asked.now about.now object.now) }
    ensures small { result ≤ 620 }
    ensures words { result % 4 ≡ 0 }
{
    let mut left = asked.common(&ALL_SUPPORTED);
    let mut length = 0;
    while let Some(number) = left.take_least() {
        length += value_len(number, object, about);
    }
    length
}

/// Puts the values of these attributes, one behind the other. It looks at no attribute that is not asked for.
fn put_each(asked: Mask, object: &Object, about: &About, out: &mut Spelled)
    requires room { HasRoom out.old (values_of (numbers_of asked) about.now object.now) }
    ensures put { Puts out.old out.new (values_of (numbers_of asked) about.now object.now) }
    ensures words { length (values_of (numbers_of asked) about.now object.now) % 4 ≡ 0 }
{
    let mut left = asked;
    while let Some(number) = left.take_least() {
        put_value(number, object, about, out);
    }
}

/// Puts the values that are asked for, one behind the other.
pub(crate) fn put_values(asked: &Mask, object: &Object, about: &About, out: &mut Spelled)
    requires room { HasRoom out.old (table.values asked.now about.now object.now) }
    ensures put { Puts out.old out.new (table.values asked.now about.now object.now) }
    ensures words { length (table.values asked.now about.now object.now) % 4 ≡ 0 }
{
    put_each(asked.common(&ALL_SUPPORTED), object, about, out);
}

/// Whether the values that are asked for stand at the cursor, which is then behind them.
pub(crate) fn values_follow(
    asked: &Mask,
    object: &Object,
    about: &About,
    cursor: &mut Cursor<'_>,
) -> bool
    ensures { Follows result (table.values asked.now about.now object.now) cursor.old cursor.new }
{
    for number in attribute::ALL {
        if !asked_follows(number, asked, object, about, cursor) {
            return false;
        }
    }
    true
}

/// The number of a type (`nfs_ftype4`).
fn type_number(kind: FileType) -> u32
    ensures { result ≡ table.type_number kind }
{
    match kind {
        FileType::Regular => 1,
        FileType::Directory => 2,
        FileType::Link => 5,
    }
}

/// How far apart two times of the server are at least in the profile `unix`: their nanoseconds count changes.
const DELTA: Time = Time {
    seconds: 0,
    nanoseconds: 1,
};

/// A value of the profile `unix`; none in the other.
fn in_unix(value: Value, about: &About) -> Option<Value>
    ensures { spell_found result ≡ if is_unix about.now.profile then spell_value value else [] }
{
    if about.profile.is_unix() {
        Some(value)
    } else {
        None
    }
}

/// The value of the attribute of this number; none where it cannot be read.
#[tactic(auto, unfolding(crate::specs::Attributes::attributes))]
#[inline(always)]
pub(crate) fn value_of(number: u32, object: &Object, about: &About) -> Option<Value>
    ensures { spell_found result ≡ table.value_at table.attributes number about.now object.now }
{
    let handle = Handle {
        instance: about.instance,
        number: about.number,
    };
    Some(match number {
        attribute::SUPPORTED_ATTRS => Value::Mask(supported(about.profile)),
        attribute::TYPE => Value::Number(type_number(object.kind)),
        attribute::FH_EXPIRE_TYPE => Value::Number(0),
        attribute::CHANGE => Value::Hyper(object.change),
        attribute::SIZE => Value::Hyper(about.size),
        attribute::LINK_SUPPORT => Value::Flag(true),
        attribute::SYMLINK_SUPPORT => Value::Flag(true),
        attribute::NAMED_ATTR => Value::Flag(false),
        attribute::FSID => Value::FsId(0, 1),
        attribute::UNIQUE_HANDLES => Value::Flag(true),
        attribute::LEASE_TIME => Value::Number(about.lease),
        attribute::RDATTR_ERROR => Value::Number(0),
        attribute::FILEHANDLE => Value::Handle(handle),
        attribute::FILEID => Value::Hyper(about.number),
        attribute::FILES_AVAIL => return in_unix(Value::Hyper(about.files_free), about),
        attribute::FILES_FREE => return in_unix(Value::Hyper(about.files_free), about),
        attribute::FILES_TOTAL => return in_unix(Value::Hyper(about.files_total), about),
        attribute::MAXFILESIZE => Value::Hyper(about.most_bytes),
        attribute::MAXLINK => Value::Number(Tree::MAX_LINKS),
        attribute::MAXNAME => Value::Number(Tree::MAX_NAME as u32),
        attribute::MAXREAD => Value::Hyper(u64::from(MAX_TRANSFER)),
        attribute::MAXWRITE => Value::Hyper(u64::from(MAX_TRANSFER)),
        attribute::MODE => Value::Number(object.mode),
        attribute::NUMLINKS => Value::Number(about.links),
        attribute::OWNER => Value::Owner(object.owner),
        attribute::OWNER_GROUP => Value::Owner(object.group),
        attribute::SPACE_AVAIL => return in_unix(Value::Hyper(about.space_free), about),
        attribute::SPACE_FREE => return in_unix(Value::Hyper(about.space_free), about),
        attribute::SPACE_TOTAL => return in_unix(Value::Hyper(about.space_total), about),
        attribute::SPACE_USED => Value::Hyper(about.used),
        attribute::TIME_ACCESS => Value::Time(object.access),
        attribute::TIME_DELTA => return in_unix(Value::Time(DELTA), about),
        attribute::TIME_METADATA => Value::Time(object.metadata),
        attribute::TIME_MODIFY => Value::Time(object.modify),
        attribute::MOUNTED_ON_FILEID => Value::Hyper(about.number),
        attribute::SUPPATTR_EXCLCREAT => Value::Mask(SETTABLE),
        _ => return None,
    })
}
