//! Attributes that a request sets (RFC 8881 sections 5.5, 5.6 and 18.30).

ghost use Rattle.std.specs.Prelude.{◌≡◌, ℕ, is_some};
ghost use Rattle.nfs_xdr.specs.Codec as codec;
ghost use Rattle.nfs_xdr.specs.Readers.{ReadsPartBy};
ghost use Rattle.nfs_xdr.specs.Status.{status_number};
ghost use Rattle.nfs_attrs.specs.SetTime.{set_time};
ghost use Rattle.nfs_attrs.specs.SettingsCodec as setting;
ghost use Rattle.nfs_attrs.specs.Reading as reading;
ghost use Rattle.nfs_attrs.specs.View as view;

use crate::attribute;
use crate::mask::{Mask, SETTABLE, SUPPORTED};
use crate::owner::owner_of;
use crate::set_time::SetTime;
use nfs_xdr::{Cursor, Status, Unreadable};

/// What a request sets, each where it is there.
#[derive(Clone, Copy, Debug, PartialEq, Eq)]
pub struct Wanted {
    /// The length of a file, in bytes.
    pub size: Option<u64>,
    /// The permission bits, at most 4,095.
    pub mode: Option<u32>,
    /// The number of the user that is to own the object.
    pub owner: Option<u32>,
    /// The number of its group.
    pub group: Option<u32>,
    /// When it was last read.
    pub access: Option<SetTime>,
    /// When it last changed.
    pub modify: Option<SetTime>,
    /// Which of them are there.
    pub mask: Mask,
}

/// Why attributes cannot be set or compared.
#[derive(Clone, Copy, Debug, PartialEq, Eq)]
pub enum AttrFault {
    /// The mask has an attribute that the server does not have.
    AttrNotSupp,
    /// An attribute is not one for this operation, or a value is out of range.
    Inval,
    /// The values are not those of the mask.
    BadXdr,
    /// An owner or a group is not the number of one.
    BadOwner,
}

impl AttrFault {
    /// The status that the operation answers.
    pub fn status(self) -> Status
        ensures { result ≡ view.attr_fault_status self }
    {
        match self {
            AttrFault::AttrNotSupp => Status::AttrNotSupp,
            AttrFault::Inval => Status::Inval,
            AttrFault::BadXdr => Status::BadXdr,
            AttrFault::BadOwner => Status::BadOwner,
        }
    }
}

/// The values of a request as they stand in it.
#[derive(Drop)]
struct Settings<'a> {
    size: Option<u64>,
    mode: Option<u32>,
    owner: Option<&'a [u8]>,
    group: Option<&'a [u8]>,
    access: Option<SetTime>,
    modify: Option<SetTime>,
}

fn number_if(there: bool, cursor: &mut Cursor<'_>) -> Result<Option<u32>, Unreadable>
    ensures { ReadsPartBy (λ x. x) result ((setting.where_there there codec.number).read cursor.old) cursor.new }
{
    if there {
        Ok(Some(cursor.u32()?))
    } else {
        Ok(None)
    }
}

fn hyper_if(there: bool, cursor: &mut Cursor<'_>) -> Result<Option<u64>, Unreadable>
    ensures { ReadsPartBy (λ x. x) result ((setting.where_there there codec.hyper).read cursor.old) cursor.new }
{
    if there {
        Ok(Some(cursor.u64()?))
    } else {
        Ok(None)
    }
}

fn text_if<'a>(there: bool, cursor: &mut Cursor<'a>) -> Result<Option<&'a [u8]>, Unreadable>
    ensures { ReadsPartBy view.lent result ((setting.where_there there codec.unbounded).read cursor.old) cursor.new }
{
    if there {
        Ok(Some(cursor.opaque(u32::MAX)?))
    } else {
        Ok(None)
    }
}

fn time_if(there: bool, cursor: &mut Cursor<'_>) -> Result<Option<SetTime>, Unreadable>
    ensures { ReadsPartBy (λ x. x) result ((setting.where_there there set_time).read cursor.old) cursor.new }
{
    if there {
        Ok(Some(SetTime::read(cursor)?))
    } else {
        Ok(None)
    }
}

/// The values that the mask has, in rising order of their attributes.
#[tactic(auto, unfolding(crate::specs::SettingsCodec::settings))]
fn each_setting<'a>(given: &Mask, cursor: &mut Cursor<'a>) -> Result<Settings<'a>, Unreadable>
    ensures { ReadsPartBy view.settings result ((setting.settings given.now).read cursor.old) cursor.new }
{
    let size = hyper_if(given.has(attribute::SIZE), cursor)?;
    let mode = number_if(given.has(attribute::MODE), cursor)?;
    let owner = text_if(given.has(attribute::OWNER), cursor)?;
    let group = text_if(given.has(attribute::OWNER_GROUP), cursor)?;
    let access = time_if(given.has(attribute::TIME_ACCESS_SET), cursor)?;
    let modify = time_if(given.has(attribute::TIME_MODIFY_SET), cursor)?;
    Ok(Settings {
        size,
        mode,
        owner,
        group,
        access,
        modify,
    })
}

/// The values, where the bytes are these and no more.
#[tactic(auto, unfolding(crate::specs::SettingsCodec::settings_of))]
fn settings_of<'a>(given: &Mask, values: &'a [u8]) -> Option<Settings<'a>>
    ensures { view.found result ≡ setting.settings_of given.now values.now }
{
    let mut cursor = Cursor::new(values);
    let Ok(settings) = each_setting(given, &mut cursor) else {
        return None;
    };
    if cursor.left() == 0 {
        Some(settings)
    } else {
        None
    }
}

/// The number that the text names, where there is a text.
fn named(text: Option<&[u8]>) -> Option<u32>
    ensures { result ≡ reading.owner_in (view.lent text.entry) }
{
    owner_of(text?)
}

fn names_nobody(text: Option<&[u8]>) -> bool
    ensures { result ≡ reading.names_nobody (view.lent text.entry) }
{
    match text {
        None => false,
        Some(text) => owner_of(text).is_none(),
    }
}

/// Whether a time has more nanoseconds than a second.
fn overflows(time: Option<SetTime>) -> bool
    ensures { result ≡ reading.overflows time }
{
    match time {
        Some(SetTime::Given(time)) => time.nanoseconds > 999_999_999,
        Some(SetTime::Now) => false,
        None => false,
    }
}

/// Whether a mode has more than its twelve bits.
fn exceeds(mode: Option<u32>) -> bool
    ensures { result ≡ reading.exceeds mode }
{
    match mode {
        None => false,
        Some(mode) => mode > 0o7777,
    }
}

/// What a request sets: the values of the attributes in `given`, one behind the other in rising order of their numbers.
///
/// The faults in their order: [`AttrFault::AttrNotSupp`] where the mask has an attribute that the server does not have,
/// [`AttrFault::Inval`] where it has one that cannot be set, [`AttrFault::BadXdr`] where the values are cut, malformed or
/// followed by other bytes, [`AttrFault::BadOwner`] where an owner or a group is not a decimal number up to
/// 4,294,967,295 without leading zeros, and [`AttrFault::Inval`] again where a time has more than 999,999,999 nanoseconds
/// or the mode is above 4,095.
pub fn read_attrs(given: Mask, values: &[u8]) -> Result<Wanted, AttrFault>
    ensures { view.with_status result ≡ reading.read_attrs given values.now }
{
    if !given.within(&SUPPORTED) {
        return Err(AttrFault::AttrNotSupp);
    }
    if !given.within(&SETTABLE) {
        return Err(AttrFault::Inval);
    }
    let Some(settings) = settings_of(&given, values) else {
        return Err(AttrFault::BadXdr);
    };
    let Settings {
        size,
        mode,
        owner,
        group,
        access,
        modify,
    } = settings;
    if names_nobody(owner) || names_nobody(group) {
        return Err(AttrFault::BadOwner);
    }
    if overflows(access) || overflows(modify) || exceeds(mode) {
        return Err(AttrFault::Inval);
    }
    Ok(Wanted {
        size,
        mode,
        owner: named(owner),
        group: named(group),
        access,
        modify,
        mask: given,
    })
}
