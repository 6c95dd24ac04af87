//! Writing and comparing the attributes of an object (RFC 8881 sections 18.7, 18.15, 18.23 and 18.31).

ghost use Rattle.std.specs.Prelude.{◌≡◌, ◌≤◌, ℕ, length, bytes_eq};
ghost use Rattle.nfs_xdr.specs.SheetState.{HasRoom, Puts};
ghost use Rattle.nfs_attrs.specs.Attributes as table;
ghost use Rattle.nfs_attrs.specs.Comparing as comparing;
ghost use Rattle.nfs_attrs.specs.View as view;

use crate::about::About;
use crate::asked::Asked;
use crate::attribute;
use crate::mask::{Mask, readable, supported};
use crate::value::{values_follow, values_len};
use crate::wanted::AttrFault;
use nfs_tree::Object;
use nfs_xdr::{Cursor, Sheet};

/// How many bytes [`write_attrs`] puts: at most 632.
pub fn attrs_len(object: &Object, about: &About, asked: Mask) -> usize
    ensures exact { result ≡ length (table.spell_attrs asked about.now object.now) }
    ensures within { result ≤ 632 }
{
    let shown = asked.common(&readable(about.profile));
    let mask = shown.len();
    let count = values_len(&asked, object, about);
    mask + 4 + count
}

/// Puts the attributes that are asked for (`fattr4`): the mask of those that the server has and that can be read, and
/// their values in rising order of their numbers, behind the count of their bytes. They are [`attrs_len`] bytes.
///
/// GETATTR and READDIR refuse a mask that [`Mask::asks_set_only`] before they write any.
pub fn write_attrs(object: &Object, about: &About, asked: Mask, sheet: &mut Sheet)
    requires room { HasRoom sheet.old (table.spell_attrs asked about.now object.now) }
    ensures { Puts sheet.old sheet.new (table.spell_attrs asked about.now object.now) }
{
    write_asked(object, about, &mut Asked::new(asked), sheet);
}

/// Puts what [`write_attrs`] puts, where the mask was decoded before. `asked` stays what it is.
#[inline(always)]
pub fn write_asked(object: &Object, about: &About, asked: &mut Asked, sheet: &mut Sheet)
    requires room { HasRoom sheet.old (table.spell_attrs asked.old about.now object.now) }
    ensures put { Puts sheet.old sheet.new (table.spell_attrs asked.old about.now object.now) }
    ensures same { asked.new ≡ asked.old }
{
    asked.put(object, about, sheet);
}

/// Whether the bytes are the values that are asked for, as the server itself writes them.
fn are_values(asked: &Mask, object: &Object, about: &About, bytes: &[u8]) -> bool
    ensures { result ≡ bytes_eq bytes.now (table.values asked.now about.now object.now) }
{
    let mut cursor = Cursor::new(bytes);
    values_follow(asked, object, about, &mut cursor) && cursor.left() == 0
}

/// Whether the attributes of the object are those of a request, as VERIFY and NVERIFY ask: the mask `asked` and the values.
///
/// [`AttrFault::AttrNotSupp`] where the mask has an attribute that the server does not have, else [`AttrFault::Inval`]
/// where it has `rdattr_error` or one that can only be set. Values that are malformed are other values.
pub fn same(object: &Object, about: &About, asked: Mask, values: &[u8]) -> Result<bool, AttrFault>
    ensures { view.with_status result ≡ comparing.same asked values.now about.now object.now }
{
    if !asked.within(&supported(about.profile)) {
        return Err(AttrFault::AttrNotSupp);
    }
    if asked.has(attribute::RDATTR_ERROR) || asked.asks_set_only() {
        return Err(AttrFault::Inval);
    }
    Ok(are_values(&asked, object, about, values))
}
