//! Comparing bytes with what the server would have written, item by item and without memory.

ghost use Rattle.std.specs.Prelude.{◌≡◌, ◌<◌, ◌^◌, ◌++◌, ℕ, length};
ghost use Rattle.std.specs.List.{flat_map};
ghost use Rattle.nfs_xdr.specs.Spelling.{number, hyper, opaque};
ghost use Rattle.nfs_xdr.specs.Text.{IsBytes};
ghost use Rattle.nfs_xdr.specs.Codec as codec;
ghost use Rattle.nfs_xdr.specs.Wire.{nfstime4};
ghost use Rattle.nfs_attrs.specs.Following.{Follows};

use nfs_xdr::{Cursor, Time};

/// Whether this number stands at the cursor, which is then behind it.
pub(crate) fn number_follows(value: u32, cursor: &mut Cursor<'_>) -> bool
    ensures { Follows result (number value) cursor.old cursor.new }
{
    let Ok(found) = cursor.u32() else {
        return false;
    };
    found == value
}

/// The same of a hyper.
pub(crate) fn hyper_follows(value: u64, cursor: &mut Cursor<'_>) -> bool
    ensures { Follows result (hyper value) cursor.old cursor.new }
{
    let Ok(found) = cursor.u64() else {
        return false;
    };
    found == value
}

/// The same of a signed hyper.
fn signed_follows(value: i64, cursor: &mut Cursor<'_>) -> bool
    ensures { Follows result (codec.signed.spell value) cursor.old cursor.new }
{
    hyper_follows(value.cast_unsigned(), cursor)
}

/// The same of a time.
pub(crate) fn time_follows(value: Time, cursor: &mut Cursor<'_>) -> bool
    ensures { Follows result (nfstime4 value).bytes cursor.old cursor.new }
{
    let Time {
        seconds,
        nanoseconds,
    } = value;
    signed_follows(seconds, cursor) && number_follows(nanoseconds, cursor)
}

/// The same of an opaque of these bytes.
pub(crate) fn opaque_follows(value: &[u8], cursor: &mut Cursor<'_>) -> bool
    requires small { length value.now < 2 ^ 32 }
    requires bytes { IsBytes value.now }
    ensures { Follows result (opaque value.now) cursor.old cursor.new }
{
    let Ok(found) = cursor.opaque(value.len() as u32) else {
        return false;
    };
    found == value
}

/// The same of numbers one behind the other.
pub(crate) fn numbers_follow(values: &[u32], cursor: &mut Cursor<'_>) -> bool
    ensures { Follows result (flat_map number values.now) cursor.old cursor.new }
{
    for value in values {
        if !number_follows(*value, cursor) {
            return false;
        }
    }
    true
}
