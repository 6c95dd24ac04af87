//! The owner and the group of an object as text: the decimal number of a user or a group (RFC 8881 section 5.9).

ghost use Rattle.std.specs.Prelude.{◌≡◌, ℕ};
ghost use Rattle.nfs_attrs.specs.Owner.{owner_of};

use itoa::Buffer;

/// The number that stands in `text` in decimal, without leading zeros or a sign; none where no number up to
/// 4,294,967,295 does.
pub(crate) fn owner_of(text: &[u8]) -> Option<u32>
    ensures { result ≡ owner_of text.now }
{
    let Ok(digits) = str::from_utf8(text) else {
        return None;
    };
    let Ok(number) = digits.parse::<u32>() else {
        return None;
    };
    if Buffer::new().format(number).as_bytes() == text {
        Some(number)
    } else {
        None
    }
}
