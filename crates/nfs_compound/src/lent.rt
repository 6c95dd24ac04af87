//! Bytes that a record lends.

ghost use Rattle.std.specs.Prelude.{◌≡◌};
ghost use Rattle.nfs_xdr.specs.Readers.{ReadsPartBy};
ghost use Rattle.nfs_xdr.specs.Reading.{opaque_at};

use nfs_xdr::{Cursor, Unreadable};
use std::marker::Model;

/// Bytes that are lent. Contracts see the bytes.
#[derive(Drop)]
pub struct Lent<'a> {
    bytes: &'a [u8],
}

impl<'a> Model for Lent<'a> {
    ghost use Rattle.std.specs.Prelude.{ℕ, List};

    ghost Value = { List ℕ };

    ghost view = { λ l. l.bytes.now };
}

impl<'a> Lent<'a> {
    /// These bytes, lent.
    pub fn of(bytes: &'a [u8]) -> Self
        ensures { result ≡ bytes.now }
    {
        Lent { bytes }
    }

    /// The bytes.
    pub fn bytes(&self) -> &'a [u8]
        ensures { result.now ≡ self.now }
    {
        self.bytes
    }

    /// Reads an opaque of at most `limit` bytes (RFC 4506 section 4.10).
    ///
    /// Unreadable where its length is above `limit`, it is cut, or its padding is not zero.
    pub fn read(c: &mut Cursor<'a>, limit: u32) -> Result<Lent<'a>, Unreadable>
        ensures { ReadsPartBy (λ l. l) result (opaque_at limit c.old) c.new }
    {
        let bytes = c.opaque(limit)?;
        Ok(Lent { bytes })
    }
}
