//! Attribute masks and attributes: RFC 8881 sections 3.2 and 3.3.7.

ghost use Rattle.std.specs.Prelude.{◌≡◌, map};
ghost use Rattle.std.specs.Int.{w32, from_be_bytes};
ghost use Rattle.nfs_xdr.specs.Readers.{ReadsPartBy};
ghost use Rattle.nfs_compound.specs.ArgCodecs.{bitmap, attributes};

use crate::lent::Lent;
use nfs_xdr::{Cursor, Unreadable};
use std::marker::Model;

/// An attribute mask, lent from the record (bitmap4, RFC 8881 section 3.2). Contracts see its words: bit `i` of word `w`
/// is attribute `32 * w + i`.
#[derive(Drop)]
pub struct Bitmap<'a> {
    words: &'a [[u8; 4]],
}

impl<'a> Model for Bitmap<'a> {
    ghost use Rattle.std.specs.Prelude.{ℕ, List, map};
    ghost use Rattle.std.specs.Int.{w32, from_be_bytes};

    ghost Value = { List ℕ };

    ghost view = { λ m. map (from_be_bytes w32) m.words.now };
}

impl<'a> Bitmap<'a> {
    /// The mask of these words, each as it is spelled: big-endian.
    pub fn of(words: &'a [[u8; 4]]) -> Self
        ensures { result ≡ map (from_be_bytes w32) words.now }
    {
        Bitmap { words }
    }

    /// Its words, each as it is spelled: big-endian.
    pub fn words(&self) -> &'a [[u8; 4]]
        ensures { map (from_be_bytes w32) result.now ≡ self.now }
    {
        self.words
    }

    /// Reads a mask of any number of words. Unreadable where it is cut.
    #[tactic(auto, unfolding(crate::specs::ArgCodecs::bitmap))]
    pub fn read(c: &mut Cursor<'a>) -> Result<Bitmap<'a>, Unreadable>
        ensures { ReadsPartBy (λ x. x) result (bitmap.read c.old) c.new }
    {
        let words = c.pieces::<4>()?;
        Ok(Bitmap { words })
    }
}

/// Attributes, lent from the record (fattr4, RFC 8881 section 3.3.7).
#[derive(Drop)]
pub struct Attributes<'a> {
    pub attrmask: Bitmap<'a>,
    /// The values that the mask names, one behind the other in rising order; nothing here says that they are.
    pub attr_vals: Lent<'a>,
}

impl<'a> Attributes<'a> {
    /// Reads a mask and an opaque. Unreadable where they are cut or padded by other than zeros.
    #[tactic(auto, unfolding(crate::specs::ArgCodecs::attributes))]
    pub fn read(c: &mut Cursor<'a>) -> Result<Attributes<'a>, Unreadable>
        ensures { ReadsPartBy (λ x. x) result (attributes.read c.old) c.new }
    {
        let attrmask = Bitmap::read(c)?;
        let attr_vals = Lent::read(c, u32::MAX)?;
        Ok(Attributes {
            attrmask,
            attr_vals,
        })
    }
}
