//! Attributes before they are put.

ghost use Rattle.std.specs.Prelude.{◌≡◌, ◌+◌, ◌≤◌, ◌<◌, ◌^◌, ◌++◌, [], length, take, drop, replicate};
ghost use Rattle.nfs_xdr.specs.SheetState.{HasRoom, Puts};
ghost use Rattle.nfs_xdr.specs.Codec as codec;
ghost use Rattle.nfs_xdr.specs.Time.{time};
ghost use Rattle.nfs_xdr.specs.Spelling.{number, hyper, flag, opaque, padding};

use nfs_xdr::Time;
use std::marker::Model;

/// Attributes as they are spelled, so that a sheet takes them at once. There is room for all that the server has.
/// Contracts see them as a sheet.
#[derive(Drop)]
pub(crate) struct Spelled {
    bytes: [u8; 436],
    len: usize,
}

impl Model for Spelled {
    ghost use Rattle.std.specs.Prelude.{◌≤◌, take};
    ghost use Rattle.nfs_xdr.specs.SheetState.{SheetState};

    ghost Value = { SheetState };

    ghost view = { λ v. record { bytes = take v.len v.bytes; room = 436 } };

    ghost invariant = { λ v. v.len ≤ 436 };
}

impl Spelled {
    /// None yet.
    pub(crate) fn new() -> Spelled
        ensures { result ≡ record { bytes = []; room = 436 } }
    {
        Spelled {
            bytes: [0; 436],
            len: 0,
        }
    }

    /// Their bytes.
    pub(crate) fn bytes(&self) -> &[u8]
        ensures { result.now ≡ self.now.bytes }
    {
        &self.bytes[..self.len]
    }

    /// How many bytes they have.
    pub(crate) fn len(&self) -> usize
        ensures { result ≡ length self.now.bytes }
    {
        self.len
    }

    /// Takes back all but the first `len` bytes.
    pub(crate) fn cut(&mut self, len: usize)
        requires { len ≤ length self.old.bytes }
        ensures { self.new ≡ record self.old { bytes = take len self.old.bytes } }
    {
        self.len = len;
    }

    /// Writes a number over the four bytes from `at` on.
    #[tactic(auto, unfolding(nfs_xdr::specs::Spelling::number))]
    pub(crate) fn set_u32(&mut self, at: usize, value: u32)
        requires within { at + 4 ≤ length self.old.bytes }
        ensures { self.new ≡ record self.old { bytes = take at self.old.bytes ++ number value ++ drop (at + 4) self.old.bytes } }
    {
        let bytes = &mut self.bytes;
        bytes[at..at + 4].copy_from_slice(&value.to_be_bytes());
    }

    /// Puts bytes as they are.
    pub(crate) fn put_bytes(&mut self, bytes: &[u8])
        requires room { HasRoom self.old bytes.now }
        ensures { Puts self.old self.new bytes.now }
    {
        let end = self.len + bytes.len();
        self.bytes[self.len..end].copy_from_slice(bytes);
        self.len = end;
    }

    /// Puts an unsigned int.
    #[tactic(auto, unfolding(nfs_xdr::specs::Spelling::number))]
    pub(crate) fn put_u32(&mut self, value: u32)
        requires room { HasRoom self.old (number value) }
        ensures { Puts self.old self.new (number value) }
    {
        self.put_bytes(&u32::to_be_bytes(value));
    }

    /// Puts an unsigned hyper.
    #[tactic(auto, unfolding(nfs_xdr::specs::Spelling::hyper))]
    pub(crate) fn put_u64(&mut self, value: u64)
        requires room { HasRoom self.old (hyper value) }
        ensures { Puts self.old self.new (hyper value) }
    {
        self.put_bytes(&u64::to_be_bytes(value));
    }

    /// Puts a hyper, two's complement.
    #[tactic(auto, using(nfs_xdr::proofs::Putting::putting))]
    pub(crate) fn put_i64(&mut self, value: i64)
        requires room { HasRoom self.old (codec.signed.spell value) }
        ensures { Puts self.old self.new (codec.signed.spell value) }
    {
        self.put_u64(value.cast_unsigned());
    }

    /// Puts a moment.
    #[tactic(auto, using(nfs_xdr::proofs::Putting::putting), unfolding(nfs_xdr::specs::Time::time))]
    pub(crate) fn put_time(&mut self, value: Time)
        requires room { HasRoom self.old (time.spell value) }
        ensures { Puts self.old self.new (time.spell value) }
    {
        self.put_i64(value.seconds);
        self.put_u32(value.nanoseconds);
    }

    /// Puts a bool.
    #[tactic(auto, using(nfs_xdr::proofs::Putting::putting))]
    pub(crate) fn put_flag(&mut self, value: bool)
        requires room { HasRoom self.old (flag value) }
        ensures { Puts self.old self.new (flag value) }
    {
        self.put_u32(if value { 1 } else { 0 });
    }

    /// Puts a variable-length opaque.
    #[tactic(auto, using(nfs_xdr::proofs::Putting::putting))]
    pub(crate) fn put_opaque(&mut self, value: &[u8])
        requires size { length value.now < 2 ^ 32 }
        requires room { HasRoom self.old (opaque value.now) }
        ensures { Puts self.old self.new (opaque value.now) }
    {
        self.put_u32(value.len() as u32);
        self.put_bytes(value);
        self.put_padding(value.len());
    }

    /// Puts the zeros that fill up the last word of so many bytes.
    fn put_padding(&mut self, length: usize)
        requires room { HasRoom self.old (replicate (padding length) 0) }
        ensures { Puts self.old self.new (replicate (padding length) 0) }
    {
        match length % 4 {
            1 => self.put_bytes(&[0; 3]),
            2 => self.put_bytes(&[0; 2]),
            3 => self.put_bytes(&[0]),
            _ => (),
        }
    }
}
