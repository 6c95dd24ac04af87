//! Putting items of XDR (RFC 4506).

ghost use Rattle.std.specs.Prelude.{◌≡◌, ◌+◌, ◌≤◌, ◌<◌, ◌^◌, ◌++◌, [], length, take, drop, IfOk, if◌then◌else◌};
ghost use Rattle.nfs_xdr.specs.SheetState.{HasRoom, Puts};
ghost use Rattle.nfs_xdr.specs.Codec as codec;
ghost use Rattle.nfs_xdr.specs.Time.{time};
ghost use Rattle.nfs_xdr.specs.Spelling.{number, hyper, flag, fixed, opaque};

use crate::time::Time;
use std::alloc::{AllocError, Global};
use std::marker::Model;

/// Bytes that are put one behind the other, in room that is reserved once and for all by `new`.
///
/// Contracts see it as the bytes put and the room. Nothing but `new` takes memory, and nothing but `new` can fail.
#[derive(Drop)]
pub struct Sheet {
    buf: Vec<u8>,
    room: usize,
}

impl Model for Sheet {
    ghost use Rattle.std.specs.Prelude.{◌≤◌, vec_len, vec_capacity};
    ghost use Rattle.nfs_xdr.specs.SheetState.{SheetState};

    ghost Value = { SheetState };

    ghost view = { λ a. record { bytes = a.buf.items; room = a.room } };

    ghost invariant = { λ a. (vec_len a.buf ≤ a.room) × (a.room ≤ vec_capacity a.buf) };
}

impl Sheet {
    /// An empty sheet with room for `room` bytes. Fails only for want of memory.
    pub fn new(alloc: Global, room: usize) -> Result<Sheet, AllocError>
        ensures { IfOk result (λ s. s ≡ record { bytes = []; room = room }) }
    {
        let buf = Vec::with_capacity(alloc, room)?;
        Ok(Sheet { buf, room })
    }

    /// How many bytes have been put.
    pub fn len(&self) -> usize
        ensures value { result ≡ length self.now.bytes }
        ensures within { result ≤ self.now.room }
    {
        self.buf.len()
    }

    /// The bytes that have been put.
    pub fn bytes(&self) -> &[u8]
        ensures { result.now ≡ self.now.bytes }
    {
        self.buf.as_slice()
    }

    /// Puts an unsigned int or an enum (RFC 4506 sections 4.2 and 4.3).
    #[tactic(auto, unfolding(crate::specs::Spelling::number))]
    pub fn put_u32(&mut self, value: u32)
        requires room { HasRoom self.old (number value) }
        ensures { Puts self.old self.new (number value) }
    {
        let _ = self.buf.extend_from_slice(&u32::to_be_bytes(value));
    }

    /// Puts an unsigned hyper (RFC 4506 section 4.5).
    #[tactic(auto, unfolding(crate::specs::Spelling::hyper))]
    pub fn put_u64(&mut self, value: u64)
        requires room { HasRoom self.old (hyper value) }
        ensures { Puts self.old self.new (hyper value) }
    {
        let _ = self.buf.extend_from_slice(&u64::to_be_bytes(value));
    }

    /// Puts a hyper, two's complement (RFC 4506 section 4.5).
    #[tactic(auto, using(crate::proofs::Putting::putting))]
    pub fn put_i64(&mut self, value: i64)
        requires room { HasRoom self.old (codec.signed.spell value) }
        ensures { Puts self.old self.new (codec.signed.spell value) }
    {
        self.put_u64(value.cast_unsigned());
    }

    /// Puts a moment: its seconds, two's complement, and its nanoseconds (RFC 8881 section 3.3.1).
    #[tactic(auto, using(crate::proofs::Putting::putting), unfolding(crate::specs::Time::time))]
    pub fn put_time(&mut self, value: Time)
        requires room { HasRoom self.old (time.spell value) }
        ensures { Puts self.old self.new (time.spell value) }
    {
        self.put_i64(value.seconds);
        self.put_u32(value.nanoseconds);
    }

    /// Puts a bool (RFC 4506 section 4.4).
    #[tactic(auto, using(crate::proofs::Putting::putting))]
    pub fn put_flag(&mut self, value: bool)
        requires room { HasRoom self.old (flag value) }
        ensures { Puts self.old self.new (flag value) }
    {
        self.put_u32(if value { 1 } else { 0 });
    }

    /// Puts bytes as they are, with no padding: those of items that are spelled already.
    pub fn put_bytes(&mut self, bytes: &[u8])
        requires room { HasRoom self.old bytes.now }
        ensures { Puts self.old self.new bytes.now }
    {
        let _ = self.buf.extend_from_slice(bytes);
    }

    /// Puts a fixed-length opaque: the bytes, filled up to a whole word by zeros (RFC 4506 section 4.9).
    pub fn put_fixed(&mut self, value: &[u8])
        requires size { length value.now < 2 ^ 32 }
        requires room { HasRoom self.old (fixed value.now) }
        ensures { Puts self.old self.new (fixed value.now) }
    {
        let _ = self.buf.extend_from_slice(value);
        let padding = (4 - value.len() % 4) % 4;
        let end = self.buf.len() + padding;
        let _ = self.buf.resize(end, 0);
    }

    /// Puts a variable-length opaque: the length, the bytes, filled up to a whole word by zeros (RFC 4506 section
    /// 4.10).
    #[tactic(auto, using(crate::proofs::Putting::putting))]
    pub fn put_opaque(&mut self, value: &[u8])
        requires size { length value.now < 2 ^ 32 }
        requires room { HasRoom self.old (opaque value.now) }
        ensures { Puts self.old self.new (opaque value.now) }
    {
        self.put_u32(value.len() as u32);
        self.put_fixed(value);
    }

    /// Writes a number over the four bytes from `at` on, as for a count that is known only behind what it counts.
    #[tactic(auto, unfolding(crate::specs::Spelling::number))]
    pub fn set_u32(&mut self, at: usize, value: u32)
        requires within { at + 4 ≤ length self.old.bytes }
        ensures { self.new ≡ record self.old { bytes = take at self.old.bytes ++ number value ++ drop (at + 4) self.old.bytes } }
    {
        self.buf[at..at + 4].copy_from_slice(&value.to_be_bytes());
    }

    /// Takes back all but the first `len` bytes. The room stays.
    pub fn cut(&mut self, len: usize)
        ensures { self.new ≡ record self.old { bytes = take len self.old.bytes } }
    {
        self.buf.truncate(len);
    }

    /// Takes back all bytes. The room stays.
    pub fn clear(&mut self)
        ensures { self.new ≡ record self.old { bytes = [] } }
    {
        self.buf.clear();
    }
}
