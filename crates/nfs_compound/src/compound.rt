//! A compound, read one operation at a time.

ghost use Rattle.std.specs.Prelude.{◌≡◌, ◌∷◌, ◌≤◌, [], length, Some, None, MatchOption, MatchResult, IfOk, OnErr, is_some};
ghost use Rattle.nfs_xdr.specs.Limits.{opaque_limit};
ghost use Rattle.nfs_compound.specs.Request.{IsRequest, IsGarbage};
ghost use Rattle.nfs_compound.specs.ReadRequest.{items_at, request_at};

use crate::item::{item, pass_item};
use crate::op::Item;
use nfs_xdr::{Cursor, OPAQUE_LIMIT, Unreadable};
use std::marker::Model;

/// The minor version that is served (RFC 8881 section 2.4).
pub const MINOR_VERSION: u32 = 1;

/// The arguments of a compound (RFC 8881 section 16.2.1). Contracts see its head and what is left of its
/// list.
#[derive(Drop)]
pub struct Compound<'a> {
    bytes: &'a [u8],
    tag: &'a [u8],
    minor: u32,
    declared: u32,
    left: u32,
    cursor: Cursor<'a>,
}

impl<'a> Model for Compound<'a> {
    ghost use Rattle.std.specs.Prelude.{◌≤◌, length};
    ghost use Rattle.nfs_compound.specs.Request.{Request};
    ghost use Rattle.nfs_compound.specs.ReadRequest.{items_left};
    ghost use Rattle.nfs_xdr.specs.Limits.{opaque_limit};

    ghost Value = { Request };

    ghost view = { λ a. record { bytes = a.bytes.now; tag = a.tag.now; minor = a.minor; declared = a.declared; left = items_left a.left a.cursor } };

    ghost invariant = { λ a. length a.tag.now ≤ opaque_limit };
}

/// The arguments of a compound cannot be told apart, and nothing of it is run: its tag, minor version or
/// count is unreadable, the tag is over 1,024 bytes, an operation number is unreadable, or bytes stand
/// behind the last operation (answered by GARBAGE_ARGS of RFC 5531 section 9).
#[derive(Clone, Copy, Debug)]
pub struct Garbage;

impl From<Unreadable> for Garbage {
    fn from(_e: Unreadable) -> Garbage {
        Garbage
    }
}

impl<'a> Compound<'a> {
    /// Reads all arguments once, to the last byte. With a minor version other than 1 the list is empty, and
    /// what stands behind the count is not looked at.
    ///
    /// Refuses bytes that are [`Garbage`] and no others.
    pub fn open(bytes: &'a [u8]) -> Result<Compound<'a>, Garbage>
        ensures request { IfOk result (λ c. IsRequest bytes.now c) }
        ensures garbage { OnErr result (IsGarbage bytes.now) }
        ensures exact { MatchResult result
            (λ c. request_at bytes.now ≡ Some c)
            (λ _. request_at bytes.now ≡ None) }
    {
        Self::read(bytes)
    }

    /// The bytes that the compound was read from: all of its arguments, and with another minor version than 1 what stands
    /// behind the count.
    pub fn bytes(&self) -> &'a [u8]
        ensures { result.now ≡ self.now.bytes }
    {
        self.bytes
    }

    /// The tag, which the answer bears again: at most 1,024 bytes.
    pub fn tag(&self) -> &'a [u8]
        ensures value { result.now ≡ self.now.tag }
        ensures bound { length result.now ≤ opaque_limit }
    {
        self.tag
    }

    /// The minor version, whatever it is.
    pub fn minor(&self) -> u32
        ensures { result ≡ self.now.minor }
    {
        self.minor
    }

    /// How many operations the compound says that it has.
    pub fn declared(&self) -> u32
        ensures { result ≡ self.now.declared }
    {
        self.declared
    }

    /// The next operation, or the fault that ends the list.
    #[tactic(auto, unfolding(crate::specs::ReadRequest::items_left))]
    pub fn next(&mut self) -> Option<Item<'a>>
        ensures item { MatchOption result
            ((self.old.left ≡ []) × (self.new.left ≡ []))
            (λ a. self.old.left ≡ a ∷ self.new.left) }
        ensures head { self.new ≡ record self.old { left = self.new.left } }
    {
        if self.left == 0 {
            return None;
        }
        self.left -= 1;
        item(&mut self.cursor)
    }

    #[tactic(auto, unfolding(crate::specs::ReadRequest::request_at))]
    fn read(bytes: &'a [u8]) -> Result<Compound<'a>, Garbage>
        ensures { MatchResult result
            (λ c. request_at bytes.now ≡ Some c)
            (λ _. request_at bytes.now ≡ None) }
    {
        let mut cursor = Cursor::new(bytes);
        let tag = cursor.opaque(OPAQUE_LIMIT)?;
        let minor = cursor.u32()?;
        let declared = cursor.u32()?;
        if minor != MINOR_VERSION {
            return Ok(Compound {
                bytes,
                tag,
                minor,
                declared,
                left: 0,
                cursor,
            });
        }
        if !is_readable(declared, cursor.rest()) {
            return Err(Garbage);
        }
        Ok(Compound {
            bytes,
            tag,
            minor,
            declared,
            left: declared,
            cursor,
        })
    }
}

/// Whether `count` operations stand here with nothing behind them, or fewer and a fault.
fn is_readable(count: u32, bytes: &[u8]) -> bool
    ensures { result ≡ is_some (items_at count bytes.now) }
{
    let mut cursor = Cursor::new(bytes);
    for _ in 0..count {
        let Some(is_fault) = pass_item(&mut cursor) else {
            return false;
        };
        if is_fault {
            return true;
        }
    }
    cursor.left() == 0
}
