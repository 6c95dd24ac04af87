//! The result of a compound, read again.

ghost use Rattle.std.specs.Prelude.{◌≡◌, [], ◌∷◌, Some, None, MatchOption, MatchResult, IfOk, OnErr};
ghost use Rattle.nfs_xdr.specs.Codec.{many_at};
ghost use Rattle.nfs_results.specs.ResultCodec as table;
ghost use Rattle.nfs_results.specs.CompoundResult.{compound_result, IsReply, IsNoReply};
ghost use Rattle.nfs_results.specs.ReadReply.{whole, is_whole};

use crate::reading;
use crate::res::Res;
use nfs_xdr::{Cursor, OPAQUE_LIMIT, Status, Unreadable};
use std::marker::Model;

/// The result of a compound, lent from its bytes (RFC 8881 section 16.2.2). Contracts see its status, its tag and the results that
/// [`Reply::next`] has not taken yet.
#[derive(Drop)]
pub struct Reply<'a> {
    status: Status,
    tag: &'a [u8],
    left: u32,
    cursor: Cursor<'a>,
}

impl<'a> Model for Reply<'a> {
    ghost use Rattle.nfs_results.specs.CompoundResult.{CompoundResult};
    ghost use Rattle.nfs_results.specs.ReadReply.{results_left};

    ghost Value = { CompoundResult };

    ghost view = { λ a. record { status = a.status; tag = a.tag.now; results = results_left a.left a.cursor } };
}

/// Reads the result of a compound, to the last byte (RFC 8881 section 16.2.2).
///
/// `Unreadable` exactly where the bytes are the spelling of none: one that is cut, has bytes behind it or
/// padding that is not zero, a status that this server does not answer, a tag of more than 1,024 bytes, or a
/// result that this server does not give.
pub fn read_reply(bytes: &[u8]) -> Result<Reply<'_>, Unreadable>
    ensures found { IfOk result (λ r. IsReply bytes.now r) }
    ensures none { OnErr result (IsNoReply bytes.now) }
{
    read(bytes)
}

fn read(bytes: &[u8]) -> Result<Reply<'_>, Unreadable>
    ensures { MatchResult result (λ r. whole (compound_result.read bytes.now) ≡ Some r) (λ _. whole (compound_result.read bytes.now) ≡ None) }
{
    let mut cursor = Cursor::new(bytes);
    let status = reading::status(&mut cursor)?;
    let tag = cursor.opaque(OPAQUE_LIMIT)?;
    let left = cursor.u32()?;
    if !are_whole(left, cursor.rest()) {
        return Err(Unreadable);
    }
    Ok(Reply {
        status,
        tag,
        left,
        cursor,
    })
}

/// Whether `count` results stand here, and nothing behind them.
fn are_whole(count: u32, bytes: &[u8]) -> bool
    ensures { result ≡ is_whole (many_at table.result.read count bytes.now) }
{
    let mut cursor = Cursor::new(bytes);
    for _ in 0..count {
        match reading::res(&mut cursor) {
            Ok(_) => {}
            Err(_) => return false,
        }
    }
    cursor.left() == 0
}

impl<'a> Reply<'a> {
    /// How the compound ended.
    pub fn status(&self) -> Status
        ensures { result ≡ self.now.status }
    {
        self.status
    }

    /// The tag of the call.
    pub fn tag(&self) -> &'a [u8]
        ensures { result.now ≡ self.now.tag }
    {
        self.tag
    }

    /// Takes the next result, in the order in which the operations were run; `None` behind the last.
    pub fn next(&mut self) -> Option<Res<'a>>
        ensures item { MatchOption result ((self.old.results ≡ []) × (self.new.results ≡ [])) (λ r. self.old.results ≡ r ∷ self.new.results) }
        ensures head { self.new ≡ record self.old { results = self.new.results } }
    {
        if self.left == 0 {
            return None;
        }
        self.left -= 1;
        match reading::res(&mut self.cursor) {
            Ok(res) => Some(res),
            Err(_) => {
                self.left = 0;
                None
            }
        }
    }
}
