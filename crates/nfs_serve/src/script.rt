//! Reading a script, entry by entry.
ghost use Rattle.std.specs.Prelude.{◌≡◌, length, false, ◌<◌, ◌^◌, IfOk, IfSome, IfNone};
ghost use Rattle.nfs_xdr.specs.Text.{IsBytes};
ghost use Rattle.nfs_xdr.specs.Spelling.{number, hyper};
ghost use Rattle.nfs_serve.specs.Script as script;
ghost use Rattle.nfs_serve.specs.Script.{IsHead, refusal, most_piece};
ghost use Rattle.nfs_serve.specs.Reading.{ReadsEntry, BeginsWith, stop_of, entry};

use crate::Source;
use crate::fault::Stop;
use crate::moving::fill;

/// The last connection of a script; the first is 0.
pub const LAST_CONNECTION: u32 = 15;

/// The most bytes of a piece.
pub(crate) const MAX_PIECE: u32 = 65_536;

/// The last moment that a server takes, in seconds.
pub const LAST_MOMENT: u64 = 1 << 62;

/// The bytes of an entry in front of its piece.
pub(crate) const HEAD: usize = 16;

/// What came on a connection, and when: an entry of a script. No bytes close the connection.
#[derive(Clone, Copy, Debug)]
pub(crate) struct Entry<'a> {
    /// The moment at which it came, in seconds.
    pub moment: u64,
    /// The connection.
    pub conn: u32,
    /// A piece of the connection's stream.
    pub piece: &'a [u8],
}

/// The entry that stands whole at the front of the bytes and is not refused, if there is one.
pub(crate) fn whole_entry(bytes: &[u8]) -> Option<Entry<'_>>
    ensures bytes { IfSome result (λ e. IsBytes e.piece.now) }
    ensures whole { IfSome result (λ e. BeginsWith bytes.now (entry e)) }
    ensures none { IfNone result ((e : script.Entry) → BeginsWith bytes.now e → ⊥) }
{
    let (head, rest) = bytes.split_first_chunk::<HEAD>()?;
    let (moment, conn, len) = head_of(head);
    if refusal_of(moment, conn, len).is_some() || len as usize > rest.len() {
        return None;
    }
    let piece = &rest[..len as usize];
    Some(Entry {
        moment,
        conn,
        piece,
    })
}

/// The entry that stands next, whose piece is put into the buffer, or `None` where the script ends.
pub(crate) fn next_entry<'b, R: Source>(
    r: &mut R,
    buf: &'b mut [u8],
) -> Result<Option<Entry<'b>>, Stop>
    requires room { length buf.old ≡ most_piece }
    requires failed { R.has_failed r.old ≡ false }
    requires ended { R.has_ended r.old ≡ false }
    ensures bytes { IfOk result (λ found. IfSome found (λ e. IsBytes e.piece.now)) }
    ensures read { ReadsEntry result (R.left r.old) (R.left r.new) (R.has_failed r.new) (R.has_ended r.new) }
{
    let mut head = [0u8; HEAD];
    let came = fill(r, &mut head);
    if came == 0 && !r.failed() {
        return Ok(None);
    }
    if came < HEAD {
        return Err(short_of(r));
    }
    let (moment, conn, len) = head_of(&head);
    if let Some(stop) = refusal_of(moment, conn, len) {
        return Err(stop);
    }
    let len = len as usize;
    if fill(r, &mut buf[..len]) < len {
        return Err(short_of(r));
    }
    let piece = &buf[..len];
    Ok(Some(Entry {
        moment,
        conn,
        piece,
    }))
}

/// Why a reader that stopped short did: it has failed or it has ended.
fn short_of<R: Source>(r: &R) -> Stop
    ensures { result ≡ stop_of (R.has_failed r.now) }
{
    if r.failed() {
        Stop::ReadFailed
    } else {
        Stop::Cut
    }
}

/// Why an entry with this head is not read.
fn refusal_of(moment: u64, conn: u32, len: u32) -> Option<Stop>
    ensures { result ≡ refusal moment conn len }
{
    if conn > LAST_CONNECTION {
        Some(Stop::Connection)
    } else if len > MAX_PIECE {
        Some(Stop::Long)
    } else if moment > LAST_MOMENT {
        Some(Stop::Late)
    } else {
        None
    }
}

/// Moment, connection and length.
fn head_of(bytes: &[u8; HEAD]) -> (u64, u32, u32)
    ensures { IsHead result.0 result.1 result.2 bytes.now }
{
    let moment = be64(&bytes[..8]);
    let conn = be32(&bytes[8..12]);
    let len = be32(&bytes[12..]);
    (moment, conn, len)
}

fn be32(bytes: &[u8]) -> u32
    requires { length bytes.now ≡ 4 }
    ensures bytes { bytes.now ≡ number result }
    ensures width { result < 2 ^ 32 }
{
    u32::from_be_bytes([bytes[0], bytes[1], bytes[2], bytes[3]])
}

fn be64(bytes: &[u8]) -> u64
    requires { length bytes.now ≡ 8 }
    ensures bytes { bytes.now ≡ hyper result }
    ensures width { result < 2 ^ 64 }
{
    u64::from_be_bytes([
        bytes[0], bytes[1], bytes[2], bytes[3], bytes[4], bytes[5], bytes[6], bytes[7],
    ])
}
