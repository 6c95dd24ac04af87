//! What a reply tells of its connection: whose it is (RFC 8881 sections 2.10.4, 18.37, 18.46 and 18.50).

ghost use Rattle.std.specs.Prelude.{◌≡◌, ◌≤◌};
ghost use Rattle.nfs_sockets.specs.Seen.{seen_in, seen_at, client_in};

use crate::tally::word_at;

/// The most bytes of a compound's tag.
const TAG_LIMIT: u32 = 1_024;

/// What was answered.
#[derive(Clone, Copy, Debug, PartialEq, Eq)]
pub enum Seen {
    /// A SEQUENCE of a session of this client.
    Sequence(u64),
    /// A session or a client record was ended, by an operation that stands first.
    End,
    /// Anything else.
    Other,
}

/// What the bytes answer that were put out for a record: its reply, with the record mark, or none.
pub fn seen_in(reply: &[u8]) -> Seen
    ensures { result ≡ seen_in reply.now }
{
    // (mark, xid, REPLY, reply_stat at 12, a verifier of no bytes, accept_stat at 24, status, and the length of the tag at 32)
    match (word_at(reply, 12), word_at(reply, 24), word_at(reply, 32)) {
        (Some(0), Some(0), Some(tag)) => {
            if tag <= TAG_LIMIT {
                seen_at(reply, 40 + (tag as usize + 3) / 4 * 4)
            } else {
                Seen::Other
            }
        }
        _ => Seen::Other,
    }
}

/// What the first result of a compound answers: its operation and status at `at`, and of SEQUENCE the session's id behind them.
fn seen_at(reply: &[u8], at: usize) -> Seen
    requires { at ≤ 2048 }
    ensures { result ≡ seen_at at reply.now }
{
    match (word_at(reply, at), word_at(reply, at + 4)) {
        (Some(53), Some(0)) => client_in(reply, at + 8),
        (Some(44 | 57), Some(0)) => Seen::End,
        _ => Seen::Other,
    }
}

/// The client whose session's id is at `at`: its first eight bytes.
fn client_in(reply: &[u8], at: usize) -> Seen
    requires { at ≤ 4096 }
    ensures { result ≡ client_in at reply.now }
{
    match (word_at(reply, at), word_at(reply, at + 4)) {
        (Some(high), Some(low)) => Seen::Sequence(u64::from(high) * (1 << 32) + u64::from(low)),
        _ => Seen::Other,
    }
}
