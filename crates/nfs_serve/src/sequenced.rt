//! Whether a session's SEQUENCE was answered (RFC 5531 section 9, RFC 8881 section 16.2).

ghost use Rattle.std.specs.Prelude.{◌≡◌, Some, None, MatchResult};
ghost use Rattle.nfs_serve.specs.Sequenced.{answers_sequence, sequence_in};

use nfs_xdr::{Cursor, OPAQUE_LIMIT, Unreadable};

/// The number of SEQUENCE (RFC 8881 section 16.2.3).
const SEQUENCE: u32 = 53;

/// Whether these bytes, which were put out for a record, answer SEQUENCE with NFS4_OK.
pub(crate) fn answers_sequence(bytes: &[u8]) -> bool
    ensures { result ≡ answers_sequence bytes.now }
{
    match sequence_in(bytes) {
        Ok(is_so) => is_so,
        Err(_) => false,
    }
}

/// Whether the first operation of a reply is a SEQUENCE that was answered NFS4_OK. `Unreadable` where the bytes are no reply of a compound.
#[tactic(auto, unfolding(crate::specs::Sequenced::sequence_in))]
fn sequence_in(bytes: &[u8]) -> Result<bool, Unreadable>
    ensures { MatchResult result (λ b. sequence_in bytes.now ≡ Some b) (λ _. sequence_in bytes.now ≡ None) }
{
    let mut at = Cursor::new(bytes);
    let _mark = at.u32()?;
    let _xid = at.u32()?;
    let _reply = at.u32()?;
    let stat = at.u32()?;
    let _flavor = at.u32()?;
    let _verifier = at.u32()?;
    let accepted = at.u32()?;
    let _status = at.u32()?;
    let _tag = at.opaque(OPAQUE_LIMIT)?;
    let _count = at.u32()?;
    let op = at.u32()?;
    let ok = at.u32()?;
    Ok(stat == 0 && accepted == 0 && op == SEQUENCE && ok == 0)
}
