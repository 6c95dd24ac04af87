//! The head of a reply, and the reply to a call that is refused (RFC 5531 section 9).

ghost use Rattle.std.specs.Prelude.{◌≡◌};
ghost use Rattle.nfs_xdr.specs.SheetState.{HasRoom, Puts};
ghost use Rattle.nfs_rpc.specs.Reply.{spell_accepted, spell_denied, spell_head, spell_stat, spell_refusal};

use crate::numbers::{
    AUTH_ERROR, MSG_ACCEPTED, MSG_DENIED, REPLY, RPC_MISMATCH, RPC_VERSION, VERSION,
};
use crate::refusal::{AcceptStat, AuthStat, Refusal};
use nfs_xdr::{AUTH_NONE, Sheet};

/// Puts the head of an accepted reply, up to SUCCESS: 24 bytes. The results of the procedure follow.
pub fn write_head(xid: u32, out: &mut Sheet)
    requires room { HasRoom out.old (spell_head xid) }
    ensures { Puts out.old out.new (spell_head xid) }
{
    out.put_bytes(&head(xid));
}

/// Puts the whole reply to a call that is refused: 20 to 32 bytes, and nothing for `Refusal::Silent`.
#[tactic(auto, using(nfs_xdr::proofs::Putting::putting), unfolding(crate::specs::Reply::spell_refusal))]
pub fn write_refusal(refusal: &Refusal, out: &mut Sheet)
    requires room { HasRoom out.old (spell_refusal refusal.now) }
    ensures { Puts out.old out.new (spell_refusal refusal.now) }
{
    match refusal {
        Refusal::Silent => {}
        Refusal::Mismatch { xid } => {
            put_denied(*xid, out);
            out.put_u32(RPC_MISMATCH);
            out.put_u32(RPC_VERSION);
            out.put_u32(RPC_VERSION);
        }
        Refusal::Auth { xid, stat } => {
            put_denied(*xid, out);
            out.put_u32(AUTH_ERROR);
            out.put_u32(match stat {
                AuthStat::BadCred => 1,
                AuthStat::RejectedCred => 2,
                AuthStat::TooWeak => 5,
            });
        }
        Refusal::Accept { xid, stat } => {
            put_accepted(*xid, out);
            put_stat(*stat, out);
        }
    }
}

/// The bytes of the head of an accepted reply, which go onto the sheet at once.
#[tactic(auto, unfolding(crate::specs::Reply::spell_head, nfs_xdr::specs::Spelling::number))]
fn head(xid: u32) -> [u8; 24]
    ensures { result ≡ spell_head xid }
{
    let x = xid.to_be_bytes();
    [
        x[0], x[1], x[2], x[3], // xid
        0, 0, 0, 1, // REPLY
        0, 0, 0, 0, // MSG_ACCEPTED
        0, 0, 0, 0, // AUTH_NONE
        0, 0, 0, 0, // no bytes
        0, 0, 0, 0, // SUCCESS
    ]
}

#[tactic(auto, using(nfs_xdr::proofs::Putting::putting))]
fn put_accepted(xid: u32, out: &mut Sheet)
    requires room { HasRoom out.old (spell_accepted xid) }
    ensures { Puts out.old out.new (spell_accepted xid) }
{
    out.put_u32(xid);
    out.put_u32(REPLY);
    out.put_u32(MSG_ACCEPTED);
    out.put_u32(AUTH_NONE);
    out.put_u32(0); // the verifier has no bytes
}

#[tactic(auto, using(nfs_xdr::proofs::Putting::putting))]
fn put_denied(xid: u32, out: &mut Sheet)
    requires room { HasRoom out.old (spell_denied xid) }
    ensures { Puts out.old out.new (spell_denied xid) }
{
    out.put_u32(xid);
    out.put_u32(REPLY);
    out.put_u32(MSG_DENIED);
}

#[tactic(auto, using(nfs_xdr::proofs::Putting::putting))]
fn put_stat(stat: AcceptStat, out: &mut Sheet)
    requires room { HasRoom out.old (spell_stat stat) }
    ensures { Puts out.old out.new (spell_stat stat) }
{
    match stat {
        AcceptStat::ProgUnavail => out.put_u32(1),
        AcceptStat::ProgMismatch => {
            out.put_u32(2);
            out.put_u32(VERSION);
            out.put_u32(VERSION);
        }
        AcceptStat::ProcUnavail => out.put_u32(3),
        AcceptStat::GarbageArgs => out.put_u32(4),
    }
}
