//! SEQUENCE (RFC 8881 sections 2.10.6.1 and 18.46).

ghost use Rattle.std.specs.Prelude.{◌≡◌, ◌≤◌, ◌+◌, List, ℕ, length, take, drop};
ghost use Rattle.nfs_xdr.specs.Caller.{caller};
ghost use Rattle.nfs_xdr.specs.Limits.{most_record};
ghost use Rattle.nfs_sessions.specs.SessionTables.{IsGranted};
ghost use Rattle.nfs_sessions.specs.Id.{id_of};
ghost use Rattle.nfs_sessions.specs.Channel.{rpc_head};
ghost use Rattle.nfs_sessions.specs.Sessions.{session_at};
ghost use Rattle.nfs_compound.specs.declared.channel_attrs.ChannelAttrs.{ChannelAttrs as Granted};
ghost use Rattle.nfs_exec.specs.Step.Sequence.{Repeats, Runs, highest_at, compared, sequence_ok};
ghost use Rattle.nfs_exec.specs.Step.Parts.{by_session, slot_fault, fresh_fault};
ghost use Rattle.nfs_exec.specs.Step.View.{sequenced_of};

use nfs_compound::{ChannelAttrs, Compound, Sequence};
use nfs_results::SequenceOk;
use nfs_sessions::{SessionId, Sessions};
use nfs_slots::{Args, Verdict};
use nfs_xdr::{Status, Who};

/// What a SEQUENCE comes to, before anything is run.
#[derive(Clone, Copy)]
pub(crate) enum Sequenced<'a> {
    /// It is refused, and nothing changes.
    Refuses(Status),
    /// The request is a repeat, and this reply was kept: at most 66,536 bytes.
    Repeats(&'a [u8]),
    /// The request is new, and runs in a session of this channel.
    Runs(ChannelAttrs),
}

/// Judges a SEQUENCE of a caller, in a record of `size` bytes. The checks in their order: NFS4ERR_BADSESSION,
/// NFS4ERR_BADSLOT, NFS4ERR_BAD_HIGH_SLOT, NFS4ERR_SEQ_MISORDERED; where the slot's last number comes again,
/// NFS4ERR_SEQ_FALSE_RETRY for another caller or for arguments that differ in more than sa_highest_slotid; and where the
/// number is new, NFS4ERR_REQ_TOO_BIG for a record that is longer than the session's requests, and NFS4ERR_TOO_MANY_OPS.
pub(crate) fn judge<'a>(
    sessions: &'a Sessions,
    asked: &Sequence,
    args: &Compound<'_>,
    who: &Who<'_>,
    size: usize,
) -> Sequenced<'a>
    ensures verdict { sequenced_of result ≡ by_session args.now (caller who.now) size asked.now (session_at sessions.now (id_of asked.now.sessionid)) }
    ensures short { (reply : List ℕ) → sequenced_of result ≡ Repeats reply → length reply + rpc_head ≤ most_record }
    ensures granted { (c : Granted) → sequenced_of result ≡ Runs c → IsGranted c }
{
    let id = SessionId::from_bytes(&asked.sessionid);
    let Some(session) = sessions.session(&id) else {
        return Sequenced::Refuses(Status::BadSession);
    };
    let channel = session.channel();
    if let Some(status) = slot_fault(asked, &channel) {
        return Sequenced::Refuses(status);
    }
    let verdict = session.judge(asked.slotid, asked.sequenceid, who.uid, &compared(args));
    match verdict {
        Verdict::NoSlot => Sequenced::Refuses(Status::BadSlot),
        Verdict::Misordered => Sequenced::Refuses(Status::SeqMisordered),
        Verdict::FalseRetry => Sequenced::Refuses(Status::SeqFalseRetry),
        Verdict::Again => Sequenced::Repeats(session.kept(asked.slotid)),
        Verdict::Fresh => match fresh_fault(args, size, &channel) {
            Some(status) => Sequenced::Refuses(status),
            None => Sequenced::Runs(channel),
        },
    }
}

/// Where sa_highest_slotid is in the argument bytes of a compound that SEQUENCE begins: behind the tag with its length and
/// padding, the minor version, the count, SEQUENCE's number, the session, the number and the slot.
fn highest_at(args: &Compound<'_>) -> usize
    ensures value { result ≡ highest_at args.now }
    ensures small { result ≤ 1100 }
{
    let tag = args.tag().len();
    tag + (4 - tag % 4) % 4 + 40
}

/// What a repeat is compared by: the argument bytes but for those of sa_highest_slotid.
pub(crate) fn compared<'a>(args: &Compound<'a>) -> Args<'a>
    ensures { result ≡ compared args.now }
{
    Args::new(ahead(args), behind(args))
}

/// The argument bytes before sa_highest_slotid.
fn ahead<'a>(args: &Compound<'a>) -> &'a [u8]
    ensures { result.now ≡ take (highest_at args.now) args.now.bytes }
{
    let bytes = args.bytes();
    match bytes.split_at_checked(highest_at(args)) {
        Some((front, _)) => front,
        None => bytes,
    }
}

/// The argument bytes behind sa_highest_slotid.
fn behind<'a>(args: &Compound<'a>) -> &'a [u8]
    ensures { result.now ≡ drop (highest_at args.now + 4) args.now.bytes }
{
    match args.bytes().split_at_checked(highest_at(args) + 4) {
        Some((_, rest)) => rest,
        None => &[],
    }
}

/// Why a SEQUENCE names a slot that its session does not have.
fn slot_fault(asked: &Sequence, channel: &ChannelAttrs) -> Option<Status>
    ensures { result ≡ slot_fault asked.now channel.now }
{
    if asked.slotid >= channel.maxrequests {
        return Some(Status::BadSlot);
    }
    if asked.highest_slotid >= channel.maxrequests {
        return Some(Status::BadHighSlot);
    }
    None
}

/// Why a new request is not run.
fn fresh_fault(args: &Compound<'_>, size: usize, channel: &ChannelAttrs) -> Option<Status>
    ensures { result ≡ fresh_fault args.now size channel.now }
{
    if size > channel.maxrequestsize as usize {
        return Some(Status::ReqTooBig);
    }
    if args.declared() > channel.maxoperations {
        return Some(Status::TooManyOps);
    }
    None
}

/// SEQUENCE's result where the request runs: the session's last slot, twice, and no flag.
pub(crate) fn sequence_ok(asked: &Sequence, channel: &ChannelAttrs) -> SequenceOk
    ensures { result ≡ sequence_ok asked.now channel.now }
{
    let last = channel.maxrequests.saturating_sub(1);
    SequenceOk {
        sessionid: asked.sessionid,
        sequenceid: asked.sequenceid,
        slotid: asked.slotid,
        highest_slotid: last,
        target_highest_slotid: last,
        status_flags: 0,
    }
}
