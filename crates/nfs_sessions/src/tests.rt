//! The longest reply that a slot keeps (RFC 8881 section 2.10.6.1.3).

use super::*;
use nfs_compound::ChannelAttrs;
use nfs_slots::{Args, Verdict};
use std::test::Fail;

const A: u64 = 0x0000_0007_0000_0001;

/// A wish for the smallest channels.
const LEAST: Wish = Wish {
    fore: SMALL,
    back: SMALL,
    leaving: None,
};

const SMALL: ChannelAttrs = ChannelAttrs {
    headerpadsize: 0,
    maxrequestsize: 2_048,
    maxresponsesize: 2_048,
    maxresponsesize_cached: 7_584,
    maxoperations: 1,
    maxrequests: 1,
    rdma_ird: None,
};

/// Judges a request on slot 0 of a session, and keeps its reply where it is fresh and both fit.
fn serve(
    sessions: &mut Sessions,
    id: &SessionId,
    number: u32,
    args: &[u8],
    reply: &[u8],
) -> Option<Verdict> {
    let session = sessions.session(id)?;
    let (head, tail) = args.split_at(args.len() / 2);
    let compared = Args::new(head, tail);
    let verdict = session.judge(0, number, 0, &compared);
    let channel = session.channel();
    if args.len() > channel.maxrequestsize as usize
        || reply.len() + 24 > channel.maxresponsesize as usize
    {
        return Some(verdict);
    }
    let Verdict::Fresh = verdict else {
        return Some(verdict);
    };
    sessions.keep(id, 0, number, 0, &compared, reply);
    Some(verdict)
}

/// What slot 0 of a session keeps.
fn kept<'a>(sessions: &'a Sessions, id: &SessionId) -> Option<&'a [u8]> {
    Some(sessions.session(id)?.kept(0))
}

#[test]
fn a_reply_as_long_as_the_channel_lets_pass_is_kept(rt: HostRuntime) -> Result<(), Fail> {
    let mut sessions = Sessions::new(rt.alloc(), 64);
    let id = sessions.create(rt.alloc(), A, &LEAST)?;
    let args = [1; 2_048];
    let (reply, longer) = ([2; 2_024], [3; 2_025]);
    for (number, given, want) in [
        (1, reply.as_slice(), Verdict::Fresh),
        (1, reply.as_slice(), Verdict::Again),
        (2, longer.as_slice(), Verdict::Fresh),
        (1, longer.as_slice(), Verdict::Again),
    ] {
        let said = serve(&mut sessions, &id, number, &args, given);
        assert_eq!(rt; said, Some(want));
    }
    assert_eq!(rt; kept(&sessions, &id), Some(reply.as_slice()));
    Ok(())
}
