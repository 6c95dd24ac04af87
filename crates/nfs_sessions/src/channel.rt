//! What a channel may carry, asked for and granted (RFC 8881 section 18.36).

ghost use Rattle.std.specs.Prelude.{◌≡◌};
ghost use Rattle.nfs_sessions.specs.Channel.{granted, is_too_small};

use nfs_compound::ChannelAttrs;
use nfs_xdr::MAX_RECORD;

/// What CREATE_SESSION asks for.
#[derive(Clone, Copy)]
pub struct Wish {
    pub fore: ChannelAttrs,
    /// It is echoed, and decides nothing: this server calls nobody back.
    pub back: ChannelAttrs,
    /// The client record that this CREATE_SESSION removes, if it removes one. Its sessions do not count towards the limit.
    pub leaving: Option<u64>,
}

/// The longest record (this server's profile), in bytes.
const MAX_BYTES: u32 = MAX_RECORD;
/// The most operations of a compound (this server's profile).
const MAX_OPERATIONS: u32 = 64;
/// The most slots of a session (this server's profile).
const MAX_SLOTS: u32 = 16;
/// The least request and response size (this server's profile), in bytes.
const MIN_BYTES: u32 = 2_048;

/// What this server grants of a channel: each number as asked for, up to its limit, with no header padding and no RDMA.
pub fn granted(asked: &ChannelAttrs) -> ChannelAttrs
    ensures { result ≡ granted asked.now }
{
    ChannelAttrs {
        headerpadsize: 0,
        maxrequestsize: asked.maxrequestsize.min(MAX_BYTES),
        maxresponsesize: asked.maxresponsesize.min(MAX_BYTES),
        maxresponsesize_cached: asked.maxresponsesize_cached.min(MAX_BYTES),
        maxoperations: asked.maxoperations.min(MAX_OPERATIONS),
        maxrequests: asked.maxrequests.min(MAX_SLOTS),
        rdma_ird: None,
    }
}

/// Whether a session over this channel would be of no use (NFS4ERR_TOOSMALL).
pub(crate) fn is_too_small(asked: &ChannelAttrs) -> bool
    ensures { result ≡ is_too_small asked.now }
{
    asked.maxrequestsize < MIN_BYTES
        || asked.maxresponsesize < MIN_BYTES
        || asked.maxoperations == 0
        || asked.maxrequests == 0
}
