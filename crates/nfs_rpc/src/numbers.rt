//! The numbers of a call and of a reply (RFC 5531 sections 8, 9 and 11), and those of the program that is served (RFC 5662).

/// The bit of a mark that says that its fragment is the record's last one (RFC 5531 section 11).
pub const LAST_FRAGMENT: u32 = 0x8000_0000;

/// The version of RPC.
pub(crate) const RPC_VERSION: u32 = 2;

/// The program that is served.
pub(crate) const PROGRAM: u32 = 100_003;

/// The version of the program that is served.
pub(crate) const VERSION: u32 = 4;

/// The number of procedure NULL.
pub(crate) const NULL: u32 = 0;

/// The number of procedure COMPOUND.
pub(crate) const COMPOUND: u32 = 1;

/// The type of a message that is a call.
pub(crate) const CALL: u32 = 0;

/// The type of a message that is a reply.
pub(crate) const REPLY: u32 = 1;

/// How a reply to a call that is accepted begins.
pub(crate) const MSG_ACCEPTED: u32 = 0;

/// How a reply to a call that is denied begins.
pub(crate) const MSG_DENIED: u32 = 1;

/// A call is denied for its version of RPC.
pub(crate) const RPC_MISMATCH: u32 = 0;

/// A call is denied for its credential.
pub(crate) const AUTH_ERROR: u32 = 1;

/// The most bytes of a credential or of a verifier (RFC 5531 section 8.2).
pub(crate) const MAX_AUTH: u32 = 400;
