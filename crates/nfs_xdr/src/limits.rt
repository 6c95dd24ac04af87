//! Limits that several crates keep to: those of the protocol (RFC 8881 section 3.1, RFC 5531 appendix A), and this server's own
//! (docs/PROTOCOL.md).

/// NFS4_FHSIZE: the most bytes of a filehandle (RFC 8881 section 3.1).
pub const FHSIZE: u32 = 128;

/// NFS4_OPAQUE_LIMIT: the most bytes of an owner (RFC 8881 section 3.1), and of a tag (this server's profile).
pub const OPAQUE_LIMIT: u32 = 1_024;

/// The most bytes of a machine's name in a credential of AUTH_SYS (RFC 5531 appendix A).
pub const MAX_MACHINE_NAME: u32 = 255;

/// The most groups of a credential of AUTH_SYS (RFC 5531 appendix A).
pub const MAX_GROUPS: usize = 16;

/// The most bytes of one record, its marks not counted, and so of a call and of a reply (this server's profile).
pub const MAX_RECORD: u32 = 66_560;

/// The most bytes of a file that one READ or WRITE moves, and of the entries that one READDIR answers (this server's profile).
pub const MAX_TRANSFER: u32 = 65_536;
