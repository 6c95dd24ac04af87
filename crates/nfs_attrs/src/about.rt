//! What the attributes of an object say beside the object itself (RFC 8881 section 5.8).

use nfs_tree::Profile;

/// What the attributes of an object say that does not stand in the object itself.
#[derive(Clone, Copy, Debug, PartialEq, Eq)]
pub struct About {
    /// The object's number.
    pub number: u64,
    /// How many bytes it has.
    pub size: u64,
    /// How many names it has.
    pub links: u32,
    /// The instance of the server.
    pub instance: u32,
    /// The lease, in seconds.
    pub lease: u32,
    /// The most bytes of a file.
    pub most_bytes: u64,
    /// What the server has of what the RFC leaves open.
    pub profile: Profile,
    /// How many bytes the object takes.
    pub used: u64,
    /// How many more objects there may be.
    pub files_free: u64,
    /// How many objects there may be.
    pub files_total: u64,
    /// How many more bytes there may be.
    pub space_free: u64,
    /// How many bytes there may be.
    pub space_total: u64,
}
