//! An owner on a file, and where it stands among others.

ghost use Rattle.std.specs.Prelude.{◌≡◌, ◌==◌, ◌&&◌, bytes_eq};
ghost use Rattle.std.specs.Ordering.{nat_cmp};
ghost use Rattle.nfs_xdr.specs.Text.{IsBytes};
ghost use Rattle.nfs_opens.specs.Keys.{key_of};

use std::cmp::Ordering;

/// An owner of a client, on a file. Of two a shorter owner stands before a longer one; those of one string stand by their
/// clients, and those of one client by their files.
#[derive(Clone, Copy)]
pub(crate) struct Key<'a> {
    pub(crate) owner: &'a [u8],
    pub(crate) client: u64,
    pub(crate) file: u64,
}

/// What always holds of bytes; moves nothing.
fn are_bytes(bytes: &[u8])
    ensures { IsBytes bytes.now }
{
    let _ = bytes;
}

impl Key<'_> {
    /// How two owners stand, each on its file.
    pub(crate) fn compare(&self, other: &Key<'_>) -> Ordering
        ensures { result ≡ nat_cmp (key_of self.now) (key_of other.now) }
    {
        are_bytes(self.owner);
        are_bytes(other.owner);
        let key = (self.owner.len(), self.owner, self.client, self.file);
        key.cmp(&(other.owner.len(), other.owner, other.client, other.file))
    }

    /// Whether both are the same owner on the same file.
    pub(crate) fn is(&self, other: &Key<'_>) -> bool
        ensures key { result ≡ (key_of self.now == key_of other.now) }
        ensures same { result ≡ ((self.now.file == other.now.file) && ((self.now.client == other.now.client) && bytes_eq self.now.owner.now other.now.owner.now)) }
    {
        are_bytes(self.owner);
        are_bytes(other.owner);
        let key = (self.file, (self.client, self.owner));
        key == (other.file, (other.client, other.owner))
    }
}
