//! An object and its attributes (RFC 8881 sections 3.2 and 5).

ghost use Rattle.std.specs.Prelude.{◌≡◌, ◌<◌};
ghost use Rattle.nfs_tree.specs.Object.{is_directory, is_regular, changed};
ghost use Rattle.nfs_tree.specs.Files.{last_count};

use crate::sets::Sets;
use nfs_xdr::Time;

/// What an object is: the types of `nfs_ftype4` that this server keeps (RFC 8881 section 3.2).
#[derive(Clone, Copy, Debug, PartialEq, Eq)]
pub enum FileType {
    /// A regular file (NF4REG).
    Regular,
    /// A directory (NF4DIR).
    Directory,
    /// A symbolic link (NF4LNK).
    Link,
}

impl FileType {
    /// Whether this is a directory.
    pub fn is_directory(self) -> bool
        ensures { result ≡ is_directory self }
    {
        self == FileType::Directory
    }

    /// Whether this is a regular file.
    pub fn is_regular(self) -> bool
        ensures { result ≡ is_regular self }
    {
        self == FileType::Regular
    }
}

/// What is kept of an object beside its bytes and its names (RFC 8881 sections 5.8 and 6.2.4). Its fields lie in this
/// order, which leaves the least room between them.
#[derive(Clone, Copy, Debug, PartialEq, Eq)]
pub struct Object {
    /// What it is.
    pub kind: FileType,
    /// The verifier of the exclusive create that made it, if one did (RFC 8881 section 18.16.3).
    pub verifier: Option<[u8; 8]>,
    /// The permission bits, and the three above them (attribute `mode`).
    pub mode: u32,
    /// The number of the user that owns it.
    pub owner: u32,
    /// The number of its group.
    pub group: u32,
    /// Begins at 1 and rises by one with each change (attribute `change`).
    pub change: u64,
    /// When it was last read, as clients have set it (attribute `time_access`).
    pub access: Time,
    /// When its attributes, its bytes or its names last changed (attribute `time_metadata`).
    pub metadata: Time,
    /// When its bytes or its entries last changed, or what a client has set (attribute `time_modify`).
    pub modify: Time,
}

impl Object {
    /// Changes the object once: what is set is taken over.
    pub(crate) fn note(&mut self, now: Time, sets: &Sets)
        requires { self.old.change < last_count }
        ensures { self.new ≡ changed now sets.now self.old }
    {
        self.mode = sets.mode.unwrap_or(self.mode);
        self.owner = sets.owner.unwrap_or(self.owner);
        self.group = sets.group.unwrap_or(self.group);
        self.change += 1;
        self.access = sets.access.unwrap_or(self.access);
        self.metadata = now;
        self.modify = sets.modify.unwrap_or(self.modify);
    }
}
