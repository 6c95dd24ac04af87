//! Why a call on the tree is refused (RFC 8881 section 15.1).

ghost use Rattle.std.specs.Prelude.{◌≡◌};
ghost use Rattle.nfs_tree.specs.declared.fault.TreeFault.TheVariants.{Memory};

use std::alloc::AllocError;

/// Why a call on the tree is refused (RFC 8881 section 15.1). A refused call has changed nothing.
#[derive(Clone, Copy, Debug, PartialEq, Eq)]
pub enum TreeFault {
    /// NFS4ERR_NOENT: there is no such object, or no such name.
    NoEnt,
    /// NFS4ERR_EXIST: the name is taken, or what has it cannot be replaced.
    Exist,
    /// NFS4ERR_NOTDIR: an entry was asked for in what is no directory.
    NotDir,
    /// NFS4ERR_ISDIR: a directory has no bytes, and no second name.
    IsDir,
    /// NFS4ERR_NOTEMPTY: a directory with entries is not removed.
    NotEmpty,
    /// NFS4ERR_INVAL: a name or a text of a length that none has; bytes of a symbolic link; a directory moved below itself.
    Inval,
    /// NFS4ERR_FBIG: a file of more bytes than the limits allow.
    Fbig,
    /// NFS4ERR_NOSPC: there are as many objects as the limits allow.
    NoSpc,
    /// NFS4ERR_MLINK: the object has 1,024 names.
    Mlink,
    /// NFS4ERR_NAMETOOLONG: a directory moved to a place too far below the root.
    Deep,
    /// NFS4ERR_SERVERFAULT: a counter, or the `change` of an object, has its last value.
    Counter,
    /// NFS4ERR_DELAY: memory was refused.
    Memory,
}

impl From<AllocError> for TreeFault {
    ghost from_gives = { λ _ e. e ≡ Memory };

    fn from(_error: AllocError) -> TreeFault {
        TreeFault::Memory
    }
}
