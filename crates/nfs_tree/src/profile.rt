//! What a server has of what the RFC leaves open (docs/PROTOCOL.md).

ghost use Rattle.std.specs.Prelude.{◌≡◌};
ghost use Rattle.nfs_tree.specs.Profile.{is_unix};

/// What a server has of what the RFC leaves open (docs/PROTOCOL.md). A tree keeps what it is made with.
#[derive(Clone, Copy, Debug, PartialEq, Eq)]
pub enum Profile {
    /// For runs that are to be the same twice: a mode changes only where it is set.
    Exact,
    /// As POSIX has it, for those who mount the server.
    Unix,
}

impl Profile {
    /// Whether this is the one that POSIX describes.
    pub fn is_unix(self) -> bool
        ensures { result ≡ is_unix self }
    {
        self == Profile::Unix
    }
}
