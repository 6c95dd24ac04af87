//! How much a tree may hold (this server's profile).

ghost use Rattle.std.specs.Prelude.{◌≡◌, true};
ghost use Rattle.nfs_tree.specs.Limits.{bounded, is_limits};

/// How much a tree may hold. A tree keeps what it is made with.
#[derive(Clone, Copy, Debug, PartialEq, Eq)]
pub struct Limits {
    /// The most objects, the root among them.
    pub objects: u32,
    /// The most bytes of a file.
    pub bytes: u64,
    /// The most pages of 4,096 bytes that files and the texts of links may have, each text one: as many as memory holds where it is
    /// [`Limits::ANY_PAGES`].
    pub pages: u64,
}

impl Limits {
    /// The most bytes that a file may be allowed.
    pub const MOST_BYTES: u64 = 1_099_511_627_776;

    /// No bound of the pages but memory.
    pub const ANY_PAGES: u64 = u64::MAX;

    /// Where nothing else is set.
    pub const PROFILE: Limits = Limits {
        objects: 65_536,
        bytes: 1_048_576,
        pages: Limits::ANY_PAGES,
    };

    /// Those that a tree has which is given these: room for the root at least, and at most [`Limits::MOST_BYTES`] of a file.
    pub fn bounded(&self) -> Limits
        ensures same { result ≡ bounded self.now }
        ensures good { is_limits result ≡ true }
    {
        Limits {
            objects: self.objects.max(1),
            bytes: self.bytes.min(Limits::MOST_BYTES),
            pages: self.pages,
        }
    }
}
