//! Share access and share deny (RFC 8881 sections 9.7 and 18.16.1).

ghost use Rattle.std.specs.Prelude.{◌≡◌, Some};
ghost use Rattle.nfs_opens.specs.Share.{neither, share_of, bits_of, meets, joined, is_part, is_neither};

/// What an open may do or denies to others: OPEN4_SHARE_ACCESS_READ and _WRITE, or OPEN4_SHARE_DENY_READ and _WRITE.
#[derive(Clone, Copy, Debug, PartialEq, Eq)]
pub struct Share {
    /// READ.
    pub reads: bool,
    /// WRITE.
    pub writes: bool,
}

impl Share {
    /// Neither: OPEN4_SHARE_DENY_NONE.
    pub fn neither() -> Share
        ensures { result ≡ neither }
    {
        Share {
            reads: false,
            writes: false,
        }
    }

    /// The number on the wire: 1 is READ, 2 WRITE, 3 both. `None` above 3.
    pub fn from_bits(bits: u32) -> Option<Share>
        ensures { result ≡ share_of bits }
    {
        match bits {
            0..=3 => Some(Share {
                reads: bits == 1 || bits == 3,
                writes: bits >= 2,
            }),
            _ => None,
        }
    }

    /// The number on the wire: 0 is neither, 1 READ, 2 WRITE, 3 both.
    pub fn bits(self) -> u32
        ensures bits { result ≡ bits_of self }
        ensures back { share_of result ≡ Some self }
    {
        match (self.reads, self.writes) {
            (false, false) => 0,
            (true, false) => 1,
            (false, true) => 2,
            (true, true) => 3,
        }
    }

    /// Whether both have a bit.
    pub fn meets(self, other: Share) -> bool
        ensures { result ≡ meets self other }
    {
        self.reads && other.reads || self.writes && other.writes
    }

    /// What either has.
    pub(crate) fn joined(self, other: Share) -> Share
        ensures { result ≡ joined self other }
    {
        Share {
            reads: self.reads || other.reads,
            writes: self.writes || other.writes,
        }
    }

    /// Whether `other` has each bit of this.
    pub fn is_part(self, other: Share) -> bool
        ensures { result ≡ is_part self other }
    {
        (!self.reads || other.reads) && (!self.writes || other.writes)
    }

    /// Whether no bit is set.
    pub(crate) fn is_neither(self) -> bool
        ensures { result ≡ is_neither self }
    {
        !self.reads && !self.writes
    }
}
