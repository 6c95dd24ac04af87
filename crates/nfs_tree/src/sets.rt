//! The attributes that a call sets (RFC 8881 section 5.6).

ghost use Rattle.std.specs.Prelude.{◌≡◌};
ghost use Rattle.nfs_tree.specs.Object.{no_sets, modified};

use nfs_xdr::Time;

/// The attributes that a call sets: those of SETATTR, CREATE and OPEN but the size (RFC 8881 section 5.6).
#[derive(Clone, Copy, Debug, PartialEq, Eq)]
pub struct Sets {
    /// The permission bits, and the three above them.
    pub mode: Option<u32>,
    /// The number of the user that owns the object.
    pub owner: Option<u32>,
    /// The number of its group.
    pub group: Option<u32>,
    /// The time of access.
    pub access: Option<Time>,
    /// The time of modification: it stands against the one that the call itself would give.
    pub modify: Option<Time>,
}

impl Sets {
    /// Nothing is set.
    pub fn none() -> Sets
        ensures { result ≡ no_sets }
    {
        Sets {
            mode: None,
            owner: None,
            group: None,
            access: None,
            modify: None,
        }
    }

    /// The same where bytes or entries change: the time of modification is `now`, unless it is set.
    pub(crate) fn modified(&self, now: Time) -> Sets
        ensures { result ≡ modified now self.now }
    {
        Sets {
            modify: Some(self.modify.unwrap_or(now)),
            ..*self
        }
    }
}
