//! Callers (RFC 5531 section 10.1 and appendix A).

ghost use Rattle.std.specs.Prelude.{◌≡◌, []};

/// The flavor of a credential that names nobody (RFC 5531 section 10.1).
pub const AUTH_NONE: u32 = 0;

/// The flavor of a credential that names a user and groups (RFC 5531 appendix A).
pub const AUTH_SYS: u32 = 1;

/// The caller of a call, as its credential names it (RFC 5531 section 10.1 and appendix A).
#[derive(Clone, Copy, Debug)]
pub struct Who<'a> {
    /// The user.
    pub uid: u32,
    /// The user's first group.
    pub gid: u32,
    /// Further groups of the user, a word each as the call has them: highest byte first.
    pub groups: &'a [[u8; 4]],
}

impl Who<'_> {
    /// Who calls under AUTH_NONE: a user and a group that own nothing, 65,534.
    pub fn nobody() -> Who<'static>
        ensures user { result.uid ≡ 65534 }
        ensures group { result.gid ≡ 65534 }
        ensures groups { result.groups.now ≡ [] }
    {
        Who {
            uid: 65534,
            gid: 65534,
            groups: &[],
        }
    }
}
