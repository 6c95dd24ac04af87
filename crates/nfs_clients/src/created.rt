//! What a CREATE_SESSION came to, as it is kept (RFC 8881 section 18.36.2).

ghost use Rattle.std.specs.Prelude.{◌≡◌, ◌≤◌, length};
ghost use Rattle.nfs_clients.specs.CreateSession.{uses_up, status_uses_up};

use nfs_xdr::Status;
use std::marker::Model;

/// The most bytes of the body of a CREATE_SESSION result.
const MAX_BODY: usize = 84;

/// The body of a successful CREATE_SESSION result (`CREATE_SESSION4resok`, RFC 8881 section
/// 18.36.2): what stands behind the operation number and the status, at most 84 bytes.
/// Contracts see the bytes.
#[derive(Drop)]
pub struct Resok {
    bytes: [u8; MAX_BODY],
    len: usize,
}

impl Model for Resok {
    ghost use Rattle.std.specs.Prelude.{ℕ, List, ◌≤◌, take};

    ghost Value = { List ℕ };

    ghost view = { λ r. take r.len r.bytes };

    ghost invariant = { λ r. r.len ≤ 84 };
}

impl Resok {
    /// A copy of `bytes`, without memory.
    pub fn new(bytes: &[u8]) -> Self
        requires { length bytes.now ≤ 84 }
        ensures { result ≡ bytes.now }
    {
        let len = bytes.len();
        let mut copy = [0; MAX_BODY];
        copy[..len].copy_from_slice(bytes);
        Resok { bytes: copy, len }
    }

    /// The bytes.
    pub fn bytes(&self) -> &[u8]
        ensures value { result.now ≡ self.now }
        ensures few { length result.now ≤ 84 }
    {
        &self.bytes[..self.len]
    }
}

/// What a CREATE_SESSION that was tried came to (RFC 8881 section 18.36.2).
#[derive(Drop)]
pub enum CreateResult {
    /// NFS4_OK, with the body of the result.
    Done(Resok),
    /// Any other status.
    Refused(Status),
}

impl CreateResult {
    /// Whether the result uses its number up and is kept: success does, and of the refusals
    /// TOOSMALL, NOSPC and SERVERFAULT. The others (DELAY among them) leave the number to be
    /// tried again (this server's profile).
    pub fn uses_up(&self) -> bool
        ensures { result ≡ uses_up self.now }
    {
        match self {
            CreateResult::Done(_) => true,
            CreateResult::Refused(status) => matches!(
                status,
                Status::TooSmall | Status::NoSpc | Status::ServerFault
            ),
        }
    }
}
