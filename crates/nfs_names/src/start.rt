//! What a server is started with.

ghost use Rattle.std.specs.Prelude.{◌≡◌, IfOk};
ghost use Rattle.nfs_names.specs.ServerOwner.{IsOwner};

use nfs_tree::{Limits, Profile};
use std::alloc::{AllocError, Global};
use std::marker::Model;

/// What a server is started with. It stays as it is for as long as the server runs.
#[derive(Drop)]
pub struct Start {
    /// The permission bits of the root directory.
    pub mode: u32,
    /// Marks this start off from other starts of the server: filehandles, stateids and client ids bear it.
    pub instance: u32,
    /// How long a lease is, in seconds.
    pub lease: u32,
    /// How many objects there may be, and how many bytes a file may have.
    pub limits: Limits,
    /// What the server has of what the RFC leaves open.
    pub profile: Profile,
    /// How many client records and sessions there may be.
    pub crowd: Crowd,
    /// By what the server names itself.
    pub owner: ServerOwner,
}

/// How many client records and sessions there may be at once.
#[derive(Clone, Copy, Debug, PartialEq, Eq)]
pub struct Crowd {
    /// Client records, confirmed or not (RFC 8881 section 18.35).
    pub clients: u32,
    /// Sessions (RFC 8881 section 18.36).
    pub sessions: u32,
}

impl Crowd {
    /// Those of a server that is given none.
    pub const USUAL: Crowd = Crowd {
        clients: 1_024,
        sessions: 64,
    };
}

/// The text by which a server names itself, as server owner and as scope: 1 to 1,024 bytes (`so_major_id` and `eir_server_scope`, RFC 8881
/// sections 2.10.4 and 18.35). Contracts see its bytes.
#[derive(Drop)]
pub struct ServerOwner {
    bytes: Vec<u8>,
}

impl Model for ServerOwner {
    ghost use Rattle.std.specs.Prelude.{ℕ, List};
    ghost use Rattle.nfs_names.specs.ServerOwner.{IsOwner};

    ghost Value = { List ℕ };

    ghost view = { λ o. o.bytes.items };

    ghost invariant = { λ o. IsOwner o.bytes.items };
}

impl ServerOwner {
    /// A copy of `bytes`, which are 1 to 1,024. `AllocError` where memory is refused.
    pub fn of(alloc: Global, bytes: &[u8]) -> Result<Self, AllocError>
        requires { IsOwner bytes.now }
        ensures { IfOk result (λ o. o ≡ bytes.now) }
    {
        let bytes = Vec::from_slice(alloc, bytes)?;
        Ok(ServerOwner { bytes })
    }

    /// The bytes.
    pub fn bytes(&self) -> &[u8]
        ensures text { result.now ≡ self.now }
        ensures bounds { IsOwner result.now }
    {
        &self.bytes
    }
}
