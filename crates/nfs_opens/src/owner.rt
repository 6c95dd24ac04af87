//! The strings of open owners and lock owners (RFC 8881 section 3.2, `open_owner4` and `lock_owner4`).

ghost use Rattle.std.specs.Prelude.{◌≡◌, IfOk};

use std::alloc::{AllocError, Global};
use std::marker::Model;

/// The string by which an open owner or a lock owner is known to its client; it may be empty. Contracts see its bytes.
#[derive(Drop)]
pub struct Owner {
    bytes: Vec<u8>,
}

impl Model for Owner {
    ghost use Rattle.std.specs.Prelude.{ℕ, List};

    ghost Value = { List ℕ };

    ghost view = { λ o. o.bytes.items };
}

impl Owner {
    /// A copy of `bytes`.
    pub(crate) fn of(alloc: Global, bytes: &[u8]) -> Result<Self, AllocError>
        ensures { IfOk result (λ o. o ≡ bytes.now) }
    {
        let bytes = Vec::from_slice(alloc, bytes)?;
        Ok(Owner { bytes })
    }

    /// The bytes.
    pub fn bytes(&self) -> &[u8]
        ensures { result.now ≡ self.now }
    {
        &self.bytes
    }
}
