//! Keys of a slab, as ordered maps keep them.

ghost use Rattle.std.specs.Prelude.{◌≡◌, ◌<◌, ◌^◌, IfOk, IsOk};

use std::alloc::AllocError;

/// A key in four bytes, since a map has a pair for each object and for each row. One past them is want of memory, which
/// so many values take first.
pub(crate) fn short_key(key: usize) -> Result<u32, AllocError>
    ensures same { IfOk result (λ k. k ≡ key) }
    ensures fits { key < 2 ^ 32 → IsOk result }
{
    u32::try_from(key).map_err(|_| AllocError)
}
