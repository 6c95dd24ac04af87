//! What the tests of several crates share. Tests alone call it: nothing here is on the path of a record.
//!
//! ```text
//! let args = bytes_of(alloc, &[&[0, 1, 1, 59]])?;
//! ```
#![tactic(auto)]

ghost use Rattle.std.specs.Prelude.{◌≡◌, IfOk, flat_map};
ghost use Rattle.std.specs.Int.{w32, to_be_bytes};

use std::alloc::{AllocError, Global};

#[cfg(test)]
mod tests;

/// The words of the lists, one list behind the other, as they are sent: four bytes each, the highest first (RFC 4506
/// section 4.1). The error is want of memory.
pub fn bytes_of(alloc: Global, lists: &[&[u32]]) -> Result<Vec<u8>, AllocError>
    ensures { IfOk result (λ bytes. bytes.items ≡ flat_map (to_be_bytes w32) (flat_map (λ words. words.now) lists.now)) }
{
    let mut bytes = Vec::new(alloc);
    for words in lists {
        for word in *words {
            bytes.extend_from_slice(&word.to_be_bytes())?;
        }
    }
    Ok(bytes)
}
