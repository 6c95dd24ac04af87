//! Where rows were last seen.

ghost use Rattle.std.specs.Prelude.{◌≡◌, ◌≤◌, ◌+◌, nat_lt, if◌then◌else◌, OnOk, OnErr};

use std::alloc::{AllocError, Global};
use std::cell::Cell;
use std::marker::Model;

/// For the key of each row the one at which the row of its directory was last seen: by now another row may stand there,
/// or none. They stand close together and apart from the rows, so that going up waits for memory once for many rows.
///
/// Contracts see for how many keys there is room.
#[derive(Drop)]
pub(crate) struct Seen {
    above: Vec<Cell<u32>>,
}

impl Model for Seen {
    ghost use Rattle.std.specs.Prelude.{ℕ, vec_len};

    ghost Value = { ℕ };

    ghost view = { λ s. vec_len s.above };
}

impl Seen {
    /// Nothing was seen. What comes later grows by `alloc`.
    pub(crate) fn new(alloc: Global) -> Seen
        ensures { result ≡ 0 }
    {
        Seen {
            above: Vec::new(alloc),
        }
    }

    /// Where the row above the one at a key was last seen, or a key that no row has.
    pub(crate) fn above(&self, key: u32) -> u32
        ensures { self.now ≤ key → result ≡ 4294967295 }
    {
        match self.above.get(key as usize) {
            Some(seen) => seen.get(),
            None => u32::MAX,
        }
    }

    /// The row above the one at a key was seen.
    pub(crate) fn note(&self, key: u32, above: u32) {
        if let Some(seen) = self.above.get(key as usize) {
            seen.set(above);
        }
    }

    /// Has room for one key more, up to `most`: so many keys there are.
    pub(crate) fn reach(&mut self, most: usize) -> Result<(), AllocError>
        ensures ok { OnOk result (self.new ≡ (if nat_lt self.old most then self.old + 1 else self.old)) }
        ensures err { OnErr result (self.new ≡ self.old) }
    {
        if self.above.len() < most {
            self.above.push(Cell::new(u32::MAX))?;
        }
        Ok(())
    }
}
