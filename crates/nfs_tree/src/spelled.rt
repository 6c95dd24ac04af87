//! Keys of long names: a directory's number and a name, spelled in one without taking memory.

ghost use Rattle.std.specs.Prelude.{◌≡◌, ◌+◌, ◌≤◌, ◌++◌, length, take, drop};
ghost use Rattle.nfs_tree.specs.Files.{most_name};
ghost use Rattle.nfs_tree.specs.ByName.{key_of};

use std::marker::Model;

/// A directory's number, high byte first, and a name behind it. Contracts see the list of their bytes.
#[derive(Drop)]
pub(crate) struct Spelled {
    bytes: [u8; 263],
    len: usize,
}

impl Model for Spelled {
    ghost use Rattle.std.specs.Prelude.{ℕ, List, take, ◌≤◌};

    ghost Value = { List ℕ };

    ghost view = { λ s. take s.len s.bytes };

    ghost invariant = { λ s. s.len ≤ 263 };
}

impl Spelled {
    pub(crate) fn new(directory: u64, name: &[u8]) -> Spelled
        requires { length name.now ≤ most_name }
        ensures { result ≡ key_of directory name.now }
    {
        let mut bytes = [0; 263];
        put(&mut bytes, 0, &directory.to_be_bytes());
        put(&mut bytes, 8, name);
        Spelled {
            bytes,
            len: 8 + name.len(),
        }
    }

    pub(crate) fn as_slice(&self) -> &[u8]
        ensures { result.now ≡ self.now }
    {
        &self.bytes[..self.len]
    }
}

fn put(bytes: &mut [u8], at: usize, part: &[u8])
    requires { at + length part.now ≤ length bytes.old }
    ensures { bytes.new ≡ take at bytes.old ++ (part.now ++ drop (at + length part.now) bytes.old) }
{
    bytes[at..at + part.len()].copy_from_slice(part);
}
