//! The cookies of rows, by the directory and the name of each.

ghost use Rattle.std.specs.Prelude.{◌≡◌, ℕ, ◌+◌, ◌≤◌, ◌++◌, List, length, take, drop, None, Some, OnOk, OnErr};
ghost use Rattle.std.specs.Int.{w64, from_be_bytes};
ghost use Rattle.nfs_tree.specs.Files.{most_name};
ghost use Rattle.nfs_tree.specs.ByName.{padded, short_key, cookies, NamesAnew};

use crate::spelled::Spelled;
use std::alloc::{AllocError, Global};
use std::collections::BTreeMap;

/// The longest name that its key holds, so that a search compares numbers and follows no pointer to a name.
const SHORT: usize = 23;

/// Cookies by directory and name. Contracts see by `cookies` which one, if any, each name in each directory has.
#[derive(Drop)]
pub(crate) struct ByName {
    /// Those of short names.
    short: BTreeMap<ShortKey, u64, Global>,
    /// Those of longer ones, as `Spelled` spells them.
    long: BTreeMap<Vec<u8>, u64, Global>,
}

/// A directory and a short name: 23 bytes, with zeros behind the name, and a byte for its length.
#[derive(Clone, Copy, PartialEq, Eq, PartialOrd, Ord)]
struct ShortKey {
    directory: u64,
    first: u64,
    second: u64,
    last: u64,
}

impl ByName {
    /// No cookies. What comes later grows by `alloc`.
    pub(crate) fn new(alloc: Global) -> ByName
        ensures { (directory : ℕ) (name : List ℕ) → cookies result directory name ≡ None }
    {
        ByName {
            short: BTreeMap::new(alloc),
            long: BTreeMap::new(alloc),
        }
    }

    /// The cookie of a name in a directory.
    pub(crate) fn get(&self, directory: u64, name: &[u8]) -> Option<u64>
        requires { length name.now ≤ most_name }
        ensures { result ≡ cookies self.now directory name.now }
    {
        if name.len() <= SHORT {
            let key = ShortKey::new(directory, name);
            return self.short.get(&key).copied();
        }
        let spelled = Spelled::new(directory, name);
        self.long.get(spelled.as_slice()).copied()
    }

    /// Puts a cookie under a name in a directory, in place of one that stands there.
    pub(crate) fn insert(
        &mut self,
        alloc: Global,
        directory: u64,
        name: &[u8],
        cookie: u64,
    ) -> Result<(), AllocError>
        requires { length name.now ≤ most_name }
        ensures ok { OnOk result (NamesAnew (cookies self.old) (cookies self.new) directory name.now (Some cookie)) }
        ensures err { OnErr result (cookies self.new ≡ cookies self.old) }
    {
        if name.len() <= SHORT {
            self.short.insert(ShortKey::new(directory, name), cookie)?;
            return Ok(());
        }
        let spelled = Spelled::new(directory, name);
        let key = Vec::from_slice(alloc, spelled.as_slice())?;
        self.long.insert(key, cookie)?;
        Ok(())
    }

    /// Drops the cookie of a name in a directory.
    pub(crate) fn remove(&mut self, directory: u64, name: &[u8])
        requires { length name.now ≤ most_name }
        ensures { NamesAnew (cookies self.old) (cookies self.new) directory name.now None }
    {
        if name.len() <= SHORT {
            self.short.remove(&ShortKey::new(directory, name));
        } else {
            let spelled = Spelled::new(directory, name);
            self.long.remove(spelled.as_slice());
        }
    }
}

impl ShortKey {
    fn new(directory: u64, name: &[u8]) -> ShortKey
        requires { length name.now ≤ 23 }
        ensures { result ≡ short_key directory name.now }
    {
        let bytes = padded(name);
        ShortKey {
            directory,
            first: be64(&bytes[..8]),
            second: be64(&bytes[8..16]),
            last: be64(&bytes[16..]),
        }
    }
}

fn padded(name: &[u8]) -> [u8; 24]
    requires { length name.now ≤ 23 }
    ensures { result ≡ padded name.now }
{
    let mut bytes = [0; 24];
    bytes[..name.len()].copy_from_slice(name);
    bytes[SHORT] = name.len() as u8;
    bytes
}

fn be64(bytes: &[u8]) -> u64
    requires { length bytes.now ≡ 8 }
    ensures { result ≡ from_be_bytes w64 bytes.now }
{
    u64::from_be_bytes([
        bytes[0], bytes[1], bytes[2], bytes[3], bytes[4], bytes[5], bytes[6], bytes[7],
    ])
}
