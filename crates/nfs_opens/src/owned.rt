//! States by their owners on their files.

ghost use Rattle.std.specs.Prelude.{◌≡◌};
ghost use Rattle.nfs_opens.specs.Keys.{key_of, owner_key};

use crate::blocks::InBlocks;
use crate::index::{Entry, Sought};
use crate::key::Key;
use crate::owner::Owner;
use std::cmp::Ordering;

/// An owner on a file, and the number of its state there.
#[derive(Drop)]
pub(crate) struct Owned {
    pub(crate) file: u64,
    pub(crate) client: u64,
    pub(crate) owner: Owner,
    pub(crate) number: u64,
}

impl Owned {
    fn key(&self) -> Key<'_>
        ensures { key_of result ≡ owner_key self.now.file self.now.client self.now.owner }
    {
        Key {
            file: self.file,
            client: self.client,
            owner: self.owner.bytes(),
        }
    }
}

impl InBlocks for Owned {
    ghost use Rattle.std.proofs.Common.{arith};

    const MOST: usize = 64;

    ghost MOST = { 64 };

    ghost several = { Prim.omega arith };
}

impl Entry for Owned {
    ghost use Rattle.nfs_opens.specs.Keys.{owner_key};

    ghost pair = { λ o. record { of = owner_key o.file o.client o.owner; number = o.number } };

    fn number(&self) -> u64 {
        self.number
    }
}

impl Sought<Owned> for Key<'_> {
    ghost use Rattle.nfs_opens.specs.Keys.{key_of};

    ghost of = { key_of };

    fn is_behind(&self, entry: &Owned, number: u64, too: bool) -> bool {
        match entry.key().compare(self) {
            Ordering::Less => true,
            Ordering::Equal => entry.number < number || too && entry.number == number,
            Ordering::Greater => false,
        }
    }

    fn has(&self, entry: &Owned) -> bool {
        entry.key().is(self)
    }
}
