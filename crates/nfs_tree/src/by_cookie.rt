//! Rows as they are stored, in rising order of their cookies.

ghost use Rattle.std.specs.Prelude.{◌≡◌, ◌++◌, ◌∷◌, [], length, option_copied, option_map, OnOk, OnErr, IfSome};
ghost use Rattle.nfs_xdr.specs.Tables.{IsRising, record_at, without_record};
ghost use Rattle.nfs_tree.specs.Indexed.{placed, IsShelved};

use crate::rising::Rising;
use crate::row::{Naming, Row};
use crate::seen::Seen;
use crate::shelf::{Kept, Shelf};
use std::alloc::{AllocError, Global};
use std::marker::Model;

impl Kept<Row> for Naming {
    ghost use Rattle.std.specs.Prelude.{refl};
    ghost use Rattle.nfs_tree.specs.Indexed.{placed};

    ghost made = { placed };

    ghost number = { λ r. r.cookie };

    ghost numbers = { λ n k. refl };
}

/// Rows by their cookies. Contracts see the list of them, in rising order of their cookies.
#[derive(Drop)]
pub(crate) struct ByCookie {
    shelf: Shelf<Naming, Row>,
    seen: Seen,
}

impl Model for ByCookie {
    ghost use Rattle.std.specs.Prelude.{List, ◌≤◌};
    ghost use Rattle.nfs_tree.specs.declared.row.Row.{Row};

    ghost Value = { List Row };

    ghost view = { λ t. t.shelf.items };

    ghost invariant = { λ t. t.seen ≤ t.shelf.room };
}

impl ByCookie {
    /// No rows. What comes later grows by `alloc`.
    pub(crate) fn new(alloc: Global) -> ByCookie
        ensures { result ≡ [] }
    {
        ByCookie {
            shelf: Shelf::new(alloc),
            seen: Seen::new(alloc),
        }
    }

    pub(crate) fn len(&self) -> usize
        ensures { result ≡ length self.now }
    {
        self.shelf.len()
    }

    /// What is kept of the row of a cookie.
    pub(crate) fn row(&self, cookie: u64) -> Option<&Naming>
        ensures { option_map (placed cookie) (option_copied result) ≡ record_at (λ r. r.cookie) self.now cookie }
    {
        self.shelf.get(cookie)
    }

    /// The rows, to be looked up by rising cookies behind this one.
    pub(crate) fn rising(&self, cookie: u64) -> Rising<'_, Naming, Row>
        ensures { result ≡ self.now }
    {
        self.shelf.rising(cookie)
    }

    /// The row of a cookie, with the key at which it stands.
    pub(crate) fn row_at(&self, cookie: u64) -> Option<(u32, &Naming)>
        ensures { option_map (λ r. placed cookie r.1.now) result ≡ record_at (λ r. r.cookie) self.now cookie }
    {
        self.shelf.get_at(cookie)
    }

    /// A row that names the directory of the one at a key, with its own key, if it still stands where one was last seen.
    pub(crate) fn seen_above(&self, key: u32, row: &Naming) -> Option<(u32, &Naming)>
        ensures row { IfSome result (λ r. IsShelved r.1.now self.now) }
        ensures object { IfSome result (λ r. r.1.now.object ≡ row.now.directory) }
    {
        let at = self.seen.above(key);
        match self.shelf.at(at) {
            Some(above) if above.object == row.directory => Some((at, above)),
            _ => None,
        }
    }

    /// The row of the directory of the one at a key was seen.
    pub(crate) fn note_above(&self, key: u32, above: u32) {
        self.seen.note(key, above);
    }

    /// Puts a row behind the others.
    pub(crate) fn push(&mut self, row: Row) -> Result<(), AllocError>
        requires { IsRising (λ r. r.cookie) 3 self.old row.cookie }
        ensures ok { OnOk result (self.new ≡ self.old ++ row ∷ []) }
        ensures err { OnErr result (self.new ≡ self.old) }
    {
        let Row {
            directory,
            name,
            object,
            cookie,
        } = row;
        let naming = Naming {
            directory,
            name,
            object,
        };
        self.shelf.reserve()?;
        self.seen.reach(self.shelf.room())?;
        self.shelf.push(cookie, naming)
    }

    /// Drops the row of a cookie.
    pub(crate) fn drop_row(&mut self, cookie: u64)
        ensures { self.new ≡ without_record (λ r. r.cookie) self.old cookie }
    {
        let _ = self.shelf.remove(cookie);
    }
}
