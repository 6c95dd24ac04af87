//! The entries of a directory in the order of their cookies (RFC 8881 section 18.23.3).

ghost use Rattle.std.specs.Prelude.{◌≡◌, [], ◌∷◌, IfNone, IfSome};
ghost use Rattle.std.specs.Iterator.{YieldsFirstBy, item_count};
ghost use Rattle.nfs_tree.specs.Files.{listing};
ghost use Rattle.nfs_tree.specs.Listing.{listed_of};
ghost use Rattle.nfs_tree.specs.Left.{ArePaired};

use crate::by_cookie::ByCookie;
use crate::rising::Rising;
use crate::row::{Naming, Row};
use crate::tree::Tree;
use std::alloc::Global;
use std::collections::BTreeMap;
use std::collections::btree_map::Range;
use std::marker::Model;
use std::ops::Bound;

/// An entry of a directory, as READDIR reports it (RFC 8881 section 18.23.3).
#[derive(Clone, Copy, Debug)]
pub struct Entry<'a> {
    /// The entry's cookie: greater than those of the entries before it.
    pub cookie: u64,
    /// Its name.
    pub name: &'a [u8],
    /// The number of the object that it names.
    pub number: u64,
}

/// The entries of a directory by rising cookie. Contracts see the list of those that are left.
#[derive(Drop)]
pub struct Listing<'a> {
    rows: Rising<'a, Naming, Row>,
    directory: u64,
    /// That of the entry before.
    cookie: u64,
    /// The directory and the cookie of each row behind it.
    left: Range<'a, (u64, u64), ()>,
}

impl<'a> Model for Listing<'a> {
    ghost use Rattle.std.specs.Prelude.{List};
    ghost use Rattle.nfs_tree.specs.Files.{Listed, listing};
    ghost use Rattle.nfs_tree.specs.Left.{AreLeft};

    ghost Value = { List Listed };

    ghost view = { λ l. listing l.rows l.directory l.cookie };

    ghost invariant = { λ l. AreLeft l.rows l.directory l.cookie l.left };
}

impl<'a> Listing<'a> {
    /// The entries behind a cookie. There is a pair for each row, of its directory and its cookie.
    pub(crate) fn new(
        rows: &'a ByCookie,
        pairs: &'a BTreeMap<(u64, u64), (), Global>,
        directory: u64,
        cookie: u64,
    ) -> Listing<'a>
        requires { ArePaired rows.now pairs.now.entries }
        ensures { result ≡ listing rows.now directory cookie }
    {
        let behind = (Bound::Excluded((directory, cookie)), Bound::Unbounded);
        Listing {
            rows: rows.rising(cookie),
            directory,
            cookie,
            left: pairs.range(behind),
        }
    }

    /// The next entry, which is then behind the listing.
    fn step(&mut self) -> Option<Entry<'a>>
        ensures none { IfNone result ((self.old ≡ []) × (self.new ≡ [])) }
        ensures some { IfSome result (λ e. self.old ≡ listed_of e ∷ self.new) }
    {
        let Some((pair, _)) = self.left.next() else {
            return None;
        };
        if pair.0 != self.directory {
            return None;
        }
        let Some(row) = self.rows.get(pair.1) else {
            return None;
        };
        self.cookie = pair.1;
        Some(Entry {
            cookie: pair.1,
            name: row.name.as_slice(),
            number: row.object,
        })
    }
}

impl<'a> Iterator for Listing<'a> {
    type Item = Entry<'a>;

    ghost next_gives = { YieldsFirstBy listed_of (λ rest. rest) };

    ghost remaining = { item_count (λ rest. rest) };

    fn next(&mut self) -> Option<Entry<'a>> {
        self.step()
    }
}

impl Tree {
    /// The entries of the directory whose cookies are greater than `cookie`, by rising cookie (RFC 8881 section
    /// 18.23.3). From 0 on they are all: the least cookie is 3.
    pub fn list(&self, directory: u64, cookie: u64) -> Listing<'_>
        ensures { result ≡ listing self.now.rows directory cookie }
    {
        self.rows.list(directory, cookie)
    }
}
