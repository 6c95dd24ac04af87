//! The rows of all directories, found by name, in each directory by cookie, and by the object that they name.

ghost use Rattle.std.specs.Prelude.{◌≡◌, ℕ, ◌+◌, ◌≤◌, ◌++◌, [], ◌∷◌, length, OnOk, OnErr, IfSome, IfNone, IsSome, None, Some, cond, option_copied, option_map};
ghost use Rattle.std.specs.BTreeMap.{insert_entry, get, is_at};
ghost use Rattle.nfs_xdr.specs.Tables.{IsRising, without_record};
ghost use Rattle.nfs_tree.specs.Files.{entry, parent_in, links_in, has_row, has_entries, listing, without_entry, most_name};
ghost use Rattle.nfs_tree.specs.Finding.{found_at};
ghost use Rattle.nfs_tree.specs.ByName.{cookies, NamesAnew};
ghost use Rattle.nfs_tree.specs.Maps.{pair_cmp, HasOneRow};
ghost use Rattle.nfs_tree.specs.Names.{with_row};

use crate::by_cookie::ByCookie;
use crate::by_name::ByName;
use crate::counts::Counts;
use crate::list::Listing;
use crate::name::Name;
use crate::row::{Coming, Found, Naming, Row};
use crate::tree::Tree;
use std::alloc::{AllocError, Global};
use std::collections::BTreeMap;
use std::collections::btree_map::Entry;
use std::marker::Model;

/// What each row stands in once.
#[derive(Drop)]
struct Tables {
    /// Each under its cookie.
    rows: ByCookie,
    /// The cookie of each, under its directory and its name.
    names: ByName,
    /// The directory and the cookie of each.
    listed: BTreeMap<(u64, u64), (), Global>,
    /// The object and the cookie of each.
    owned: BTreeMap<(u64, u64), (), Global>,
}

/// The rows of all directories. Contracts see the list of them, in rising order of their cookies.
#[derive(Drop)]
pub(crate) struct Rows {
    tables: Tables,
    /// How many name each object.
    counts: Counts,
}

impl Model for Rows {
    ghost use Rattle.std.specs.Prelude.{List};
    ghost use Rattle.nfs_tree.specs.declared.row.Row.{Row};
    ghost use Rattle.nfs_tree.specs.ByName.{cookies};
    ghost use Rattle.nfs_tree.specs.Counts.{further};
    ghost use Rattle.nfs_tree.specs.Maps.{AreMapped};

    ghost Value = { List Row };

    ghost view = { λ t. t.tables.rows };

    ghost invariant = { λ t. AreMapped t.tables.rows (cookies t.tables.names) t.tables.listed.entries t.tables.owned.entries (further t.counts) };
}

impl Rows {
    /// No rows. What comes later grows by `alloc`.
    pub(crate) fn new(alloc: Global) -> Rows
        ensures { result ≡ [] }
    {
        let tables = Tables {
            rows: ByCookie::new(alloc),
            names: ByName::new(alloc),
            listed: BTreeMap::new(alloc),
            owned: BTreeMap::new(alloc),
        };
        Rows {
            tables,
            counts: Counts::new(alloc),
        }
    }

    pub(crate) fn len(&self) -> usize
        ensures { result ≡ length self.now }
    {
        self.tables.rows.len()
    }

    /// The entry of a name in a directory.
    pub(crate) fn find(&self, directory: u64, name: &[u8]) -> Option<Found>
        ensures { result ≡ found_at self.now directory name.now }
    {
        let names = &self.tables.names;
        if name.len() > Tree::MAX_NAME {
            return None;
        }
        match names.get(directory, name) {
            None => None,
            Some(cookie) => match self.tables.rows.row(cookie) {
                None => None,
                Some(row) => Some(Found {
                    object: row.object,
                    cookie,
                }),
            },
        }
    }

    /// The entries of a directory behind a cookie.
    pub(crate) fn list(&self, directory: u64, cookie: u64) -> Listing<'_>
        ensures { result ≡ listing self.now directory cookie }
    {
        Listing::new(&self.tables.rows, &self.tables.listed, directory, cookie)
    }

    /// Whether a row stands in the directory.
    pub(crate) fn has_entries(&self, directory: u64) -> bool
        ensures { result ≡ has_entries self.now directory }
    {
        match first_from(&self.tables.listed, directory, 0) {
            None => false,
            Some(_) => true,
        }
    }

    /// The first row that names the object, with the key at which it stands.
    pub(crate) fn first_of(&self, object: u64) -> Option<(u32, &Naming)>
        ensures { option_map (λ r. r.1.now.directory) result ≡ parent_in self.now object }
    {
        match first_from(&self.tables.owned, object, 0) {
            None => None,
            Some(first) => self.tables.rows.row_at(first),
        }
    }

    /// The directory of the first row that names the object.
    pub(crate) fn parent_in(&self, object: u64) -> Option<u64>
        ensures { result ≡ parent_in self.now object }
    {
        match self.first_of(object) {
            None => None,
            Some((_, row)) => Some(row.directory),
        }
    }

    /// The row of the directory in which the row at a key stands, with its own key: two looks where it was seen before.
    pub(crate) fn above(&self, key: u32, row: &Naming) -> Option<(u32, &Naming)>
        requires { HasOneRow self.now row.now.directory }
        ensures { option_map (λ r. r.1.now.directory) result ≡ parent_in self.now row.now.directory }
    {
        if let Some((at, above)) = self.tables.rows.seen_above(key, row) {
            return Some((at, above));
        }
        match self.first_of(row.directory) {
            None => None,
            Some((at, above)) => {
                self.tables.rows.note_above(key, at);
                Some((at, above))
            }
        }
    }

    /// How many rows name the object.
    pub(crate) fn links_in(&self, object: u64) -> u64
        ensures { result ≡ links_in self.now object }
    {
        if self.has_row(object) {
            self.counts.of(object) + 1
        } else {
            0
        }
    }

    /// Whether a row names the object.
    pub(crate) fn has_row(&self, object: u64) -> bool
        ensures { result ≡ has_row self.now object }
    {
        match first_from(&self.tables.owned, object, 0) {
            None => false,
            Some(_) => true,
        }
    }

    /// Puts an entry behind all rows; the one that was found under the name goes.
    pub(crate) fn put(
        &mut self,
        alloc: Global,
        to: &Coming,
        replaced: Option<Found>,
    ) -> Result<(), AllocError>
        requires short { length to.now.name.now ≤ most_name }
        requires last { IsRising (λ r. r.cookie) 3 self.old to.now.cookie }
        requires named { to.now.named ≡ has_row self.old to.now.object }
        requires replaced { replaced ≡ found_at self.old to.now.directory to.now.name.now }
        ensures ok { OnOk result (self.new ≡ with_row (without_entry to.now.directory to.now.name.now self.old) to.now.directory to.now.name.now to.now.object to.now.cookie) }
        ensures err { OnErr result (self.new ≡ self.old) }
    {
        let kept = Name::of(alloc, to.name)?;
        let row = Row {
            directory: to.directory,
            name: kept,
            object: to.object,
            cookie: to.cookie,
        };
        self.counts.add(to.object, to.named)?;
        let added = self.tables.add(alloc, to.name, row);
        if let Err(fault) = added {
            self.counts.take(to.object);
            return Err(fault);
        }
        if let Some(loser) = replaced {
            take(
                &mut self.tables.rows,
                &mut self.tables.listed,
                to.directory,
                loser.cookie,
            );
            take_pair(&mut self.tables.owned, loser.object, loser.cookie);
            self.counts.take(loser.object);
        }
        Ok(())
    }

    /// Puts an entry of a new name behind all rows.
    pub(crate) fn put_new(&mut self, alloc: Global, to: &Coming) -> Result<(), AllocError>
        requires vacant { entry self.old to.now.directory to.now.name.now ≡ None }
        requires short { length to.now.name.now ≤ most_name }
        requires last { IsRising (λ r. r.cookie) 3 self.old to.now.cookie }
        requires named { to.now.named ≡ has_row self.old to.now.object }
        ensures ok { OnOk result (self.new ≡ with_row self.old to.now.directory to.now.name.now to.now.object to.now.cookie) }
        ensures err { OnErr result (self.new ≡ self.old) }
    {
        self.put(alloc, to, None)
    }

    /// Drops the entry that was found under the name.
    pub(crate) fn drop_entry(&mut self, directory: u64, name: &[u8], gone: Found)
        requires { Some gone ≡ found_at self.old directory name.now }
        ensures { self.new ≡ without_entry directory name.now self.old }
    {
        self.tables.names.remove(directory, name);
        take(
            &mut self.tables.rows,
            &mut self.tables.listed,
            directory,
            gone.cookie,
        );
        take_pair(&mut self.tables.owned, gone.object, gone.cookie);
        self.counts.take(gone.object);
    }
}

/// The first number behind `number`, from `from` on.
fn first_from(pairs: &BTreeMap<(u64, u64), (), Global>, number: u64, from: u64) -> Option<u64>
    ensures none { IfNone result ((c : ℕ) → from ≤ c → get pair_cmp pairs.now (number, c) ≡ None) }
    ensures there { IfSome result (λ c. IsSome (get pair_cmp pairs.now (number, c))) }
    ensures from { IfSome result (λ c. from ≤ c) }
    ensures least { IfSome result (λ c. (x : ℕ) → from ≤ x → IsSome (get pair_cmp pairs.now (number, x)) → c ≤ x) }
{
    let mut keys = pairs.range((number, from)..);
    match keys.next() {
        None => None,
        Some((key, _)) => { if key.0 == number { Some(key.1) } else { None } }
    }
}

/// Puts a row behind the others, and its cookie under its name, or neither.
fn put_named(
    rows: &mut ByCookie,
    names: &mut ByName,
    alloc: Global,
    name: &[u8],
    row: Row,
) -> Result<(), AllocError>
    requires rising { IsRising (λ r. r.cookie) 3 rows.old row.cookie }
    requires short { length name.now ≤ most_name }
    ensures rows { OnOk result (rows.new ≡ rows.old ++ row ∷ []) }
    ensures names { OnOk result (NamesAnew (cookies names.old) (cookies names.new) row.directory name.now (Some row.cookie)) }
    ensures err_rows { OnErr result (rows.new ≡ rows.old) }
    ensures err_names { OnErr result (cookies names.new ≡ cookies names.old) }
{
    let directory = row.directory;
    let cookie = row.cookie;
    rows.push(row)?;
    if let Err(fault) = names.insert(alloc, directory, name, cookie) {
        rows.drop_row(cookie);
        return Err(fault);
    }
    Ok(())
}

impl Tables {
    /// Puts a row into each, or into none.
    fn add(&mut self, alloc: Global, name: &[u8], row: Row) -> Result<(), AllocError>
        requires rising { IsRising (λ r. r.cookie) 3 self.old.rows row.cookie }
        requires short { length name.now ≤ most_name }
        requires new_pair { get pair_cmp self.old.listed (row.directory, row.cookie) ≡ None }
        requires new_owner { get pair_cmp self.old.owned (row.object, row.cookie) ≡ None }
        ensures rows { OnOk result (self.new.rows ≡ self.old.rows ++ row ∷ []) }
        ensures names { OnOk result (NamesAnew (cookies self.old.names) (cookies self.new.names) row.directory name.now (Some row.cookie)) }
        ensures listed { OnOk result (self.new.listed.entries ≡ insert_entry pair_cmp self.old.listed.entries (row.directory, row.cookie) tt) }
        ensures owned { OnOk result (self.new.owned.entries ≡ insert_entry pair_cmp self.old.owned.entries (row.object, row.cookie) tt) }
        ensures err_rows { OnErr result (self.new.rows ≡ self.old.rows) }
        ensures err_names { OnErr result (cookies self.new.names ≡ cookies self.old.names) }
        ensures err_listed { OnErr result (self.new.listed.entries ≡ self.old.listed.entries) }
        ensures err_owned { OnErr result (self.new.owned.entries ≡ self.old.owned.entries) }
    {
        let Tables {
            rows,
            names,
            listed,
            owned,
        } = self;
        let Entry::Vacant(listing) = listed.entry((row.directory, row.cookie))? else {
            return Ok(());
        };
        let Entry::Vacant(owning) = owned.entry((row.object, row.cookie))? else {
            return Ok(());
        };
        put_named(rows, names, alloc, name, row)?;
        listing.insert(());
        owning.insert(());
        Ok(())
    }
}

fn take_pair(pairs: &mut BTreeMap<(u64, u64), (), Global>, number: u64, cookie: u64)
    ensures { (q : ℕ × ℕ) → get pair_cmp pairs.new q ≡ cond (is_at (pair_cmp (number, cookie)) q) None (get pair_cmp pairs.old q) }
{
    pairs.remove(&(number, cookie));
}

fn take(
    rows: &mut ByCookie,
    listed: &mut BTreeMap<(u64, u64), (), Global>,
    directory: u64,
    cookie: u64,
)
    ensures rows { rows.new ≡ without_record (λ r. r.cookie) rows.old cookie }
    ensures listed { (q : ℕ × ℕ) → get pair_cmp listed.new q ≡ cond (is_at (pair_cmp (directory, cookie)) q) None (get pair_cmp listed.old q) }
{
    rows.drop_row(cookie);
    listed.remove(&(directory, cookie));
}
