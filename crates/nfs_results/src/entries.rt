//! The entries of a directory, lent from a reply (RFC 8881 section 18.23.2).

ghost use Rattle.std.specs.Prelude.{◌≡◌, [], ◌∷◌, Some, None, MatchOption, length};
ghost use Rattle.nfs_xdr.specs.SheetState.{HasRoom, Puts};
ghost use Rattle.nfs_xdr.specs.Chain.{chain};
ghost use Rattle.nfs_xdr.specs.Text.{IsBytes};
ghost use Rattle.nfs_xdr.specs.Combinators.{passed};
ghost use Rattle.nfs_xdr.specs.Readers.{ReadsPartBy};
ghost use Rattle.nfs_results.specs.Items as table;

use crate::item_reading::entry;
use crate::res::Entry;
use nfs_xdr::{Cursor, Sheet, Unreadable};
use std::marker::Model;

/// Entries as they are spelled, in the order of their cookies. Contracts see the list of them.
#[derive(Drop)]
pub struct Entries<'a> {
    spelled: &'a [u8],
}

impl<'a> Model for Entries<'a> {
    ghost use Rattle.std.specs.Prelude.{List};
    ghost use Rattle.nfs_results.specs.declared.res.Entry.{Entry};
    ghost use Rattle.nfs_results.specs.Entries.{entries_in, AreEntries};

    ghost Value = { List Entry };

    ghost view = { λ e. entries_in e.spelled.now };

    ghost invariant = { λ e. AreEntries e.spelled.now };
}

impl<'a> Entries<'a> {
    /// Puts the entries, each behind a flag, and the flag that ends them.
    pub fn put(&self, out: &mut Sheet)
        requires room { HasRoom out.old ((chain table.entry).spell self.now) }
        ensures { Puts out.old out.new ((chain table.entry).spell self.now) }
    {
        out.put_bytes(self.spelled);
    }

    /// Takes the first entry that is left; `None` behind the last.
    pub fn next(&mut self) -> Option<Entry<'a>>
        ensures { MatchOption result ((self.old ≡ []) × (self.new ≡ [])) (λ e. self.old ≡ e ∷ self.new) }
    {
        let mut cursor = Cursor::new(self.spelled);
        let more = match cursor.flag() {
            Ok(more) => more,
            Err(_) => return None,
        };
        if !more {
            return None;
        }
        match entry(&mut cursor) {
            Ok(first) => {
                self.spelled = cursor.rest();
                Some(first)
            }
            Err(_) => None,
        }
    }

    /// Reads entries up to the flag that ends them.
    pub fn read(c: &mut Cursor<'a>) -> Result<Entries<'a>, Unreadable>
        ensures { ReadsPartBy (λ e. e) result ((chain table.entry).read c.old) c.new }
    {
        let front = c.rest();
        let whole = size(front);
        pass(c)?;
        Ok(Entries {
            spelled: &front[..whole.saturating_sub(c.left())],
        })
    }
}

fn size(bytes: &[u8]) -> usize
    ensures value { result ≡ length bytes.now }
    ensures bytes { IsBytes bytes.now }
{
    bytes.len()
}

/// Passes over entries, and over the flag that ends them. There are no more flags than bytes.
fn pass(c: &mut Cursor<'_>) -> Result<(), Unreadable>
    ensures { ReadsPartBy (λ u. u) result (passed ((chain table.entry).read c.old)) c.new }
{
    let most = c.left();
    for _ in 0..most {
        if !c.flag()? {
            return Ok(());
        }
        entry(c)?;
    }
    Err(Unreadable)
}
