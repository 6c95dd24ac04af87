//! How the lists of locks follow what lock states hold, and how what is found in them is told.

ghost use Rattle.std.specs.Prelude.{◌≡◌, ◌≤◌, ◌+◌, ◌-◌, ◌^◌, ◌==◌, ◌&&◌, not, nat_le, max, min, OnOk, is_ok, find, option_map};
ghost use Rattle.std.specs.Bool.{OnTrue};
ghost use Rattle.nfs_ranges.specs.declared.Held.{Held};
ghost use Rattle.nfs_ranges.specs.Facts.{Tells};
ghost use Rattle.nfs_ranges.specs.Blocks.{flat};
ghost use Rattle.nfs_ranges.specs.Holders.{at, bytes_of};
ghost use Rattle.nfs_ranges.specs.Clashes.{held_by, hits};
ghost use Rattle.nfs_ranges.specs.Groups.{AreKept};
ghost use Rattle.nfs_ranges.specs.Listing.{Has, IsApart, HasPart, AreListed};

use super::groups::{Group, first_clash, hit_of};
use super::interval::Interval;
use super::listing::{Listings, Part, Wish};
use super::{Held, Kind};
use std::alloc::{AllocError, Global};

/// The bytes of a lock state on which an edit of `first` to `last` can change an interval: those, and one on either side.
pub(super) fn part_of(owner: u64, first: u64, last: u64) -> Part
    ensures owner { result.owner ≡ owner }
    ensures first { result.first ≡ first - 1 }
    ensures last { result.last ≡ min (last + 1) (2 ^ 64 - 1) }
{
    Part {
        owner,
        first: first.saturating_sub(1),
        last: last.saturating_add(1),
    }
}

/// An interval of a lock state, as it is listed and told.
fn held_by(owner: u64, x: Interval) -> Held
    ensures { result ≡ held_by owner x }
{
    Held {
        owner,
        kind: x.kind,
        first: x.first,
        last: x.last,
    }
}

/// A lock state's intervals with a byte of the part go out of the lists.
pub(super) fn unlist(groups: &[Group], listings: &mut Listings, part: &Part)
    requires { AreKept groups.now }
    ensures reads { (h : Held) → IsApart part.now h → Has listings.old.reads h → Has listings.new.reads h }
    ensures writes { (h : Held) → IsApart part.now h → Has listings.old.writes h → Has listings.new.writes h }
{
    let mut from = part.first;
    while let Some(x) = hit_of(groups, part.owner, Kind::Write, from, part.last) {
        let last = listings.cut(held_by(part.owner, x), part).max(from);
        if part.last <= last {
            return;
        }
        from = last + 1;
    }
}

/// A lock state's intervals with a byte of the part come into the lists.
///
/// `Err`: no memory, and some may not have come.
pub(super) fn relist(
    groups: &[Group],
    listings: &mut Listings,
    alloc: Global,
    part: &Part,
) -> Result<(), AllocError>
    requires { AreKept groups.now }
    ensures ok { OnOk result (HasPart (flat groups.now) part.now listings.new.reads listings.new.writes) }
    ensures reads { (h : Held) → Has listings.old.reads h → Has listings.new.reads h }
    ensures writes { (h : Held) → Has listings.old.writes h → Has listings.new.writes h }
{
    let mut from = part.first;
    while let Some(x) = hit_of(groups, part.owner, Kind::Write, from, part.last) {
        listings.insert(alloc, held_by(part.owner, x))?;
        if part.last <= x.last {
            return Ok(());
        }
        from = x.last + 1;
    }
    Ok(())
}

/// All is listed still if it was, and if nothing lacked memory.
pub(super) fn still(were_listed: bool, listed: Result<(), AllocError>) -> bool
    ensures { result ≡ (were_listed && is_ok listed) }
{
    were_listed && listed.is_ok()
}

/// The interval by which what was found in the lists clashes, as its lock state holds it.
fn told_by(groups: &[Group], found: Held, wish: &Wish) -> Option<Held>
    requires { AreKept groups.now }
    ensures { result ≡ option_map (held_by found.owner) (find (hits wish.now.kind wish.now.first wish.now.last) (bytes_of (flat groups.now) found.owner)) }
{
    let x = hit_of(groups, found.owner, wish.kind, wish.first, wish.last)?;
    Some(held_by(found.owner, x))
}

/// The lock state is another's, and clashes on no later byte than was found in the lists.
fn is_so(found: Held, told: Held, wish: &Wish) -> bool
    ensures { result ≡ (not (found.owner == wish.now.owner) && nat_le (max told.first wish.now.first) (max found.first wish.now.first)) }
{
    found.owner != wish.owner && told.first.max(wish.first) <= found.first.max(wish.first)
}

/// The lock that stands against a wish, by the lists. Where these lack something for want of memory, all lock states are asked.
pub(super) fn clash(
    groups: &[Group],
    listings: &Listings,
    are_listed: bool,
    wish: &Wish,
) -> Option<Held>
    requires range { wish.now.first ≤ wish.now.last }
    requires groups { AreKept groups.now }
    requires listed { OnTrue are_listed (AreListed (flat groups.now) listings.now.reads listings.now.writes) }
    ensures { Tells (at (flat groups.now)) wish.now.owner wish.now.kind wish.now.first wish.now.last result }
{
    if are_listed {
        let Some(found) = listings.soonest(wish) else {
            return None;
        };
        if let Some(told) = told_by(groups, found, wish) {
            if is_so(found, told, wish) {
                return Some(told);
            }
        }
    }
    first_clash(groups, wish.owner, wish.kind, wish.first, wish.last)
}
