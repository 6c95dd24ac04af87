//! Owners in groups, so that one that comes or goes moves those of its group alone.

ghost use Rattle.std.specs.Prelude.{◌≡◌, ◌<◌, ◌≤◌, ◌++◌, ◌∷◌, [], OnOk, OnErr, IfOk, length, find, None, false, ℕ, suc, ◌+◌};
ghost use Rattle.std.specs.Bool.{OnTrue};
ghost use Rattle.nfs_ranges.specs.declared.Kind.{Kind};
ghost use Rattle.nfs_ranges.specs.Intervals.{without, with_range};
ghost use Rattle.nfs_ranges.specs.Clashes.{hits, sooner, tell};
ghost use Rattle.nfs_ranges.specs.Holders.{LockedBytes, bytes_of, at};
ghost use Rattle.nfs_ranges.specs.Owners.{AreCanonical, is_empty, with_owner};
ghost use Rattle.nfs_ranges.specs.Blocks.{flat, AreSome, block_at, spot};
ghost use Rattle.nfs_ranges.specs.Groups.{AreKept, AreSame, AreSomeBut, IsPut, are_below, last_number};

use super::interval::Interval;
use super::owners::{Owner, clear_among, drop_among, hit_among, is_absent, kind_among, set_among};
use super::{Held, Kind};
use std::alloc::{AllocError, Global};
use std::marker::Model;

/// A group with so many owners is split before one comes.
const MOST: usize = 64;

/// Owners that stand next to each other.
#[derive(Drop)]
pub(super) struct Group {
    owners: Vec<Owner>,
}

impl Model for Group {
    ghost use Rattle.nfs_ranges.specs.Holders.{LockedBytes};

    ghost Value = { LockedBytes };

    ghost view = { λ g. g.owners.items };
}

/// Of two that clash, the one that does so on the lower byte from `first` on, and else the first.
fn sooner(first: u64, best: Option<Held>, next: Option<Held>) -> Option<Held>
    ensures { result ≡ sooner first best next }
{
    let Some(b) = best else {
        return next;
    };
    match next {
        Some(c) if c.first.max(first) < b.first.max(first) => next,
        _ => best,
    }
}

/// Nothing that comes behind is told in its place: it clashes on the first byte of the range.
fn stays_told(first: u64, best: Option<Held>) -> bool
    ensures { OnTrue result ((s : ℕ) (k : Kind) (last : ℕ) (os : LockedBytes) → tell s k first last best os ≡ best) }
{
    match best {
        Some(b) => b.first <= first,
        None => false,
    }
}

/// What is told of a wish to lock the range, where this was found before.
fn clash_among(
    owners: &[Owner],
    best: Option<Held>,
    number: u64,
    kind: Kind,
    first: u64,
    last: u64,
) -> Option<Held>
    requires { AreCanonical owners.now }
    ensures { result ≡ tell number kind first last best owners.now }
{
    let mut told = best;
    for o in owners {
        if let Some(c) = o.clash(number, kind, first, last) {
            told = sooner(first, told, Some(c));
            if stays_told(first, told) {
                return told;
            }
        }
    }
    told
}

impl Group {
    /// One owner alone, with one range.
    fn one(
        alloc: Global,
        number: u64,
        kind: Kind,
        first: u64,
        last: u64,
    ) -> Result<Group, AllocError>
        ensures { IfOk result (λ g. g ≡ record { number = number; intervals = record { kind = kind; first = first; last = last } ∷ [] } ∷ []) }
    {
        let owner = Owner::new(alloc, number, kind, first, last)?;
        let mut owners = Vec::with_capacity(alloc, 1)?;
        owners.push(owner)?;
        Ok(Group { owners })
    }

    fn owners(&self) -> &[Owner]
        ensures { result.now ≡ self.now }
    {
        &self.owners
    }

    fn is_empty(&self) -> bool
        ensures { result ≡ is_empty self.now }
    {
        self.owners.is_empty()
    }

    /// The number of the last owner.
    fn last_number(&self) -> u64
        ensures { result ≡ last_number self.now }
    {
        match self.owners.last() {
            Some(o) => o.number(),
            None => 0,
        }
    }

    fn set(
        &mut self,
        alloc: Global,
        number: u64,
        kind: Kind,
        first: u64,
        last: u64,
    ) -> Result<(), AllocError>
        requires range { first ≤ last }
        requires owners { AreCanonical self.old }
        ensures ok { OnOk result (self.new ≡ with_owner number (with_range (record { kind = kind; first = first; last = last }) (bytes_of self.old number)) self.old) }
        ensures err { OnErr result (self.new ≡ self.old) }
    {
        set_among(&mut self.owners, alloc, number, kind, first, last)
    }

    fn clear(&mut self, alloc: Global, number: u64, first: u64, last: u64) -> Result<(), AllocError>
        requires range { first ≤ last }
        requires owners { AreCanonical self.old }
        ensures ok { OnOk result (self.new ≡ with_owner number (without first last (bytes_of self.old number)) self.old) }
        ensures err { OnErr result (self.new ≡ self.old) }
    {
        clear_among(&mut self.owners, alloc, number, first, last)
    }

    fn drop_owner(&mut self, number: u64)
        requires { AreCanonical self.old }
        ensures { self.new ≡ with_owner number [] self.old }
    {
        drop_among(&mut self.owners, number);
    }

    /// The second half of the owners goes into a group of its own.
    ///
    /// `Err`: no memory, and nothing has changed.
    fn split(&mut self, alloc: Global) -> Result<Group, AllocError>
        requires { 2 ≤ length self.old }
        ensures both { IfOk result (λ g. (self.new ++ g ≡ self.old) × (is_empty self.new ≡ false) × (is_empty g ≡ false)) }
        ensures err { OnErr result (self.new ≡ self.old) }
    {
        let half = self.owners.len() / 2;
        let owners = self.owners.split_off(half)?;
        Ok(Group { owners })
    }
}

/// The group to which an owner belongs: the first that does not end before it, or else the last.
fn group_of(groups: &[Group], number: u64) -> usize
    requires { AreKept groups.now }
    ensures { result ≡ spot (are_below number) groups.now }
{
    groups
        .partition_point(|g| g.last_number() < number)
        .min(groups.len().saturating_sub(1))
}

/// The owners of a group, none where there is no such group.
fn owners_at(groups: &[Group], group: usize) -> &[Owner]
    ensures { result.now ≡ block_at groups.now group }
{
    match groups.get(group) {
        Some(g) => g.owners(),
        None => &[],
    }
}

/// What is told of a wish to lock the range, by a walk over all owners.
pub(super) fn first_clash(
    groups: &[Group],
    number: u64,
    kind: Kind,
    first: u64,
    last: u64,
) -> Option<Held>
    requires { AreKept groups.now }
    ensures { result ≡ tell number kind first last None (flat groups.now) }
{
    let mut best = None;
    for g in groups {
        best = clash_among(g.owners(), best, number, kind, first, last);
        if stays_told(first, best) {
            return best;
        }
    }
    best
}

/// How an owner holds a byte.
pub(super) fn kind_of(groups: &[Group], number: u64, byte: u64) -> Option<Kind>
    requires { AreKept groups.now }
    ensures { result ≡ at (flat groups.now) number byte }
{
    kind_among(owners_at(groups, group_of(groups, number)), number, byte)
}

/// An owner's first interval that a wish meets.
pub(super) fn hit_of(
    groups: &[Group],
    number: u64,
    kind: Kind,
    first: u64,
    last: u64,
) -> Option<Interval>
    requires { AreKept groups.now }
    ensures { result ≡ find (hits kind first last) (bytes_of (flat groups.now) number) }
{
    hit_among(
        owners_at(groups, group_of(groups, number)),
        number,
        kind,
        first,
        last,
    )
}

/// Whether an owner holds nothing.
pub(super) fn holds_none(groups: &[Group], number: u64) -> bool
    requires { AreKept groups.now }
    ensures { result ≡ is_empty (bytes_of (flat groups.now) number) }
{
    is_absent(owners_at(groups, group_of(groups, number)), number)
}

/// A group that is full becomes two.
///
/// `Err`: no memory.
fn split_full(groups: &mut Vec<Group>, alloc: Global, group: usize) -> Result<(), AllocError>
    requires bound { group < length groups.old.items }
    requires some { AreSome groups.old.items }
    ensures same { AreSame groups.old.items groups.new.items }
    ensures bound { length groups.old.items ≤ length groups.new.items }
{
    if groups[group].owners.len() < MOST {
        return Ok(());
    }
    groups.reserve(1)?;
    let behind = groups[group].split(alloc)?;
    groups.insert(group + 1, behind).unwrap();
    Ok(())
}

/// The owner holds the bytes from `first` to `last` with this kind from now on.
///
/// `Err`: no memory, and the owners hold what they held.
pub(super) fn set(
    groups: &mut Vec<Group>,
    alloc: Global,
    number: u64,
    kind: Kind,
    first: u64,
    last: u64,
) -> Result<(), AllocError>
    requires range { first ≤ last }
    requires groups { AreKept groups.old.items }
    ensures ok { OnOk result (IsPut number (with_range (record { kind = kind; first = first; last = last }) (bytes_of (flat groups.old.items) number)) groups.old.items groups.new.items) }
    ensures err { OnErr result (AreSame groups.old.items groups.new.items) }
{
    if groups.is_empty() {
        let group = Group::one(alloc, number, kind, first, last)?;
        groups.push(group)?;
        return Ok(());
    }
    let full = group_of(groups, number);
    split_full(groups, alloc, full)?;
    let group = group_of(groups, number);
    groups[group].set(alloc, number, kind, first, last)
}

/// A group that has become empty goes.
fn tidy(groups: &mut Vec<Group>, group: usize)
    requires bound { group < length groups.old.items }
    requires some { AreSomeBut group groups.old.items }
    ensures { AreSame groups.old.items groups.new.items }
{
    if groups[group].is_empty() {
        let _ = groups.remove(group);
    }
}

/// The owner holds none of the bytes from `first` to `last` from now on; with its last byte it goes.
///
/// Where the range covers all that it holds, no memory is asked for.
///
/// `Err`: no memory, and the owners hold what they held.
pub(super) fn clear(
    groups: &mut Vec<Group>,
    alloc: Global,
    number: u64,
    first: u64,
    last: u64,
) -> Result<(), AllocError>
    requires range { first ≤ last }
    requires groups { AreKept groups.old.items }
    ensures ok { OnOk result (IsPut number (without first last (bytes_of (flat groups.old.items) number)) groups.old.items groups.new.items) }
    ensures err { OnErr result (AreSame groups.old.items groups.new.items) }
{
    if groups.is_empty() {
        return Ok(());
    }
    let group = group_of(groups, number);
    let made = groups[group].clear(alloc, number, first, last);
    tidy(groups, group);
    made
}

/// The owner holds nothing from now on.
pub(super) fn drop_owner(groups: &mut Vec<Group>, number: u64)
    requires { AreKept groups.old.items }
    ensures { IsPut number [] groups.old.items groups.new.items }
{
    if groups.is_empty() {
        return;
    }
    let group = group_of(groups, number);
    groups[group].drop_owner(number);
    tidy(groups, group);
}
