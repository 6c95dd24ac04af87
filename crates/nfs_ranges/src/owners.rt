//! The lock states of a file that hold a byte, in rising order of their numbers.

ghost use Rattle.std.specs.Prelude.{◌≡◌, ◌<◌, ◌≤◌, OnOk, OnErr, IfOk, [], ◌∷◌, length, drop, find};
ghost use Rattle.std.specs.Bool.{OnTrue};
ghost use Rattle.nfs_ranges.specs.Intervals.{IsCanonical, without, with_range};
ghost use Rattle.nfs_ranges.specs.Edits.{lead, head};
ghost use Rattle.nfs_ranges.specs.Clashes.{clash_of, hits};
ghost use Rattle.nfs_ranges.specs.Holders.{bytes_of, kind_at, at};
ghost use Rattle.nfs_ranges.specs.Owners.{AreCanonical, is_empty, with_owner};
ghost use Rattle.nfs_ranges.specs.Groups.{is_below, is_own};

use super::edits::Intervals;
use super::interval::Interval;
use super::span::Span;
use super::{Held, Kind};
use std::alloc::{AllocError, Global};
use std::marker::Model;

/// The bytes that one lock state holds.
///
/// Owners are walked over and moved, so each is kept short: its intervals stand in a box.
#[derive(Drop)]
pub(super) struct Owner {
    number: u64,
    span: Span,
    intervals: Box<Intervals>,
}

impl Model for Owner {
    ghost use Rattle.nfs_ranges.specs.Holders.{Owned};
    ghost use Rattle.nfs_ranges.specs.Owners.{IsSpanOf};

    ghost Value = { Owned };

    ghost view = { λ o. record { number = o.number; intervals = o.intervals.value } };

    ghost invariant = { λ o. IsSpanOf o.span o.intervals.value };
}

impl Owner {
    /// It holds one range.
    pub(super) fn new(
        alloc: Global,
        number: u64,
        kind: Kind,
        first: u64,
        last: u64,
    ) -> Result<Owner, AllocError>
        ensures { IfOk result (λ o. o ≡ record { number = number; intervals = record { kind = kind; first = first; last = last } ∷ [] }) }
    {
        let intervals = Intervals::one(alloc, Interval { kind, first, last })?;
        let writes = kind.is_write();
        Ok(Owner {
            number,
            span: Span {
                first,
                last,
                writes,
            },
            intervals: Box::new(alloc, intervals)?,
        })
    }

    pub(super) fn number(&self) -> u64
        ensures { result ≡ self.now.number }
    {
        self.number
    }

    fn kind_at(&self, byte: u64) -> Option<Kind>
        requires { IsCanonical self.now.intervals }
        ensures { result ≡ kind_at self.now.intervals byte }
    {
        self.intervals.kind_at(byte)
    }

    fn is_empty(&self) -> bool
        ensures { result ≡ is_empty self.now.intervals }
    {
        self.intervals.is_empty()
    }

    fn set(&mut self, alloc: Global, kind: Kind, first: u64, last: u64) -> Result<(), AllocError>
        requires range { first ≤ last }
        requires canonical { IsCanonical self.old.intervals }
        ensures ok { OnOk result (self.new ≡ record self.old { intervals = with_range (record { kind = kind; first = first; last = last }) self.old.intervals }) }
        ensures err { OnErr result (self.new ≡ self.old) }
    {
        self.intervals.set(alloc, kind, first, last)?;
        // no walk for the flag: one that stays where no WRITE is left costs time alone
        let writes = self.span.writes_with(kind);
        self.span = self.intervals.span(writes);
        Ok(())
    }

    fn clear(&mut self, alloc: Global, first: u64, last: u64) -> Result<(), AllocError>
        requires range { first ≤ last }
        requires canonical { IsCanonical self.old.intervals }
        ensures ok { OnOk result (self.new ≡ record self.old { intervals = without first last self.old.intervals }) }
        ensures err { OnErr result (self.new ≡ self.old) }
    {
        self.intervals.clear(alloc, first, last)?;
        self.span = self.intervals.span(self.span.writes);
        Ok(())
    }
}

impl Owner {
    /// The range covers all that the owner holds.
    fn lies_within(&self, first: u64, last: u64) -> bool
        ensures { OnTrue result (without first last self.now.intervals ≡ []) }
    {
        first <= self.span.first && self.span.last <= last
    }

    /// The owner's first interval that a wish meets.
    fn hit(&self, kind: Kind, first: u64, last: u64) -> Option<Interval>
        requires { IsCanonical self.now.intervals }
        ensures { result ≡ find (hits kind first last) self.now.intervals }
    {
        if self.span.lets_pass(kind, first, last) {
            return None;
        }
        self.intervals.first_hit(kind, first, last)
    }

    /// The owner's first interval that stands against a wish of another.
    pub(super) fn clash(&self, number: u64, kind: Kind, first: u64, last: u64) -> Option<Held>
        requires { IsCanonical self.now.intervals }
        ensures { result ≡ clash_of number kind first last self.now }
    {
        if self.number == number {
            return None;
        }
        let x = self.hit(kind, first, last)?;
        Some(Held {
            owner: self.number,
            kind: x.kind,
            first: x.first,
            last: x.last,
        })
    }
}

/// How many owners have a lower number.
fn place_of(owners: &[Owner], number: u64) -> usize
    requires { AreCanonical owners.now }
    ensures place { result ≡ lead (is_below number) owners.now }
    ensures bound { result ≤ length owners.now }
{
    owners.partition_point(|o| o.number() < number)
}

/// Whether the owner stands at the place.
fn stands_at(owners: &[Owner], place: usize, number: u64) -> bool
    ensures own { result ≡ is_own number (head (drop place owners.now)) }
    ensures bound { OnTrue result (place < length owners.now) }
{
    match owners.get(place) {
        Some(o) => o.number() == number,
        None => false,
    }
}

/// How an owner holds a byte.
pub(super) fn kind_among(owners: &[Owner], number: u64, byte: u64) -> Option<Kind>
    requires { AreCanonical owners.now }
    ensures { result ≡ at owners.now number byte }
{
    let place = place_of(owners, number);
    if stands_at(owners, place, number) {
        return owners[place].kind_at(byte);
    }
    None
}

/// An owner's first interval that a wish meets.
pub(super) fn hit_among(
    owners: &[Owner],
    number: u64,
    kind: Kind,
    first: u64,
    last: u64,
) -> Option<Interval>
    requires { AreCanonical owners.now }
    ensures { result ≡ find (hits kind first last) (bytes_of owners.now number) }
{
    let place = place_of(owners, number);
    if stands_at(owners, place, number) {
        return owners[place].hit(kind, first, last);
    }
    None
}

/// Whether an owner is none of these. Each of them holds something.
pub(super) fn is_absent(owners: &[Owner], number: u64) -> bool
    requires { AreCanonical owners.now }
    ensures { result ≡ is_empty (bytes_of owners.now number) }
{
    let place = place_of(owners, number);
    !stands_at(owners, place, number)
}

/// The owner holds the bytes from `first` to `last` with this kind from now on.
///
/// `Err`: no memory, and nothing has changed.
pub(super) fn set_among(
    owners: &mut Vec<Owner>,
    alloc: Global,
    number: u64,
    kind: Kind,
    first: u64,
    last: u64,
) -> Result<(), AllocError>
    requires range { first ≤ last }
    requires owners { AreCanonical owners.old.items }
    ensures ok { OnOk result (owners.new.items ≡ with_owner number (with_range (record { kind = kind; first = first; last = last }) (bytes_of owners.old.items number)) owners.old.items) }
    ensures err { OnErr result (owners.new.items ≡ owners.old.items) }
{
    let place = place_of(owners, number);
    if stands_at(owners, place, number) {
        return owners[place].set(alloc, kind, first, last);
    }
    let owner = Owner::new(alloc, number, kind, first, last)?;
    owners.insert(place, owner)?;
    Ok(())
}

/// The owner holds none of the bytes from `first` to `last` from now on; with its last byte it goes.
///
/// Where the range covers all that it holds, no memory is asked for.
///
/// `Err`: no memory, and nothing has changed.
pub(super) fn clear_among(
    owners: &mut Vec<Owner>,
    alloc: Global,
    number: u64,
    first: u64,
    last: u64,
) -> Result<(), AllocError>
    requires range { first ≤ last }
    requires owners { AreCanonical owners.old.items }
    ensures ok { OnOk result (owners.new.items ≡ with_owner number (without first last (bytes_of owners.old.items number)) owners.old.items) }
    ensures err { OnErr result (owners.new.items ≡ owners.old.items) }
{
    let place = place_of(owners, number);
    if !stands_at(owners, place, number) {
        return Ok(());
    }
    if owners[place].lies_within(first, last) {
        let _ = owners.remove(place);
        return Ok(());
    }
    let owner = &mut owners[place];
    owner.clear(alloc, first, last)?;
    if owner.is_empty() {
        let _ = owners.remove(place);
    }
    Ok(())
}

/// The owner holds nothing from now on.
pub(super) fn drop_among(owners: &mut Vec<Owner>, number: u64)
    requires { AreCanonical owners.old.items }
    ensures { owners.new.items ≡ with_owner number [] owners.old.items }
{
    let place = place_of(owners, number);
    if stands_at(owners, place, number) {
        let _ = owners.remove(place);
    }
}
