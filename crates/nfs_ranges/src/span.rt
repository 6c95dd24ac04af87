//! What is known of intervals at once, so that a wish can pass over all of them.

ghost use Rattle.std.specs.Prelude.{◌≡◌, ◌||◌, List, None, find};
ghost use Rattle.std.specs.Bool.{OnTrue};
ghost use Rattle.nfs_ranges.specs.declared.interval.Interval.{Interval};
ghost use Rattle.nfs_ranges.specs.Owners.{IsSpanOf};
ghost use Rattle.nfs_ranges.specs.Clashes.{hits};
ghost use Rattle.nfs_ranges.specs.Told.{is_write};

use super::Kind;

/// Intervals lie from `first` to `last`, and unless `writes` none of them is held for writing.
#[derive(Clone, Copy)]
pub(super) struct Span {
    pub(super) first: u64,
    pub(super) last: u64,
    pub(super) writes: bool,
}

impl Span {
    /// Whether one of the intervals may be held for writing once one of this kind has come.
    pub(super) fn writes_with(&self, kind: Kind) -> bool
        ensures { result ≡ (self.now.writes || is_write kind) }
    {
        self.writes || kind.is_write()
    }

    /// No interval stands against a wish to lock the range: all lie apart from it, or are held for reading like it.
    pub(super) fn lets_pass(&self, kind: Kind, first: u64, last: u64) -> bool
        ensures { OnTrue result ((xs : List Interval) → IsSpanOf self.now xs → find (hits kind first last) xs ≡ None) }
    {
        last < self.first || self.last < first || !(self.writes || kind.is_write())
    }
}
