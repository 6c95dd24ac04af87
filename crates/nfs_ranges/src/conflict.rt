//! Which kinds of locks belong together, and which clash (RFC 8881 section 9.1).

ghost use Rattle.std.specs.Prelude.{◌≡◌, Some};
ghost use Rattle.nfs_ranges.specs.Intervals.{is_same};
ghost use Rattle.nfs_ranges.specs.Told.{is_write, meets};

use super::Kind;

impl Kind {
    /// Bytes held in the two ways belong to one run.
    pub(super) fn is_same(self, other: Kind) -> bool
        ensures { result ≡ is_same self other }
    {
        matches!(
            (self, other),
            (Kind::Read, Kind::Read) | (Kind::Write, Kind::Write)
        )
    }

    pub(super) fn is_write(self) -> bool
        ensures { result ≡ is_write self }
    {
        matches!(self, Kind::Write)
    }

    /// Wanted in this way, the byte clashes with one that another lock state holds.
    pub(super) fn meets(self, held: Kind) -> bool
        ensures { result ≡ meets self (Some held) }
    {
        self == Kind::Write || held == Kind::Write
    }
}
