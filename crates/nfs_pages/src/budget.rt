//! How many pages there may be.

ghost use Rattle.std.specs.Prelude.{◌≡◌, ◌+◌, ◌-◌, ◌^◌, min, nat_lt};

/// How many pages may be taken, and how many are. A page is taken from the moment on at which it has memory until that
/// goes, so bytes that are cut within it leave it taken.
#[derive(Clone, Copy)]
pub(crate) struct Budget {
    /// The most that may be taken.
    pub(crate) most: u64,
    /// How many are.
    pub(crate) taken: u64,
}

impl Budget {
    /// Nothing is taken, and as much may be as memory holds.
    pub(crate) const UNBOUNDED: Budget = Budget {
        most: u64::MAX,
        taken: 0,
    };

    /// Whether one page more may be taken.
    pub(crate) fn has_page(&self) -> bool
        ensures { result ≡ nat_lt self.now.taken self.now.most }
    {
        self.taken < self.most
    }

    /// Counts a page that has its memory.
    pub(crate) fn take(&mut self)
        ensures { self.new ≡ record { most = self.old.most; taken = min (self.old.taken + 1) (2 ^ 64 - 1) } }
    {
        self.taken = self.taken.saturating_add(1);
    }

    /// Counts no longer so many pages, whose memory goes.
    pub(crate) fn give_back(&mut self, pages: u64)
        ensures { self.new ≡ record { most = self.old.most; taken = self.old.taken - pages } }
    {
        self.taken = self.taken.saturating_sub(pages);
    }
}
