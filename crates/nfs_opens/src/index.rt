//! Which states belong to a file, a client, an open or an owner, in an order in which they are found by halving.

ghost use Rattle.std.specs.Prelude.{◌≡◌, ◌≢◌, [], true, OnOk};
ghost use Rattle.nfs_xdr.specs.Tables.{In};
ghost use Rattle.nfs_opens.specs.Index.{IsNext, HasPut, HasTaken, pair_of};

use crate::blocks::{Blocks, InBlocks, Search};
use std::alloc::{AllocError, Global};
use std::marker::Model;

/// What a state belongs to, and the state's number.
#[derive(Clone, Copy)]
pub(crate) struct Pair {
    pub(crate) of: u64,
    pub(crate) number: u64,
}

/// What stands in an index for a state. Contracts see what the state belongs to, as a number, and the state's number.
pub(crate) trait Entry: InBlocks {
    ghost use Rattle.std.specs.Prelude.{◌≡◌};
    ghost use Rattle.nfs_opens.specs.declared.index.Pair.{Pair};

    ghost pair: { Self → Pair };

    fn number(&self) -> u64
        ensures { result ≡ (pair self.now).number };
}

/// What states belong to, by which their entries are sought.
pub(crate) trait Sought<T: Entry> {
    ghost use Rattle.std.specs.Prelude.{ℕ, ◌≡◌, ◌==◌};
    ghost use Rattle.nfs_opens.specs.Index.{is_before};

    ghost of: { Self → ℕ };

    /// Whether an entry stands before that of a number, or with `too` is that one.
    fn is_behind(&self, entry: &T, number: u64, too: bool) -> bool
        ensures { result ≡ is_before (of self.now) number too (T.pair entry.now) };

    /// Whether an entry belongs here.
    fn has(&self, entry: &T) -> bool
        ensures { result ≡ ((T.pair entry.now).of == of self.now) };
}

impl InBlocks for Pair {
    ghost use Rattle.std.proofs.Common.{arith};

    const MOST: usize = 256;

    ghost MOST = { 256 };

    ghost several = { Prim.omega arith };
}

impl Entry for Pair {
    ghost pair = { λ p. p };

    fn number(&self) -> u64 {
        self.number
    }
}

/// A file, a client or an open.
impl Sought<Pair> for u64 {
    ghost of = { λ n. n };

    fn is_behind(&self, entry: &Pair, number: u64, too: bool) -> bool {
        entry.of < *self
            || entry.of == *self && (entry.number < number || too && entry.number == number)
    }

    fn has(&self, entry: &Pair) -> bool {
        entry.of == *self
    }
}

/// Where the entry of a number stands among those of one index; with `too`, behind that entry.
#[derive(Drop)]
struct Place<'a, S> {
    of: &'a S,
    number: u64,
    too: bool,
}

impl<T: Entry, S: Sought<T>> Search<T> for Place<'_, S> {
    ghost use Rattle.std.specs.Prelude.{◌==◌};
    ghost use Rattle.nfs_opens.specs.Index.{is_before};

    ghost before = { λ s x. is_before (S.of s.of.now) s.number s.too (T.pair x) };

    ghost is = { λ s x. (T.pair x).of == S.of s.of.now };

    fn skips(&self, item: &T) -> bool {
        self.of.is_behind(item, self.number, self.too)
    }

    fn finds(&self, item: &T) -> bool {
        self.of.has(item)
    }
}

/// The entries of states, in their order. One more may come in while there is room.
#[derive(Drop)]
pub(crate) struct Index<T: Entry> {
    entries: Blocks<T>,
}

impl<T: Entry> Model for Index<T> {
    ghost use Rattle.std.specs.Prelude.{map};
    ghost use Rattle.nfs_opens.specs.Blocks.{Listed};
    ghost use Rattle.nfs_opens.specs.Index.{IsAscending};
    ghost use Rattle.nfs_opens.specs.declared.index.Pair.{Pair};

    ghost Value = { Listed Pair };

    ghost view = { λ x. record { items = map T.pair x.entries.items; ready = x.entries.ready } };

    ghost invariant = { λ x. IsAscending (map T.pair x.entries.items) };
}

impl<T: Entry> Index<T> {
    /// No entries.
    pub(crate) fn new(alloc: Global) -> Self
        ensures { result.items ≡ [] }
    {
        Index {
            entries: Blocks::new(alloc),
        }
    }

    /// The lowest number behind `after` of what belongs to what is sought.
    pub(crate) fn next<S: Sought<T>>(&self, of: &S, after: u64) -> Option<u64>
        ensures { IsNext self.now.items (S.of of.now) after result }
    {
        let place = Place {
            of,
            number: after,
            too: true,
        };
        match self.entries.find(&place) {
            Some(entry) => Some(entry.number()),
            None => None,
        }
    }

    /// Room for one more entry.
    pub(crate) fn reserve(&mut self, alloc: Global) -> Result<(), AllocError>
        ensures items { self.new.items ≡ self.old.items }
        ensures ok { OnOk result (self.new.ready ≡ true) }
        ensures kept { self.old.ready ≡ true → self.new.ready ≡ true }
    {
        self.entries.reserve(alloc)
    }

    /// An entry comes in, which belongs to `of`. It takes no memory.
    pub(crate) fn put<S: Sought<T>>(&mut self, of: &S, new: T)
        requires of { S.of of.now ≡ (T.pair new).of }
        requires ready { self.old.ready ≡ true }
        requires other { (p : Pair) → In p self.old.items → p ≢ T.pair new }
        ensures { HasPut self.old.items (T.pair new) self.new.items }
    {
        let place = Place {
            of,
            number: new.number(),
            too: false,
        };
        self.entries.add(&place, new);
    }

    /// An entry goes.
    pub(crate) fn take<S: Sought<T>>(&mut self, of: &S, number: u64)
        requires { In (pair_of (S.of of.now) number) self.old.items }
        ensures taken { HasTaken self.old.items (pair_of (S.of of.now) number) self.new.items }
        ensures ready { self.new.ready ≡ self.old.ready }
    {
        let place = Place {
            of,
            number,
            too: false,
        };
        self.entries.remove(&place);
    }
}

impl Index<Pair> {
    /// A pair comes in. It takes no memory.
    pub(crate) fn put_pair(&mut self, of: u64, number: u64)
        requires ready { self.old.ready ≡ true }
        requires other { (p : Pair) → In p self.old.items → p ≢ pair_of of number }
        ensures { HasPut self.old.items (pair_of of number) self.new.items }
    {
        self.put(&of, Pair { of, number });
    }
}
