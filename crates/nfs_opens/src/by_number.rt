//! States by their numbers.

ghost use Rattle.std.specs.Prelude.{◌≡◌, ◌==◌, ◌<◌, ◌++◌, ◌∷◌, [], true, not, length, filter, find, map, if◌then◌else◌, OnOk, ℕ, min};
ghost use Rattle.std.specs.Option.{option_copied};
ghost use Rattle.nfs_xdr.specs.Tables.{In};
ghost use Rattle.nfs_opens.specs.Index.{IsIndex, first_behind};
ghost use Rattle.nfs_opens.specs.TableInvariants.{Rises};
ghost use Rattle.nfs_opens.specs.StateId.{last_number};

use crate::blocks::{Blocks, Search};
use crate::index::{Entry, Index, Sought};
use crate::records::{State, StateChange};
use std::alloc::{AllocError, Global};
use std::marker::Model;

/// The state of a number.
#[derive(Clone, Copy)]
struct Numbered {
    number: u64,
}

impl<T: State> Search<T> for Numbered {
    ghost use Rattle.std.specs.Prelude.{◌==◌, nat_lt};

    ghost before = { λ s x. nat_lt (T.number x) s.number };

    ghost is = { λ s x. T.number x == s.number };

    fn skips(&self, item: &T) -> bool {
        item.number() < self.number
    }

    fn finds(&self, item: &T) -> bool {
        item.number() == self.number
    }
}

/// All opens or all lock states in rising order of their numbers. One more may come while there is room.
#[derive(Drop)]
pub(crate) struct ByNumber<T: State> {
    states: Blocks<T>,
}

impl<T: State> Model for ByNumber<T> {
    ghost use Rattle.nfs_opens.specs.Blocks.{Listed};
    ghost use Rattle.nfs_opens.specs.TableInvariants.{Rises};

    ghost Value = { Listed T };

    ghost view = { λ t. t.states };

    ghost invariant = { λ t. Rises T.number 1 t.states.items };
}

impl<T: State> ByNumber<T> {
    /// No states.
    pub(crate) fn new(alloc: Global) -> Self
        ensures { result.items ≡ [] }
    {
        ByNumber {
            states: Blocks::new(alloc),
        }
    }

    /// What always holds; moves nothing.
    pub(crate) fn kept(&self)
        ensures { Rises T.number 1 self.now.items }
    {
        let _ = &self.states;
    }

    /// How many states there are, or the greatest number where there are more.
    pub(crate) fn len(&self) -> u64
        ensures { result ≡ min (length self.now.items) last_number }
    {
        self.states.len()
    }

    /// The state of a number.
    pub(crate) fn get(&self, number: u64) -> Option<&T>
        ensures { option_copied result ≡ find (λ x. T.number x == number) self.now.items }
    {
        self.states.find(&Numbered { number })
    }

    /// The state with the lowest number behind `after` of those that belong to what is sought, by an index of them.
    pub(crate) fn next_by<E: Entry, S: Sought<E>>(
        &self,
        index: &Index<E>,
        of: &S,
        after: u64,
    ) -> Option<&T>
        ensures next { (f : T → ℕ) → IsIndex f T.number self.now.items index.now.items → option_copied result ≡ first_behind f T.number (S.of of.now) after self.now.items }
        ensures first { (f : T → ℕ) → IsIndex f T.number self.now.items index.now.items → after ≡ 0 → option_copied result ≡ find (λ x. f x == S.of of.now) self.now.items }
    {
        self.kept();
        match index.next(of, after) {
            Some(number) => self.get(number),
            None => None,
        }
    }

    /// Room for one more state.
    pub(crate) fn reserve(&mut self, alloc: Global) -> Result<(), AllocError>
        ensures items { self.new.items ≡ self.old.items }
        ensures ok { OnOk result (self.new.ready ≡ true) }
        ensures kept { self.old.ready ≡ true → self.new.ready ≡ true }
    {
        self.states.reserve(alloc)
    }

    /// A state comes behind all others. It takes no memory.
    pub(crate) fn push(&mut self, new: T)
        requires ready { self.old.ready ≡ true }
        requires behind { (x : T) → In x self.old.items → T.number x < T.number new }
        requires first { 0 < T.number new }
        ensures { self.new.items ≡ self.old.items ++ new ∷ [] }
    {
        self.states.push(new);
    }

    /// The state of a number goes.
    pub(crate) fn remove(&mut self, number: u64)
        ensures items { self.new.items ≡ filter (λ x. not (T.number x == number)) self.old.items }
        ensures ready { self.new.ready ≡ self.old.ready }
    {
        self.states.remove(&Numbered { number });
    }

    /// The state of a number changes.
    pub(crate) fn change<C: StateChange<T>>(&mut self, number: u64, change: &C)
        ensures items { self.new.items ≡ map (λ x. if T.number x == number then C.changed change.now x else x) self.old.items }
        ensures ready { self.new.ready ≡ self.old.ready }
    {
        self.states.change(&Numbered { number }, change);
    }
}
