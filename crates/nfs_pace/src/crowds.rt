//! How many places have each number.

ghost use Rattle.std.specs.Prelude.{◌≡◌, ◌≤◌, ◌<◌, ◌+◌, ℕ, if◌then◌else◌, nat_eq, nat_lt, length, replicate, set, get_or, IfOk};
ghost use Rattle.std.specs.List.{count_by};
ghost use Rattle.std.specs.List.Sorted.{IsNonDecreasing};
ghost use Rattle.nfs_pace.specs.Places.{nobody};

use std::alloc::{AllocError, Global};
use std::marker::Model;

/// What a place has that has none.
pub(crate) const NOBODY: u64 = u64::MAX;

/// Places that have a number each, and how many have which: that is looked up.
#[derive(Drop)]
pub(crate) struct Crowds {
    numbers: Vec<u64>,
    /// The same ones, in their order.
    sorted: Vec<u64>,
}

impl Model for Crowds {
    ghost use Rattle.std.specs.Prelude.{◌≡◌, ℕ, List, nat_eq};
    ghost use Rattle.std.specs.List.{count_by};
    ghost use Rattle.std.specs.List.Sorted.{IsNonDecreasing};

    ghost Value = { List ℕ };

    ghost view = { λ c. c.numbers.items };

    ghost invariant = { λ c. IsNonDecreasing c.sorted.items × ((number : ℕ) → count_by (nat_eq number) c.sorted.items ≡ count_by (nat_eq number) c.numbers.items) };
}

impl Crowds {
    /// So many places that have none. `AllocError` where memory is refused.
    pub(crate) fn new(alloc: Global, places: u32) -> Result<Crowds, AllocError>
        ensures { IfOk result (λ c. c ≡ replicate places nobody) }
    {
        let numbers = vec![in alloc; NOBODY; places as usize]?;
        let sorted = vec![in alloc; NOBODY; places as usize]?;
        Ok(Crowds { numbers, sorted })
    }

    /// How many places have the number.
    pub(crate) fn count(&self, number: u64) -> usize
        ensures count { result ≡ count_by (nat_eq number) self.now }
        ensures bound { result ≤ length self.now }
    {
        let number = number as u128;
        let low = below(&self.sorted, number);
        let high = below(&self.sorted, number + 1);
        high - low
    }

    /// The place has this number from now on.
    pub(crate) fn put(&mut self, place: usize, number: u64)
        ensures { self.new ≡ set self.old place number }
    {
        if place >= self.numbers.len() {
            return;
        }
        let before = self.numbers[place];
        if before != number {
            self.numbers[place] = number;
            replace(&mut self.sorted, before, number);
        }
    }
}

/// How many numbers are less than a bound, which may be past all that a `u64` holds.
fn below(sorted: &[u64], bound: u128) -> usize
    requires { IsNonDecreasing sorted.now }
    ensures bound { result ≤ length sorted.now }
    ensures less { (k : ℕ) → k < result → get_or sorted.now k 0 < bound }
    ensures others { (k : ℕ) → result ≤ k → k < length sorted.now → bound ≤ get_or sorted.now k 0 }
{
    sorted.partition_point(
        |other: &u64| -> bool
            ensures { result ≡ nat_lt other.now bound }
        { (*other as u128) < bound },
    )
}

/// Where the first one is that is this number.
fn place_of(sorted: &[u64], number: u64) -> usize
    requires order { IsNonDecreasing sorted.now }
    requires there { 0 < count_by (nat_eq number) sorted.now }
    ensures { (result < length sorted.now) × (get_or sorted.now result 0 ≡ number) }
{
    below(sorted, number as u128)
}

/// One of those that are this number becomes another.
fn replace(sorted: &mut Vec<u64>, before: u64, number: u64)
    requires order { IsNonDecreasing sorted.old.items }
    requires there { 0 < count_by (nat_eq before) sorted.old.items }
    ensures order { IsNonDecreasing sorted.new.items }
    ensures count { (other : ℕ) → count_by (nat_eq other) sorted.new.items + (if nat_eq other before then 1 else 0) ≡ count_by (nat_eq other) sorted.old.items + (if nat_eq other number then 1 else 0) }
{
    let from = place_of(sorted, before);
    let _ = sorted.remove(from);
    let to = below(sorted, number as u128);
    let _ = sorted.insert(to, number);
}
