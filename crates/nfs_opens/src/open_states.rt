//! All opens.

ghost use Rattle.std.specs.Prelude.{◌≡◌, ◌≢◌, ◌==◌, ◌&&◌, ◌<◌, ◌≤◌, ◌++◌, ◌∷◌, [], true, not, length, find, filter, map, nat_lt, min, if◌then◌else◌, OnOk};
ghost use Rattle.std.specs.Option.{option_copied};
ghost use Rattle.nfs_xdr.specs.Tables.{In};
ghost use Rattle.nfs_opens.specs.TableInvariants.{HasOneEach, whose};
ghost use Rattle.nfs_opens.specs.Keys.{open_key, key_of};
ghost use Rattle.nfs_opens.specs.Counts.{AreCounted, count_of, has_room};
ghost use Rattle.nfs_opens.specs.StateId.{last_number};

use crate::by_number::ByNumber;
use crate::counts::{Count, Counts};
use crate::index::{Index, Pair};
use crate::key::Key;
use crate::owned::Owned;
use crate::owner::Owner;
use crate::records::{OpenChange, OpenState};
use std::alloc::{AllocError, Global};
use std::marker::Model;

/// All opens in rising order of their numbers; no owner has two of one file. One more may come while there is room.
#[derive(Drop)]
pub(crate) struct OpenStates {
    states: ByNumber<OpenState>,
    /// The opens by their files.
    by_file: Index<Pair>,
    /// The opens by their clients.
    by_client: Index<Pair>,
    /// The opens by their owners on their files.
    by_owner: Index<Owned>,
    /// What the opens of each file have and deny.
    counts: Counts,
}

impl Model for OpenStates {
    ghost use Rattle.std.specs.Prelude.{◌&&◌};
    ghost use Rattle.nfs_opens.specs.Blocks.{Listed};
    ghost use Rattle.nfs_opens.specs.TableInvariants.{AreOpens};
    ghost use Rattle.nfs_opens.specs.Counts.{has_room};
    ghost use Rattle.nfs_opens.specs.declared.records.OpenState.{OpenState};

    ghost Value = { Listed OpenState };

    ghost view = { λ s. record { items = s.states.items; ready = s.states.ready && (s.by_file.ready && (s.by_client.ready && (s.by_owner.ready && has_room s.counts))) } };

    ghost invariant = { λ s. AreOpens s.states.items s.by_file.items s.by_client.items s.by_owner.items s.counts };
}

/// An open that changes is counted with what it has and denies then.
fn count_changed<C: OpenChange>(
    counts: &mut Counts,
    states: &ByNumber<OpenState>,
    number: u64,
    change: &C,
)
    requires counted { AreCounted states.now.items counts.old }
    requires few { length states.now.items ≤ last_number }
    ensures counted { AreCounted (map (λ o. if o.number == number then C.changed change.now o else o) states.now.items) counts.new }
    ensures room { has_room counts.new ≡ has_room counts.old }
{
    states.kept();
    if let Some(open) = states.get(number) {
        counts.change(open.file, open.reserved(), change.reserves(open));
    }
}

impl OpenStates {
    /// No opens. What comes later grows by `alloc`.
    pub(crate) fn new(alloc: Global) -> Self
        ensures { result.items ≡ [] }
    {
        OpenStates {
            states: ByNumber::new(alloc),
            by_file: Index::new(alloc),
            by_client: Index::new(alloc),
            by_owner: Index::new(alloc),
            counts: Counts::new(alloc),
        }
    }

    /// No owner has two opens of one file; moves nothing.
    pub(crate) fn single(&self)
        ensures { HasOneEach self.now.items }
    {
        let _ = &self.by_owner;
    }

    /// How many opens there are, or the greatest number where there are more.
    pub(crate) fn len(&self) -> u64
        ensures { result ≡ min (length self.now.items) last_number }
    {
        self.states.len()
    }

    /// The open of a number.
    pub(crate) fn get(&self, number: u64) -> Option<&OpenState>
        ensures { option_copied result ≡ find (λ o. o.number == number) self.now.items }
    {
        self.states.get(number)
    }

    /// The open of a file with the lowest number behind `after`.
    pub(crate) fn next_on(&self, file: u64, after: u64) -> Option<&OpenState>
        ensures { option_copied result ≡ find (λ o. (o.file == file) && nat_lt after o.number) self.now.items }
    {
        self.states.next_by(&self.by_file, &file, after)
    }

    /// The open of a client with the lowest number behind `after`.
    pub(crate) fn next_of(&self, client: u64, after: u64) -> Option<&OpenState>
        ensures { option_copied result ≡ find (λ o. (o.client == client) && nat_lt after o.number) self.now.items }
    {
        self.states.next_by(&self.by_client, &client, after)
    }

    /// The open that an owner has of a file.
    pub(crate) fn owned(&self, key: &Key<'_>) -> Option<&OpenState>
        ensures { option_copied result ≡ find (λ o. open_key o == key_of key.now) self.now.items }
    {
        self.states.next_by(&self.by_owner, key, 0)
    }

    /// What the opens of a file have and deny.
    pub(crate) fn count_on(&self, file: u64) -> Count
        ensures { result ≡ count_of (λ o. o.file == file) self.now.items }
    {
        self.counts.of(file)
    }

    /// Room for one more open.
    pub(crate) fn reserve(&mut self, alloc: Global) -> Result<(), AllocError>
        ensures items { self.new.items ≡ self.old.items }
        ensures ok { OnOk result (self.new.ready ≡ true) }
        ensures kept { self.old.ready ≡ true → self.new.ready ≡ true }
    {
        self.states.reserve(alloc)?;
        self.by_file.reserve(alloc)?;
        self.by_client.reserve(alloc)?;
        self.by_owner.reserve(alloc)?;
        self.counts.reserve()
    }

    /// An open comes behind all others: its owner has none of the file. It takes no memory, but `owner` once more.
    pub(crate) fn push(&mut self, new: OpenState, owner: Owner)
        requires same { owner ≡ new.owner }
        requires ready { self.old.ready ≡ true }
        requires behind { (o : OpenState) → In o self.old.items → o.number < new.number }
        requires first { 0 < new.number }
        requires owner { (o : OpenState) → In o self.old.items → whose o ≢ whose new }
        requires few { length self.old.items < last_number }
        ensures { self.new.items ≡ self.old.items ++ new ∷ [] }
    {
        self.by_file.put_pair(new.file, new.number);
        self.by_client.put_pair(new.client, new.number);
        let owned = Owned {
            file: new.file,
            client: new.client,
            owner,
            number: new.number,
        };
        self.by_owner.put(&new.key(), owned);
        self.counts.add(new.file, new.reserved());
        self.states.push(new);
    }

    /// The open of a number changes.
    pub(crate) fn change<C: OpenChange>(&mut self, number: u64, change: &C)
        requires few { length self.old.items ≤ last_number }
        ensures items { self.new.items ≡ map (λ o. if o.number == number then C.changed change.now o else o) self.old.items }
        ensures ready { self.new.ready ≡ self.old.ready }
    {
        count_changed(&mut self.counts, &self.states, number, change);
        self.states.change(number, change);
    }

    /// The open of a number goes.
    pub(crate) fn remove(&mut self, number: u64)
        ensures items { self.new.items ≡ filter (λ o. not (o.number == number)) self.old.items }
        ensures ready { self.old.ready ≡ true → self.new.ready ≡ true }
    {
        self.states.kept();
        if let Some(open) = self.states.get(number) {
            self.by_file.take(&open.file, number);
            self.by_client.take(&open.client, number);
            self.by_owner.take(&open.key(), number);
            self.counts.take(open.file, open.reserved());
        }
        self.states.remove(number);
    }
}
