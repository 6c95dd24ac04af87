//! What operations act on.

ghost use Rattle.std.specs.Prelude.{◌≡◌, true, false, IfOk};
ghost use Rattle.nfs_tree.specs.Files.{has_row, has_entries};
ghost use Rattle.nfs_names.specs.State.{state_of, new_store, is_open, is_used, without_unused};
ghost use Rattle.nfs_names.specs.StoreInvariants.{IsRooted, IsStore, IsStoreBut};

use crate::Start;
use nfs_opens::Opens;
use nfs_tree::Tree;
use nfs_xdr::Time;
use std::alloc::{AllocError, Global};

/// What operations on names, attributes and bytes act on. Contracts see its state, `state_of`.
#[derive(Drop)]
pub struct Store {
    /// The objects and the names.
    pub tree: Tree,
    /// Who has which file open how, and whose bytes are locked.
    pub opens: Opens,
    /// How long a lease is, in seconds.
    pub lease: u32,
}

impl Store {
    /// The store of a new server: nothing but the root, with the mode of its start and three times `now`, and nothing is open. Fails
    /// only for want of memory.
    pub fn new(alloc: Global, start: &Start, now: Time) -> Result<Store, AllocError>
        ensures state { IfOk result (λ s. state_of s ≡ new_store start.now now) }
        ensures store { IfOk result (λ s. IsStore (state_of s)) }
    {
        let tree = Tree::new(alloc, start.mode, now, start.limits, start.profile)?;
        Ok(Store {
            tree,
            opens: Opens::new(alloc, start.instance),
            lease: start.lease,
        })
    }

    /// The object goes, unless it is the root, or a row names it, or an open of it stands: then nothing changes. It is
    /// for an object that may have lost its last row or its last open (RFC 8881 sections 18.16, PRESERVE_UNLINKED, and
    /// 18.25).
    pub fn drop_unused(&mut self, number: u64)
        requires { IsRooted self.old.tree }
        ensures state { state_of self.new ≡ without_unused (state_of self.old) number }
        ensures rooted { IsRooted self.new.tree }
        ensures store { IsStoreBut (state_of self.old) number → IsStore (state_of self.new) }
    {
        self.tree.kept();
        self.drop_empty(number);
    }

    /// The same of an object that has no entries if it goes.
    pub(crate) fn drop_empty(&mut self, number: u64)
        requires { is_used (state_of self.old) number ≡ false → has_entries self.old.tree.rows number ≡ false }
        ensures { state_of self.new ≡ without_unused (state_of self.old) number }
    {
        if self.is_used(number) {
            return;
        }
        self.tree.forget(number);
    }

    /// Drops some of what cuts, removals and ends have left, so much at a time that a record stays short. Answers false where
    /// nothing waits any more. Contracts do not see what waits.
    pub fn tidy(&mut self) -> bool
        ensures { state_of self.new ≡ state_of self.old }
    {
        self.tree.drop_waiting()
    }

    /// Whether it is the root, or has a row or an open.
    fn is_used(&self, number: u64) -> bool
        ensures { result ≡ is_used (state_of self.now) number }
    {
        number == Tree::ROOT || self.is_named(number) || self.is_open(number)
    }

    /// Whether a row names it.
    pub(crate) fn is_named(&self, number: u64) -> bool
        ensures { result ≡ has_row self.now.tree.rows number }
    {
        self.tree.links(number) != 0
    }

    /// Whether an open of the file stands.
    fn is_open(&self, file: u64) -> bool
        ensures { result ≡ is_open (state_of self.now) file }
    {
        self.opens.is_open(file)
    }
}
