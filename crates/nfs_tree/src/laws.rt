//! Laws of trees. Each is the contract of a function that does nothing.

ghost use Rattle.nfs_tree.specs.Laws.{TreesAreWellFormed, CreatedIsFound, RemovedIsAbsent, RemovedIsEmpty, NewIsUnused, UnlinkedIsUnnamed, BelowIsReached};

/// What every tree keeps makes it well formed: every row stands in a directory and names an object that is there, and a
/// directory with a row has one row and is reached from the root by one walk.
pub fn trees_are_well_formed()
    ensures { TreesAreWellFormed }
{}

/// Behind a [`create`](super::Tree::create) that made an object, [`lookup`](super::Tree::lookup) of the name gives its
/// number.
pub fn created_is_found()
    ensures { CreatedIsFound }
{}

/// Behind a [`remove`](super::Tree::remove), [`lookup`](super::Tree::lookup) of the name gives nothing.
pub fn removed_is_absent()
    ensures { RemovedIsAbsent }
{}

/// What a [`remove`](super::Tree::remove) took a name from has no entries and is not the root: two of the three
/// conditions of [`forget`](super::Tree::forget).
pub fn removed_is_empty()
    ensures { RemovedIsEmpty }
{}

/// An object that was made and whose name was removed at once meets the three conditions of
/// [`forget`](super::Tree::forget).
pub fn new_is_unused()
    ensures { NewIsUnused }
{}

/// No row names an object of which [`links`](super::Tree::links) gives 0, and no other.
pub fn unlinked_is_unnamed()
    ensures { UnlinkedIsUnnamed }
{}

/// The climb by which [`rename`](super::Tree::rename) refuses to move a directory below itself meets an object exactly
/// where names lead from that object to the directory.
pub fn below_is_reached()
    ensures { BelowIsReached }
{}
