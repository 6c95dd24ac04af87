//! Laws of what is told and of what is held. Each is the contract of a function that does nothing.

ghost use Rattle.nfs_ranges.specs.Laws.{ToldIsUnique, AnyIsDecided, Canonical, SetKeeps};

/// Whatever is held, exactly one answer of [`Ranges::clash`](super::Ranges::clash) is right, and
/// the function `told` of `specs/Told.antt` gives it.
pub fn told_is_unique()
    ensures { ToldIsUnique }
{}

/// The function `holds_any` of `specs/Holders.antt`, which [`Ranges::any`](super::Ranges::any)
/// computes, says whether there is a byte that the lock state holds.
pub fn any_is_decided()
    ensures { AnyIsDecided }
{}

/// Two canonical lists that say the same of each lock state and byte are equal.
pub fn canonical()
    ensures { Canonical }
{}

/// A lock that meets no clash brings none: where [`Ranges::clash`](super::Ranges::clash) answers
/// none, no byte has a writer beside another holder after [`Ranges::set`](super::Ranges::set).
pub fn set_keeps()
    ensures { SetKeeps }
{}
