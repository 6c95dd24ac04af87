//! Objects that filehandles name.

use nfs_tree::Object;

/// The object that a filehandle names.
#[derive(Clone, Copy, Debug, PartialEq, Eq)]
pub struct Node {
    /// Its number.
    pub number: u64,
    /// The object itself.
    pub object: Object,
}

/// The objects that the current and the saved filehandle name.
#[derive(Clone, Copy, Debug, PartialEq, Eq)]
pub(crate) struct Pair {
    pub(crate) current: Node,
    pub(crate) saved: Node,
}
