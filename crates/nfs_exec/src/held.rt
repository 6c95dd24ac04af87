//! How much a server keeps.

/// How many of each kind of state a server has between two records.
#[derive(Clone, Copy, Debug, PartialEq, Eq)]
pub struct Held {
    /// Client records, confirmed or not (RFC 8881 section 18.35).
    pub clients: usize,
    /// Sessions.
    pub sessions: usize,
    /// Files, directories and links, the root among them.
    pub objects: usize,
    /// Opens: the files that each owner has open.
    pub opens: u64,
    /// Lock states: the files that each lock owner has locked, or did since it opened them.
    pub locks: u64,
}
