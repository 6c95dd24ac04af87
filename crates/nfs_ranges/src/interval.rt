//! The intervals that a lock state's bytes are kept as (RFC 8881 section 9.1).

use super::Kind;

/// Neighbouring bytes that one lock state holds with one kind.
#[derive(Clone, Copy, Debug, PartialEq, Eq)]
pub(super) struct Interval {
    /// How the bytes are held.
    pub(super) kind: Kind,
    /// The first byte.
    pub(super) first: u64,
    /// The last byte, itself held.
    pub(super) last: u64,
}

/// What one end of an edit makes of the interval that stands there.
#[derive(Clone, Copy)]
pub(super) struct Edge {
    /// Where the new interval begins or ends.
    pub(super) byte: u64,
    /// What is kept of the old interval beside it.
    pub(super) piece: Option<Interval>,
    /// How many old intervals are replaced there.
    pub(super) taken: usize,
}
