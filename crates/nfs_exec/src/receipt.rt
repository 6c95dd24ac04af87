//! How a compound was received.

use nfs_xdr::Who;

/// Of whom a compound was received, in how long a record, and when.
#[derive(Clone, Copy)]
pub(crate) struct Receipt<'a> {
    pub(crate) who: &'a Who<'a>,
    /// The bytes of the record.
    pub(crate) size: usize,
    /// In seconds.
    pub(crate) moment: u64,
}
