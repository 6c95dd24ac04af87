//! Moments (nfstime4, RFC 8881 section 3.3.1).

/// A moment with its fraction (nfstime4 of RFC 5662; RFC 8881 section 3.3.1).
#[derive(Clone, Copy, Debug, PartialEq, Eq)]
pub struct Time {
    /// Whole seconds from midnight of 1 January 1970, before which they are negative.
    pub seconds: i64,
    /// Nanoseconds on top of them. No number is refused when it is read.
    pub nanoseconds: u32,
}
