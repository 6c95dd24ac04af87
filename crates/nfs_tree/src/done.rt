//! What calls answer that put, drop and move rows.

/// The value of a directory's `change` before and after a call that changes its entries (`change_info4`, RFC 8881
/// section 3.3.10); the two are equal where nothing changed.
#[derive(Clone, Copy, Debug, PartialEq, Eq)]
pub struct Change {
    pub before: u64,
    pub after: u64,
}

/// An object was made.
#[derive(Clone, Copy, Debug, PartialEq, Eq)]
pub struct Created {
    /// Its number.
    pub number: u64,
    /// How its directory changed.
    pub directory: Change,
}

/// An entry was removed.
#[derive(Clone, Copy, Debug, PartialEq, Eq)]
pub struct Removed {
    /// The number of the object that it named.
    pub number: u64,
    /// How its directory changed.
    pub directory: Change,
}

/// An entry was moved.
#[derive(Clone, Copy, Debug, PartialEq, Eq)]
pub struct Renamed {
    /// How the directory changed that it left.
    pub source: Change,
    /// How the directory changed that it came to: equal to `source` where it is the same one.
    pub target: Change,
    /// The number of the object that had the new name, if one had.
    pub replaced: Option<u64>,
}
