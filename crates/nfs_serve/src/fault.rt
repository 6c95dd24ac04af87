//! Why the run of a script stops (docs/PROTOCOL.md).

use std::fmt;

/// Why a run of a script stopped. Its number is that of the fault.
#[derive(Clone, Copy, Debug, PartialEq, Eq)]
pub enum Stop {
    /// The script ends inside an entry.
    Cut = 1,
    /// A connection above 15.
    Connection = 2,
    /// A piece above 65,536 bytes.
    Long = 3,
    /// A moment above 2^62.
    Late = 4,
    /// More than 1,000,000 entries.
    Many = 5,
    /// The reader has failed.
    ReadFailed = 6,
    /// The writer has failed.
    WriteFailed = 7,
}

/// Why a run of a script stopped, and at which entry.
#[derive(Clone, Copy, Debug, PartialEq, Eq)]
pub struct ReplayFault {
    /// Why.
    pub number: Stop,
    /// The entry that was being read or run, counted from 1.
    pub entry: u32,
}

impl fmt::Display for ReplayFault {
    fn fmt<W: fmt::Write>(&self, f: &mut fmt::Formatter<W>) -> fmt::Result {
        match self.number {
            Stop::ReadFailed => f.write_str("input failed"),
            Stop::WriteFailed => f.write_str("output failed"),
            stop => write!(f, "script fault {} at entry {}", stop as u8, self.entry),
        }
    }
}
