//! XDR (RFC 4506) on both sides: what a cursor reads is what stands spelled at its place, and a sheet is the list of
//! the bytes put.
//!
//! The spelling of each item is defined in `specs/Spelling.antt`; `specs/Codec.antt` and `specs/Combinators.antt` put items together into the
//! formats of the protocol, each described once for reading and writing. The small definitions that every other
//! crate cites stand here too: tables in rising order, checks in the order written, status numbers, the caller, the limits.
//!
//! ```text
//! let mut cursor = Cursor::new(bytes);
//! let length = cursor.u32()?;
//! let name = cursor.opaque(255)?;
//! ```
#![tactic(auto)]

mod cursor;
pub mod laws;
mod limits;
mod sheet;
mod status;
#[cfg(test)]
mod tests;
mod time;
mod who;

pub use cursor::{Cursor, Unreadable};
pub use limits::{FHSIZE, MAX_GROUPS, MAX_MACHINE_NAME, MAX_RECORD, MAX_TRANSFER, OPAQUE_LIMIT};
pub use sheet::Sheet;
pub use status::Status;
pub use time::Time;
pub use who::{AUTH_NONE, AUTH_SYS, Who};
