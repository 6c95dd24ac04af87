//! Who has which file open how, which stateid means what, and whose bytes are locked, over all files.
//!
//! `Opens` is seen as a table: opens and lock states in rising order of their numbers, and a function that says of each
//! file, lock state and byte how the byte is held (`specs/Table.antt`; `specs/TableInvariants.antt` has what holds of every table).
//!
//! ```text
//! opens.judge_open(&ask)?;
//! let ready = opens.reserve(alloc, ask.owner)?;
//! let id = opens.open(ready, &ask);
//! ```
//!
//! RFC 8881 sections 8.2 (stateids), 9.1 to 9.3 (byte-range locks), 9.7 (share reservations), 18.2 (CLOSE), 18.10 to
//! 18.12 (LOCK, LOCKT, LOCKU), 18.16 (OPEN), 18.18 (OPEN_DOWNGRADE), 18.38 (FREE_STATEID) and 18.48 (TEST_STATEID).
#![tactic(auto)]

mod blocks;
mod by_number;
mod closing;
mod counts;
mod index;
mod judging;
mod key;
mod lock_states;
mod locked_files;
mod locking;
mod open_states;
mod opening;
mod opens;
mod owned;
mod owner;
mod records;
mod share;
mod stateid;
#[cfg(test)]
mod tests;

pub use judging::{Seat, Sort};
pub use locking::{Locker, OpenFault, Wish};
pub use opening::{Ask, Ready};
pub use opens::Opens;
pub use owner::Owner;
pub use records::{LockState, OpenState};
pub use share::Share;
pub use stateid::{CurrentSeqid, StateId};
