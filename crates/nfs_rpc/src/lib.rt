//! The first door to strangers: records from the pieces of a stream, and the call that a record holds or the refusal that
//! is answered.
//!
//! `Records` is what is held of a stream behind the last record that was done with (RFC 5531 section 11). `Call::read` is
//! a function from the bytes of a record to a call or to the first refusal (RFC 5531 sections 8.2 and 9, appendix A).
//! `write_head` and `write_refusal` put the bytes of the reply. Nothing but `Records::new` takes memory.
//!
//! ```text
//! let Fed::Whole(used) = records.feed(piece) else { return };
//! let called = Call::read(records.record());
//! records.take(); // the bytes of the piece behind `used` are fed next
//! ```
#![tactic(auto)]

mod call;
pub mod laws;
mod numbers;
mod reading;
mod records;
mod refusal;
mod reply;
#[cfg(test)]
mod tests;

pub use call::{Call, Procedure};
pub use nfs_xdr::Who;
pub use numbers::LAST_FRAGMENT;
pub use records::{Fed, Records};
pub use refusal::{AcceptStat, AuthStat, Refusal};
pub use reply::{write_head, write_refusal};
