//! Who a client is: the table that decides whose state is whose.
//!
//! Contracts see a `Clients` as a `Roster`: the client records in rising order of their ids, the
//! last id that was given, and how many records there may be. An owner has at most one confirmed and
//! one unconfirmed record, and an id is never given twice.
//!
//! ```text
//! let asked = clients.exchange(alloc, owner, verifier, flags, uid, has_open)?;   // EXCHANGE_ID
//! if let CreateVerdict::Runs = clients.create_judge(asked.id, asked.number, uid) {
//!     clients.confirm(asked.id);                                          // CREATE_SESSION
//!     clients.keep_created(asked.id, CreateResult::Done(Resok::new(body)));
//! }
//! ```
//!
//! RFC 8881 sections 2.4 (client ids), 18.35 (EXCHANGE_ID), 18.36 (CREATE_SESSION),
//! 18.50 (DESTROY_CLIENTID), 18.51 (RECLAIM_COMPLETE).
#![tactic(auto)]

mod client;
mod clients;
mod create_session;
mod created;
mod destroy;
mod exchange_id;
pub mod laws;
mod marks;
mod owners;
mod records;
mod shown;
#[cfg(test)]
mod tests;

pub use clients::Clients;
pub use create_session::CreateVerdict;
pub use created::{CreateResult, Resok};
pub use destroy::DestroyFault;
pub use exchange_id::{CONFIRMED_R, ClientFault, Exchanged};
pub use shown::Shown;
