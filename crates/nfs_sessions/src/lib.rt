//! The sessions of the server: each has an id that is never given twice, its client, its channel and its slots.
//!
//! `Sessions` is seen as a table of sessions in rising order of their counters (`specs/Sessions.antt`).
//!
//! ```text
//! let id = sessions.create(alloc, client, &wish)?;
//! match sessions.session(&id).map(|s| s.judge(slot, number, uid, &args)) { .. }
//! sessions.keep(&id, slot, number, uid, &args, reply);
//! ```
//!
//! RFC 8881 sections 2.10 (sessions), 18.36 (CREATE_SESSION) and 18.37 (DESTROY_SESSION).
#![tactic(auto)]

mod channel;
mod id;
pub mod laws;
mod session;
mod sessions;
#[cfg(test)]
mod tests;

pub use channel::{Wish, granted};
pub use id::SessionId;
pub use session::{RPC_HEAD, Session};
pub use sessions::{SessionFault, Sessions};
