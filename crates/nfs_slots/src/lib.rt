//! The slots of a session: a request number is run once, and its repeat is answered with the reply that was kept.
//!
//! A `Slots` is seen as a table of slots (`specs/Slot.antt`): each has the number of its last request,
//! and of that request the caller, the argument bytes that a repeat is compared by, and the reply. Which bytes those are
//! is not known here: whoever calls leaves out what is not compared, and hands in what is before it and behind it (`Args`).
//!
//! ```text
//! match slots.judge(slot, number, uid, &args) {
//!     Verdict::Fresh => { let reply = run(); slots.keep(slot, number, uid, &args, reply); }
//!     Verdict::Again => answer(slots.kept(slot)), ..
//! }
//! ```
//!
//! RFC 8881 sections 2.10.6.1 (slots and numbers), 2.10.6.1.3.1 (false retries) and 18.46 (SEQUENCE).
#![tactic(auto)]

mod args;
pub mod laws;
mod slot;
mod slots;
#[cfg(test)]
mod tests;

pub use args::Args;
pub use slot::Verdict;
pub use slots::Slots;
