//! The clock of a server of many connections: it is slowed where the server is, so that a client's renewal that waits in its socket is heard before
//! its lease ends (RFC 8881 section 8.3), and it tells when a turn has lasted long enough.
//!
//! Contracts see a `Paced` as its fields. All but what `now` answers is in microseconds since 1970. Two laws over sweeps say what leases rest on:
//! [`laws::adds_up`] and [`laws::keeps_who_renews`].
//!
//! ```text
//! let mut clock = Paced::new(90, read);
//! clock.begin_sweep(read);              // a sweep over the connections begins
//! clock.begin_turn(0);                  // the turn of one of them, the first of its client
//! let second = clock.now();             // the moment of a record
//! if clock.is_late(read) { .. }         // behind it: the rest waits for the next sweep
//! ```
#![tactic(auto)]

mod crowds;
mod guest;
pub mod laws;
mod paced;
mod places;
mod seat;
mod turns;

pub use guest::Guest;
pub use paced::{MICROS, Paced, patience};
pub use places::Places;
pub use seat::Seat;
pub use turns::{Turn, Turns};
