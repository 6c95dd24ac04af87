//! The TCP connections of a server, and the clock by which they and leases go.
//!
//! Contracts see [`Sockets`] and [`PacedClock`] as their fields. What a socket or the system's clock gives no contract can say: what is made of it is said,
//! such as who of those that are ready has a turn, why nobody is let in who waits, and what the clock shows for what was read.
//!
//! ```text
//! let last = LastReading::new();
//! let room = Room::of(None, 64);                                       // 64 seats, and who waits for one
//! let mut sockets = Sockets::new(rt, &last, addr, None, room, 90)?;    // the lease is 90 seconds
//! let mut clock = PacedClock::new(rt, &last, 90);
//! server.serve_ports(alloc, &mut hub, &mut sockets, &mut clock, &mut watch);
//! ```
//!
//! RFC 5531 sections 9 and 11 (replies and their marks), RFC 8881 sections 2.10.4, 18.37, 18.46 and 18.50 (whose a connection is) and 8.3 (leases). How many
//! are served, and how many at once, is this server's profile.
#![tactic(auto)]

mod clock;
mod connections;
mod left;
mod looking;
mod outside;
mod seen;
mod sockets;
mod tally;

pub use clock::{LastReading, PacedClock, Readings, SystemReadings, instance_at};
pub use left::{Left, Room};
pub use seen::{Seen, seen_in};
pub use sockets::{Listening, Sockets};
pub use tally::{DELAY, FBIG, MLINK, NOSPC, SERVERFAULT, Tally};
