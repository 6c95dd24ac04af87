//! Leases: until when a client's state is its own.
//!
//! Contracts see a `Leases` through `leases_of`: a map from client to the moment of its last
//! renewal. How long a lease lasts is asked with: moments and the lease are in one unit, seconds in
//! the server. In what order renewals are kept, no contract says; `standing` counts them, so that a
//! loop that ends leases is seen to end.
//!
//! ```text
//! leases.add(alloc, client, now)?;                          // EXCHANGE_ID adds a record
//! leases.renew(client, now);                                // a fresh SEQUENCE
//! while let Some(client) = leases.next_out(lease, now) { leases.remove(client); }
//! ```
//!
//! RFC 8881 section 8.3 (lease renewal).
#![tactic(auto)]

mod leases;

pub use leases::Leases;
