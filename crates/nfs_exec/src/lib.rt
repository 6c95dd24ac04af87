//! What a compound does: it is run against the server's tables, and its result is put on a sheet.
//!
//! Contracts see a [`World`] as a machine, the meanings of its tables, and a compound as a function of the
//! machine, the request, its caller, the length of its record, the moment, and where memory was refused.
//!
//! ```text
//! let mut world = World::new(alloc, Start { mode: 0o777, instance, lease: 90, limits: Limits::PROFILE, profile: Profile::Exact, crowd: Crowd::USUAL, owner })?;
//! world.expire(now);
//! let mut compound = Compound::open(call.args)?;
//! world.compound(alloc, &mut compound, &call.who, record.len(), now, &mut reply);
//! ```
//!
//! RFC 8881 sections 2.3 and 16.2 (COMPOUND), 2.10 (sessions), 8.3 (leases), 18.35 to 18.37 (EXCHANGE_ID, CREATE_SESSION,
//! DESTROY_SESSION), 18.46 (SEQUENCE), 18.50 (DESTROY_CLIENTID) and 18.51 (RECLAIM_COMPLETE).
#![tactic(auto)]

mod compound;
mod create_session;
mod destroy;
mod exchange_id;
mod expiry;
mod held;
pub mod laws;
mod place;
mod receipt;
mod reclaim_complete;
mod run;
mod sequence;
mod shown;
mod tables;
mod world;

pub use held::Held;
pub use shown::ClientShown;
pub use world::World;
