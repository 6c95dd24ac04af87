//! What a server is told before it begins, by the command line and by the settings file, and the faults that end a run.
//!
//! Contracts see a settings file as what its text gives (`settings_in`), a command line as an [`Order`] that may be asked for, and a [`Fault`] as the status
//! with which the program ends.
//!
//! ```text
//! let order = order(alloc, &["nfs41d", "serve", "--listen", "127.0.0.1:2049"])?;
//! let given = settings(alloc, "lease = 30", instance, half_of_memory(), true)?;
//! let code = status(run(order, given), &mut stderr);
//! ```
//!
//! The command line, the keys of the settings and the statuses are this server's profile.
#![tactic(auto)]

mod asked;
mod fault;
mod machine;
mod settings_file;
#[cfg(test)]
mod tests;
mod words;

pub use asked::Order;
pub use fault::{Fault, ending, status, unread};
pub use machine::half_of_memory;
pub use settings_file::{
    Bad, CLIENTS, CONNECTIONS, Given, KEYS, LEASE, MOST_OBJECTS, MOST_OF_OWNER, Number, ROOT_MODE,
    bytes_at, is_known, memory_at, named, number_at, profile_at, seats_at, settings, up_to,
};
pub use words::{MAX_STATUS, MOST_AT_ONCE, count_of, order, texts_of};
