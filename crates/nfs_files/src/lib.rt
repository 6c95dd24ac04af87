//! Operations on open files and their bytes: what each of them answers, and what it leaves.
//!
//! Contracts see a [`Store`](nfs_names::Store) as a state, and an operation as a function of state,
//! [`Context`](nfs_names::Context), moment and arguments to an outcome: a result, a state and a context. `specs/` has a
//! file for each operation, which is its checks in their order and then its effect.
//!
//! ```text
//! let status = file_op(alloc, &mut store, &mut context, &arg, now, &mut sheet);
//! ```
//!
//! RFC 8881 sections 8.2 (stateids), 9 (locks and share reservations), 18.2, 18.3, 18.10 to 18.12, 18.16, 18.18, 18.22,
//! 18.30, 18.32, 18.38 and 18.48.
#![tactic(auto)]

mod access;
mod bytes;
mod closing;
mod entering;
pub mod laws;
mod locking;
mod opening;
mod operation;
mod ranges;
mod setting;
mod stateids;
mod target;

pub use operation::file_op;
