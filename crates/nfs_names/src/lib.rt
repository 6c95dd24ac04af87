//! Operations on names and attributes: what each of them answers, and what it leaves.
//!
//! Contracts see a [`Store`] as a state, and an operation as a function of state, [`Context`], moment and arguments to
//! an outcome: a result, a state and a context. `specs/` has a file for each operation, which is its checks in their
//! order and then its effect.
//!
//! ```text
//! let mut context = Context::new(client, who);
//! let status = name_op(alloc, &mut store, &mut context, &arg, now, &mut sheet);
//! ```
//!
//! RFC 8881 sections 4 (filehandles), 16.2.3.1 (current and saved filehandle), 18.1, 18.4, 18.7 to 18.9, 18.13 to 18.15,
//! 18.19 to 18.21, 18.23 to 18.28, 18.31 and 18.45; of the end of a client 8.3 and 8.4.2.
#![tactic(auto)]

mod attributes;
mod checks;
mod context;
mod ending;
mod listing;
mod making;
mod node;
mod operation;
mod start;
mod store;
mod walking;

pub use attributes::mask_in;
pub use checks::{current, is_link, judge_name, node_at, permits, put_refusal, refuse};
pub use context::{Caller, Context, Saved};
pub use making::{Making, attr_set, change_info, status_of, time_of, wanted_of};
pub use node::Node;
pub use operation::{name_op, time_at};
pub use start::{Crowd, ServerOwner, Start};
pub use store::Store;
