//! The arguments of a COMPOUND call as a list of operations, read from the bytes of a record that lends them.
//!
//! Contracts see a [`Compound`] as a request: its bytes, tag, minor version, declared count, and what is left of its
//! list. [`Compound::open`] reads all of it once and refuses garbage; [`Compound::next`] then takes the list apart, one
//! operation a call, and ends it with a fault where an operation cannot be run. `specs/Wire.antt` is the table of
//! operations as they stand on the wire, one line each.
//!
//! ```text
//! let mut compound = Compound::open(args)?;
//! while let Some(Item::Operation(Op::ExchangeId(wanted))) = compound.next() { .. }
//! ```
//!
//! RFC 8881 sections 16.2 and 18, RFC 5662.
#![tactic(auto)]

mod attributes;
mod callback;
mod channel_attrs;
mod compound;
mod file_args;
mod item;
pub mod laws;
mod lent;
mod lock_args;
mod name_args;
mod op;
mod op_num;
mod open_args;
mod session_args;
mod state_owner;
mod stateid;

pub use attributes::{Attributes, Bitmap};
pub use channel_attrs::ChannelAttrs;
pub use compound::{Compound, Garbage, MINOR_VERSION};
pub use file_args::{Commit, Read, SetAttr, StableHow, Write};
pub use lent::Lent;
pub use lock_args::{ExistLockOwner, Lock, LockT, LockType, LockU, Locker, OpenToLockOwner};
pub use name_args::{Create, CreateType, ReadDir, Rename, SecinfoStyle, SpecData};
pub use op::{Item, Op};
pub use op_num::{FIRST_OP, LAST_OP, OP_ILLEGAL, OpNum};
pub use open_args::{Close, CreateHow, DelegationType, Open, OpenClaim, OpenDowngrade, OpenHow};
pub use session_args::{CreateSession, ExchangeId, ImplId, SP4_NONE, Sequence};
pub use state_owner::StateOwner;
pub use stateid::{Stateid, Stateids};
