//! The server: records of ONC RPC calls are stepped one after the other, however their bytes come in, and replies are
//! written in the order in which the last bytes of the records came.
//!
//! Contracts see a [`Server`] as the state that the step of one record goes from and leads to (the tables of `nfs_exec`
//! and the moment that was taken last), what is held of the stream of each of 16 connections, and the reply made last.
//! The run of a script is a function of that state, of the events that record marking finds in the streams, and of
//! where memory was refused.
//!
//! ```text
//! let mut server = Server::new(alloc, Settings { lease: 90, root_mode: 0o777 }, 7)?;
//! server.replay(alloc, &mut Host::new(reader), &mut Host::new(writer))?;
//! ```
//!
//! RFC 5531 sections 9 (calls and replies) and 11 (record marking), RFC 8881 section 16 (NULL and COMPOUND). The script,
//! its faults, and the moments of records are this server's profile.
#![tactic(auto)]

mod buf_source;
mod clock;
mod connection;
mod engine;
mod fault;
mod form;
mod host;
mod hub;
mod inbox;
mod lane;
mod lending;
mod moving;
mod outbox;
mod ports;
mod running;
mod script;
mod sequenced;
mod server;
mod sink;
mod source;
mod talking;
mod watch;

pub use buf_source::BufSource;
pub use clock::Clock;
pub use fault::{ReplayFault, Stop};
pub use form::{Flow, Form, Outcome};
pub use host::Host;
pub use hub::Hub;
pub use moving::{WriteFailed, fill, put};
pub use ports::{Came, MOST_PORTS, Next, Ports, Took};
pub use script::{LAST_CONNECTION, LAST_MOMENT};
pub use server::{Server, Settings};
pub use sink::Sink;
pub use source::Source;
pub use talking::Talk;
pub use watch::Watch;
