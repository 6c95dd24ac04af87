//! The results of operations and of compounds, put onto a sheet and read again.
//!
//! Contracts see a result as a value, [`Res`], and a sheet as bytes: what [`write`] puts is that value's line
//! of the table of results, and [`read_reply`] takes exactly the bytes that are a compound's result.
//!
//! ```text
//! let head = OpenHead::put(tag, out);
//! write(&Res::Refused { operation: 41, status: Status::NotSupp }, out);
//! head.close(Status::NotSupp, 1, out);
//! ```
//!
//! RFC 8881 sections 16.2.2 and 18, RFC 5662.
#![tactic(auto)]

mod entries;
mod head;
mod item_reading;
mod item_writing;
pub mod laws;
mod limit;
mod reading;
mod reply;
mod res;
mod straight;
mod writing;

pub use entries::Entries;
pub use head::{OpenHead, write_compound_head};
pub use limit::{given, largest};
pub use reading::can_refuse;
pub use reply::{Reply, read_reply};
pub use res::{
    AccessOk, AttrSet, ChangeInfo, CreateOk, CreateSessionOk, Denied, Entry, ExchangeIdOk, Fattr,
    OpenOk, ReadDirOk, ReadOk, RenameOk, Res, SequenceOk, Words, WriteOk,
};
pub use straight::{
    write_done_head, write_entry, write_list_end, write_read_dir_head, write_read_head,
    write_test_stateid_head,
};
pub use writing::write;
