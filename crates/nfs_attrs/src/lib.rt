//! Attributes, filehandles and permission bits: what operations report of an object, what they may set, and who may.
//!
//! The table of attributes stands in `specs/Attributes.antt`, a line an attribute: its number, its codec, its value, and
//! where it goes when it is set. What is written, compared and read are the bytes of that table. Permission bits are in
//! `specs/Permissions.antt` and `specs/Setting.antt`.
//!
//! ```text
//! let asked = Mask::new(words);
//! write_attrs(object, &about, asked, &mut sheet);       // GETATTR
//! write_asked(object, &about, &mut asked_once, &mut sheet); // READDIR
//! let wanted = read_attrs(given, values)?;              // SETATTR, CREATE, OPEN
//! may_set(profile, object, &wanted, &who)?;
//! ```
//!
//! RFC 8881 sections 4 (filehandles), 5 (attributes), 6.2.4 (modes) and 18.1 (ACCESS).
#![tactic(auto)]

mod about;
mod asked;
pub mod attribute;
mod following;
mod handle;
pub mod laws;
mod mask;
mod owner;
mod permission;
mod set_id;
mod set_time;
mod setting;
mod spelled;
#[cfg(test)]
mod tests;
mod value;
mod wanted;
mod writing;

pub use about::About;
pub use asked::Asked;
pub use handle::{BadHandle, Handle};
pub use mask::{ALL_SUPPORTED, Mask, SETTABLE, SUPPORTED, readable, supported};
pub use permission::{Access, Want, in_group, judge_access, may, may_use_bytes};
pub use set_id::{made_in, mode_behind, settled};
pub use set_time::SetTime;
pub use setting::{may_make, may_set};
pub use wanted::{AttrFault, Wanted, read_attrs};
pub use writing::{attrs_len, same, write_asked, write_attrs};
