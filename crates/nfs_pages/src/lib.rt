//! The bytes of a file, or of a symbolic link's text: a size, and those pages of 4,096 bytes in which something was
//! written, by their numbers. What no page holds is zeros, so a gap takes no memory, wherever it is.
//!
//! A write makes at most one page for each 4,096 bytes of it and one more. A cut, and the end of a file, leave the pages
//! that they take to be dropped by later calls, so many at a time. A pool says how many pages there may be: a write that needs
//! one more is refused, as if there were no memory for it.
#![tactic(auto)]

mod budget;
mod bytes;
mod extent;
mod page;
mod pages;
mod pool;
#[cfg(test)]
mod tests;

pub use bytes::Bytes;
pub use pool::Pool;
