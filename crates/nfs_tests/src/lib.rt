//! Tests that cost less in a crate of their own: the words of each spelling in RFC 5662, by [`nfs_compound`] and [`nfs_results`]; and a
//! [`nfs_serve::Server`] over ends that fail.
//!
//! A crate's tests are proved together with all of its code, and read all that it stands on before the first of them. Here that is read once.
#![tactic(auto)]

#[cfg(test)]
mod arguments;
#[cfg(test)]
mod names;
#[cfg(test)]
mod opens;
#[cfg(test)]
mod parts;
#[cfg(test)]
mod results;
#[cfg(test)]
mod serving;
#[cfg(test)]
mod words;
