//! What a repeat is compared by (RFC 8881 section 2.10.6.1.3.1).

ghost use Rattle.std.specs.Prelude.{◌≡◌, ◌≤◌, ◌++◌, bytes_eq, length, vec_capacity};

use std::marker::Model;

/// The argument bytes of a request that a repeat is compared by, in two parts: what the request has between them is not
/// compared. Contracts see the two joined.
#[derive(Drop)]
pub struct Args<'a> {
    head: &'a [u8],
    tail: &'a [u8],
}

impl<'a> Model for Args<'a> {
    ghost use Rattle.std.specs.Prelude.{◌++◌, ℕ, List};

    ghost Value = { List ℕ };

    ghost view = { λ a. a.head.now ++ a.tail.now };
}

impl<'a> Args<'a> {
    /// These bytes, and behind them those.
    pub fn new(head: &'a [u8], tail: &'a [u8]) -> Self
        ensures { result ≡ head.now ++ tail.now }
    {
        Args { head, tail }
    }

    /// Whether they are these bytes.
    pub(crate) fn are(&self, bytes: &[u8]) -> bool
        ensures { result ≡ bytes_eq self.now bytes.now }
    {
        match bytes.split_at_checked(self.head.len()) {
            Some((front, behind)) => self.head == front && self.tail == behind,
            None => false,
        }
    }

    /// Puts them into room that was reserved, in the place of what is there.
    pub(crate) fn keep_in(&self, room: &mut Vec<u8>)
        requires { length self.now ≤ vec_capacity room.old }
        ensures bytes { room.new.items ≡ self.now }
        ensures room { vec_capacity room.old ≤ vec_capacity room.new }
    {
        room.clear();
        room.extend_from_slice(self.head).unwrap();
        room.extend_from_slice(self.tail).unwrap();
    }
}
