//! Readers with a buffer, whose bytes need not be copied.

ghost use Rattle.std.specs.Prelude.{◌≡◌, ◌≤◌, ℕ, List, length, take};
ghost use Rattle.std.specs.Io.KnownBytes.{Consumes};

use crate::{Host, Source};
use std::io::{BufRead, BufReader, Read};

/// A reader that has a buffer, as std's `BufRead` has.
pub trait BufSource: Source {
    // The bytes of the buffer.
    ghost buffered: { Self → List ℕ };

    /// The bytes of the buffer, which reads give first.
    fn buffer(&self) -> &[u8]
        ensures { result.now ≡ buffered self.now };

    /// Takes `amount` bytes out of the buffer, as a read of them would.
    fn consume(&mut self, amount: usize)
        requires { amount ≤ length (buffered self.old) }
        ensures bytes { Consumes (Self.left self.old) (Self.left self.new) (take amount (buffered self.old)) }
        ensures failed { Self.has_failed self.new ≡ Self.has_failed self.old }
        ensures ended { Self.has_ended self.new ≡ Self.has_ended self.old };
}

impl<T: Read> BufSource for Host<BufReader<T>> {
    ghost use Rattle.std.specs.Io.Buffered.{reader_buffer};

    ghost buffered = { λ h. reader_buffer h.inner };

    fn buffer(&self) -> &[u8] {
        self.inner.buffer()
    }

    fn consume(&mut self, amount: usize) {
        self.inner.consume(amount);
    }
}
