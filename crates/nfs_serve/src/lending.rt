//! Which bytes of a reader the run of a script takes where they lie.
ghost use Rattle.std.specs.Prelude.{◌≡◌, ◌≤◌, ℕ, List, length, take};
ghost use Rattle.std.specs.Io.KnownBytes.{Consumes};

use crate::{BufSource, Source};

/// A way to take bytes of a reader without a copy.
pub(crate) trait Lends<R: Source> {
    ghost lent: { R → List ℕ };

    /// The bytes that may be taken, which reads give first.
    fn bytes(r: &R) -> &[u8]
        ensures { result.now ≡ lent r.now };

    /// Takes `amount` of them, as a read of them would.
    fn consume(r: &mut R, amount: usize)
        requires { amount ≤ length (lent r.old) }
        ensures bytes { Consumes (R.left r.old) (R.left r.new) (take amount (lent r.old)) }
        ensures failed { R.has_failed r.new ≡ R.has_failed r.old }
        ensures ended { R.has_ended r.new ≡ R.has_ended r.old };
}

/// Each byte is read: this works for every reader.
pub(crate) struct ByReading;

impl<R: Source> Lends<R> for ByReading {
    ghost use Rattle.std.specs.Prelude.{[]};

    ghost lent = { λ _. [] };

    fn bytes(_: &R) -> &[u8] {
        &[]
    }

    fn consume(_: &mut R, _: usize) {}
}

/// What stands in the reader's buffer is taken from there.
pub(crate) struct FromBuffer;

impl<R: BufSource> Lends<R> for FromBuffer {
    ghost lent = { λ r. R.buffered r };

    fn bytes(r: &R) -> &[u8] {
        r.buffer()
    }

    fn consume(r: &mut R, amount: usize) {
        r.consume(amount);
    }
}
