//! Where replies are written.

ghost use Rattle.std.specs.Prelude.{◌≡◌, ℕ, ◌<◌, List, length, Bool, ◌||◌, Option, is_err, IfOk};
ghost use Rattle.std.specs.Io.{WritesAtMost};
ghost use Rattle.std.specs.Io.KnownBytes.{WriteAppends};

use std::io;

/// A writer that says whether it has failed.
pub trait Sink {
    // The bytes that the writer holds, where they are known.
    ghost held: { Self → Option (List ℕ) };

    ghost has_failed: { Self → Bool };

    /// Writes a front of the bytes and answers how many: at least one where there is one, or it fails.
    fn write(&mut self, buf: &[u8]) -> io::Result<usize>
        ensures bound { WritesAtMost result buf.now }
        ensures some { 0 < length buf.now → IfOk result (λ n. 0 < n) }
        ensures bytes { WriteAppends (held self.old) (held self.new) result buf.now }
        ensures failed { has_failed self.new ≡ (has_failed self.old || is_err result) };

    /// Whether a write has answered `Err`.
    fn failed(&self) -> bool
        ensures { result ≡ has_failed self.now };
}
