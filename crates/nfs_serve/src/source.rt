//! Where bytes are read.

ghost use Rattle.std.specs.Prelude.{◌≡◌, ℕ, List, Bool, ◌||◌, Option, is_err};
ghost use Rattle.std.specs.Io.{ReadsAtMost};
ghost use Rattle.std.specs.Io.KnownBytes.{ReadConsumes};
ghost use Rattle.nfs_serve.specs.Ends.{shows_end};

use std::io;

/// A reader that says whether it has failed or ended.
pub trait Source {
    // The bytes that reads will give from here on, where they are known.
    ghost left: { Self → Option (List ℕ) };

    ghost has_failed: { Self → Bool };

    ghost has_ended: { Self → Bool };

    /// Reads some bytes into the front of `buf` and answers how many. No byte into a buffer that is
    /// not empty says that the reader has ended. An `Err` of any kind says that it has failed.
    fn read(&mut self, buf: &mut [u8]) -> io::Result<usize>
        ensures bound { ReadsAtMost result buf.new }
        ensures bytes { ReadConsumes (left self.old) (left self.new) result buf.new }
        ensures failed { has_failed self.new ≡ (has_failed self.old || is_err result) }
        ensures ended { has_ended self.new ≡ (has_ended self.old || shows_end result buf.new) };

    /// Whether a read has answered `Err`.
    fn failed(&self) -> bool
        ensures { result ≡ has_failed self.now };

    /// Whether a read has met the end.
    fn ended(&self) -> bool
        ensures { result ≡ has_ended self.now };
}
