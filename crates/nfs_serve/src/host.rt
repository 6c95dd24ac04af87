//! Readers and writers of std's as the ends of a server.

ghost use Rattle.std.specs.Prelude.{◌≡◌, false};

use crate::{Sink, Source};
use std::io;
use std::io::{ErrorKind, Read, Write};

/// A reader or a writer of std's, and what became of it. A write that takes no byte of some has failed.
#[derive(Drop)]
pub struct Host<T> {
    /// The reader or writer itself.
    pub inner: T,
    /// Whether a call has answered `Err`.
    pub failed: bool,
    /// Whether a read has met the end.
    pub ended: bool,
}

impl<T> Host<T> {
    /// A reader or a writer that has neither failed nor ended.
    pub fn new(inner: T) -> Host<T>
        ensures inner { result.inner ≡ inner }
        ensures failed { result.failed ≡ false }
        ensures ended { result.ended ≡ false }
    {
        Host {
            inner,
            failed: false,
            ended: false,
        }
    }
}

impl<T: Read> Source for Host<T> {
    ghost left = { λ h. T.remaining h.inner };

    ghost has_failed = { λ h. h.failed };

    ghost has_ended = { λ h. h.ended };

    fn read(&mut self, buf: &mut [u8]) -> io::Result<usize> {
        match self.inner.read(buf) {
            Ok(n) => {
                if n == 0 && !buf.is_empty() {
                    self.ended = true;
                }
                Ok(n)
            }
            Err(e) => {
                self.failed = true;
                Err(e)
            }
        }
    }

    fn failed(&self) -> bool {
        self.failed
    }

    fn ended(&self) -> bool {
        self.ended
    }
}

impl<T: Write> Sink for Host<T> {
    ghost held = { λ h. T.contents h.inner };

    ghost has_failed = { λ h. h.failed };

    fn write(&mut self, buf: &[u8]) -> io::Result<usize> {
        match self.inner.write(buf) {
            Ok(n) => {
                if n == 0 && !buf.is_empty() {
                    self.failed = true;
                    return Err(io::Error::from(ErrorKind::WriteZero));
                }
                Ok(n)
            }
            Err(e) => {
                self.failed = true;
                Err(e)
            }
        }
    }

    fn failed(&self) -> bool {
        self.failed
    }
}
