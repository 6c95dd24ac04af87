//! Readers and writers that move few bytes at a time, and fail at a call.

ghost use Rattle.std.specs.Prelude.{None};

use nfs_serve::Clock;
use std::io;
use std::io::{ErrorKind, Read, Write};

/// Gives these bytes, at most `most` in a call, and fails at call `fails`, counted from 1.
#[derive(Drop)]
pub(super) struct Drip<'a> {
    pub bytes: &'a [u8],
    pub most: usize,
    pub fails: usize,
    pub calls: usize,
}

impl Read for Drip<'_> {
    fn read(&mut self, buf: &mut [u8]) -> io::Result<usize> {
        self.calls = self.calls.saturating_add(1);
        if self.calls == self.fails {
            return Err(io::Error::from(ErrorKind::Interrupted));
        }
        let n = buf.len().min(self.bytes.len()).min(self.most);
        let (front, rest) = self.bytes.split_at(n);
        buf[..n].copy_from_slice(front);
        self.bytes = rest;
        Ok(n)
    }
}

/// A clock that counts how often it was asked, and answers that in seconds.
#[derive(Drop)]
pub(super) struct Counting {
    pub asked: usize,
}

impl Clock for Counting {
    ghost told = { λ _. None };

    fn now(&mut self) -> u64 {
        self.asked = self.asked.saturating_add(1);
        (self.asked as u64).min(1 << 62)
    }

    fn begin_sweep(&mut self) {}

    fn begin_turn(&mut self, before: u64) {
        let _ = before;
    }

    fn is_late(&mut self) -> bool {
        false
    }
}

/// Takes at most `most` bytes in a call, and fails at call `fails`, counted from 1.
#[derive(Drop)]
pub(super) struct Tray {
    pub bytes: Vec<u8>,
    pub most: usize,
    pub fails: usize,
    pub calls: usize,
}

impl Write for Tray {
    fn write(&mut self, buf: &[u8]) -> io::Result<usize> {
        self.calls = self.calls.saturating_add(1);
        if self.calls == self.fails {
            return Err(io::Error::from(ErrorKind::Other));
        }
        let n = buf.len().min(self.most);
        self.bytes.extend_from_slice(&buf[..n])?;
        Ok(n)
    }

    fn flush(&mut self) -> io::Result<()> {
        Ok(())
    }
}
