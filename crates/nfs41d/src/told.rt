//! Lines on standard error, none of which waits for whoever reads them.

use libc::net::{POLLOUT, poll};
use libc::types::pollfd;
use std::io::Write;

/// The descriptor of standard error.
const STDERR: i32 = 2;

/// Where lines are written, and how many were dropped since the other end took no more.
#[derive(Drop)]
pub struct Told<W: Write + Drop> {
    to: W,
    dropped: u64,
}

impl<W: Write + Drop> Told<W> {
    /// Lines to standard error.
    pub fn new(to: W) -> Told<W> {
        Told { to, dropped: 0 }
    }

    /// How many lines were dropped.
    pub fn dropped(&self) -> u64 {
        self.dropped
    }

    /// Writes a whole line at once. One that would wait, or cannot be written, is dropped and counted.
    pub fn line(&mut self, line: &str) {
        if !takes(STDERR) || self.to.write(line.as_bytes()).is_err() {
            self.dropped = self.dropped.saturating_add(1);
        }
    }
}

/// Whether a write of a line does not wait: the descriptor takes a page more, or nobody is at its other end.
fn takes(fd: i32) -> bool {
    let mut asked = [pollfd {
        fd,
        events: POLLOUT,
        revents: 0,
    }];
    poll(&mut asked, 0) > 0
}
