//! Where it is looked at which connections are ready, and whether somebody calls.

ghost use Rattle.std.specs.Prelude.{◌≡◌, ◌+◌, IfOk, min};

use mio::{Events, Poll, Registry};
use std::io::ErrorKind;
use std::net::Net;
use std::time::Duration;
use std::{alloc, io};

/// What the system lists of what is ready, and how often it was looked at.
#[derive(Drop)]
pub(crate) struct Looking {
    poll: Poll,
    events: Events,
    looks: u64,
}

impl Looking {
    /// With room for so many at once.
    pub(crate) fn new<R: Net + alloc::AllocGlobal>(rt: &R, count: usize) -> io::Result<Looking>
        ensures { IfOk result (λ looking. looking.looks ≡ 0) }
    {
        Ok(Looking {
            poll: Poll::new(rt)?,
            events: Events::with_capacity(rt.alloc(), count)?,
            looks: 0,
        })
    }

    /// What is looked at.
    pub(crate) fn registry(&self) -> &Registry {
        self.poll.registry()
    }

    /// How often it was looked at.
    pub(crate) fn looks(&self) -> u64
        ensures { result ≡ self.now.looks }
    {
        self.looks
    }

    /// What was ready at the last look.
    pub(crate) fn events(&self) -> &Events
        ensures { result.now ≡ self.now.events }
    {
        &self.events
    }

    /// Looks at what is ready, and waits for so long at most where nothing is. A signal ends the wait.
    pub(crate) fn look(&mut self, timeout: Duration) -> io::Result<()>
        ensures { self.new.looks ≡ min (self.old.looks + 1) 18446744073709551615 }
    {
        self.looks = self.looks.saturating_add(1);
        match self.poll.poll(&mut self.events, Some(timeout)) {
            Ok(()) => Ok(()),
            Err(e) if e.kind() == ErrorKind::Interrupted => Ok(()),
            Err(e) => Err(e),
        }
    }
}
