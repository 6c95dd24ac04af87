//! Who looks on while connections are served: for lines of status, for metrics and for a list of the clients.

use crate::figures::{Counted, Figures};
use crate::listed::Listed;
use crate::status::{Status, resident};
use nfs_exec::World;
use nfs_serve::Watch;
use nfs_sockets::{PacedClock, Sockets, SystemReadings};
use std::io::Write;

/// What is shown of a server that runs.
#[derive(Drop)]
pub struct Watching<'a, W: Write + Drop> {
    rt: &'a HostRuntime,
    status: Status<'a, W>,
    figures: Option<Figures<'a>>,
    listed: Option<Listed<'a>>,
    /// Whether a line of status is asked for now.
    asked: bool,
    /// Whether it was said of the metrics and of the list that they cannot be written.
    said: (bool, bool),
}

impl<'a, W: Write + Drop> Watching<'a, W> {
    /// Lines of status, and these files.
    pub fn new(
        rt: &'a HostRuntime,
        status: Status<'a, W>,
        figures: Option<Figures<'a>>,
        listed: Option<Listed<'a>>,
    ) -> Watching<'a, W> {
        Watching {
            rt,
            status,
            figures,
            listed,
            asked: false,
            said: (false, false),
        }
    }

    /// Says once of each file that it cannot be written.
    fn say_failures(&mut self) {
        if let Some(figures) = &self.figures {
            if figures.file().has_failed() && !self.said.0 {
                self.said.0 = true;
                self.status.say_unwritten(figures.file().path());
            }
        }
        if let Some(listed) = &self.listed {
            if listed.file().has_failed() && !self.said.1 {
                self.said.1 = true;
                self.status.say_unwritten(listed.file().path());
            }
        }
    }
}

impl<'a, W: Write + Drop> Watch<
    Sockets<'a, HostRuntime>,
    PacedClock<SystemReadings<'a, HostRuntime>>,
> for Watching<'a, W> {
    fn asks(
        &mut self,
        ports: &Sockets<'a, HostRuntime>,
        clock: &PacedClock<SystemReadings<'a, HostRuntime>>,
    ) -> bool {
        self.asked = self.status.asks(ports, clock);
        let figures = match &mut self.figures {
            Some(figures) => figures.is_due(ports.now(), clock.longest()),
            None => false,
        };
        let listed = match &self.listed {
            Some(listed) => listed.is_due(ports.now()),
            None => false,
        };
        self.asked || figures || listed
    }

    fn look(
        &mut self,
        ports: &Sockets<'a, HostRuntime>,
        clock: &PacedClock<SystemReadings<'a, HostRuntime>>,
        world: &World,
    ) {
        let now = ports.now();
        if self.asked {
            self.status.look(ports, clock, world);
        }
        if let Some(figures) = &mut self.figures {
            if figures.is_due(now, 0) {
                let counted = Counted {
                    taken: ports.places().taken(),
                    places: ports.places().count(),
                    held: world.held(),
                    tally: ports.tally(),
                    resident: resident(self.rt).unwrap_or(0),
                };
                figures.write(now, &counted);
            }
        }
        if let Some(listed) = &mut self.listed {
            listed.write(now, clock.second(), world, ports.places());
        }
        self.say_failures();
    }
}
