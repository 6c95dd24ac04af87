//! What a server counts, in a file that monitors scrape (docs/OPERATING.md, "Metrics").

use crate::replaced::Replaced;
use nfs_exec::Held;
use nfs_names::Crowd;
use nfs_pace::MICROS;
use nfs_sockets::Tally;
use nfs_tree::Limits;
use std::alloc::AllocError;

/// What is counted at one moment.
#[derive(Clone, Copy)]
pub struct Counted {
    /// The connections that have a place, and the places.
    pub taken: usize,
    pub places: usize,
    pub held: Held,
    pub tally: Tally,
    /// How many kilobytes of the program are resident.
    pub resident: u64,
}

/// A file of metrics, which is written once a second.
#[derive(Drop)]
pub struct Figures<'a> {
    rt: &'a HostRuntime,
    file: Replaced<'a>,
    limits: Limits,
    crowd: Crowd,
    /// When it is due, in microseconds since the ports began.
    due: u64,
    /// How many microseconds a record took at most since it was written.
    longest: u64,
}

impl<'a> Figures<'a> {
    /// The file of this name, of a server with these limits. `AllocError` where memory is refused.
    pub fn new(
        rt: &'a HostRuntime,
        path: &'a str,
        limits: Limits,
        crowd: Crowd,
    ) -> Result<Figures<'a>, AllocError> {
        Ok(Figures {
            rt,
            file: Replaced::new(rt, path)?,
            limits,
            crowd,
            due: 0,
            longest: 0,
        })
    }

    /// The file.
    pub fn file(&self) -> &Replaced<'a> {
        &self.file
    }

    /// A sweep has ended, of which a record took so many microseconds at most. Whether the file is due.
    pub fn is_due(&mut self, now: u64, longest: u64) -> bool {
        self.longest = self.longest.max(longest);
        now >= self.due
    }

    /// Writes the file, if it is due.
    pub fn write(&mut self, now: u64, counted: &Counted) {
        if now < self.due {
            return;
        }
        self.due = now.saturating_add(MICROS);
        self.file.begin();
        self.gauge("up", "1 while the server runs", 1);
        self.gauge(
            "connections",
            "connections that have a place",
            counted.taken as u64,
        );
        self.gauge("places", "places for connections", counted.places as u64);
        self.put_held(&counted.held);
        self.gauge(
            "clients_limit",
            "client records at most",
            u64::from(self.crowd.clients),
        );
        self.gauge(
            "sessions_limit",
            "sessions at most",
            u64::from(self.crowd.sessions),
        );
        self.gauge(
            "objects_limit",
            "objects at most",
            u64::from(self.limits.objects),
        );
        self.put_tally(&counted.tally);
        self.gauge(
            "longest_call_microseconds",
            "the longest call since the last version of this file",
            self.longest,
        );
        self.gauge(
            "resident_kilobytes",
            "memory that is resident",
            counted.resident,
        );
        self.file.end();
        self.longest = 0;
    }

    /// What the server keeps.
    fn put_held(&mut self, held: &Held) {
        self.gauge("clients", "client records", held.clients as u64);
        self.gauge("sessions", "sessions", held.sessions as u64);
        self.gauge(
            "objects",
            "files, directories and links, with the root",
            held.objects as u64,
        );
        self.gauge("opens", "opens", held.opens);
        self.gauge("locks", "lock states", held.locks);
    }

    /// What was answered since the server began.
    fn put_tally(&mut self, tally: &Tally) {
        self.metric("calls_total", "counter", "calls answered", tally.calls);
        self.metric(
            "delays_total",
            "counter",
            "calls answered NFS4ERR_DELAY",
            tally.delays,
        );
        self.metric(
            "refusals_total",
            "counter",
            "calls answered with another error",
            tally.refusals,
        );
    }

    /// A metric that may fall.
    fn gauge(&mut self, name: &str, help: &str, value: u64) {
        self.metric(name, "gauge", help, value);
    }

    fn metric(&mut self, name: &str, kind: &str, help: &str, value: u64) {
        if let Ok(text) = format!(in self.rt.alloc();
            "# HELP nfs41d_{name} {help}\n# TYPE nfs41d_{name} {kind}\nnfs41d_{name} {value}\n"
        ) {
            self.file.put(text.as_str());
        }
    }
}
