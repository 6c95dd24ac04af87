//! What a server that runs says of itself (docs/OPERATING.md, "What it shows").

ghost use Rattle.std.specs.Prelude.{◌≡◌, ◌<◌, ◌*◌, ◌/◌, min, option_map};

use crate::shown::{Grouped, Shown};
use crate::told::Told;
use nfs_exec::{Held, World};
use nfs_names::Crowd;
use nfs_pace::MICROS;
use nfs_serve::Watch;
use nfs_sockets::{
    DELAY, FBIG, MLINK, NOSPC, PacedClock, SERVERFAULT, Sockets, SystemReadings, Tally,
};
use nfs_tree::Limits;
use std::fs;
use std::io::Write;

/// Where Linux says how much memory of a process is resident, and the word before the number of kilobytes.
const OWN_STATUS: &str = "/proc/self/status";

const RESIDENT: &str = "VmRSS:";

/// The limits that are told, each once.
#[derive(Clone, Copy)]
struct Met {
    places: bool,
    clients: bool,
    sessions: bool,
    objects: bool,
    bytes: bool,
    names: bool,
    memory: bool,
}

/// Says every few seconds what the server does, and once of each limit that it is met.
#[derive(Drop)]
pub struct Status<'a, W: Write + Drop> {
    rt: &'a HostRuntime,
    told: Told<W>,
    /// How many lines were said to be dropped.
    dropped: u64,
    /// How many objects there may be, and how many bytes a file may have.
    limits: Limits,
    /// How many client records and sessions there may be.
    crowd: Crowd,
    /// How many microseconds lie between two lines; `None` where nothing is said.
    every: Option<u64>,
    /// When the next line is due, and when the last one was written, in microseconds since the ports began.
    due: u64,
    begun: u64,
    /// What had been answered at the last line.
    before: Tally,
    /// How many microseconds a record took at most since then.
    longest: u64,
    /// The status that told of a limit last.
    full: u32,
    met: Met,
}

impl<'a, W: Write + Drop> Status<'a, W> {
    /// Says so on `told` after so many seconds each; `None` says nothing. The server has these limits.
    pub fn new(
        rt: &'a HostRuntime,
        told: W,
        seconds: Option<u32>,
        limits: Limits,
        crowd: Crowd,
    ) -> Status<'a, W>
        ensures { result.every ≡ option_map (λ s. s * 1000000) seconds }
    {
        let every = match seconds {
            Some(seconds) => Some(u64::from(seconds) * MICROS),
            None => None,
        };
        Status {
            rt,
            told: Told::new(told),
            dropped: 0,
            limits,
            crowd,
            every,
            due: every.unwrap_or(0),
            begun: 0,
            before: Tally::NONE,
            longest: 0,
            full: 0,
            met: Met {
                places: false,
                clients: false,
                sessions: false,
                objects: false,
                bytes: false,
                names: false,
                memory: false,
            },
        }
    }

    /// Says a line.
    fn say(&mut self, what: &str) {
        match format!(in self.rt.alloc(); "nfs41d: {what}\n") {
            Ok(line) => self.told.line(line.as_str()),
            Err(_) => {}
        }
    }

    /// Says that a file cannot be written.
    pub fn say_unwritten(&mut self, path: &str) {
        let path = Shown(path);
        match format!(in self.rt.alloc(); "nfs41d: {path} cannot be written\n") {
            Ok(line) => self.told.line(line.as_str()),
            Err(_) => {}
        }
    }

    /// Says how many lines were dropped, where that is more than was said before.
    fn say_dropped(&mut self) {
        let dropped = self.told.dropped();
        if dropped > self.dropped {
            self.dropped = dropped;
            match format!(in self.rt.alloc();
                "nfs41d: {dropped} lines were dropped: nobody read them\n"
            ) {
                Ok(line) => self.told.line(line.as_str()),
                Err(_) => {}
            }
        }
    }

    /// Says that a limit is met of so many of something, and what to do.
    fn say_most(&mut self, most: u64, what: &str) {
        let most = Grouped(most);
        match format!(in self.rt.alloc(); "nfs41d: limit: {most} {what}\n") {
            Ok(line) => self.told.line(line.as_str()),
            Err(_) => {}
        }
    }

    /// Says of the limits that are met which they are and what to do, where that was not said before.
    fn say_limits(&mut self, waits: bool, full: u32, held: &Held) {
        if waits && !self.met.places {
            self.met.places = true;
            self.say(
                "limit: every place is taken and a connection waits; mount on fewer machines, or with a smaller nconnect",
            );
        }
        if full == SERVERFAULT && held.clients >= self.crowd.clients as usize && !self.met.clients {
            self.met.clients = true;
            let most = u64::from(self.crowd.clients);
            self.say_most(
                most,
                "client records; those of clients that are gone end a lease after their last renewal",
            );
        }
        let most_sessions = held.sessions >= self.crowd.sessions as usize;
        if full == NOSPC && most_sessions && !self.met.sessions {
            self.met.sessions = true;
            let most = u64::from(self.crowd.sessions);
            self.say_most(
                most,
                "sessions; unmount where nobody works, or wait a lease for clients that are gone",
            );
        }
        let most_objects = held.objects >= self.limits.objects as usize;
        if full == NOSPC && most_objects && !self.met.objects {
            self.met.objects = true;
            let most = u64::from(self.limits.objects);
            self.say_most(most, "files, directories and links; remove some");
        }
        // (no other NFS4ERR_NOSPC is left than that of a WRITE that found no memory)
        let memory = full == DELAY || full == NOSPC && !most_sessions && !most_objects;
        self.say_sizes(full, memory);
    }

    /// The same of the limits of a file and of memory.
    fn say_sizes(&mut self, full: u32, memory: bool) {
        if full == FBIG && !self.met.bytes {
            self.met.bytes = true;
            let most = self.limits.bytes;
            self.say_most(most, "bytes of a file; keep larger ones elsewhere");
        }
        if full == MLINK && !self.met.names {
            self.met.names = true;
            self.say("limit: 1,024 names of one object; copy it");
        }
        if memory && !self.met.memory {
            self.met.memory = true;
            self.say(
                "limit: memory; end what else takes some, or raise what this process may have",
            );
        }
    }
}

impl<'a, W: Write + Drop> Watch<
    Sockets<'a, HostRuntime>,
    PacedClock<SystemReadings<'a, HostRuntime>>,
> for Status<'a, W> {
    fn asks(
        &mut self,
        ports: &Sockets<'a, HostRuntime>,
        clock: &PacedClock<SystemReadings<'a, HostRuntime>>,
    ) -> bool {
        if self.every.is_none() {
            return false;
        }
        self.longest = self.longest.max(clock.longest());
        let met = ports.is_awaited() && !self.met.places || ports.tally().full != self.full;
        met || ports.now() >= self.due
    }

    fn look(
        &mut self,
        ports: &Sockets<'a, HostRuntime>,
        clock: &PacedClock<SystemReadings<'a, HostRuntime>>,
        world: &World,
    ) {
        let _ = clock;
        let held = world.held();
        let (now, tally) = (ports.now(), ports.tally());
        self.full = tally.full;
        self.say_limits(ports.is_awaited(), tally.full, &held);
        if now < self.due {
            return;
        }
        let (taken, places) = (ports.places().taken(), ports.places().count());
        let calls = tally.calls.saturating_sub(self.before.calls);
        let delays = tally.delays.saturating_sub(self.before.delays);
        let refusals = tally.refusals.saturating_sub(self.before.refusals);
        let rate = a_second(calls, now.saturating_sub(self.begun));
        let Held {
            clients,
            sessions,
            objects,
            opens,
            locks,
        } = held;
        let longest = self.longest;
        let resident = resident(self.rt).unwrap_or(0);
        self.say_dropped();
        match format!(in self.rt.alloc();
            "nfs41d: status connections={taken}/{places} clients={clients} sessions={sessions} objects={objects} opens={opens} locks={locks} calls={calls} rate={rate} delays={delays} refusals={refusals} longest_us={longest} resident_kb={resident}\n"
        ) {
            Ok(line) => self.told.line(line.as_str()),
            Err(_) => {}
        }
        self.before = tally;
        self.longest = 0;
        self.begun = now;
        self.due = now.saturating_add(self.every.unwrap_or(0));
    }
}

/// How many calls that is a second, where so many were answered in so many microseconds.
fn a_second(calls: u64, micros: u64) -> u64
    ensures { 0 < micros → result ≡ min (calls * 1000000) 18446744073709551615 / micros }
{
    if micros == 0 {
        return 0;
    }
    calls.saturating_mul(MICROS) / micros
}

/// How many kilobytes of this process are resident, where the system says so.
pub fn resident(rt: &HostRuntime) -> Option<u64> {
    let text = fs::read_to_string(rt, OWN_STATUS).ok()?;
    for line in text.as_str().lines() {
        if let Some(rest) = line.strip_prefix(RESIDENT) {
            let number = rest.trim().split_once(' ')?.0;
            return number.parse::<u64>().ok();
        }
    }
    None
}
