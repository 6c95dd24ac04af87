//! The system's clock, as the server reads it for many connections.

ghost use Rattle.std.specs.Prelude.{◌≡◌, ◌≤◌, ◌<◌, ◌+◌, ◌-◌, ◌/◌, ◌%◌, ◌^◌, ℕ, List, Option, [], ◌∷◌, None, min, max};
ghost use Rattle.nfs_serve.specs.Script.{last_moment};
ghost use Rattle.nfs_serve.specs.Told.{Told, Sweep, Turn, Moment, Late, Logs};
ghost use Rattle.nfs_pace.specs.Paced.{second, risen, begins, begins_turn, starts, tells};
ghost use Rattle.nfs_sockets.specs.Readings.{Reads, Takes, Looks};

use nfs_pace::{MICROS, Paced};
use nfs_serve::{Clock, LAST_MOMENT};
use std::cell::Cell;
use std::rt;
use std::time::{SystemTime, UNIX_EPOCH};

/// Where the readings of a clock come from.
pub trait Readings {
    // What was read so far, where that is known.
    ghost reads: { Self → Option (List (Option ℕ)) };

    /// How many microseconds since 1970 are shown now, or `None` where it cannot be read.
    fn micros(&mut self) -> Option<u64>
        ensures { Reads (reads self.old) (reads self.new) result };
}

/// What was read last of the system's clock, in microseconds since 1970. A server's clock and its sockets share it, so that one of them reads where both
/// want to know.
#[derive(Drop)]
pub struct LastReading {
    micros: Cell<u64>,
    /// Whether it is the next reading, too.
    is_next: Cell<bool>,
}

impl LastReading {
    /// Nothing was read so far.
    pub fn new() -> LastReading {
        LastReading {
            micros: Cell::new(0),
            is_next: Cell::new(false),
        }
    }
}

/// The readings of the system's clock.
#[derive(Drop)]
pub struct SystemReadings<'a, R: rt::Clock> {
    rt: &'a R,
    last: &'a LastReading,
}

impl<'a, R: rt::Clock> SystemReadings<'a, R> {
    /// Those that are taken from now on.
    pub fn new(rt: &'a R, last: &'a LastReading) -> SystemReadings<'a, R> {
        SystemReadings { rt, last }
    }
}

impl<R: rt::Clock> SystemReadings<'_, R> {
    /// What was read last.
    pub(crate) fn last(&self) -> u64 {
        self.last.micros.get()
    }

    /// What is read now, which is the next reading of whoever shares these, too; what was read last where the clock cannot be read.
    pub(crate) fn read_ahead(&mut self) -> u64 {
        let read = self.micros().unwrap_or(self.last());
        self.last.is_next.set(true);
        read
    }
}

impl<R: rt::Clock> Readings for SystemReadings<'_, R> {
    ghost reads = { λ _. None };

    fn micros(&mut self) -> Option<u64> {
        if self.last.is_next.replace(false) {
            return Some(self.last());
        }
        let now = SystemTime::now(self.rt).ok()?;
        let since = now.duration_since(UNIX_EPOCH).ok()?;
        let seconds = since.as_secs().saturating_mul(MICROS);
        let micros = seconds.saturating_add(u64::from(since.subsec_micros()));
        self.last.micros.set(micros);
        Some(micros)
    }
}

/// The system's clock for many connections, slowed where sweeps over them are long. It is read where a sweep begins and behind each record; where it
/// cannot be read, what was read before is taken again.
#[derive(Drop)]
pub struct PacedClock<S: Readings> {
    readings: S,
    at: Paced,
    /// In this sweep, how many microseconds passed at most from one reading to the next behind a record.
    longest: u64,
}

impl<'a, R: rt::Clock> PacedClock<SystemReadings<'a, R>> {
    /// A clock that shows the system's second, for a lease of so many.
    pub fn new(rt: &'a R, last: &'a LastReading, lease: u32) -> PacedClock<SystemReadings<'a, R>>
        ensures { (read : ℕ) × (result.at ≡ starts lease read) }
    {
        let mut readings = SystemReadings::new(rt, last);
        let read = readings.micros().unwrap_or(0);
        PacedClock {
            readings,
            at: Paced::new(lease, read),
            longest: 0,
        }
    }
}

impl<S: Readings> PacedClock<S> {
    /// How many microseconds a record of this sweep took at most, with the reads and writes between it and the reading before it.
    pub fn longest(&self) -> u64
        ensures { result ≡ self.now.longest }
    {
        self.longest
    }
}

impl<S: Readings> PacedClock<S> {
    /// The second of the last reading.
    pub fn second(&self) -> u64 {
        self.at.read() / MICROS
    }
}

impl<S: Readings> Clock for PacedClock<S> {
    ghost told = { λ _. None };

    /// What it shows at its last reading, in seconds.
    fn now(&mut self) -> u64
        ensures bound { result ≤ last_moment }
        ensures tells { Logs None None (Moment result ∷ []) }
        ensures moment { result ≡ min (risen self.old.at / second) last_moment }
        ensures told { self.new ≡ record self.old { at = tells risen self.old.at } }
    {
        self.at.now().min(LAST_MOMENT)
    }

    /// What this sweep may show is told by what is read at its begin.
    fn begin_sweep(&mut self)
        ensures { Logs None None (Sweep ∷ []) × (read : ℕ) × Takes (S.reads self.old.readings) (S.reads self.new.readings) self.old.at read
            × (self.new.at ≡ begins risen self.old.at read) × (self.new.longest ≡ 0) }
    {
        let read = self.readings.micros().unwrap_or(self.at.read());
        self.longest = 0;
        self.at.begin_sweep(read);
    }

    /// What was read last is when the turn began, but for what those of the same client before it lasted.
    fn begin_turn(&mut self, before: u64)
        ensures { Logs None None (Turn ∷ []) × (self.new ≡ record self.old { at = begins_turn before self.old.at }) }
    {
        self.at.begin_turn(before);
    }

    /// Whether the turn has lasted for 2 ms at what is read now.
    fn is_late(&mut self) -> bool
        ensures { Logs None None (Late result ∷ []) × (read : ℕ) × Takes (S.reads self.old.readings) (S.reads self.new.readings) self.old.at read
            × Looks self.old.at self.old.longest read self.new.at self.new.longest result }
    {
        let before = self.at.read();
        let read = self.readings.micros().unwrap_or(before);
        self.longest = self.longest.max(read.saturating_sub(before));
        self.at.is_late(read)
    }
}

/// The instance of a server that starts at this second: the second modulo 2^32, and 1 in place of 0 and of 2^32 - 1.
pub fn instance_at(second: u64) -> u32
    ensures range { (1 ≤ result) × (result ≤ 4294967294) }
    ensures own { 0 < second % 2 ^ 32 → second % 2 ^ 32 < 4294967295 → result ≡ second % 2 ^ 32 }
    ensures first { second % 2 ^ 32 ≡ 0 → result ≡ 1 }
    ensures last { second % 2 ^ 32 ≡ 4294967295 → result ≡ 1 }
{
    match (second % (1 << 32)) as u32 {
        0 | u32::MAX => 1,
        instance => instance,
    }
}
