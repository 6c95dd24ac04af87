//! A clock that is slowed where sweeps are long.

ghost use Rattle.std.specs.Prelude.{◌≡◌, ◌≤◌, ◌<◌, ◌+◌, ◌*◌, ◌/◌, max};
ghost use Rattle.nfs_pace.specs.Paced.{second, starts, step, made_up, risen, is_idle, begins, begins_turn, tells, takes, is_late, patience};

/// How many microseconds a second has.
pub const MICROS: u64 = 1_000_000;

/// How many microseconds the turns of a client last in a sweep before what waits in them is left for the next one.
pub(crate) const ENOUGH: u64 = 2_000;

/// How many microseconds a server waits at most, where nobody asks, before the next sweep.
const LONGEST_WAIT: u64 = 500_000;

/// How far a clock of many connections has come, in microseconds.
#[derive(Drop)]
pub struct Paced {
    /// How long a lease lasts.
    lease: u64,
    /// What it showed when this sweep began.
    begun: u64,
    /// What was read when this sweep began.
    since: u64,
    /// What it shows.
    last: u64,
    /// What it showed when a moment was told last.
    told: u64,
    /// What was read last.
    read: u64,
    /// What had been read when this turn began, less what the turns of the same client before it lasted.
    turn: u64,
}

impl Paced {
    /// A clock that shows what is read, for a lease of so many seconds.
    pub fn new(lease: u32, read: u64) -> Paced
        ensures { result ≡ starts lease read }
    {
        Paced {
            lease: u64::from(lease) * MICROS,
            begun: read,
            since: read,
            last: read,
            told: read,
            read,
            turn: read,
        }
    }

    /// What it shows at what was read last: it never falls, never leads what is read, and rises in a sweep by no more than a sixteenth of a lease and
    /// than what passed with what is made up.
    fn risen(&self) -> u64
        ensures risen { result ≡ risen self.now }
        ensures stands { self.now.last ≤ result }
        ensures follows { result ≤ max self.now.last self.now.read }
        ensures paced { result ≤ max self.now.last (self.now.begun + self.now.lease / 16) }
    {
        let passed = self.read.saturating_sub(self.since);
        let rise = (passed.saturating_add(made_up(passed))).min(self.lease / 16);
        self.last
            .max(self.read.min(self.begun.saturating_add(rise)))
    }

    /// Whether no lease lasts: for longer than one nobody asked.
    fn is_idle(&self, shown: u64) -> bool
        ensures { result ≡ is_idle self.now shown }
    {
        self.told.saturating_add(self.lease) < shown
    }

    /// A sweep begins when this is read. Where no lease lasts, it shows what is read at once.
    pub fn begin_sweep(&mut self, read: u64)
        ensures { self.new ≡ begins risen self.old read }
    {
        self.read = read;
        let risen = self.risen();
        self.last = if self.is_idle(risen) {
            risen.max(read)
        } else {
            risen
        };
        self.begun = self.last;
        self.since = read;
    }

    /// A turn begins; those of its client before it in this sweep lasted so many microseconds. Nothing is read for it.
    pub fn begin_turn(&mut self, before: u64)
        ensures { self.new ≡ begins_turn before self.old }
    {
        self.turn = self.read.saturating_sub(before);
    }

    /// The moment at what was read last, in whole seconds.
    pub fn now(&mut self) -> u64
        ensures told { self.new ≡ tells risen self.old }
        ensures moment { result ≡ risen self.old / second }
    {
        self.last = self.risen();
        self.told = self.last;
        self.last / MICROS
    }

    /// What it showed last.
    pub fn shown(&self) -> u64
        ensures { result ≡ self.now.last }
    {
        self.last
    }

    /// What was read last.
    pub fn read(&self) -> u64
        ensures { result ≡ self.now.read }
    {
        self.read
    }

    /// Whether the turn, with those of its client before it, has lasted for 2 ms when this is read.
    pub fn is_late(&mut self, read: u64) -> bool
        ensures took { self.new ≡ takes self.old read }
        ensures late { result ≡ is_late self.old read }
    {
        self.read = read;
        read.saturating_sub(self.turn) >= ENOUGH
    }
}

/// What is made up of a lag in a sweep, where so much passed in it: a sixteenth of that, where it is less than a second.
fn made_up(passed: u64) -> u64
    ensures { result ≡ made_up passed }
{
    if passed < MICROS { passed / 16 } else { 0 }
}

/// How many microseconds a server waits at most for somebody who asks, with a lease of so many seconds: half of what its clock may rise by in a
/// sweep, and half a second at most, so that the clock of a server that nobody asks keeps up.
pub fn patience(lease: u32) -> u64
    ensures { result ≡ patience lease }
{
    (u64::from(lease) * MICROS / 32).min(LONGEST_WAIT)
}
