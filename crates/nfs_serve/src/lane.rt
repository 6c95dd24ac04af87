//! One connection of many: what came, what is owed, and its turn.

ghost use Rattle.std.specs.Prelude.{◌≡◌, ◌≤◌, ◌<◌, ◌||◌, [], ◌∷◌, length, drop, true, false, IfOk};
ghost use Rattle.nfs_serve.specs.Told.{Logs};
ghost use Rattle.nfs_serve.specs.Deeds.{counted};
ghost use Rattle.nfs_rpc.specs.RecordMarking.{is_too_long};
ghost use Rattle.nfs_serve.specs.Desk.{closed, opened, leaving, most_ports, most_owed, HasMore};
ghost use Rattle.nfs_serve.specs.Lane.{desk_of, stand, is_first, Flushes, IsLeft, IsSpent, Settles, StepsOne, StepsSome, TakesTurn, TakesTurnUpTo, Visits};
ghost use Rattle.nfs_serve.specs.Boxes as boxes;

use crate::Clock;
use crate::connection::Connection;
use crate::engine::Engine;
use crate::inbox::Inbox;
use crate::outbox::Outbox;
use crate::ports::{Came, Ports, Took};
use crate::sequenced::answers_sequence;
use std::alloc::{AllocError, Global};

/// How many times a turn steps at most, each time no more than one record, so that other ports have theirs.
const MOST_STEPS: u32 = 16;

/// How many bytes its peer takes in a turn, before no further record is stepped in it.
const MOST_TAKEN: usize = 65_536;

/// A port, and the connection on it, if there is one.
#[derive(Drop)]
pub(crate) struct Lane {
    live: bool,
    /// Whether its connection has ended or failed, and is to be closed.
    gone: bool,
    /// Whether a session's SEQUENCE was answered on it.
    heard: bool,
    connection: Connection,
    unread: Inbox,
    owed: Outbox,
}

/// What may still be done in a turn.
#[derive(Drop)]
pub(crate) struct Budget {
    /// How many records may be stepped.
    steps: u32,
    /// How many bytes the peer may take, before no further record is stepped.
    bytes: usize,
    /// Whether the turn has lasted long enough, so that no further record is stepped.
    late: bool,
}

impl Budget {
    /// Whether no further record may be stepped.
    fn is_spent(&self) -> bool
        ensures spent { result ≡ true → IsSpent self.now }
        ensures left { result ≡ false → IsLeft self.now }
    {
        self.steps == 0 || self.bytes == 0 || self.late
    }
}

/// How far a lane came.
#[derive(Clone, Copy, Debug, PartialEq, Eq)]
pub(crate) enum Rest {
    /// Nothing waits to be written.
    Clear,
    /// The peer takes no more for now.
    Stuck,
    /// The connection is to be closed.
    Gone,
}

impl Lane {
    /// A port with no connection. Its buffers are made here.
    pub(crate) fn new(alloc: Global) -> Result<Lane, AllocError>
        ensures { IfOk result (λ lane. desk_of lane ≡ closed) }
    {
        Ok(Lane {
            live: false,
            gone: false,
            heard: false,
            connection: Connection::new(alloc)?,
            unread: Inbox::new(alloc)?,
            owed: Outbox::new(alloc)?,
        })
    }

    /// A connection begins.
    pub(crate) fn begin(&mut self)
        ensures { desk_of self.new ≡ opened }
    {
        self.reset();
        self.live = true;
    }

    /// The port has no connection.
    pub(crate) fn reset(&mut self)
        ensures { desk_of self.new ≡ closed }
    {
        self.live = false;
        self.gone = false;
        self.heard = false;
        self.connection.close();
        self.unread.clear();
        self.owed.clear();
    }

    /// Its connection has ended or failed.
    fn leave(&mut self)
        ensures { desk_of self.new ≡ leaving }
    {
        self.reset();
        self.gone = true;
    }

    /// Writes what is owed, as far as the peer takes it.
    fn flush<P: Ports>(&mut self, port: u32, ports: &mut P, left: &mut Budget) -> Rest
        requires port { port < most_ports }
        requires live { self.old.live ≡ true }
        ensures { Flushes result port (desk_of self.old) (desk_of self.new) (P.log ports.old) (P.log ports.new) left.old left.new }
    {
        while !self.owed.rest().is_empty() {
            match ports.write(port, self.owed.rest()) {
                Took::Bytes(n) => {
                    self.owed.consume(n);
                    left.bytes = left.bytes.saturating_sub(n);
                }
                Took::Blocked => return Rest::Stuck,
                Took::Failed => {
                    self.leave();
                    return Rest::Gone;
                }
            }
        }
        Rest::Clear
    }

    /// Whether a record may be stepped: bytes wait that are looked at, and the outbox has room for a reply.
    fn may_step(&self) -> bool
        ensures { result ≡ true → (is_too_long self.now.connection ≡ false) × (0 < length self.now.unread) × (self.now.owed.laid ≤ most_owed) × (length self.now.owed.bytes ≤ most_owed) }
    {
        !self.connection.is_too_long() && !self.unread.rest().is_empty() && self.owed.has_room()
    }

    /// Steps the first record of what came, at the clock's moment, and asks the clock behind it whether the turn is late.
    fn step_one<P: Ports, C: Clock>(
        &mut self,
        alloc: Global,
        engine: &mut Engine,
        port: u32,
        ports: &mut P,
        clock: &mut C,
        left: &mut Budget,
    )
        requires port { port < most_ports }
        requires live { self.old.live ≡ true }
        requires short { is_too_long self.old.connection ≡ false }
        requires some { 0 < length self.old.unread }
        requires laid { self.old.owed.laid ≤ most_owed }
        requires room { length self.old.owed.bytes ≤ most_owed }
        requires left { 0 < left.old.steps }
        ensures { StepsOne port (stand engine.old.kept self.old (P.log ports.old) (C.told clock.old)) (stand engine.new.kept self.new (P.log ports.new) (C.told clock.new)) left.old left.new }
    {
        let before = self.owed.rest().len();
        let now = clock.now();
        let used = self.connection.take_one(
            alloc,
            engine,
            port,
            self.unread.piece(),
            now,
            &mut self.owed,
        );
        self.unread.consume(used);
        left.steps -= 1;
        left.late = clock.is_late();
        let first = self.is_first(before);
        self.heard = either(self.heard, first);
        ports.answered(port, &self.owed.rest()[before..]);
        count(port, ports, first);
    }

    /// Whether what is owed behind so many bytes is the first answer to a session's SEQUENCE.
    fn is_first(&self, before: usize) -> bool
        requires { before ≤ length self.now.owed.bytes }
        ensures { result ≡ is_first self.now.heard (drop before self.now.owed.bytes) }
    {
        !self.heard && answers_sequence(&self.owed.rest()[before..])
    }

    /// Steps the records of what came, while the outbox has room: one at least, and as many as may be at most.
    fn step_some<P: Ports, C: Clock>(
        &mut self,
        alloc: Global,
        engine: &mut Engine,
        port: u32,
        ports: &mut P,
        clock: &mut C,
        left: &mut Budget,
    )
        requires port { port < most_ports }
        requires live { self.old.live ≡ true }
        requires short { is_too_long self.old.connection ≡ false }
        requires some { 0 < length self.old.unread }
        requires empty { length self.old.owed.bytes ≡ 0 }
        requires left { IsLeft left.old }
        ensures { StepsSome port (stand engine.old.kept self.old (P.log ports.old) (C.told clock.old)) (stand engine.new.kept self.new (P.log ports.new) (C.told clock.new)) left.old left.new }
    {
        self.owed.clear();
        self.step_one(alloc, engine, port, ports, clock, left);
        while !left.is_spent() && self.may_step() {
            self.step_one(alloc, engine, port, ports, clock, left);
        }
    }

    /// Writes what is owed, and steps and answers what came, as far as the peer takes it and as may be in this turn.
    fn settle<P: Ports, C: Clock>(
        &mut self,
        alloc: Global,
        engine: &mut Engine,
        port: u32,
        ports: &mut P,
        clock: &mut C,
        left: &mut Budget,
    ) -> Rest
        requires port { port < most_ports }
        requires live { self.old.live ≡ true }
        ensures { Settles result port (stand engine.old.kept self.old (P.log ports.old) (C.told clock.old)) (stand engine.new.kept self.new (P.log ports.new) (C.told clock.new)) left.old left.new }
    {
        loop {
            match self.flush(port, ports, left) {
                Rest::Clear => {}
                Rest::Stuck => return Rest::Stuck,
                Rest::Gone => return Rest::Gone,
            }
            if self.connection.is_too_long() {
                return Rest::Gone;
            }
            if self.unread.rest().is_empty() {
                return Rest::Clear;
            }
            if left.is_spent() {
                return Rest::Clear;
            }
            self.step_some(alloc, engine, port, ports, clock, left);
        }
    }

    /// Whether something waits to be stepped, and nothing to be written.
    pub(crate) fn has_more(&self) -> bool
        ensures more { result ≡ true → HasMore (desk_of self.now) }
        ensures none { HasMore (desk_of self.now) → result ≡ true }
    {
        self.live && self.owed.rest().is_empty() && !self.unread.rest().is_empty()
    }

    /// Whether a connection is served on it.
    pub(crate) fn is_live(&self) -> bool
        ensures { result ≡ self.now.live }
    {
        self.live
    }

    /// The port's turn, of which the clock is told.
    pub(crate) fn visit<P: Ports, C: Clock>(
        &mut self,
        alloc: Global,
        engine: &mut Engine,
        port: u32,
        ports: &mut P,
        clock: &mut C,
    )
        requires port { port < most_ports }
        ensures { Visits port (stand engine.old.kept self.old (P.log ports.old) (C.told clock.old)) (stand engine.new.kept self.new (P.log ports.new) (C.told clock.new)) }
    {
        let before = ports.begin_turn(port);
        clock.begin_turn(before);
        self.turn(alloc, engine, port, ports, clock);
    }

    /// One turn: what waits is answered, then one read, then what came is answered. It ends where the peer takes no more, where 16 records
    /// were stepped, where the peer took 64 KiB, or where the clock says that it has lasted long enough.
    fn turn<P: Ports, C: Clock>(
        &mut self,
        alloc: Global,
        engine: &mut Engine,
        port: u32,
        ports: &mut P,
        clock: &mut C,
    )
        requires port { port < most_ports }
        ensures { TakesTurn port (stand engine.old.kept self.old (P.log ports.old) (C.told clock.old)) (stand engine.new.kept self.new (P.log ports.new) (C.told clock.new)) }
    {
        if !self.live {
            return;
        }
        match self.advance(alloc, engine, port, ports, clock) {
            Rest::Clear => {}
            Rest::Stuck => {}
            Rest::Gone => {
                ports.close(port);
                self.reset();
            }
        }
    }

    /// A turn, up to the closing of its connection where that is gone.
    fn advance<P: Ports, C: Clock>(
        &mut self,
        alloc: Global,
        engine: &mut Engine,
        port: u32,
        ports: &mut P,
        clock: &mut C,
    ) -> Rest
        requires port { port < most_ports }
        requires live { self.old.live ≡ true }
        ensures { TakesTurnUpTo result port (stand engine.old.kept self.old (P.log ports.old) (C.told clock.old)) (stand engine.new.kept self.new (P.log ports.new) (C.told clock.new)) }
    {
        let mut left = Budget {
            steps: MOST_STEPS,
            bytes: MOST_TAKEN,
            late: false,
        };
        match self.settle(alloc, engine, port, ports, clock, &mut left) {
            Rest::Clear => {}
            Rest::Stuck => return Rest::Stuck,
            Rest::Gone => return Rest::Gone,
        }
        if !self.unread.rest().is_empty() {
            return Rest::Clear;
        }
        match self.unread.receive(ports, port) {
            Came::Bytes(_) => self.settle(alloc, engine, port, ports, clock, &mut left),
            Came::Blocked => Rest::Clear,
            Came::Ended => {
                self.leave();
                Rest::Gone
            }
            Came::Failed => {
                self.leave();
                Rest::Gone
            }
        }
    }
}

/// One or the other.
fn either(one: bool, other: bool) -> bool
    ensures { result ≡ (one || other) }
{
    one || other
}

/// Says to a port that its connection counts, if this is the first answer to a session's SEQUENCE.
fn count<P: Ports>(port: u32, ports: &mut P, first: bool)
    requires port { port < most_ports }
    ensures logs { Logs (P.log ports.old) (P.log ports.new) (counted port first) }
{
    if first {
        ports.count(port);
    }
}
