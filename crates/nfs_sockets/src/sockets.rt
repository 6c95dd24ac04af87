//! TCP connections as the ports of a hub, by readiness.

ghost use Rattle.std.specs.Prelude.{◌≡◌, ◌⊎◌, ◌≤◌, ◌<◌, ◌+◌, ◌-◌, ◌&&◌, None, Some, IfSome, IfOk, unwrap_or, not, nat_eq, length, min};
ghost use Rattle.nfs_serve.specs.Desk.{most_ports};
ghost use Rattle.nfs_serve.specs.Shows.{NamesPort, named, passes};
ghost use Rattle.nfs_serve.specs.Told.{Logs};
ghost use Rattle.nfs_serve.specs.declared.ports.Next.TheVariants.{Nobody};
ghost use Rattle.nfs_pace.specs.Places.{client_of, guest_at};
ghost use Rattle.nfs_pace.specs.Turns.{becomes, begun, added, lasted_so_far};
ghost use Rattle.nfs_sockets.specs.Looking.{Looks, asked_below, turn_at, IsFirst};
ghost use Rattle.nfs_sockets.specs.Accepting.{StaysOut};
ghost use Rattle.nfs_sockets.specs.Tally.{no_calls};

use crate::clock::{LastReading, Readings, SystemReadings};
use crate::connections::{Connection, Connections};
use crate::left::{Left, Room};
use crate::looking::Looking;
use crate::outside::{Newcomer, Outside};
use crate::seen::{Seen, seen_in};
use crate::tally::Tally;
use mio::net::TcpListener;
use mio::{Interest, Token};
use nfs_pace::{MICROS, Paced, Places, Turns, patience};
use nfs_serve::{Came, MOST_PORTS, Next, Ports, Took};
use std::net::{Net, SocketAddr};
use std::time::{Duration, Instant};
use std::{io, rt};

/// The token of the listener; those of connections are their ports.
const LISTENER: Token = Token(MOST_PORTS as usize);

/// After how many microseconds a port, or a seat, is looked for again where none was found: each takes a pass over the places. A port is looked for
/// at once where a connection has ended.
const AGAIN: u64 = 5_000;

/// After how many microseconds a seat is looked for again where nobody came and nobody left.
const SELDOM: u64 = 100_000;

/// How many milliseconds a wait lasts while somebody may wait for a port, or is to be closed once it was silent for too long.
const TICK: u64 = 200;

/// Ports whose connections come to one address.
pub trait Listening: Ports {
    /// The address that was taken.
    fn local_addr(&self) -> io::Result<SocketAddr>;

    /// Whether no connection could be taken any more.
    fn failed(&self) -> bool;
}

/// A listener and its connections.
#[derive(Drop)]
pub struct Sockets<'a, R: rt::Clock> {
    rt: &'a R,
    looking: Looking,
    outside: Outside,
    /// Whether somebody was let in where a sweep began last, so that more may be.
    let_in: bool,
    connections: Connections,
    /// Who has a port, who has a seat, and who gives way.
    places: Places,
    /// What leases go by, as it is shown here: who has a seat is judged by it.
    pace: Paced,
    /// What the server's clock reads, which is what that goes by.
    readings: SystemReadings<'a, R>,
    /// Whose connections have a turn, and until when what passed in this sweep is told there.
    turns: Turns,
    charged: u64,
    /// When a port for one of them is looked for again.
    again: u64,
    /// How many were closed since the system had no room to watch one more.
    unwatched: u64,
    /// Whether somebody may have come who wants a seat, or one may have been left, and when seats were looked for last.
    asked: bool,
    sought: u64,
    /// How many connections are still to count.
    left: Left,
    /// How long it waits at most: half of what the clock rises by in a sweep, so that an idle server keeps up.
    patience: Duration,
    /// When it began, if the clock could be read.
    begun: Option<Instant>,
    /// How many microseconds later it was when that was last looked at, behind a wait, and what the server's clock read then.
    now: u64,
    timed: u64,
    /// What was answered, where that is asked for.
    tally: Option<Tally>,
    failed: bool,
}

impl<'a, R: Net + AllocGlobal + rt::Clock> Sockets<'a, R> {
    /// Listens on an address for so many connections that count, or without end, with so much room for them, of a server whose lease lasts so many
    /// seconds.
    pub fn new(
        rt: &'a R,
        last: &'a LastReading,
        addr: SocketAddr,
        connections: Option<u32>,
        room: Room,
        lease: u32,
    ) -> io::Result<Self>
        requires { room.ports ≤ most_ports }
    {
        let looking = Looking::new(rt, room.ports as usize + 1)?;
        let mut readings = SystemReadings::new(rt, last);
        let read = readings.micros().unwrap_or(0);
        let mut listener = TcpListener::bind(rt, addr)?;
        looking
            .registry()
            .register(&mut listener, LISTENER, Interest::READABLE)?;
        Ok(Sockets {
            rt,
            looking,
            outside: Outside::new(rt.alloc(), listener)?,
            let_in: true,
            connections: Connections::new(rt.alloc(), room.ports)?,
            places: Places::new(rt.alloc(), room.ports, room.seats, lease)?,
            pace: Paced::new(lease, read),
            readings,
            turns: Turns::new(rt.alloc())?,
            charged: read,
            again: 0,
            unwatched: 0,
            asked: true,
            sought: 0,
            left: Left::new(connections, room.ports),
            patience: Duration::from_micros(patience(lease)),
            begun: Instant::now(rt).ok(),
            now: 0,
            timed: read,
            tally: None,
            failed: false,
        })
    }
}

impl<R: rt::Clock> Sockets<'_, R> {
    /// What is answered is counted from now on.
    pub fn count_calls(&mut self)
        ensures { self.new ≡ record self.old { tally = Some no_calls } }
    {
        self.tally = Some(Tally::NONE);
    }

    /// What was answered since then.
    pub fn tally(&self) -> Tally
        ensures { result ≡ unwrap_or self.entry.now.tally no_calls }
    {
        self.tally.unwrap_or(Tally::NONE)
    }

    /// How many microseconds after the begin of all the last wait ended.
    pub fn now(&self) -> u64
        ensures { result ≡ self.entry.now.now }
    {
        self.now
    }

    /// Who has a place.
    pub fn places(&self) -> &Places
        ensures { result.now ≡ self.entry.now.places }
    {
        &self.places
    }

    /// Whether a connection waits, and there was no place for it.
    pub fn is_awaited(&self) -> bool
        ensures { result ≡ (not self.entry.now.let_in && not (nat_eq (length self.entry.now.outside.newcomers.items) 0)) }
    {
        !self.let_in && self.outside.count() != 0
    }

    /// Gives one of the first `made` ports to one of those that wait for one, if there is one for it.
    fn accept(&mut self, made: u32) -> io::Result<Option<u32>>
        requires { made ≤ most_ports }
        ensures taken { IfOk result (λ taken. IfSome taken (λ port. port < made)) }
        ensures nobody { IfOk result (λ taken. taken ≡ None → StaysOut made self.new.left self.new.now self.old.again self.new.outside.newcomers.items self.new.places self.new.pace.last self.new.looking.looks self.old.unwatched self.new.unwatched) }
        ensures again { (self.new.again ≡ self.old.again) ⊎ (self.new.again ≡ min (self.new.now + 5000) 18446744073709551615) }
        ensures looking { self.new.looking ≡ self.old.looking }
    {
        let stuck = !self.let_in;
        self.let_in = false;
        if self.left.is_over() {
            return Ok(None);
        }
        self.let_in = self.outside.call_in(stuck)?;
        if self.now < self.again {
            return Ok(None);
        }
        let Some(at) = self.outside.next_in(&self.places) else {
            return Ok(None);
        };
        let (shown, looks) = (self.pace.shown(), self.looking.looks());
        let port = self
            .places
            .place_for(self.outside.address(at), self.now, shown, looks);
        let Some(place) = within(port, made) else {
            self.again = self.now.saturating_add(AGAIN);
            return Ok(None);
        };
        self.let_in = true;
        let newcomer = self.outside.take(at);
        Ok(self.take_on(place, newcomer))
    }

    /// Gives seats to those of the hall that have none, as far as there are some for them. It looks for some soon where a client came or a connection
    /// ended, and else now and then.
    fn seat(&mut self)
        ensures looking { self.new.looking ≡ self.old.looking }
        ensures again { self.new.again ≡ self.old.again }
        ensures unwatched { self.new.unwatched ≡ self.old.unwatched }
    {
        let since = if self.asked { AGAIN } else { SELDOM };
        if self.now < self.sought.saturating_add(since) {
            return;
        }
        self.asked = false;
        self.sought = self.now;
        seat_all(&mut self.places, self.pace.shown());
    }

    /// Serves a connection in a place, and answers its port. One that was there is closed. Where the system has no room to watch it, it is closed itself.
    fn take_on(&mut self, place: usize, newcomer: Newcomer) -> Option<u32>
        requires { place < most_ports }
        ensures port { IfSome result (λ port. port ≡ place) }
        ensures counted { result ≡ None → self.new.unwatched ≡ min (self.old.unwatched + 1) 18446744073709551615 }
        ensures again { self.new.again ≡ self.old.again }
        ensures looking { self.new.looking ≡ self.old.looking }
    {
        let mut stream = newcomer.stream;
        // A reply leaves at once, where the platform lets it.
        let _ = stream.set_nodelay(true);
        let both = Interest::READABLE | Interest::WRITABLE;
        if self
            .looking
            .registry()
            .register(&mut stream, Token(place), both)
            .is_err()
            || place >= self.connections.count()
        {
            self.unwatched = self.unwatched.saturating_add(1);
            return None;
        }
        self.connections
            .put(place as u32, Some(Connection::new(stream)));
        let shown = self.pace.shown();
        self.places.stand(
            place,
            newcomer.address,
            self.now,
            shown,
            self.looking.looks(),
        );
        self.left.take();
        Some(place as u32)
    }

    /// Whether a port is to have a turn in this sweep.
    fn has_turn(&self, port: u32) -> bool
        ensures { result ≡ turn_at self.entry.now.connections self.entry.now.places.guests self.entry.now.turns self.entry.now.looking.looks port }
    {
        if !self.connections.is_ready(port) {
            return false;
        }
        let client = self.places.client_on(port as usize);
        self.turns.has_turn(client, self.looking.looks(), port)
    }

    /// The first port from one on and below another that is to have one.
    fn first_in_turn(&self, from: u32, to: u32) -> Option<u32>
        requires { from ≤ to }
        ensures first { IsFirst (turn_at self.entry.now.connections self.entry.now.places.guests self.entry.now.turns self.entry.now.looking.looks) from to result }
        ensures bound { IfSome result (λ port. (from ≤ port) × (port < to)) }
    {
        let (low, high) = self.connections.span(from, to);
        for port in low..high {
            if self.has_turn(port) {
                return Some(port);
            }
        }
        None
    }

    /// Looks at which connections are ready, and waits for one or for the listener where none is and it may wait.
    fn wait(&mut self, may_wait: bool, made: u32) -> io::Result<()>
        ensures looks { self.new.looking.looks ≡ min (self.old.looking.looks + 1) 18446744073709551615 }
        ensures again { self.new.again ≡ self.old.again }
        ensures unwatched { self.new.unwatched ≡ self.old.unwatched }
        ensures asked { IfOk result (λ _. self.new.turns ≡ asked_below made self.new.connections self.new.places.guests self.new.looking.looks self.old.turns) }
    {
        let ready = self.connections.settle();
        let timeout = self.timeout(ready || !may_wait);
        self.looking.look(timeout)?;
        // (the server's clock begins its sweep by the same reading)
        self.charged = self.readings.read_ahead();
        self.pace.begin_sweep(self.charged);
        let told = self.connections.note_all(self.looking.events());
        self.outside.note(told);
        if self.is_timed() {
            self.now = self.micros();
            self.timed = self.charged;
        }
        ask_all(
            &self.connections,
            &self.places,
            &mut self.turns,
            self.looking.looks(),
            made,
        );
        Ok(())
    }

    /// How long a wait lasts at most, where something else is to be done or nothing is.
    fn timeout(&self, busy: bool) -> Duration {
        let calling = self.outside.is_calling();
        if busy || calling && self.let_in {
            Duration::ZERO
        } else if calling || self.outside.count() != 0 || self.left.is_over() {
            Duration::from_millis(TICK).min(self.patience)
        } else {
            self.patience
        }
    }

    /// Whether it is to be looked how late it is: somebody may want a port or a seat, or the last look was a while ago (or the server's clock was set).
    fn is_timed(&self) -> bool {
        self.asked
            || self.outside.is_calling()
            || self.outside.count() != 0
            || self.charged.wrapping_sub(self.timed) >= SELDOM / 2
    }

    /// How many microseconds after the begin it is; where the clock cannot be read, the last one stays.
    fn micros(&self) -> u64 {
        if let (Some(begun), Ok(now)) = (self.begun, Instant::now(self.rt)) {
            let since = now.saturating_duration_since(begun);
            let seconds = since.as_secs().saturating_mul(MICROS);
            seconds.saturating_add(u64::from(since.subsec_micros()))
        } else {
            self.now
        }
    }

    /// The moment at which something is answered, by what leases go by: the server's clock was read behind its record.
    fn moment(&mut self) -> u64 {
        let read = self.readings.last();
        let _ = self.pace.is_late(read);
        let _ = self.pace.now();
        self.pace.shown()
    }

    /// What passed since somebody was answered last, or since the sweep began, was a turn of the client on the port.
    fn charge(&mut self, port: usize)
        ensures charged { self.new.charged ≡ self.old.pace.read }
        ensures pace { self.new.pace ≡ self.old.pace }
        ensures turns { self.new.turns ≡ becomes (client_of (guest_at self.old.places.guests port)) (added (client_of (guest_at self.old.places.guests port)) self.old.looking.looks (self.old.pace.read - self.old.charged)) self.old.turns }
    {
        let read = self.pace.read();
        let passed = read.saturating_sub(self.charged);
        self.charged = read;
        let client = self.places.client_on(port);
        self.turns.add(client, self.looking.looks(), passed);
    }
}

/// Gives seats to those of the hall that have none, as far as there are some for them.
fn seat_all(places: &mut Places, shown: u64) {
    for _ in 0..places.count() {
        if !places.seat_next(shown) {
            return;
        }
    }
}

/// Each of the first `made` ports that is ready asks for a turn of its client in this sweep.
fn ask_all(connections: &Connections, places: &Places, turns: &mut Turns, sweep: u64, made: u32)
    ensures { turns.new ≡ asked_below made connections.now places.now.guests sweep turns.old }
{
    let (low, high) = connections.span(0, made);
    for port in low..high {
        if connections.is_ready(port) {
            turns.ask(places.client_on(port as usize), sweep, port);
        }
    }
}

/// The port, if it is one of the first `made`.
fn within(port: Option<usize>, made: u32) -> Option<usize>
    ensures some { IfSome result (λ place. (port ≡ Some place) × (place < made)) }
    ensures none { result ≡ None → IfSome port (λ place. made ≤ place) }
{
    match port {
        Some(port) => {
            if port < made as usize {
                Some(port)
            } else {
                None
            }
        }
        None => None,
    }
}

impl<R: rt::Clock> Listening for Sockets<'_, R> {
    fn local_addr(&self) -> io::Result<SocketAddr> {
        self.outside.local_addr()
    }

    fn failed(&self) -> bool {
        self.failed
    }
}

impl<R: rt::Clock> Ports for Sockets<'_, R> {
    ghost log = { λ _. None };

    fn next(&mut self, made: u32, may_wait: bool) -> Next
        requires { made ≤ most_ports }
        ensures port { NamesPort made result }
        ensures logs { Logs None None (named made result) }
        ensures looks { Looks self.old.looking.looks self.new.looking.looks result }
        ensures nobody { result ≡ Nobody → StaysOut made self.new.left self.new.now self.old.again self.new.outside.newcomers.items self.new.places self.new.pace.last self.new.looking.looks self.old.unwatched self.new.unwatched }
        ensures again { (self.new.again ≡ self.old.again) ⊎ (self.new.again ≡ min (self.new.now + 5000) 18446744073709551615) }
    {
        if self.left.is_over() && self.places.is_empty() {
            return Next::Over;
        }
        if self.wait(may_wait, made).is_err() {
            self.failed = true;
            return Next::Over;
        }
        self.seat();
        if self.left.is_over() {
            let shown = self.pace.shown();
            self.connections.end_silent(&self.places, shown);
        }
        match self.accept(made) {
            Ok(Some(port)) => Next::Opened(port),
            Ok(None) => Next::Nobody,
            Err(_) => {
                self.failed = true;
                Next::Over
            }
        }
    }

    fn next_ready(&mut self, from: u32, to: u32) -> Option<u32>
        requires { from ≤ to }
        ensures found { IfSome result (λ port. (from ≤ port) × (port < to)) }
        ensures logs { Logs None None (passes from to result) }
        ensures first { IsFirst (turn_at self.old.connections self.old.places.guests self.old.turns self.old.looking.looks) from to result }
    {
        self.first_in_turn(from, to)
    }

    fn begin_turn(&mut self, port: u32) -> u64
        ensures turns { self.new.turns ≡ becomes (client_of (guest_at self.old.places.guests port)) (begun (client_of (guest_at self.old.places.guests port)) self.old.looking.looks port) self.old.turns }
        ensures before { result ≡ lasted_so_far (client_of (guest_at self.old.places.guests port)) self.old.looking.looks self.old.turns }
    {
        let client = self.places.client_on(port as usize);
        self.turns.begin(client, self.looking.looks(), port)
    }

    fn read(&mut self, port: u32, buf: &mut [u8]) -> Came {
        self.connections.read(port, buf)
    }

    fn write(&mut self, port: u32, bytes: &[u8]) -> Took {
        self.connections.write(port, bytes)
    }

    fn answered(&mut self, port: u32, reply: &[u8])
        ensures charged { 0 < length reply.now → self.new.charged ≡ self.new.pace.read }
    {
        if let Some(tally) = &mut self.tally {
            tally.note(reply);
        }
        if reply.is_empty() {
            return;
        }
        let (port, shown) = (port as usize, self.moment());
        match seen_in(reply) {
            Seen::Sequence(client) => self.places.answered(port, client, shown),
            Seen::End => self.places.ended(port),
            Seen::Other => self.places.heard(port, shown),
        }
        self.charge(port);
    }

    fn count(&mut self, port: u32) {
        let _ = port;
        self.asked = true;
        self.left.hear();
    }

    fn close(&mut self, port: u32)
        requires { port < most_ports }
        ensures again { self.new.again ≡ 0 }
    {
        self.connections.put(port, None);
        self.asked = true;
        self.again = 0;
        let shown = self.pace.shown();
        self.places.leave(port as usize, shown);
    }
}
