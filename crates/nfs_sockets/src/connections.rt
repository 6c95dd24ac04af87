//! The connections by their ports, and where those lie that are ready.

ghost use Rattle.std.specs.Prelude.{◌≡◌, ◌≤◌, ◌<◌, ◌+◌, ℕ, IfOk, true, false, length, set};
ghost use Rattle.nfs_serve.specs.Desk.{most_ports};
ghost use Rattle.nfs_serve.specs.Shows.{ComesWithin, TakesWithin};
ghost use Rattle.nfs_sockets.specs.Looking.{ready_at, NoneBefore};

use mio::Events;
use mio::net::TcpStream;
use nfs_pace::Places;
use nfs_serve::{Came, MOST_PORTS, Took};
use std::alloc::{AllocError, Global};
use std::io::{ErrorKind, Read, Write};
use std::marker::Model;

/// A connection, and what was told of it.
#[derive(Drop)]
pub(crate) struct Connection {
    stream: TcpStream,
    /// Whether a read or a write may do something.
    ready: bool,
    /// Whether a read may: bytes or an end were told, and no read was short since.
    readable: bool,
    /// Whether the peer has ended its side or the connection has failed, so that a read says so once all bytes were read.
    ending: bool,
    /// Whether it is to be closed, since it was silent for too long and nobody is served after it.
    over: bool,
}

impl Connection {
    /// One that has just begun: a read is tried on it.
    pub(crate) fn new(stream: TcpStream) -> Connection {
        Connection {
            stream,
            ready: true,
            readable: true,
            ending: false,
            over: false,
        }
    }

    /// It is to be closed: it is ready, so that this is met.
    fn end(&mut self) {
        self.over = true;
        self.ready = true;
    }

    /// Notes what was told of it.
    fn note(&mut self, readable: bool, ending: bool) {
        self.ready = true;
        self.ending = self.ending || ending;
        self.readable = self.readable || self.ending || readable;
    }

    /// Reads what is there into the front of `buf`.
    fn read(&mut self, buf: &mut [u8]) -> Came
        ensures { ComesWithin result buf.new }
    {
        if self.over {
            return Came::Ended;
        }
        // Bytes that were read while they were told are told once more, as room to write.
        if !self.readable {
            self.ready = false;
            return Came::Blocked;
        }
        match self.stream.read(buf) {
            Ok(0) => Came::Ended,
            Ok(n) => {
                // What comes behind a read that was short is told anew; an end that was told already is not.
                self.readable = n == buf.len() || self.ending;
                self.ready = self.readable;
                Came::Bytes(n)
            }
            Err(e) if e.kind() == ErrorKind::WouldBlock => {
                self.readable = false;
                self.ready = false;
                Came::Blocked
            }
            Err(e) if e.kind() == ErrorKind::Interrupted => Came::Blocked,
            Err(_) => Came::Failed,
        }
    }

    /// Writes a front of the bytes.
    fn write(&mut self, bytes: &[u8]) -> Took
        ensures { TakesWithin result bytes.now }
    {
        if self.over {
            return Took::Failed;
        }
        match self.stream.write(bytes) {
            Ok(0) => Took::Failed,
            Ok(n) => Took::Bytes(n),
            Err(e) if e.kind() == ErrorKind::WouldBlock => {
                self.ready = false;
                Took::Blocked
            }
            Err(e) if e.kind() == ErrorKind::Interrupted => Took::Blocked,
            Err(_) => Took::Failed,
        }
    }
}

/// The connections by their ports. Those that are ready have ports from one on and below another, so that nobody looks at all of them.
#[derive(Drop)]
pub(crate) struct Connections {
    all: Vec<Option<Connection>>,
    from: u32,
    to: u32,
}

impl Model for Connections {
    ghost use Rattle.std.specs.Prelude.{List, Option};
    ghost use Rattle.nfs_sockets.specs.Looking.{Between};
    ghost use Rattle.nfs_sockets.specs.declared.connections.Connection.{Connection};

    ghost Value = { List (Option Connection) };

    ghost view = { λ c. c.all.items };

    ghost invariant = { λ c. Between c.from c.to c.all.items };
}

impl Connections {
    /// So many ports without a connection.
    ///
    /// `AllocError` where memory is refused.
    pub(crate) fn new(alloc: Global, ports: u32) -> Result<Connections, AllocError> {
        Ok(Connections {
            all: no_connections(alloc, ports)?,
            from: 0,
            to: ports,
        })
    }

    /// How many ports there are.
    pub(crate) fn count(&self) -> usize
        ensures { result ≡ length self.now }
    {
        self.all.len()
    }

    /// Whether a read or a write may do something on a port.
    pub(crate) fn is_ready(&self, port: u32) -> bool
        ensures { result ≡ ready_at self.now port }
    {
        is_ready(&self.all, port)
    }

    /// Between which ports those are that are ready, of the ports from one on and below another.
    pub(crate) fn span(&self, from: u32, to: u32) -> (u32, u32)
        requires { from ≤ to }
        ensures order { (from ≤ result.0) × (result.0 ≤ result.1) × (result.1 ≤ to) }
        ensures ready { (port : ℕ) → from ≤ port → port < to → ready_at self.now port ≡ true → (result.0 ≤ port) × (port < result.1) }
    {
        let low = nearest(self.from, from, to);
        (low, nearest(self.to, low, to))
    }

    /// Looks between which ports those are that are ready now, from the lowest on. Whether there is one.
    pub(crate) fn settle(&mut self) -> bool
        ensures same { self.new ≡ self.old }
        ensures some { result ≡ true → (port : ℕ) × (ready_at self.new port ≡ true) }
        ensures none { result ≡ false → (port : ℕ) → ready_at self.new port ≡ false }
    {
        let first = first_ready(&self.all, self.from, self.to);
        if first < self.to {
            self.from = first;
            true
        } else {
            self.from = MOST_PORTS;
            self.to = 0;
            false
        }
    }

    /// Notes what was told of connections: whether something was told of what is none.
    pub(crate) fn note_all(&mut self, events: &Events) -> bool {
        let mut calling = false;
        for event in events {
            let port = event.token().0;
            if port < MOST_PORTS as usize {
                let ending = event.is_read_closed() || event.is_error();
                self.note(port as u32, event.is_readable(), ending);
            } else {
                calling = true;
            }
        }
        calling
    }

    /// Notes what was told of the connection on a port.
    fn note(&mut self, port: u32, readable: bool, ending: bool)
        requires { port < most_ports }
    {
        reach(&mut self.from, &mut self.to, port);
        if let Some(Some(connection)) = self.all.get_mut(port as usize) {
            connection.note(readable, ending);
        }
    }

    /// This connection, or none, is on a port from now on.
    pub(crate) fn put(&mut self, port: u32, connection: Option<Connection>)
        requires { port < most_ports }
        ensures { self.new ≡ set self.old port connection }
    {
        reach(&mut self.from, &mut self.to, port);
        if let Some(place) = self.all.get_mut(port as usize) {
            *place = connection;
        }
    }

    /// The connection on a port is to be closed.
    fn end(&mut self, port: u32)
        requires { port < most_ports }
    {
        reach(&mut self.from, &mut self.to, port);
        if let Some(Some(connection)) = self.all.get_mut(port as usize) {
            connection.end();
        }
    }

    /// Connections that were silent for too long are to be closed.
    pub(crate) fn end_silent(&mut self, places: &Places, shown: u64) {
        for port in 0..MOST_PORTS {
            if places.is_over(port as usize, shown) {
                self.end(port);
            }
        }
    }

    /// Reads what is there on a port into the front of `buf`.
    pub(crate) fn read(&mut self, port: u32, buf: &mut [u8]) -> Came
        requires { port < most_ports }
        ensures { ComesWithin result buf.new }
    {
        reach(&mut self.from, &mut self.to, port);
        match self.all.get_mut(port as usize) {
            Some(Some(connection)) => connection.read(buf),
            _ => Came::Failed,
        }
    }

    /// Writes a front of the bytes to a port.
    pub(crate) fn write(&mut self, port: u32, bytes: &[u8]) -> Took
        requires { port < most_ports }
        ensures { TakesWithin result bytes.now }
    {
        reach(&mut self.from, &mut self.to, port);
        match self.all.get_mut(port as usize) {
            Some(Some(connection)) => connection.write(bytes),
            _ => Took::Failed,
        }
    }
}

/// So many ports without a connection.
fn no_connections(alloc: Global, ports: u32) -> Result<Vec<Option<Connection>>, AllocError>
    ensures { IfOk result (λ all. length all.items ≡ ports) }
{
    let mut connections = Vec::with_capacity(alloc, ports as usize)?;
    for _ in 0..ports {
        connections.push(None)?;
    }
    Ok(connections)
}

/// Whether a read or a write may do something on a port.
fn is_ready(connections: &[Option<Connection>], port: u32) -> bool
    ensures { result ≡ ready_at connections.now port }
{
    match connections.get(port as usize) {
        Some(Some(connection)) => connection.ready,
        _ => false,
    }
}

/// The first port from one on and below another that is ready, or else the latter.
fn first_ready(connections: &[Option<Connection>], from: u32, to: u32) -> u32
    ensures none { NoneBefore (ready_at connections.now) from result }
    ensures ready { result < to → ready_at connections.now result ≡ true }
{
    for port in from..to {
        if is_ready(connections, port) {
            return port;
        }
    }
    to
}

/// A port lies from the one on and below the other, as those do that lay there before.
fn reach(from: &mut u32, to: &mut u32, port: u32)
    requires { port < most_ports }
    ensures from { (from.new ≤ from.old) × (from.new ≤ port) }
    ensures to { (to.old ≤ to.new) × (port < to.new) }
{
    *from = (*from).min(port);
    *to = (*to).max(port + 1);
}

/// A number, or what is nearest to it from one on up to another.
fn nearest(n: u32, from: u32, to: u32) -> u32
    requires { from ≤ to }
    ensures order { (from ≤ result) × (result ≤ to) }
    ensures below { (port : ℕ) → port < n → port < to → port < result }
    ensures above { (port : ℕ) → n ≤ port → from ≤ port → result ≤ port }
{
    n.max(from).min(to)
}
