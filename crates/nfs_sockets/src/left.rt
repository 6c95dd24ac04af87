//! How many connections a run still serves.

ghost use Rattle.std.specs.Prelude.{◌≡◌, ◌≤◌, IfSome, nat_eq};
ghost use Rattle.nfs_serve.specs.Script.{connection_count};
ghost use Rattle.nfs_serve.specs.Desk.{most_ports};
ghost use Rattle.nfs_sockets.specs.Left.{hall_of, room_of, taken, heard, less, none_left};

use nfs_serve::MOST_PORTS;

/// How many stand in the hall where all seats are taken.
const HALL: u32 = 8;

/// The most seats.
const MOST_SEATS: u32 = MOST_PORTS - HALL;

/// How many connections a server has at once, and how many of them have a seat.
#[derive(Clone, Copy)]
pub struct Room {
    /// How many ports there are.
    pub ports: u32,
    /// How many seats.
    pub seats: u32,
}

impl Room {
    /// For as many connections at once as are asked for, or for so many seats, 1,024 at most, and the hall.
    pub fn of(at_once: Option<u32>, seats: u32) -> Room
        requires asked { IfSome at_once (λ n. n ≤ connection_count) }
        ensures room { result ≡ room_of at_once seats }
        ensures bound { result.ports ≤ most_ports }
    {
        match at_once {
            Some(ports) => Room {
                ports,
                seats: ports - hall_of(ports),
            },
            None => {
                let seats = seats.min(MOST_SEATS);
                Room {
                    ports: seats + HALL,
                    seats,
                }
            }
        }
    }
}

/// How many of so many ports have no seat at least.
fn hall_of(ports: u32) -> u32
    ensures count { result ≡ hall_of ports }
    ensures bound { result ≤ ports }
{
    if ports < 2 { 0 } else { (ports / 8).max(1) }
}

/// How many connections are still to count before the program ends, if it is to end.
#[derive(Clone, Copy)]
pub struct Left {
    /// So many; `None` where there is no end.
    connections: Option<u32>,
    /// Whether each connection counts that is taken, and not those alone on which a session's SEQUENCE was answered.
    each: bool,
}

impl Left {
    /// So many connections, so many of them at once. One after the other, each counts.
    pub fn new(connections: Option<u32>, at_once: u32) -> Left
        ensures { result ≡ record { connections = connections; each = nat_eq at_once 1 } }
    {
        Left {
            connections,
            each: at_once == 1,
        }
    }

    /// A connection was taken.
    pub fn take(&mut self)
        ensures { self.new ≡ taken self.old }
    {
        if self.each {
            self.connections = less(self.connections);
        }
    }

    /// A session's SEQUENCE was answered on a connection, for the first time.
    pub fn hear(&mut self)
        ensures { self.new ≡ heard self.old }
    {
        if !self.each {
            self.connections = less(self.connections);
        }
    }

    /// Whether all have counted.
    pub fn is_over(&self) -> bool
        ensures { result ≡ none_left self.now.connections }
    {
        match self.connections {
            Some(connections) => connections == 0,
            None => false,
        }
    }
}

/// One fewer.
fn less(connections: Option<u32>) -> Option<u32>
    ensures { result ≡ less connections }
{
    match connections {
        Some(connections) => Some(connections.saturating_sub(1)),
        None => None,
    }
}
