//! What is asked of the connections.

ghost use Rattle.std.specs.Prelude.{◌≡◌, ◌<◌, ◌≤◌, ℕ, [], ◌∷◌, List, Option, IfSome, length};
ghost use Rattle.nfs_serve.specs.Desk.{most_ports, Act, Closed, Counted};
ghost use Rattle.nfs_serve.specs.Told.{Logs};
ghost use Rattle.nfs_serve.specs.Deeds.{Deed};
ghost use Rattle.nfs_serve.specs.Shows.{NamesPort, named, passes, ComesWithin, came, TakesWithin, took};

/// How many ports there are at most: 1,024 seats, and eight in the hall.
pub const MOST_PORTS: u32 = 1_032;

/// Who begins.
#[derive(Clone, Copy, Debug, PartialEq, Eq)]
pub enum Next {
    /// A connection has begun on this port. One that was there is gone.
    Opened(u32),
    /// No connection begins now.
    Nobody,
    /// No connection is left, and none will come.
    Over,
}

/// What a read came to.
#[derive(Clone, Copy, Debug, PartialEq, Eq)]
pub enum Came {
    /// So many bytes came.
    Bytes(usize),
    /// Nothing is there yet.
    Blocked,
    /// The peer will send no more.
    Ended,
    /// The connection has failed.
    Failed,
}

/// What a write came to.
#[derive(Clone, Copy, Debug, PartialEq, Eq)]
pub enum Took {
    /// A front of so many bytes was taken.
    Bytes(usize),
    /// There is no room yet.
    Blocked,
    /// The connection has failed.
    Failed,
}

/// The connections, each on a port of its own, numbered from 0. No call but `next` waits.
pub trait Ports {
    // What was done so far, where it is known.
    ghost log: { Self → Option (List Deed) };

    /// Looks at which ports are ready and who begins, on one of the first `made` ports. Where it may wait and neither is so, it waits for either.
    fn next(&mut self, made: u32, may_wait: bool) -> Next
        requires made { made ≤ most_ports }
        ensures port { NamesPort made result }
        ensures logs { Logs (log self.old) (log self.new) (named made result) };

    /// The first port from `from` on and below `to` that is to have a turn: a read or a write may do something there, and its client's other connections
    /// do not come before it. None before it is.
    fn next_ready(&mut self, from: u32, to: u32) -> Option<u32>
        requires order { from ≤ to }
        requires ports { to ≤ most_ports }
        ensures found { IfSome result (λ port. (from ≤ port) × (port < to)) }
        ensures logs { Logs (log self.old) (log self.new) (passes from to result) };

    /// The turn of a port begins: how many microseconds those of the same client lasted before it in this sweep; 0 where no client is known.
    fn begin_turn(&mut self, port: u32) -> u64
        requires port { port < most_ports }
        ensures { log self.new ≡ log self.old };

    /// Reads what is there into the front of `buf`.
    fn read(&mut self, port: u32, buf: &mut [u8]) -> Came
        requires port { port < most_ports }
        requires room { 0 < length buf.old }
        ensures bound { ComesWithin result buf.new }
        ensures logs { Logs (log self.old) (log self.new) (came port result buf.new) };

    /// Writes a front of the bytes.
    fn write(&mut self, port: u32, bytes: &[u8]) -> Took
        requires port { port < most_ports }
        requires some { 0 < length bytes.now }
        ensures bound { TakesWithin result bytes.now }
        ensures logs { Logs (log self.old) (log self.new) (took port result bytes.now) };

    /// These bytes were put out for what was stepped on the port: the reply to a record, with its mark, or none.
    fn answered(&mut self, port: u32, reply: &[u8])
        requires port { port < most_ports }
        ensures logs { Logs (log self.old) (log self.new) [] };

    /// A session's SEQUENCE was answered on the connection, for the first time.
    fn count(&mut self, port: u32)
        requires port { port < most_ports }
        ensures logs { Logs (log self.old) (log self.new) (record { port = port; act = Counted } ∷ []) };

    /// Ends the connection.
    fn close(&mut self, port: u32)
        requires port { port < most_ports }
        ensures logs { Logs (log self.old) (log self.new) (record { port = port; act = Closed } ∷ []) };
}
