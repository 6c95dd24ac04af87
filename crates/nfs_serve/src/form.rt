//! How replies are written out, and what becomes of a record and of a connection.

/// How replies are written out.
#[derive(Clone, Copy, Debug, PartialEq, Eq)]
pub enum Form {
    /// Each reply with its record mark behind its connection's number (4 bytes).
    Tagged,
    /// Each reply with its record mark.
    Plain,
}

/// What becomes of a connection.
#[derive(Clone, Copy, Debug, PartialEq, Eq)]
pub enum Flow {
    /// It goes on.
    Open,
    /// Its stream is too long: nothing that comes on it is looked at until it is closed.
    Shut,
}

/// What a record is answered.
#[derive(Clone, Copy, Debug, PartialEq, Eq)]
pub enum Outcome {
    /// A reply, which `Server::reply` lends.
    Reply,
    /// Nothing.
    Silent,
}
