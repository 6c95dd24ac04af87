//! A connection: what is held of its stream, and what its pieces come to (RFC 5531 section 11).

ghost use Rattle.std.specs.Prelude.{◌≡◌, ◌≤◌, ◌<◌, ◌++◌, [], length, take, IfOk, OnOk, OnErr, false};
ghost use Rattle.nfs_xdr.specs.Text.{IsBytes};
ghost use Rattle.nfs_xdr.specs.Spelling.{number};
ghost use Rattle.nfs_rpc.specs.Feeding.{waits};
ghost use Rattle.nfs_rpc.specs.RecordMarking.{is_too_long};
ghost use Rattle.nfs_serve.specs.Ends.{Writes};
ghost use Rattle.nfs_serve.specs.Run.{spell_overflow};
ghost use Rattle.nfs_serve.specs.Server.{fresh, state_of};
ghost use Rattle.nfs_serve.specs.Script.{last_moment};
ghost use Rattle.nfs_serve.specs.First.{TakesOnto, TakesFirst, FeedsEntry};
ghost use Rattle.nfs_serve.specs.Desk.{most_owed};

use crate::Sink;
use crate::engine::Engine;
use crate::form::{Flow, Form, Outcome};
use crate::moving::{WriteFailed, put};
use crate::outbox::Outbox;
use crate::script::Entry;
use nfs_rpc::{Fed, Records};
use std::alloc::{AllocError, Global};
use std::marker::Model;

/// The bytes of a record mark.
pub(crate) const MARK: usize = 4;

/// What the first record of a piece comes to.
#[derive(Clone, Copy, Debug, PartialEq, Eq)]
pub(crate) enum First {
    /// All of the piece was taken, and no record ends in it.
    Nothing,
    /// The record that ends with the last of so many bytes was stepped, and answered so. A reply is lent by the engine.
    Record(usize, Outcome),
    /// The stream is too long.
    TooLong,
}

/// What is held of a connection's stream. Between two calls no whole record waits.
#[derive(Drop)]
pub(crate) struct Connection {
    records: Records,
}

impl Model for Connection {
    ghost use Rattle.std.specs.Prelude.{◌≡◌, false};
    ghost use Rattle.nfs_rpc.specs.RecordMarking.{Gathered};
    ghost use Rattle.nfs_rpc.specs.Feeding.{waits};

    ghost Value = { Gathered };

    ghost view = { λ c. c.records };

    ghost invariant = { λ c. waits c.records ≡ false };
}

impl Connection {
    /// A connection on which nothing has come. Its buffer is made here.
    pub(crate) fn new(alloc: Global) -> Result<Connection, AllocError>
        ensures { IfOk result (λ c. c ≡ fresh) }
    {
        Ok(Connection {
            records: Records::new(alloc)?,
        })
    }

    /// Begins a new stream.
    pub(crate) fn close(&mut self)
        ensures { self.new ≡ fresh }
    {
        self.records.reset();
    }

    /// Whether the stream is too long.
    pub(crate) fn is_too_long(&self) -> bool
        ensures { result ≡ is_too_long self.now }
    {
        self.records.is_too_long()
    }

    /// Takes the bytes of a piece up to the end of the first record in them, or all of them, and steps that record. What it is
    /// answered, with its record mark, is put behind what is owed. Answers how many bytes were taken.
    pub(crate) fn take_one(
        &mut self,
        alloc: Global,
        engine: &mut Engine,
        conn: u32,
        piece: &[u8],
        now: u64,
        owed: &mut Outbox,
    ) -> usize
        requires open { is_too_long self.old ≡ false }
        requires some { 0 < length piece.now }
        requires moment { now ≤ last_moment }
        requires room { owed.old.laid ≤ most_owed }
        ensures used { (0 < result) × (result ≤ length piece.now) }
        ensures taken { TakesOnto conn (state_of engine.old.kept) self.old now (take result piece.now) (state_of engine.new.kept) self.new owed.old.bytes owed.new.bytes }
    {
        // A record that stands whole in the piece is stepped where it stands.
        if let Some(call) = self.records.whole(piece) {
            owed.answer(alloc, engine, call, now);
            return MARK + call.len();
        }
        match self.records.feed(piece) {
            Fed::More => piece.len(),
            Fed::TooLong => piece.len(),
            Fed::Whole(taken) => {
                owed.answer(alloc, engine, self.records.record(), now);
                self.records.take();
                taken
            }
        }
    }

    /// Takes the piece of an entry: each record that it ends is stepped and its reply written.
    pub(crate) fn feed<W: Sink>(
        &mut self,
        alloc: Global,
        engine: &mut Engine,
        entry: &Entry<'_>,
        form: Form,
        out: &mut W,
    ) -> Result<Flow, WriteFailed>
        requires bytes { IsBytes entry.now.piece.now }
        requires moment { entry.now.moment ≤ last_moment }
        requires out { W.has_failed out.old ≡ false }
        ensures fed { FeedsEntry result (state_of engine.old.kept) (state_of engine.new.kept) self.old self.new entry.now form (W.held out.old) (W.held out.new) (W.has_failed out.new) }
        ensures closed { OnErr result (self.new ≡ fresh) }
        ensures empty { entry.now.piece.now ≡ [] → (engine.new ≡ engine.old) × (self.new ≡ self.old) }
    {
        if self.records.is_too_long() {
            return Ok(Flow::Shut);
        }
        if entry.piece.is_empty() {
            return Ok(Flow::Open);
        }
        match take_piece(&mut self.records, alloc, engine, entry, form, out) {
            Ok(flow) => Ok(flow),
            Err(WriteFailed) => {
                self.records.reset();
                Err(WriteFailed)
            }
        }
    }
}

/// Takes a piece of a stream that is not too long.
fn take_piece<W: Sink>(
    records: &mut Records,
    alloc: Global,
    engine: &mut Engine,
    entry: &Entry<'_>,
    form: Form,
    out: &mut W,
) -> Result<Flow, WriteFailed>
    requires waits { waits records.old ≡ false }
    requires open { is_too_long records.old ≡ false }
    requires bytes { IsBytes entry.now.piece.now }
    requires moment { entry.now.moment ≤ last_moment }
    requires out { W.has_failed out.old ≡ false }
    ensures taken { FeedsEntry result (state_of engine.old.kept) (state_of engine.new.kept) records.old records.new entry.now form (W.held out.old) (W.held out.new) (W.has_failed out.new) }
    ensures waits { OnOk result (waits records.new ≡ false) }
{
    let mut rest = entry.piece;
    while !rest.is_empty() {
        match take_first(records, alloc, engine, rest, entry.moment) {
            First::Nothing => return Ok(Flow::Open),
            First::TooLong => {
                put_overflow(entry.conn, form, out)?;
                return Ok(Flow::Shut);
            }
            First::Record(used, outcome) => {
                rest = &rest[used..];
                engine.write_answer(outcome, entry.conn, form, out)?;
            }
        }
    }
    Ok(Flow::Open)
}

/// Takes the bytes of a piece up to the end of the first record in them, or all of them, and steps that record.
fn take_first(
    records: &mut Records,
    alloc: Global,
    engine: &mut Engine,
    piece: &[u8],
    now: u64,
) -> First
    requires waits { waits records.old ≡ false }
    requires open { is_too_long records.old ≡ false }
    requires moment { now ≤ last_moment }
    ensures { TakesFirst result engine.old engine.new records.old records.new now piece.now }
{
    // A record that stands whole in the piece is stepped where it stands.
    if let Some(call) = records.whole(piece) {
        let outcome = engine.record(alloc, call, now);
        return First::Record(MARK + call.len(), outcome);
    }
    match records.feed(piece) {
        Fed::More => First::Nothing,
        Fed::TooLong => First::TooLong,
        Fed::Whole(used) => {
            let outcome = engine.record(alloc, records.record(), now);
            records.take();
            First::Record(used, outcome)
        }
    }
}

/// Tells that a stream has become too long.
fn put_overflow<W: Sink>(conn: u32, form: Form, out: &mut W) -> Result<(), WriteFailed>
    requires { W.has_failed out.old ≡ false }
    ensures { Writes result (W.held out.old) (W.held out.new) (spell_overflow form conn) (W.has_failed out.new) }
{
    match form {
        Form::Tagged => put(out, &zero_mark(conn)),
        Form::Plain => Ok(()),
    }
}

/// A connection's number and a zero mark.
#[tactic(auto, unfolding(nfs_xdr::specs::Spelling::number))]
fn zero_mark(conn: u32) -> [u8; 8]
    ensures { result ≡ number conn ++ number 0 }
{
    let c = conn.to_be_bytes();
    [c[0], c[1], c[2], c[3], 0, 0, 0, 0]
}
