//! A server: records, connections and scripts over one state.

ghost use Rattle.std.specs.Prelude.{◌≡◌, ◌≢◌, ◌≤◌, [], false, IfOk, OnErr, replicate};
ghost use Rattle.nfs_tree.specs.{Limits.usual_limits, declared.profile.Profile.TheVariants.Exact};
ghost use Rattle.nfs_exec.specs.Step.Held.{held};
ghost use Rattle.nfs_exec.specs.Step.Machine.{IsMachine, HasNoClashes};
ghost use Rattle.nfs_serve.specs.Server.{fresh, held_on, IsWith, Steps, FeedsOn, Closes, IsNew, state_of};
ghost use Rattle.nfs_serve.specs.Replay.{IsReplay};
ghost use Rattle.nfs_serve.specs.Talk.{Talks, TalkReports};
ghost use Rattle.nfs_serve.specs.Hub.{Serves};
ghost use Rattle.nfs_names.specs.Crowd.{usual_crowd};
ghost use Rattle.nfs_names.specs.ServerOwner.{usual_owner};
ghost use Rattle.nfs_serve.specs.Script.{last_moment, last_connection, connection_count};

use crate::connection::Connection;
use crate::engine::Engine;
use crate::fault::ReplayFault;
use crate::form::{Flow, Form, Outcome};
use crate::hub::{Hub, serve};
use crate::lending::{ByReading, FromBuffer, Lends};
use crate::moving::WriteFailed;
use crate::running::{close_all, run};
use crate::script::{Entry, LAST_CONNECTION, MAX_PIECE};
use crate::talking::{Talk, converse};
use crate::{BufSource, Clock, Ports, Sink, Source, Watch};
use nfs_exec::Held;
use nfs_names::{Crowd, ServerOwner, Start};
use nfs_tree::{Limits, Profile};
use std::alloc::{AllocError, Global};
use std::marker::Model;

/// How many connections a server has, numbered from 0.
const CONNECTIONS: usize = LAST_CONNECTION as usize + 1;

/// What the server is started with.
#[derive(Clone, Copy, Debug, PartialEq, Eq)]
pub struct Settings {
    /// How long a lease lasts, in seconds.
    pub lease: u32,
    /// The permission bits of the root directory.
    pub root_mode: u32,
}

/// An NFS version 4.1 server with 16 connections.
///
/// Contracts see the state that the steps of its records speak of, what is held of each connection's stream, and the reply that
/// is lent.
#[derive(Drop)]
pub struct Server {
    engine: Engine,
    connections: Vec<Connection>,
    piece: Vec<u8>,
}

impl Model for Server {
    ghost use Rattle.std.specs.Prelude.{vec_len, ◌≡◌};
    ghost use Rattle.nfs_serve.specs.Server.{ServerModel};
    ghost use Rattle.nfs_serve.specs.Script.{most_piece, connection_count};

    ghost Value = { ServerModel };

    ghost view = { λ s. record { kept = s.engine.kept; held = s.connections.items; reply = s.engine.reply } };

    ghost invariant = { λ s. (vec_len s.connections ≡ connection_count) × (vec_len s.piece ≡ most_piece) };
}

impl Server {
    /// A server that is started with these settings, and names itself `nfs41d`. `instance` marks it off from other starts of the
    /// server. `AllocError` where memory is refused, as in [`Server::starting`].
    pub fn new(alloc: Global, settings: Settings, instance: u32) -> Result<Server, AllocError>
        ensures { IfOk result (λ s. IsNew (record { mode = settings.root_mode; instance = instance; lease = settings.lease; limits = usual_limits; profile = Exact; crowd = usual_crowd; owner = usual_owner }) s) }
    {
        let owner = ServerOwner::of(alloc, b"nfs41d")?;
        Server::starting(
            alloc,
            Start {
                mode: settings.root_mode,
                instance,
                lease: settings.lease,
                limits: Limits::PROFILE,
                profile: Profile::Exact,
                crowd: Crowd::USUAL,
                owner,
            },
        )
    }

    /// A server at moment 0, on whose connections nothing has come. All buffers of records, pieces and replies are made here.
    ///
    /// `AllocError` where memory is refused.
    pub fn starting(alloc: Global, start: Start) -> Result<Server, AllocError>
        ensures { IfOk result (λ s. IsNew start s) }
    {
        let piece = vec![in alloc; 0; MAX_PIECE as usize]?;
        let connections = connections(alloc)?;
        Ok(Server {
            engine: Engine::new(alloc, start)?,
            connections,
            piece,
        })
    }

    /// Steps one record, whose data is `call`, at the moment `now` (seconds, at most 2^62), on no connection. Where the outcome is
    /// `Reply` the reply is lent by [`Server::reply`].
    pub fn record(&mut self, alloc: Global, call: &[u8], now: u64) -> Outcome
        requires now { now ≤ last_moment }
        ensures { Steps result self.old self.new call.now now }
    {
        self.engine.record(alloc, call, now)
    }

    /// How many clients, sessions, objects, opens and lock states the server keeps.
    pub fn held(&self) -> Held
        ensures { result ≡ held (state_of self.now.kept).machine }
    {
        self.engine.held()
    }

    /// No byte of a file has a writer beside another holder, and no two opens of different owners clash, in every state that a
    /// server reaches; this does nothing but say so.
    pub fn no_clash(&self)
        ensures { HasNoClashes (state_of self.now.kept).machine }
    {
        self.engine.no_clash();
    }

    /// In every state that a server reaches a client record has a lease, and nothing else has one; who has a session or an open
    /// is there and confirmed. This does nothing but say so.
    pub fn tables_agree(&self)
        ensures { IsMachine (state_of self.now.kept).machine }
    {
        self.engine.tables_agree();
    }

    /// The reply to the record that [`Server::record`] stepped last, without a record mark: no bytes where it was silent, and none
    /// behind a piece of some bytes that was fed or a script that was run.
    pub fn reply(&self) -> &[u8]
        ensures { result.now ≡ self.now.reply }
    {
        self.engine.reply()
    }

    /// Takes a piece that came on the connection `conn` (at most 15) at the moment `now` (seconds, at most 2^62): each record that
    /// it ends is stepped, and its reply written to `out` in the form asked for. Where the stream becomes too long that is reported
    /// once, and what comes is ignored until the connection is closed. An empty piece changes nothing.
    ///
    /// `WriteFailed` only where `out` has failed. The record whose reply was being written is done, the rest of the piece is
    /// dropped and the connection closed.
    pub fn feed<W: Sink>(
        &mut self,
        alloc: Global,
        conn: u32,
        piece: &[u8],
        now: u64,
        form: Form,
        out: &mut W,
    ) -> Result<Flow, WriteFailed>
        requires conn { conn ≤ last_connection }
        requires now { now ≤ last_moment }
        requires out { W.has_failed out.old ≡ false }
        ensures fed { FeedsOn result self.old self.new conn now piece.now form (W.held out.old) (W.held out.new) (W.has_failed out.new) }
        ensures closed { OnErr result (held_on self.new.held conn ≡ fresh) }
        ensures others { IsWith self.new.held self.old.held conn (held_on self.new.held conn) }
        ensures empty { piece.now ≡ [] → self.new ≡ self.old }
        ensures reply { piece.now ≢ [] → self.new.reply ≡ [] }
    {
        let entry = Entry {
            moment: now,
            conn,
            piece,
        };
        let fed = self.connections[conn as usize].feed(alloc, &mut self.engine, &entry, form, out);
        if !piece.is_empty() {
            self.engine.forget_reply();
        }
        fed
    }

    /// Closes the connection `conn` (at most 15): a new stream begins on it.
    pub fn close(&mut self, conn: u32)
        requires { conn ≤ last_connection }
        ensures { Closes self.old self.new conn }
    {
        self.connections[conn as usize].close();
    }

    /// Closes all connections, then runs the script that the reader gives and writes what is put out.
    ///
    /// `Ok` and `Cut` come only where the reader has ended, `ReadFailed` only where it has failed, `WriteFailed` only where the
    /// writer has; which of the others comes is decided by the bytes read. The whole entries before the fault have been run.
    pub fn replay<R: Source, W: Sink>(
        &mut self,
        alloc: Global,
        r: &mut R,
        w: &mut W,
    ) -> Result<(), ReplayFault>
        requires read { R.has_failed r.old ≡ false }
        requires ended { R.has_ended r.old ≡ false }
        requires write { W.has_failed w.old ≡ false }
        ensures { IsReplay result self.old self.new (R.left r.old) (R.left r.new) (W.held w.old) (W.held w.new) (R.has_ended r.new) (R.has_failed r.new) (W.has_failed w.new) }
    {
        self.run_script::<ByReading, R, W>(alloc, r, w)
    }

    /// The same for a reader with a buffer: an entry that stands there whole is run where it stands, with no copy.
    pub fn replay_buffered<R: BufSource, W: Sink>(
        &mut self,
        alloc: Global,
        r: &mut R,
        w: &mut W,
    ) -> Result<(), ReplayFault>
        requires read { R.has_failed r.old ≡ false }
        requires ended { R.has_ended r.old ≡ false }
        requires write { W.has_failed w.old ≡ false }
        ensures { IsReplay result self.old self.new (R.left r.old) (R.left r.new) (W.held w.old) (W.held w.new) (R.has_ended r.new) (R.has_failed r.new) (W.has_failed w.new) }
    {
        self.run_script::<FromBuffer, R, W>(alloc, r, w)
    }

    /// Both of these, by the way in which the reader lends bytes.
    fn run_script<L: Lends<R>, R: Source, W: Sink>(
        &mut self,
        alloc: Global,
        r: &mut R,
        w: &mut W,
    ) -> Result<(), ReplayFault>
        requires read { R.has_failed r.old ≡ false }
        requires ended { R.has_ended r.old ≡ false }
        requires write { W.has_failed w.old ≡ false }
        ensures { IsReplay result self.old self.new (R.left r.old) (R.left r.new) (W.held w.old) (W.held w.new) (R.has_ended r.new) (R.has_failed r.new) (W.has_failed w.new) }
    {
        close_all(&mut self.connections);
        let ran = run::<L, R, W>(
            alloc,
            &mut self.engine,
            &mut self.connections,
            &mut self.piece,
            r,
            w,
        );
        self.engine.forget_reply();
        ran
    }

    /// Closes connection 0, runs what the reader gives as its pieces, of at most 65,536 bytes each and at the clock's answer for
    /// it, writes the replies with their record marks alone, and closes connection 0. No other connection changes.
    ///
    /// `Ended` comes only where the reader has ended, `Shut` only where the stream is too long, `ReadFailed` and `WriteFailed`
    /// only where that end has failed, `TooMany` in place of the 2^64th read. Every record that was whole has been run, but
    /// for those of the piece behind a reply that could not be written.
    pub fn talk<R: Source, W: Sink, C: Clock>(
        &mut self,
        alloc: Global,
        r: &mut R,
        w: &mut W,
        clock: &mut C,
    ) -> Talk
        requires read { R.has_failed r.old ≡ false }
        requires ended { R.has_ended r.old ≡ false }
        requires write { W.has_failed w.old ≡ false }
        ensures run { Talks result (state_of self.old.kept) (state_of self.new.kept) (R.left r.old) (R.left r.new) (W.held w.old) (W.held w.new) (C.told clock.old) (C.told clock.new) }
        ensures reported { TalkReports result (R.has_ended r.new) (R.has_failed r.new) (W.has_failed w.new) (R.left r.new) }
        ensures held { IsWith self.new.held self.old.held 0 fresh }
        ensures reply { self.new.reply ≡ [] }
    {
        let ended = converse(
            alloc,
            &mut self.engine,
            &mut self.connections[0],
            &mut self.piece,
            r,
            w,
            clock,
        );
        self.connections[0].close();
        self.engine.forget_reply();
        ended
    }

    /// Serves the connections that come on the ports, as many at once as the hub has, until none is left and none will come: each from a fresh
    /// stream on, in pieces of at most 65,536 bytes, each record at the clock's answer for it, with the replies and their record
    /// marks alone. No connection of the server's own changes.
    ///
    /// Nothing is read on a port while a reply is owed there or a piece waits, and a turn never waits for its peer. The ports have
    /// their turns in their order, sweep after sweep: each that is ready or has a record to step has one, of 16 records at most. A connection
    /// is closed where its peer has ended or it has failed, and, once its replies are written, where its stream is too long. Behind each
    /// sweep the watch looks on.
    pub fn serve_ports<P: Ports, C: Clock, W: Watch<P, C>>(
        &mut self,
        alloc: Global,
        hub: &mut Hub,
        ports: &mut P,
        clock: &mut C,
        watch: &mut W,
    )
        ensures run { Serves hub.old.most (state_of self.old.kept) (state_of self.new.kept) hub.new.desks (P.log ports.old) (P.log ports.new) (C.told clock.old) (C.told clock.new) }
        ensures most { hub.new.most ≡ hub.old.most }
        ensures held { self.new.held ≡ self.old.held }
        ensures reply { self.new.reply ≡ [] }
    {
        serve(alloc, &mut self.engine, hub, ports, clock, watch);
        self.engine.forget_reply();
    }
}

/// Connections on which nothing has come.
fn connections(alloc: Global) -> Result<Vec<Connection>, AllocError>
    ensures { IfOk result (λ cs. cs.items ≡ replicate connection_count fresh) }
{
    let mut connections = Vec::with_capacity(alloc, CONNECTIONS)?;
    for _ in 0..CONNECTIONS {
        connections.push(Connection::new(alloc)?)?;
    }
    Ok(connections)
}
