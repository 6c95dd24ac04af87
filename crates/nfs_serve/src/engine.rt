//! The step of one record: from the bytes of a call to those of its reply (RFC 5531 section 9; RFC 8881 section 16).

ghost use Rattle.std.specs.Prelude.{◌≡◌, ◌≤◌, ◌+◌, ◌++◌, ℕ, [], length, drop, max, Option, IfOk, false};
ghost use Rattle.nfs_xdr.specs.Spelling.{number};
ghost use Rattle.nfs_rpc.specs.View as view;
ghost use Rattle.nfs_exec.specs.Step.Expiry.{expired};
ghost use Rattle.nfs_exec.specs.Step.Held.{held};
ghost use Rattle.nfs_exec.specs.Step.Machine.{IsMachine, HasNoClashes, machine_of};
ghost use Rattle.nfs_rpc.specs.CallHead.{call_of};
ghost use Rattle.nfs_rpc.specs.declared.call.Procedure.TheVariants as procedure;
ghost use Rattle.nfs_serve.specs.Step.{step, new_state, reply_to, by_procedure};
ghost use Rattle.nfs_serve.specs.Run.{one_fragment, spell_reply};
ghost use Rattle.nfs_serve.specs.Server.{state_of};
ghost use Rattle.nfs_lease.specs.Queue.{IsLatest};
ghost use Rattle.nfs_serve.specs.Engine.{StepsCall, PutsReply, PutsAnswer, at_moment, outcome_of, in_form, spell_lent};
ghost use Rattle.nfs_serve.specs.Ends.{Writes};
ghost use Rattle.nfs_serve.specs.Script.{last_moment};

use crate::Sink;
use crate::form::{Form, Outcome};
use crate::moving::{WriteFailed, put};
use nfs_compound::{Compound, Garbage};
use nfs_exec::{Held, World};
use nfs_names::Start;
use nfs_rpc::{AcceptStat, Call, LAST_FRAGMENT, Procedure, Refusal, write_head, write_refusal};
use nfs_xdr::Sheet;
use std::alloc::{AllocError, Global};
use std::marker::Model;

/// The bytes in front of a reply on the sheet: room for the connection's number and the record mark.
const FRONT: usize = 8;

/// The most bytes of a reply and what stands in front of it.
const ROOM: usize = 70_008;

/// The server's tables, the moment that was taken last, and the reply that was made last.
#[derive(Drop)]
pub(crate) struct Engine {
    world: World,
    moment: u64,
    sheet: Sheet,
}

impl Model for Engine {
    ghost use Rattle.std.specs.Prelude.{◌≡◌, ◌≤◌, length, drop};
    ghost use Rattle.nfs_lease.specs.Queue.{IsLatest};
    ghost use Rattle.nfs_exec.specs.Step.Machine.{machine_of};
    ghost use Rattle.nfs_serve.specs.Engine.{EngineModel};
    ghost use Rattle.nfs_serve.specs.Script.{last_moment};

    ghost Value = { EngineModel };

    ghost view = { λ e. record { kept = record { world = e.world; moment = e.moment }; reply = drop 8 e.sheet.bytes } };

    ghost invariant = { λ e. (8 ≤ length e.sheet.bytes) × (e.sheet.room ≡ 70008) × IsLatest (machine_of e.world).leases e.moment × (e.moment ≤ last_moment) };
}

impl Engine {
    /// The engine of a new server. The buffer of replies is made here.
    #[tactic(auto, using(nfs_xdr::proofs::Putting::putting))]
    pub(crate) fn new(alloc: Global, start: Start) -> Result<Engine, AllocError>
        ensures { IfOk result (λ e. (state_of e.kept ≡ new_state start) × (e.reply ≡ [])) }
    {
        let mut sheet = Sheet::new(alloc, ROOM)?;
        sheet.put_u64(0);
        Ok(Engine {
            world: World::new(alloc, start)?,
            moment: 0,
            sheet,
        })
    }

    /// Steps a record at a moment. A reply is lent by `reply`.
    pub(crate) fn record(&mut self, alloc: Global, call: &[u8], now: u64) -> Outcome
        requires { now ≤ last_moment }
        ensures { StepsCall result self.old self.new call.now now }
    {
        self.pass(now);
        self.sheet.cut(FRONT);
        put_record(alloc, &mut self.world, call, self.moment, &mut self.sheet)
    }

    /// Steps a record at a moment, and puts its reply on a sheet that leaves.
    pub(crate) fn record_onto(
        &mut self,
        alloc: Global,
        call: &[u8],
        now: u64,
        out: &mut Sheet,
    ) -> Outcome
        requires now { now ≤ last_moment }
        requires room { length out.old.bytes + 70000 ≤ out.old.room }
        ensures { (choice : Option ℕ) × PutsAnswer result (step (state_of self.old.kept) call.now now choice) out.old out.new (state_of self.new.kept) }
    {
        self.pass(now);
        put_record(alloc, &mut self.world, call, self.moment, out)
    }

    /// Takes a moment, unless a later one was taken, and what has run out by then goes. So does some of what earlier records left.
    fn pass(&mut self, now: u64)
        requires { now ≤ last_moment }
        ensures moment { self.new.kept.moment ≡ max self.old.kept.moment now }
        ensures tables { machine_of self.new.kept.world ≡ expired self.new.kept.moment (machine_of self.old.kept.world) }
    {
        self.moment = self.moment.max(now);
        self.world.expire(self.moment);
        self.world.tidy();
    }

    /// Drops some of what earlier records left, as each record does: for a server that has none. Answers false where nothing
    /// waits any more.
    pub(crate) fn tidy(&mut self) -> bool
        ensures state { state_of self.new.kept ≡ state_of self.old.kept }
        ensures reply { self.new.reply ≡ self.old.reply }
    {
        self.world.tidy()
    }

    /// What is kept, to be looked at.
    pub(crate) fn world(&self) -> &World
        ensures { result.now ≡ self.now.kept.world }
    {
        &self.world
    }

    /// How much of each kind stands.
    pub(crate) fn held(&self) -> Held
        ensures { result ≡ held (state_of self.now.kept).machine }
    {
        self.world.held()
    }

    /// No byte has a writer beside another holder, and no two owners' opens clash; this does nothing but say so.
    pub(crate) fn no_clash(&self)
        ensures { HasNoClashes (state_of self.now.kept).machine }
    {
        self.world.no_clash();
    }

    /// The tables of clients, sessions, leases and opens agree; this does nothing but say so.
    pub(crate) fn tables_agree(&self)
        ensures { IsMachine (state_of self.now.kept).machine }
    {
        self.world.tables_agree();
    }

    /// The reply that was made last.
    pub(crate) fn reply(&self) -> &[u8]
        ensures { result.now ≡ self.now.reply }
    {
        &self.sheet.bytes()[FRONT..]
    }

    /// Lends no reply from here on.
    pub(crate) fn forget_reply(&mut self)
        ensures kept { self.new.kept ≡ self.old.kept }
        ensures reply { self.new.reply ≡ [] }
    {
        self.sheet.cut(FRONT)
    }

    /// Writes what a record that came on a connection was answered.
    pub(crate) fn write_answer<W: Sink>(
        &mut self,
        outcome: Outcome,
        conn: u32,
        form: Form,
        out: &mut W,
    ) -> Result<(), WriteFailed>
        requires { W.has_failed out.old ≡ false }
        ensures wrote { Writes result (W.held out.old) (W.held out.new) (spell_lent form conn outcome self.old.reply) (W.has_failed out.new) }
        ensures same { self.new ≡ self.old }
    {
        match outcome {
            Outcome::Reply => self.put_reply(conn, form, out),
            Outcome::Silent => Ok(()),
        }
    }

    /// Writes the reply that was made last.
    fn put_reply<W: Sink>(&mut self, conn: u32, form: Form, out: &mut W) -> Result<(), WriteFailed>
        requires { W.has_failed out.old ≡ false }
        ensures wrote { Writes result (W.held out.old) (W.held out.new) (spell_reply form conn self.old.reply) (W.has_failed out.new) }
        ensures same { self.new ≡ self.old }
    {
        frame(&mut self.sheet, conn);
        put(out, in_form(self.sheet.bytes(), form))
    }
}

/// Answers a record at a moment, and puts the reply, where there is one.
fn put_record(alloc: Global, world: &mut World, bytes: &[u8], now: u64, out: &mut Sheet) -> Outcome
    requires now { now ≤ last_moment }
    requires latest { IsLatest (machine_of world.old).leases now }
    requires room { length out.old.bytes + 70000 ≤ out.old.room }
    ensures answer { (choice : Option ℕ) × PutsAnswer result (reply_to (at_moment world.old now) (length bytes.now) choice (call_of bytes.now)) out.old out.new (at_moment world.new now) }
    ensures latest { IsLatest (machine_of world.new).leases now }
{
    match Call::read(bytes) {
        Ok(call) => {
            put_answer(alloc, world, &call, bytes.len(), now, out);
            Outcome::Reply
        }
        Err(refusal) => {
            write_refusal(&refusal, out);
            outcome_of(&refusal)
        }
    }
}

/// Puts the reply to a call that is no refusal, and runs its compound. The call came in a record of `size` bytes.
#[tactic(auto, using(nfs_rpc::proofs::Lengths::lengths))]
fn put_answer(
    alloc: Global,
    world: &mut World,
    call: &Call<'_>,
    size: usize,
    now: u64,
    out: &mut Sheet,
)
    requires size { length call.now.args.now ≤ size }
    requires now { now ≤ last_moment }
    requires latest { IsLatest (machine_of world.old).leases now }
    requires room { length out.old.bytes + 70000 ≤ out.old.room }
    ensures answer { (choice : Option ℕ) × PutsReply (by_procedure (at_moment world.old now) (view.call call.now) size choice call.now.procedure) out.old out.new (at_moment world.new now) }
    ensures latest { IsLatest (machine_of world.new).leases now }
{
    match call.procedure {
        Procedure::Null => write_head(call.xid, out),
        Procedure::Compound => put_compound(alloc, world, *call, size, now, out),
    }
}

/// Runs the compound of a call, and puts its reply. The call is a copy, so that no other call has to lie in memory.
#[tactic(auto, using(nfs_rpc::proofs::Lengths::lengths))]
fn put_compound(
    alloc: Global,
    world: &mut World,
    call: Call<'_>,
    size: usize,
    now: u64,
    out: &mut Sheet,
)
    requires size { length call.args.now ≤ size }
    requires now { now ≤ last_moment }
    requires latest { IsLatest (machine_of world.old).leases now }
    requires room { length out.old.bytes + 70000 ≤ out.old.room }
    ensures answer { (choice : Option ℕ) × PutsReply (by_procedure (at_moment world.old now) (view.call call.entry) size choice procedure.Compound) out.old out.new (at_moment world.new now) }
    ensures latest { IsLatest (machine_of world.new).leases now }
{
    match Compound::open(call.args) {
        Ok(mut compound) => {
            write_head(call.xid, out);
            world.compound(alloc, &mut compound, &call.who, size, now, out);
        }
        Err(Garbage) => {
            let refusal = Refusal::Accept {
                xid: call.xid,
                stat: AcceptStat::GarbageArgs,
            };
            write_refusal(&refusal, out);
        }
    }
}

/// Whether a refusal of a call is answered.
fn outcome_of(refusal: &Refusal) -> Outcome
    ensures { result ≡ outcome_of refusal.now }
{
    match refusal {
        Refusal::Silent => Outcome::Silent,
        Refusal::Mismatch { .. } | Refusal::Auth { .. } | Refusal::Accept { .. } => Outcome::Reply,
    }
}

/// A framed reply as the form has it, with the connection's number in front or without.
fn in_form(framed: &[u8], form: Form) -> &[u8]
    requires { 4 ≤ length framed.now }
    ensures { result.now ≡ in_form form framed.now }
{
    match form {
        Form::Tagged => framed,
        Form::Plain => &framed[4..],
    }
}

/// Writes the connection's number and a record mark of one fragment in front of the reply.
#[tactic(auto, using(nfs_xdr::proofs::Putting::putting))]
fn frame(sheet: &mut Sheet, conn: u32)
    requires front { 8 ≤ length sheet.old.bytes }
    requires room { sheet.old.room ≡ 70008 }
    ensures bytes { sheet.new.bytes ≡ number conn ++ one_fragment (drop 8 sheet.old.bytes) }
    ensures size { length sheet.new.bytes ≤ 70008 }
    ensures room { sheet.new.room ≡ sheet.old.room }
{
    let size = (sheet.len() - FRONT) as u32;
    sheet.set_u32(0, conn);
    sheet.set_u32(4, LAST_FRAGMENT + size);
}
