//! A compound over the tables (RFC 8881 sections 2.10.6.4 and 16.2).

ghost use Rattle.std.specs.Prelude.{◌≡◌, ◌≤◌, ◌<◌, ◌^◌, ◌∷◌, ℕ, Option, length};
ghost use Rattle.nfs_xdr.specs.Caller.{caller};
ghost use Rattle.nfs_xdr.specs.Tables.{In};
ghost use Rattle.nfs_xdr.specs.Limits.{opaque_limit};
ghost use Rattle.nfs_compound.specs.declared.op.Item.{Item};
ghost use Rattle.nfs_compound.specs.declared.op.Item.TheVariants.{Operation};
ghost use Rattle.nfs_compound.specs.declared.op.Op.TheVariants as Op;
ghost use Rattle.nfs_lease.specs.Queue.{IsLatest};
ghost use Rattle.nfs_sessions.specs.SessionTables.{IsGranted};
ghost use Rattle.nfs_names.specs.StoreInvariants.{IsStore};
ghost use Rattle.nfs_names.specs.Outcome.{is_lack};
ghost use Rattle.nfs_exec.specs.Step.Machine.{IsMachine, machine_of};
ghost use Rattle.nfs_exec.specs.Step.Sequence.{Runs, sequenced};
ghost use Rattle.nfs_exec.specs.Step.Compound.{compound, first_item, by_first};
ghost use Rattle.nfs_exec.specs.Step.View.{Does, AreTables, MayRun, RanIn, RunsNew, CanBear, IsOpened, HasReplyRoom, HasLoneRoom, Answers};

use crate::place::{place_fault, sequence_in};
use crate::receipt::Receipt;
use crate::run::ReplySize;
use crate::sequence::{Sequenced, compared, judge, sequence_ok};
use crate::tables::Tables;
use nfs_compound::{ChannelAttrs, Compound, Item, MINOR_VERSION, Op, OpNum, Sequence};
use nfs_names::Context;
use nfs_results::{OpenHead, Res, write, write_compound_head};
use nfs_sessions::{RPC_HEAD, SessionId};
use nfs_xdr::{Sheet, Status, Who};
use std::alloc::Global;

impl Tables {
    /// Runs a compound that was just opened, and puts its result.
    pub(crate) fn compound(
        &mut self,
        alloc: Global,
        args: &mut Compound<'_>,
        who: &Who<'_>,
        size: usize,
        now: u64,
        out: &mut Sheet,
    )
        requires kept { AreTables self.old }
        requires opened { IsOpened args.old }
        requires size { length args.old.bytes ≤ size }
        requires moment { now < 2 ^ 63 }
        requires latest { IsLatest (machine_of self.old).leases now }
        requires room { HasReplyRoom out.old }
        ensures answer { (choice : Option ℕ)
            × Answers (compound (machine_of self.old) args.old (caller who.now) size now choice) out.old out.new (machine_of self.new) }
        ensures store { IsStore (machine_of self.new).store }
    {
        let tag = args.tag();
        if args.minor() != MINOR_VERSION {
            write_compound_head(Status::MinorVersMismatch, tag, 0, out);
            return;
        }
        let Some(item) = args.next() else {
            write_compound_head(Status::Nfs4Ok, tag, 0, out);
            return;
        };
        match sequence_in(&item) {
            Some(asked) => {
                let receipt = Receipt {
                    who,
                    size,
                    moment: now,
                };
                self.in_session(alloc, asked, args, &receipt, out);
            }
            None => {
                let head = OpenHead::put(tag, out);
                let status = self.alone(alloc, &item, args.declared(), who, now, out);
                head.close(status, 1, out);
            }
        }
    }

    /// Runs the first of so many operations declared outside a session, puts its result and returns its status.
    fn alone(
        &mut self,
        alloc: Global,
        item: &Item<'_>,
        declared: u32,
        who: &Who<'_>,
        now: u64,
        out: &mut Sheet,
    ) -> Status
        requires bears { CanBear item.now }
        requires machine { IsMachine (machine_of self.old) }
        requires store { IsStore (machine_of self.old).store }
        requires latest { IsLatest (machine_of self.old).leases now }
        requires room { HasLoneRoom out.old }
        ensures { Does (first_item (machine_of self.old) declared (caller who.now) now (is_lack result) item.now) result (machine_of self.new) out.old out.new }
    {
        match item {
            Item::Operation(op) => self.alone_as(alloc, op, declared, who, now, out),
            Item::Fault { number, status } => {
                let res = Res::refusal(*number, *status);
                write(&res, out);
                res.status()
            }
        }
    }

    /// The same of an operation.
    fn alone_as(
        &mut self,
        alloc: Global,
        op: &Op<'_>,
        declared: u32,
        who: &Who<'_>,
        now: u64,
        out: &mut Sheet,
    ) -> Status
        requires bears { CanBear (Operation op.now) }
        requires machine { IsMachine (machine_of self.old) }
        requires store { IsStore (machine_of self.old).store }
        requires latest { IsLatest (machine_of self.old).leases now }
        requires room { HasLoneRoom out.old }
        ensures { Does (first_item (machine_of self.old) declared (caller who.now) now (is_lack result) (Operation op.now)) result (machine_of self.new) out.old out.new }
    {
        let res = match place_fault(op, declared) {
            Some(status) => Res::refusal(op.number(), status),
            None => match op {
                Op::ExchangeId(asked) => return self.exchange_id(alloc, asked, who, now, out),
                Op::CreateSession(asked) => return self.create_session(alloc, asked, who, now, out),
                Op::DestroySession { sessionid } => self.destroy_session(sessionid),
                Op::DestroyClientId { clientid } => self.destroy_client(*clientid),
                _ => Res::refusal(op.number(), Status::NotSupp),
            },
        };
        write(&res, out);
        res.status()
    }

    /// Runs a compound that SEQUENCE begins: it is refused, or its kept reply is put again, or what is left of it runs.
    fn in_session(
        &mut self,
        alloc: Global,
        asked: &Sequence,
        args: &mut Compound<'_>,
        receipt: &Receipt<'_>,
        out: &mut Sheet,
    )
        requires bears { (i : Item) → In i args.old.left → CanBear i }
        requires few { length args.old.left ≤ args.old.declared }
        requires tag { length args.old.tag ≤ opaque_limit }
        requires size { length args.old.bytes ≤ receipt.now.size }
        requires moment { receipt.now.moment < 2 ^ 63 }
        requires store { IsStore (machine_of self.old).store }
        requires latest { IsLatest (machine_of self.old).leases receipt.now.moment }
        requires room { HasReplyRoom out.old }
        ensures answer { (choice : Option ℕ)
            × Answers (by_first (machine_of self.old) args.old (caller receipt.now.who.now) receipt.now.size receipt.now.moment choice (Operation (Op.Sequence asked.now) ∷ args.old.left))
            out.old out.new (machine_of self.new) }
        ensures store { IsStore (machine_of self.new).store }
    {
        match judge(&self.sessions, asked, args, receipt.who, receipt.size) {
            Sequenced::Refuses(status) => {
                write_compound_head(status, args.tag(), 1, out);
                write(&Res::refusal(OpNum::Sequence.number(), status), out);
            }
            Sequenced::Repeats(reply) => out.put_bytes(reply),
            Sequenced::Runs(channel) => self.run_new(alloc, asked, &channel, args, receipt, out),
        }
    }

    /// Runs a request that is new in its slot: the lease is renewed, SEQUENCE answers and what is behind it runs, and the slot
    /// keeps the whole result.
    fn run_new(
        &mut self,
        alloc: Global,
        asked: &Sequence,
        channel: &ChannelAttrs,
        args: &mut Compound<'_>,
        receipt: &Receipt<'_>,
        out: &mut Sheet,
    )
        requires bears { (i : Item) → In i args.old.left → CanBear i }
        requires few { length args.old.left ≤ args.old.declared }
        requires tag { length args.old.tag ≤ opaque_limit }
        requires size { length args.old.bytes ≤ receipt.now.size }
        requires runs { sequenced (machine_of self.old) args.old (caller receipt.now.who.now) receipt.now.size asked.now ≡ Runs channel.now }
        requires granted { IsGranted channel.now }
        requires moment { receipt.now.moment < 2 ^ 63 }
        requires store { IsStore (machine_of self.old).store }
        requires latest { IsLatest (machine_of self.old).leases receipt.now.moment }
        requires room { HasReplyRoom out.old }
        ensures answer { RunsNew (machine_of self.old) args.old (caller receipt.now.who.now) receipt.now.moment asked.now channel.now (machine_of self.new) out.old out.new }
        ensures store { IsStore (machine_of self.new).store }
    {
        let id = SessionId::from_bytes(&asked.sessionid);
        self.leases.renew(id.client, receipt.moment);
        let start = out.len();
        self.put_run(alloc, asked, channel, args, receipt, out);
        let reply = &out.bytes()[start..];
        self.sessions.keep(
            &id,
            asked.slotid,
            asked.sequenceid,
            receipt.who.uid,
            &compared(args),
            reply,
        );
    }

    /// Puts the result of a compound in a session of this channel: SEQUENCE's own, and those of what is left of the compound.
    fn put_run(
        &mut self,
        alloc: Global,
        asked: &Sequence,
        channel: &ChannelAttrs,
        args: &mut Compound<'_>,
        receipt: &Receipt<'_>,
        out: &mut Sheet,
    )
        requires { MayRun (machine_of self.old) args.old asked.now channel.now receipt.now.moment out.old }
        ensures { RanIn (machine_of self.old) args.old (caller receipt.now.who.now) receipt.now.moment asked.now channel.now (machine_of self.new) args.new out.old out.new }
    {
        let start = out.len();
        let head = OpenHead::put(args.tag(), out);
        write(&Res::Sequence(sequence_ok(asked, channel)), out);
        let mut context = Context::new(SessionId::from_bytes(&asked.sessionid).client, receipt.who);
        let reply = ReplySize {
            sofar: u64::from(RPC_HEAD) + (out.len() - start) as u64,
            limit: u64::from(channel.maxresponsesize),
        };
        let ran = self.run(alloc, args, &mut context, reply, receipt.moment, out);
        head.close(ran.status, ran.count + 1, out);
    }
}
