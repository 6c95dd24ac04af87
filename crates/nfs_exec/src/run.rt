//! The operations of a compound behind its SEQUENCE (RFC 8881 section 2.3).

ghost use Rattle.std.specs.Prelude.{◌≡◌, ◌≤◌, ◌<◌, ◌^◌, ◌+◌, ℕ, Option, length};
ghost use Rattle.nfs_xdr.specs.Tables.{In};
ghost use Rattle.nfs_xdr.specs.declared.status.Status.TheVariants.{Nfs4Ok};
ghost use Rattle.nfs_compound.specs.declared.op.Item.{Item};
ghost use Rattle.nfs_compound.specs.declared.op.Item.TheVariants.{Operation};
ghost use Rattle.nfs_results.specs.Largest.{largest};
ghost use Rattle.nfs_results.specs.Results.{spell_result};
ghost use Rattle.nfs_results.specs.ResultCodec.{IsBounded};
ghost use Rattle.nfs_names.specs.StoreInvariants.{IsStore};
ghost use Rattle.nfs_names.specs.Outcome.{is_lack};
ghost use Rattle.nfs_exec.specs.Step.Machine.{with_result, machine_of};
ghost use Rattle.nfs_exec.specs.Step.Place.{status_behind};
ghost use Rattle.nfs_exec.specs.Step.Behind.{step, otherwise};
ghost use Rattle.nfs_exec.specs.Step.Run.{run, in_room, reserve};
ghost use Rattle.nfs_exec.specs.Step.View.{RunsTo, Steps, CanBear};

use crate::tables::Tables;
use nfs_compound::{Compound, Item, Op};
use nfs_files::file_op;
use nfs_names::{Context, name_op};
use nfs_results::{Res, largest, write};
use nfs_xdr::{Sheet, Status};
use std::alloc::Global;

/// The bytes that are kept for a refusal before an operation is run.
const RESERVE: u64 = 12;

/// How many bytes a reply has so far, its RPC head among them, and how many it may have.
#[derive(Clone, Copy)]
pub(crate) struct ReplySize {
    pub(crate) sofar: u64,
    pub(crate) limit: u64,
}

/// What came of the operations that were run.
#[derive(Clone, Copy)]
pub(crate) struct Ran {
    /// The status of the last, and NFS4_OK where there was none.
    pub(crate) status: Status,
    pub(crate) count: u32,
}

impl Tables {
    /// Runs what is left of a compound, up to the first operation whose status is not NFS4_OK, and puts the results behind what
    /// the reply has so far.
    pub(crate) fn run(
        &mut self,
        alloc: Global,
        args: &mut Compound<'_>,
        context: &mut Context<'_>,
        reply: ReplySize,
        now: u64,
        out: &mut Sheet,
    ) -> Ran
        requires bears { (i : Item) → In i args.old.left → CanBear i }
        requires few { length args.old.left ≤ 64 }
        requires moment { now < 2 ^ 63 }
        requires store { IsStore (machine_of self.old).store }
        requires reserve { reply.sofar + reserve ≤ reply.limit }
        requires room { length out.old.bytes + reply.limit ≤ out.old.room + reply.sofar }
        ensures ran { (choice : Option ℕ)
            × RunsTo (run reply.limit reply.sofar now choice (machine_of self.old) context.old args.old.left) result (machine_of self.new) out.old out.new }
        ensures fits { length out.new.bytes + reply.sofar ≤ length out.old.bytes + reply.limit }
        ensures same { args.new ≡ record args.old { left = args.new.left } }
        ensures store { IsStore (machine_of self.new).store }
    {
        let begin = out.len();
        let mut count = 0;
        while let Some(item) = args.next() {
            let here = ReplySize {
                sofar: reply.sofar + (out.len() - begin) as u64,
                limit: reply.limit,
            };
            let status = self.in_room(alloc, &item, context, here, now, out);
            count += 1;
            match status {
                Status::Nfs4Ok => {}
                status => return Ran { status, count },
            }
        }
        Ran {
            status: Status::Nfs4Ok,
            count,
        }
    }

    /// Runs one operation in its place, behind what the reply has so far, puts its result and returns its status.
    fn in_room(
        &mut self,
        alloc: Global,
        item: &Item<'_>,
        context: &mut Context<'_>,
        reply: ReplySize,
        now: u64,
        out: &mut Sheet,
    ) -> Status
        requires bears { CanBear item.now }
        requires moment { now < 2 ^ 63 }
        requires store { IsStore (machine_of self.old).store }
        requires reserve { reply.sofar + reserve ≤ reply.limit }
        requires room { length out.old.bytes + reply.limit ≤ out.old.room + reply.sofar }
        ensures steps { Steps (in_room reply.limit reply.sofar now (is_lack result) (machine_of self.old) context.old item.now) result (machine_of self.new) context.new out.old out.new }
        ensures fits { length out.new.bytes + reply.sofar ≤ length out.old.bytes + reply.limit }
        ensures more { result ≡ Nfs4Ok → length out.new.bytes + reply.sofar + reserve ≤ length out.old.bytes + reply.limit }
        ensures store { IsStore (machine_of self.new).store }
    {
        if largest(item) > reply.limit - RESERVE - reply.sofar {
            write(&Res::refusal(item.number(), Status::RepTooBig), out);
            return Status::RepTooBig;
        }
        self.step(alloc, item, context, now, out)
    }

    /// Runs what stands at one place, for which there is room, puts its result and returns its status.
    fn step(
        &mut self,
        alloc: Global,
        item: &Item<'_>,
        context: &mut Context<'_>,
        now: u64,
        out: &mut Sheet,
    ) -> Status
        requires bears { CanBear item.now }
        requires moment { now < 2 ^ 63 }
        requires store { IsStore (machine_of self.old).store }
        requires room { length out.old.bytes + largest item.now + reserve ≤ out.old.room }
        ensures steps { Steps (step (machine_of self.old) context.old now (is_lack result) item.now) result (machine_of self.new) context.new out.old out.new }
        ensures fits { length out.new.bytes ≤ length out.old.bytes + largest item.now + reserve }
        ensures more { result ≡ Nfs4Ok → length out.new.bytes ≤ length out.old.bytes + largest item.now }
        ensures store { IsStore (machine_of self.new).store }
    {
        match item {
            Item::Operation(op) => self.operation(alloc, op, context, now, out),
            Item::Fault { number, status } => {
                write(&Res::refusal(*number, *status), out);
                *status
            }
        }
    }

    /// The same of an operation.
    fn operation(
        &mut self,
        alloc: Global,
        op: &Op<'_>,
        context: &mut Context<'_>,
        now: u64,
        out: &mut Sheet,
    ) -> Status
        requires bears { CanBear (Operation op.now) }
        requires moment { now < 2 ^ 63 }
        requires store { IsStore (machine_of self.old).store }
        requires room { length out.old.bytes + largest (Operation op.now) + reserve ≤ out.old.room }
        ensures steps { Steps (step (machine_of self.old) context.old now (is_lack result) (Operation op.now)) result (machine_of self.new) context.new out.old out.new }
        ensures fits { length out.new.bytes ≤ length out.old.bytes + largest (Operation op.now) + reserve }
        ensures more { result ≡ Nfs4Ok → length out.new.bytes ≤ length out.old.bytes + largest (Operation op.now) }
        ensures store { IsStore (machine_of self.new).store }
    {
        if let Some(status) = name_op(alloc, &mut self.store, context, op, now, out) {
            return status;
        }
        if let Some(status) = file_op(alloc, &mut self.store, context, op, now, out) {
            return status;
        }
        let res = self.unstored(op, context);
        write(&res, out);
        res.status()
    }

    /// What an operation that is not on the store comes to.
    fn unstored(&mut self, op: &Op<'_>, context: &Context<'_>) -> Res<'static>
        requires bears { CanBear (Operation op.now) }
        ensures outcome { with_result (machine_of self.new) result ≡ (otherwise (machine_of self.old) context.now (Operation op.now)).outcome }
        ensures bounds { IsBounded result }
        ensures short { length (spell_result result) ≤ reserve }
        ensures store { self.new.store ≡ self.old.store }
    {
        match op {
            Op::ReclaimComplete { one_fs } => self.reclaim_complete(context, *one_fs),
            _ => Res::refusal(op.number(), status_behind(op)),
        }
    }
}

/// What an operation behind a SEQUENCE is refused with, where nothing carries it out.
fn status_behind(op: &Op<'_>) -> Status
    ensures { result ≡ status_behind (Operation op.now) }
{
    match op {
        Op::Sequence(_) => Status::SequencePos,
        _ => Status::NotSupp,
    }
}
