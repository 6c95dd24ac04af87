//! RECLAIM_COMPLETE (RFC 8881 section 18.51).

ghost use Rattle.std.specs.Prelude.{◌≡◌, ◌≤◌, length};
ghost use Rattle.nfs_compound.specs.declared.op_num.OpNum.TheVariants as Num;
ghost use Rattle.nfs_compound.specs.OpNum.{op_number};
ghost use Rattle.nfs_results.specs.Results.{spell_result, refusal};
ghost use Rattle.nfs_results.specs.ResultCodec.{IsBounded};
ghost use Rattle.nfs_exec.specs.Step.Machine.{with_result, machine_of};
ghost use Rattle.nfs_exec.specs.Step.ReclaimComplete.{reclaim_complete};
ghost use Rattle.nfs_exec.specs.Step.Run.{reserve};

use crate::tables::Tables;
use nfs_compound::OpNum;
use nfs_names::{Context, current};
use nfs_results::Res;
use nfs_xdr::Status;

impl Tables {
    /// Notes that a client has nothing more to reclaim, once; of the current filehandle's file system alone (`one`), nothing
    /// is noted.
    pub(crate) fn reclaim_complete(&mut self, context: &Context<'_>, one: bool) -> Res<'static>
        ensures outcome { with_result (machine_of self.new) result ≡ reclaim_complete (machine_of self.old) context.now one }
        ensures bounds { IsBounded result }
        ensures short { length (spell_result result) ≤ reserve }
        ensures store { self.new.store ≡ self.old.store }
    {
        if one {
            return match current(&self.store, context) {
                Ok(_) => Res::ReclaimComplete,
                Err(status) => refused(status),
            };
        }
        if self.clients.reclaimed(context.client) {
            refused(Status::CompleteAlready)
        } else {
            Res::ReclaimComplete
        }
    }
}

fn refused(status: Status) -> Res<'static>
    ensures { result ≡ refusal (op_number Num.ReclaimComplete) status }
{
    Res::refusal(OpNum::ReclaimComplete.number(), status)
}
