//! EXCHANGE_ID (RFC 8881 section 18.35).

ghost use Rattle.std.specs.Prelude.{◌≡◌};
ghost use Rattle.nfs_xdr.specs.Caller.{caller};
ghost use Rattle.nfs_xdr.specs.SheetState.{Puts};
ghost use Rattle.nfs_compound.specs.OpNum.{op_number};
ghost use Rattle.nfs_compound.specs.declared.op_num.OpNum.TheVariants as Num;
ghost use Rattle.nfs_clients.specs.ExchangeId.{client_fault_status};
ghost use Rattle.nfs_lease.specs.Renewals.{leases_of};
ghost use Rattle.nfs_lease.specs.Queue.{IsLatest};
ghost use Rattle.nfs_results.specs.declared.res.Res.TheVariants as Res;
ghost use Rattle.nfs_results.specs.Results.{status_of_result, spell_result};
ghost use Rattle.nfs_names.specs.Outcome.{is_lack};
ghost use Rattle.nfs_exec.specs.Step.Machine.{IsMachine, with_result, or_with_delay, machine_of};
ghost use Rattle.nfs_exec.specs.Step.ExchangeId.{exchange_id};
ghost use Rattle.nfs_exec.specs.Step.View.{settled, Does, HasLoneRoom};
ghost use Rattle.nfs_exec.specs.Step.Parts.{granted_of, answered, owner_has_open};

use crate::tables::Tables;
use nfs_clients::{CONFIRMED_R, ClientFault, Exchanged};
use nfs_compound::{ExchangeId, Lent, OpNum};
use nfs_lease::Leases;
use nfs_names::ServerOwner;
use nfs_results::{ExchangeIdOk, Res, write};
use nfs_xdr::{Sheet, Status, Who};
use std::alloc::Global;

/// EXCHGID4_FLAG_USE_NON_PNFS.
const USE_NON_PNFS: u32 = 0x0001_0000;

impl Tables {
    /// Has the table of clients decide at the moment `now`, in seconds, puts the result and returns its status.
    pub(crate) fn exchange_id(
        &mut self,
        alloc: Global,
        asked: &ExchangeId<'_>,
        who: &Who<'_>,
        now: u64,
        out: &mut Sheet,
    ) -> Status
        requires machine { IsMachine (machine_of self.old) }
        requires latest { IsLatest (machine_of self.old).leases now }
        requires room { HasLoneRoom out.old }
        ensures { Does (or_with_delay (is_lack result) (machine_of self.old) (op_number Num.ExchangeId)
            (exchange_id (machine_of self.old) (caller who.now) now asked.now)) result (machine_of self.new) out.old out.new }
    {
        let exchanged = self.exchange(alloc, asked, who, now);
        put_exchanged(&self.owner, &exchanged, out)
    }

    /// Has the table of clients decide. The lease of the record that would be added is made first and taken back where none is, so
    /// that where memory is refused the fault is `Memory` and nothing has changed.
    fn exchange(
        &mut self,
        alloc: Global,
        asked: &ExchangeId<'_>,
        who: &Who<'_>,
        now: u64,
    ) -> Result<Exchanged, ClientFault>
        requires machine { IsMachine (machine_of self.old) }
        requires latest { IsLatest (machine_of self.old).leases now }
        ensures outcome { with_result (machine_of self.new) (answered self.old.owner result)
            ≡ or_with_delay (is_lack (status_of_result (answered self.old.owner result))) (machine_of self.old) (op_number Num.ExchangeId)
            (exchange_id (machine_of self.old) (caller who.now) now asked.now) }
        ensures owner { self.new.owner ≡ self.old.owner }
    {
        let (owner, verifier, flags) = (asked.ownerid.bytes(), asked.verifier, asked.flags);
        let has_open = self.owner_has_open(owner);
        if let Err(fault) = self
            .clients
            .judge_exchange(owner, verifier, flags, who.uid, has_open)
        {
            return Err(fault);
        }
        let next = self.clients.next_id();
        let Ok(()) = self.leases.add(alloc, next, now) else {
            return Err(ClientFault::Memory);
        };
        match self
            .clients
            .exchange(alloc, owner, verifier, flags, who.uid, has_open)
        {
            Ok(exchanged) => {
                settle(&mut self.leases, next, &exchanged);
                Ok(exchanged)
            }
            Err(fault) => {
                self.leases.remove(next);
                Err(fault)
            }
        }
    }

    /// Whether an open stands of the client that the owner's confirmed record is.
    fn owner_has_open(&self, owner: &[u8]) -> bool
        ensures { result ≡ owner_has_open (machine_of self.now) owner.now }
    {
        match self.clients.confirmed(owner) {
            Some(client) => self.store.has_open(client),
            None => false,
        }
    }
}

/// Leaves the lease that was made first where its record was added, in place of the one that was replaced.
fn settle(leases: &mut Leases, next: u64, exchanged: &Exchanged)
    ensures { leases_of leases.new ≡ settled (leases_of leases.old) next exchanged.now }
{
    if !exchanged.added {
        leases.remove(next);
    } else if let Some(replaced) = exchanged.replaced {
        leases.remove(replaced);
    }
}

/// Puts what came of the call, and returns its status.
fn put_exchanged(
    owner: &ServerOwner,
    exchanged: &Result<Exchanged, ClientFault>,
    out: &mut Sheet,
) -> Status
    requires { HasLoneRoom out.old }
    ensures status { result ≡ status_of_result (answered owner.now exchanged.now) }
    ensures put { Puts out.old out.new (spell_result (answered owner.now exchanged.now)) }
{
    let res = told(owner.bytes(), exchanged);
    write(&res, out);
    res.status()
}

/// What came of the call, as a result.
fn told<'a>(name: &'a [u8], exchanged: &Result<Exchanged, ClientFault>) -> Res<'a>
    ensures { result ≡ answered name.now exchanged.now }
{
    match exchanged {
        Ok(exchanged) => Res::ExchangeId(granted(name, exchanged)),
        Err(fault) => refused(*fault),
    }
}

fn refused(fault: ClientFault) -> Res<'static>
    ensures { result ≡ Res.Refused (op_number Num.ExchangeId) (client_fault_status fault) }
{
    Res::Refused {
        operation: OpNum::ExchangeId.number(),
        status: fault.status(),
    }
}

fn granted<'a>(name: &'a [u8], exchanged: &Exchanged) -> ExchangeIdOk<'a>
    ensures { result ≡ granted_of name.now exchanged.now }
{
    ExchangeIdOk {
        clientid: exchanged.id,
        sequenceid: exchanged.number,
        flags: if exchanged.confirmed {
            USE_NON_PNFS | CONFIRMED_R
        } else {
            USE_NON_PNFS
        },
        minor_id: 0,
        major_id: Lent::of(name),
        server_scope: Lent::of(name),
    }
}
