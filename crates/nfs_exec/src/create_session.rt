//! CREATE_SESSION (RFC 8881 section 18.36).

ghost use Rattle.std.specs.Prelude.{◌≡◌, ◌++◌, Option};
ghost use Rattle.nfs_xdr.specs.Caller.{caller};
ghost use Rattle.nfs_compound.specs.OpNum.{op_number};
ghost use Rattle.nfs_xdr.specs.SheetState.{Puts};
ghost use Rattle.nfs_clients.specs.CreateSession as clients;
ghost use Rattle.nfs_compound.specs.declared.op_num.OpNum.TheVariants as Num;
ghost use Rattle.nfs_results.specs.Results.{done_head};
ghost use Rattle.nfs_lease.specs.Queue.{IsLatest};
ghost use Rattle.nfs_names.specs.Outcome.{is_lack};
ghost use Rattle.nfs_exec.specs.Step.Machine.{Machine, with_refusal, machine_of};
ghost use Rattle.nfs_names.specs.StoreInvariants.{IsStore};
ghost use Rattle.nfs_exec.specs.Step.CreateSession.{create_session, session_made, made_body, confirmed};
ghost use Rattle.nfs_exec.specs.Step.View.{without_left, Does, HasLoneRoom};
ghost use Rattle.nfs_exec.specs.Step.Parts.{by_number, repeated};

use crate::tables::Tables;
use nfs_clients::{CreateResult, CreateVerdict, Resok};
use nfs_compound::{CreateSession, OpNum};
use nfs_results::{CreateSessionOk, Res, write, write_done_head};
use nfs_sessions::{SessionId, Wish, granted};
use nfs_xdr::{Sheet, Status, Who};
use std::alloc::Global;

/// The bytes of a result in front of its body: the operation number and the status.
const HEAD: usize = 8;

impl Tables {
    /// Judges the call by its number, makes the session where it runs, and puts the result. Returns its status.
    ///
    /// Where memory is refused the answer is `Delay`, as the last check, and nothing has changed; the result of the number
    /// before, which is answered again, wants none.
    pub(crate) fn create_session(
        &mut self,
        alloc: Global,
        asked: &CreateSession<'_>,
        who: &Who<'_>,
        now: u64,
        out: &mut Sheet,
    ) -> Status
        requires latest { IsLatest (machine_of self.old).leases now }
        requires store { IsStore (machine_of self.old).store }
        requires room { HasLoneRoom out.old }
        ensures { Does (create_session (machine_of self.old) (caller who.now) now (is_lack result) asked.now) result (machine_of self.new) out.old out.new }
    {
        let status = match self
            .clients
            .create_judge(asked.clientid, asked.sequence, who.uid)
        {
            CreateVerdict::Runs => return self.make_session(alloc, asked, now, out),
            CreateVerdict::Again(kept) => return put_kept(kept, out),
            CreateVerdict::Stale => Status::StaleClientId,
            CreateVerdict::Misordered => Status::SeqMisordered,
            CreateVerdict::InUse => Status::ClidInUse,
        };
        put_refusal(status, out)
    }

    /// Makes a session under the expected number, or refuses it; what comes of it is kept where it uses the number up.
    fn make_session(
        &mut self,
        alloc: Global,
        asked: &CreateSession<'_>,
        now: u64,
        out: &mut Sheet,
    ) -> Status
        requires latest { IsLatest (machine_of self.old).leases now }
        requires store { IsStore (machine_of self.old).store }
        requires room { HasLoneRoom out.old }
        ensures { Does (by_number (machine_of self.old) now (is_lack result) asked.now clients.Runs) result (machine_of self.new) out.old out.new }
    {
        let client = asked.clientid;
        let leaving = self.clients.leaving(client);
        match self.sessions.create(alloc, client, &wish(asked, leaving)) {
            Ok(id) => {
                let body = put_made(asked, id, out);
                self.confirm(client, leaving, body, now);
                Status::Nfs4Ok
            }
            Err(fault) => {
                let status = fault.status();
                self.clients
                    .keep_created(client, CreateResult::Refused(status));
                put_refusal(status, out)
            }
        }
    }

    /// Confirms the client, keeps the body of its result, renews its lease, and drops the record that goes for it.
    fn confirm(&mut self, client: u64, leaving: Option<u64>, body: Resok, now: u64)
        requires latest { IsLatest (machine_of self.old).leases now }
        requires store { IsStore (machine_of self.old).store }
        requires leaving { leaving ≡ clients.leaving self.old.clients client }
        ensures { machine_of self.new ≡ confirmed (machine_of self.old) now client body }
    {
        self.clients.confirm(client);
        self.clients.keep_created(client, CreateResult::Done(body));
        self.leave(leaving);
        self.leases.renew(client, now);
    }

    /// Drops what the client has whose record goes for another, if there is one.
    fn leave(&mut self, leaving: Option<u64>)
        requires { IsStore (machine_of self.old).store }
        ensures { machine_of self.new ≡ without_left (machine_of self.old) leaving }
    {
        if let Some(client) = leaving {
            self.sessions.drop_client(client);
            self.leases.remove(client);
            self.store.drop_client(client);
        }
    }
}

/// What is asked for of a session.
fn wish(asked: &CreateSession<'_>, leaving: Option<u64>) -> Wish
    ensures { result ≡ record { fore = asked.now.fore_chan_attrs; back = asked.now.back_chan_attrs; leaving = leaving } }
{
    Wish {
        fore: asked.fore_chan_attrs,
        back: asked.back_chan_attrs,
        leaving,
    }
}

/// The result of a session that was made.
fn session_made(asked: &CreateSession<'_>, id: SessionId) -> CreateSessionOk
    ensures { result ≡ session_made asked.now id }
{
    CreateSessionOk {
        sessionid: id.to_bytes(),
        sequence: asked.sequence,
        flags: 0,
        fore_chan_attrs: granted(&asked.fore_chan_attrs),
        back_chan_attrs: asked.back_chan_attrs,
    }
}

/// Puts the result of a session that was made, and returns its body.
fn put_made(asked: &CreateSession<'_>, id: SessionId, out: &mut Sheet) -> Resok
    requires room { HasLoneRoom out.old }
    ensures body { result ≡ made_body asked.now id }
    ensures put { Puts out.old out.new (done_head Num.CreateSession ++ made_body asked.now id) }
{
    let begin = out.len();
    write(&Res::CreateSession(session_made(asked, id)), out);
    let result = &out.bytes()[begin..];
    Resok::new(&result[HEAD..])
}

/// Puts a result that was kept.
#[tactic(auto, using(nfs_xdr::proofs::Putting::putting))]
fn put_kept(kept: &CreateResult, out: &mut Sheet) -> Status
    requires room { HasLoneRoom out.old }
    ensures { (m : Machine) → Does (repeated m kept.now) result m out.old out.new }
{
    match kept {
        CreateResult::Done(body) => {
            write_done_head(OpNum::CreateSession, out);
            out.put_bytes(body.bytes());
            Status::Nfs4Ok
        }
        CreateResult::Refused(status) => put_refusal(*status, out),
    }
}

/// Puts a refusal.
#[tactic(auto, using(nfs_xdr::proofs::Putting::putting))]
fn put_refusal(status: Status, out: &mut Sheet) -> Status
    requires room { HasLoneRoom out.old }
    ensures { (m : Machine) → Does (with_refusal m (op_number Num.CreateSession) status) result m out.old out.new }
{
    out.put_u32(OpNum::CreateSession.number());
    out.put_u32(status.number());
    status
}
