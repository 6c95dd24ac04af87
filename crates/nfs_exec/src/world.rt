//! The server's tables, and a compound over them.

ghost use Rattle.std.specs.Prelude.{◌≡◌, ◌≤◌, ◌<◌, ◌^◌, ℕ, Option, IfOk, length};
ghost use Rattle.nfs_xdr.specs.Caller.{caller};
ghost use Rattle.nfs_lease.specs.Queue.{IsLatest};
ghost use Rattle.nfs_exec.specs.Step.Machine.{starts, IsMachine, HasNoClashes, machine_of};
ghost use Rattle.nfs_exec.specs.Step.Compound.{compound};
ghost use Rattle.nfs_exec.specs.Step.View.{IsOpened, HasReplyRoom, Answers};
ghost use Rattle.nfs_exec.specs.Step.Expiry.{expired};
ghost use Rattle.nfs_exec.specs.Step.Held.{held};

use crate::held::Held;
use crate::tables::Tables;
use nfs_compound::Compound;
use nfs_names::Start;
use nfs_sessions::Sessions;
use nfs_xdr::{Sheet, Who};
use std::alloc::{AllocError, Global};
use std::marker::Model;

/// All that the server knows between two records. Contracts see the machine, by `machine_of`.
#[derive(Drop)]
pub struct World {
    tables: Tables,
}

impl Model for World {
    ghost use Rattle.nfs_exec.specs.Step.View.{AreTables};
    ghost use Rattle.nfs_exec.specs.Step.Machine.{KeptTables};

    ghost Value = { KeptTables };

    ghost view = { λ w. w.tables };

    ghost invariant = { λ w. AreTables w.tables };
}

impl World {
    /// The world of a server that is started so. `AllocError` where memory is refused.
    pub fn new(alloc: Global, start: Start) -> Result<World, AllocError>
        ensures { IfOk result (λ w. machine_of w ≡ starts start) }
    {
        let tables = Tables::new(alloc, start)?;
        Ok(World { tables })
    }

    /// Runs a compound of this caller at the moment `now`, in seconds, and puts its COMPOUND4res (RFC 8881 section 16.2.2) on
    /// the sheet, behind the head of the reply. The compound was just opened, out of a record of `size` bytes, and its
    /// arguments are no longer; `now` is below 2^63, and no lease was renewed later; and the sheet has room for 69,976 bytes
    /// more: those of a reply of 70,000 bytes that are not of its head. A new request whose record is longer than its
    /// session's requests is refused here, by NFS4ERR_REQ_TOO_BIG.
    ///
    /// Each refusal is an answer on the sheet. Where memory is refused, the nine operations that grow a table answer
    /// NFS4ERR_DELAY as their last check and change nothing: EXCHANGE_ID, CREATE_SESSION, CREATE, LINK, RENAME, OPEN, WRITE of
    /// bytes, LOCK and LOCKU; WRITE answers NFS4ERR_NOSPC in the profile `unix`. No other answer wants memory.
    pub fn compound(
        &mut self,
        alloc: Global,
        args: &mut Compound<'_>,
        who: &Who<'_>,
        size: usize,
        now: u64,
        out: &mut Sheet,
    )
        requires opened { IsOpened args.old }
        requires size { length args.old.bytes ≤ size }
        requires moment { now < 2 ^ 63 }
        requires latest { IsLatest (machine_of self.old).leases now }
        requires room { HasReplyRoom out.old }
        ensures answer { (choice : Option ℕ)
            × Answers (compound (machine_of self.old) args.old (caller who.now) size now choice) out.old out.new (machine_of self.new) }
        ensures latest { IsLatest (machine_of self.new).leases now }
    {
        self.tables.compound(alloc, args, who, size, now, out);
    }

    /// The sessions that stand, to be looked at.
    pub fn sessions(&self) -> &Sessions
        ensures { result.now ≡ (machine_of self.now).sessions }
    {
        &self.tables.sessions
    }

    /// The tables, to be looked at.
    pub(crate) fn tables(&self) -> &Tables
        ensures { result.now ≡ self.now }
    {
        &self.tables
    }

    /// How much of each kind stands.
    pub fn held(&self) -> Held
        ensures { result ≡ held (machine_of self.now) }
    {
        let tables = &self.tables;
        Held {
            clients: tables.clients.count(),
            sessions: tables.sessions.count(),
            objects: tables.store.tree.count(),
            opens: tables.store.opens.open_count(),
            locks: tables.store.opens.lock_count(),
        }
    }

    /// No byte of a file has a writer beside another holder, and no two owners' opens clash, in every world; this does nothing
    /// but say so.
    pub fn no_clash(&self)
        ensures { HasNoClashes (machine_of self.now) }
    {
        let _tables = &self.tables;
    }

    /// The tables agree in every world: a client record has a lease, and nothing else has one; who has a session or an open is
    /// there and confirmed. This does nothing but say so.
    pub fn tables_agree(&self)
        ensures { IsMachine (machine_of self.now) }
    {
        let _tables = &self.tables;
    }

    /// Takes away what has run out at the moment `now`, in seconds (RFC 8881 section 8.3): the clients whose last renewal is
    /// more than a lease ago, with their sessions, opens and locks, and each object that then has neither a name nor an open.
    pub fn expire(&mut self, now: u64)
        ensures { machine_of self.new ≡ expired now (machine_of self.old) }
    {
        self.tables.expire(now);
    }

    /// Drops some of what cuts, removals and ends have left, so much at a time that a record stays short. Answers false where
    /// nothing waits any more. Contracts do not see what waits.
    pub fn tidy(&mut self) -> bool
        ensures { machine_of self.new ≡ machine_of self.old }
    {
        self.tables.tidy()
    }
}
