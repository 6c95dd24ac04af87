//! The table of sessions (RFC 8881 sections 2.10, 18.36 and 18.37).

ghost use Rattle.std.specs.Prelude.{◌≡◌, ◌≤◌, ◌+◌, ◌==◌, None, IfOk, OnOk, OnErr, IsSomeAnd, is_some, length, count_by, find, filter, not, option_map, position};
ghost use Rattle.std.specs.Option.{option_copied};
ghost use Rattle.std.specs.List.{list_any};
ghost use Rattle.nfs_xdr.specs.Checks.{judged};
ghost use Rattle.nfs_sessions.specs.declared.sessions.SessionFault.TheVariants.{Memory};
ghost use Rattle.nfs_sessions.specs.Sessions.{no_sessions, is_session, session_at, create, create_fault, with_session, destroyed, without_client, keep};
ghost use Rattle.nfs_sessions.specs.Sessions.{session_fault_status};
ghost use Rattle.nfs_sessions.specs.SessionTables.{IsSessions, CreatesOrWants, MayKeep};

use crate::channel::{Wish, granted, is_too_small};
use crate::id::SessionId;
use crate::session::Session;
use nfs_slots::Args;
use nfs_xdr::Status;
use std::alloc::{AllocError, Global};
use std::marker::Model;

/// Why there is no new session.
#[derive(Clone, Copy, Debug, PartialEq, Eq)]
pub enum SessionFault {
    /// NFS4ERR_TOOSMALL: the fore channel asked for is too small to be of use.
    TooSmall,
    /// NFS4ERR_NOSPC: as many sessions stand as may.
    NoSpc,
    /// NFS4ERR_SERVERFAULT: each counter was given.
    ServerFault,
    /// There is no memory for its slots (NFS4ERR_DELAY).
    Memory,
}

impl SessionFault {
    /// The status that CREATE_SESSION answers: the fault's own, and NFS4ERR_DELAY for want of memory.
    pub fn status(self) -> Status
        ensures { result ≡ session_fault_status self }
    {
        match self {
            SessionFault::TooSmall => Status::TooSmall,
            SessionFault::NoSpc => Status::NoSpc,
            SessionFault::ServerFault => Status::ServerFault,
            SessionFault::Memory => Status::Delay,
        }
    }
}

impl From<AllocError> for SessionFault {
    ghost from_gives = { λ _ e. e ≡ Memory };

    fn from(_e: AllocError) -> SessionFault {
        SessionFault::Memory
    }
}

/// All sessions, in rising order of their counters.
#[derive(Drop)]
pub struct Sessions {
    sessions: Vec<Session>,
    last: u64,
    /// How many stand at once at most.
    most: u32,
}

impl Model for Sessions {
    ghost use Rattle.nfs_sessions.specs.Sessions.{SessionTable};
    ghost use Rattle.nfs_sessions.specs.SessionTables.{IsSessions};

    ghost Value = { SessionTable };

    ghost view = { λ t. record { sessions = t.sessions.items; last = t.last; most = t.most } };

    ghost invariant = { λ t. IsSessions (record { sessions = t.sessions.items; last = t.last; most = t.most }) };
}

fn drop_sessions_of(sessions: &mut Vec<Session>, client: u64)
    ensures { sessions.new.items ≡ filter (λ s. not (s.client == client)) sessions.old.items }
{
    sessions.retain(|s| s.client() != client);
}

impl Sessions {
    /// No sessions, and later so many at once at most. A later `create` grows by `alloc`.
    pub fn new(alloc: Global, most: u32) -> Sessions
        ensures { result ≡ no_sessions most }
    {
        Sessions {
            sessions: Vec::new(alloc),
            last: 0,
            most,
        }
    }

    /// How many sessions stand.
    pub fn count(&self) -> usize
        ensures { result ≡ length self.now.sessions }
    {
        self.sessions.len()
    }

    fn judge_create(&self, wish: &Wish) -> Result<(), SessionFault>
        ensures { result ≡ judged (create_fault self.now wish.now) }
    {
        if is_too_small(&wish.fore) {
            return Err(SessionFault::TooSmall);
        }
        let staying = self
            .sessions
            .iter()
            .filter(|s| s.stays(wish.leaving))
            .count();
        if staying >= self.most as usize {
            return Err(SessionFault::NoSpc);
        }
        if self.last == u64::MAX {
            return Err(SessionFault::ServerFault);
        }
        Ok(())
    }

    fn insert(&mut self, alloc: Global, client: u64, wish: &Wish) -> Result<SessionId, AllocError>
        requires { create_fault self.old wish.now ≡ None }
        ensures ok { OnOk result (self.new ≡ with_session self.old client wish.now.fore) }
        ensures id { IfOk result (λ id. id ≡ record { client = client; counter = self.old.last + 1 }) }
        ensures err { OnErr result (self.new ≡ self.old) }
    {
        let counter = self.last + 1;
        let session = Session::new(alloc, counter, client, granted(&wish.fore))?;
        self.sessions.reserve(1)?;
        self.sessions.push(session).unwrap();
        self.last = counter;
        Ok(SessionId { client, counter })
    }

    /// Makes a session for a client, with what is granted of the fore channel asked for.
    ///
    /// The checks in their order: `TooSmall`; `NoSpc` where as many sessions stand as may, those of the leaving client record not
    /// counted; `ServerFault` where each counter was given; `Memory` where there is no room for its slots.
    /// A refusal leaves all as it was.
    pub fn create(
        &mut self,
        alloc: Global,
        client: u64,
        wish: &Wish,
    ) -> Result<SessionId, SessionFault>
        ensures { CreatesOrWants self.old (create self.old client wish.now) result self.new }
    {
        self.judge_create(wish)?;
        Ok(self.insert(alloc, client, wish)?)
    }

    /// The session with this id, under the channel that was granted.
    pub fn session(&self, id: &SessionId) -> Option<&Session>
        ensures found { option_copied result ≡ session_at self.now id.now }
        ensures rising { IsSessions self.now }
    {
        let place = self.find(id)?;
        Some(&self.sessions[place])
    }

    /// Where the session with this id stands among those that stand, in the order in which they were made: 0 is the oldest.
    /// It is found by halves. None where no session has this id.
    pub fn find(&self, id: &SessionId) -> Option<usize>
        ensures at { result ≡ position (is_session id.now) self.now.sessions }
        ensures rising { IsSessions self.now }
    {
        let place = self
            .sessions
            .binary_search_by_key(&id.counter, |s| s.counter())
            .ok()?;
        if self.sessions[place].is(id) {
            Some(place)
        } else {
            None
        }
    }

    /// Whether a client has a session.
    pub fn has_client(&self, client: u64) -> bool
        ensures { result ≡ list_any (λ s. s.client == client) self.now.sessions }
    {
        self.sessions.iter().any(|s| s.client() == client)
    }

    /// How many sessions a client has.
    pub fn count_of(&self, client: u64) -> usize
        ensures { result ≡ count_by (λ s. s.client == client) self.now.sessions }
    {
        self.sessions
            .iter()
            .filter(|s| s.client() == client)
            .count()
    }

    /// The counter of a client's oldest session.
    pub fn oldest_of(&self, client: u64) -> Option<u64>
        ensures { result ≡ option_map (λ s. s.counter) (find (λ s. s.client == client) self.now.sessions) }
    {
        let session = self.sessions.iter().find(|s| s.client() == client)?;
        Some(session.counter())
    }

    /// Keeps the reply to a request that was fresh on a session's slot and has run.
    pub fn keep(
        &mut self,
        id: &SessionId,
        slot: u32,
        number: u32,
        uid: u32,
        args: &Args<'_>,
        reply: &[u8],
    )
        requires { IsSomeAnd (session_at self.old id.now) (λ s. MayKeep s slot number uid args.now reply.now) }
        ensures { self.new ≡ keep self.old id.now slot number uid args.now reply.now }
    {
        if let Some(place) = self.find(id) {
            let session = &mut self.sessions[place];
            session.keep(slot, number, uid, args, reply);
        }
    }

    /// Ends a session, and answers whether it stood.
    pub fn destroy(&mut self, id: &SessionId) -> bool
        ensures stood { result ≡ is_some (session_at self.old id.now) }
        ensures gone { self.new ≡ destroyed self.old id.now }
    {
        match self.find(id) {
            Some(place) => {
                self.sessions.remove(place);
                true
            }
            None => false,
        }
    }

    /// Ends the sessions of a client.
    pub fn drop_client(&mut self, client: u64)
        ensures { self.new ≡ without_client self.old client }
    {
        drop_sessions_of(&mut self.sessions, client);
    }
}

#[cfg(test)]
mod tests;
