//! One slot: what it says of a request, and the reply that it keeps (RFC 8881 section 2.10.6.1).

ghost use Rattle.std.specs.Prelude.{◌≡◌, ◌≤◌, Bool, true, false, [], length, IfOk, vec_capacity};
ghost use Rattle.nfs_slots.specs.Slot.{judge_slot, unused_slot};
ghost use Rattle.nfs_slots.specs.SlotTables.{IsKept, verdict_status};
ghost use Rattle.nfs_slots.specs.Buffers.{state_of, HasRoom, IsWithinRoom};

use crate::args::Args;
use nfs_xdr::Status;
use std::alloc::{AllocError, Global};

/// What a slot says of a request's number (RFC 8881 section 2.10.6.1).
#[derive(Clone, Copy, Debug, PartialEq, Eq)]
pub enum Verdict {
    /// The number behind the last one: the request is new, and is to be run.
    Fresh,
    /// The last number, with the caller and the argument bytes of the last request: it is answered with what was kept.
    Again,
    /// The last number, with another caller or other argument bytes (NFS4ERR_SEQ_FALSE_RETRY).
    FalseRetry,
    /// Any other number (NFS4ERR_SEQ_MISORDERED).
    Misordered,
    /// There is no such slot (NFS4ERR_BADSLOT).
    NoSlot,
}

impl Verdict {
    /// The status that SEQUENCE answers: NFS4_OK for a new request and for one that is repeated.
    pub fn status(self) -> Status
        ensures { result ≡ verdict_status self }
    {
        match self {
            Verdict::Fresh | Verdict::Again => Status::Nfs4Ok,
            Verdict::FalseRetry => Status::SeqFalseRetry,
            Verdict::Misordered => Status::SeqMisordered,
            Verdict::NoSlot => Status::BadSlot,
        }
    }
}

/// One slot, with the room that was reserved for what it keeps.
#[derive(Drop)]
pub(crate) struct Slot {
    number: u32,
    used: bool,
    uid: u32,
    args: Vec<u8>,
    reply: Vec<u8>,
}

impl Slot {
    /// A slot that took no request yet, with room for a reply of `size` bytes and arguments of `request` bytes.
    pub(crate) fn new(alloc: Global, size: usize, request: usize) -> Result<Slot, AllocError>
        requires { IsKept size request }
        ensures unused { IfOk result (λ s. state_of s ≡ unused_slot) }
        ensures room { IfOk result (IsWithinRoom size request) }
    {
        let args = Vec::with_capacity(alloc, request)?;
        let reply = Vec::with_capacity(alloc, size)?;
        Ok(Slot {
            number: 0,
            used: false,
            uid: 0,
            args,
            reply,
        })
    }

    /// What the slot says of a request with this number, caller and argument bytes.
    pub(crate) fn judge(&self, number: u32, uid: u32, args: &Args<'_>) -> Verdict
        ensures { result ≡ judge_slot (state_of self.now) number uid args.now }
    {
        if number == self.number.wrapping_add(1) {
            return Verdict::Fresh;
        }
        if !(self.used && number == self.number) {
            return Verdict::Misordered;
        }
        if uid == self.uid && args.are(&self.args) {
            Verdict::Again
        } else {
            Verdict::FalseRetry
        }
    }

    /// The reply that is kept, and none where nothing is.
    pub(crate) fn reply(&self) -> &[u8]
        ensures { result.now ≡ (state_of self.now).reply }
    {
        &self.reply
    }

    /// Keeps a request and its reply in the room that was reserved, in the place of the one before.
    pub(crate) fn keep(&mut self, number: u32, uid: u32, args: &Args<'_>, reply: &[u8])
        requires args { length args.now ≤ vec_capacity self.old.args }
        requires reply { length reply.now ≤ vec_capacity self.old.reply }
        ensures state { state_of self.new ≡ record { number = number; used = true; uid = uid; args = args.now; reply = reply.now } }
        ensures args_room { vec_capacity self.old.args ≤ vec_capacity self.new.args }
        ensures reply_room { vec_capacity self.old.reply ≤ vec_capacity self.new.reply }
    {
        self.number = number;
        self.used = true;
        self.uid = uid;
        args.keep_in(&mut self.args);
        self.reply.clear();
        self.reply.extend_from_slice(reply).unwrap();
    }
}

#[cfg(test)]
mod tests;
