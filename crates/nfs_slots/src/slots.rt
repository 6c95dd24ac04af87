//! The slots of one session (RFC 8881 section 2.10.6).

ghost use Rattle.std.specs.Prelude.{◌≡◌, ◌≤◌, length, IfOk};
ghost use Rattle.nfs_slots.specs.Slot.{judge, keep, kept};
ghost use Rattle.nfs_slots.specs.SlotTables.{most_slots, IsKept, unused, IsBounded};

use crate::args::Args;
use crate::slot::{Slot, Verdict};
use std::alloc::{AllocError, Global};
use std::marker::Model;

/// The slots of one session, each with the room that its kept request needs.
#[derive(Drop)]
pub struct Slots {
    slots: Vec<Slot>,
    size: usize,
    request: usize,
}

impl Model for Slots {
    ghost use Rattle.std.specs.Prelude.{map, All};
    ghost use Rattle.nfs_slots.specs.SlotTables.{SlotTable};
    ghost use Rattle.nfs_slots.specs.Buffers.{state_of, IsWithinRoom};

    ghost Value = { SlotTable };

    ghost view = { λ t. record { slots = map state_of t.slots.items; size = t.size; request = t.request } };

    ghost invariant = { λ t. All (IsWithinRoom t.size t.request) t.slots.items };
}

impl Slots {
    /// `count` slots that took no request yet: at most 16, which keep no more than a record each.
    ///
    /// Each reserves room for a reply of `size` bytes and argument bytes of `request` bytes, so that no later
    /// call takes memory. `AllocError` where that room is not to be had.
    pub fn new(
        alloc: Global,
        count: usize,
        size: usize,
        request: usize,
    ) -> Result<Slots, AllocError>
        requires count { count ≤ most_slots }
        requires kept { IsKept size request }
        ensures { IfOk result (λ t. t ≡ unused count size request) }
    {
        let mut slots = Vec::with_capacity(alloc, count)?;
        for _ in 0..count {
            slots.push(Slot::new(alloc, size, request)?)?;
        }
        Ok(Slots {
            slots,
            size,
            request,
        })
    }

    /// What slot `slot` says of a request with this number, caller and argument bytes (RFC 8881 section 2.10.6.1).
    pub fn judge(&self, slot: u32, number: u32, uid: u32, args: &Args<'_>) -> Verdict
        ensures { result ≡ judge self.now.slots slot number uid args.now }
    {
        match self.slots.get(slot as usize) {
            Some(s) => s.judge(number, uid, args),
            None => Verdict::NoSlot,
        }
    }

    /// Keeps the reply to a request that was fresh and has run, in the place of the request before it.
    pub fn keep(&mut self, slot: u32, number: u32, uid: u32, args: &Args<'_>, reply: &[u8])
        requires fresh { judge self.old.slots slot number uid args.now ≡ Verdict.Fresh }
        requires args { length args.now ≤ self.old.request }
        requires reply { length reply.now ≤ self.old.size }
        ensures { self.new ≡ record self.old { slots = keep self.old.slots slot number uid args.now reply.now } }
    {
        self.slots[slot as usize].keep(number, uid, args, reply);
    }

    /// The reply that slot `slot` keeps: the bytes of its last `keep`, and none where it keeps nothing. It is no longer
    /// than the room that was reserved for it.
    pub fn kept(&self, slot: u32) -> &[u8]
        ensures reply { result.now ≡ kept self.now.slots slot }
        ensures bounded { IsBounded self.now }
    {
        match self.slots.get(slot as usize) {
            Some(s) => s.reply(),
            None => &[],
        }
    }
}
