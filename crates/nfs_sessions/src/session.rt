//! One session: the parts of its id, its channel, and its slots with the room that the channel asks for (RFC 8881
//! section 2.10.6).

ghost use Rattle.std.specs.Prelude.{◌≡◌, ◌≤◌, ◌+◌, IfOk, length};
ghost use Rattle.nfs_slots.specs.Slot.{judge, kept, keep};
ghost use Rattle.nfs_sessions.specs.Sessions.{new_session, is_session, outlasts};
ghost use Rattle.nfs_sessions.specs.SessionTables.{IsGranted, MayKeep, HasGrantedSlots};

use crate::id::SessionId;
use nfs_compound::ChannelAttrs;
use nfs_slots::{Args, Slots, Verdict};
use std::alloc::{AllocError, Global};
use std::marker::Model;

/// The bytes of an accepted reply's RPC head, which a slot does not keep (RFC 5531 section 9).
pub const RPC_HEAD: u32 = 24;

/// One session: the counter and the client that stand in its id, what was granted of its fore channel, and its slots,
/// each with room for a request and a reply that the channel lets pass.
#[derive(Drop)]
pub struct Session {
    counter: u64,
    client: u64,
    channel: ChannelAttrs,
    slots: Slots,
}

impl Model for Session {
    ghost use Rattle.nfs_sessions.specs.Sessions.{Session as Seen};
    ghost use Rattle.nfs_sessions.specs.SessionTables.{IsFitted};

    ghost Value = { Seen };

    ghost view = { λ s. record { counter = s.counter; client = s.client; channel = s.channel; slots = s.slots.slots } };

    ghost invariant = { λ s. IsFitted s.channel s.slots };
}

impl Session {
    /// A session whose slots took no request yet, as many as the channel has. `AllocError` where there is no room for
    /// what they keep.
    pub(crate) fn new(
        alloc: Global,
        counter: u64,
        client: u64,
        channel: ChannelAttrs,
    ) -> Result<Session, AllocError>
        requires { IsGranted channel }
        ensures { IfOk result (λ s. s ≡ new_session counter client channel) }
    {
        let count = channel.maxrequests as usize;
        let size = (channel.maxresponsesize - RPC_HEAD) as usize;
        let slots = Slots::new(alloc, count, size, channel.maxrequestsize as usize)?;
        Ok(Session {
            counter,
            client,
            channel,
            slots,
        })
    }

    pub(crate) fn counter(&self) -> u64
        ensures { result ≡ self.now.counter }
    {
        self.counter
    }

    pub(crate) fn client(&self) -> u64
        ensures { result ≡ self.now.client }
    {
        self.client
    }

    pub(crate) fn is(&self, id: &SessionId) -> bool
        ensures { result ≡ is_session id.now self.now }
    {
        self.counter == id.counter && self.client == id.client
    }

    pub(crate) fn stays(&self, leaving: Option<u64>) -> bool
        ensures { result ≡ outlasts leaving self.now }
    {
        match leaving {
            Some(client) => self.client != client,
            None => true,
        }
    }

    /// What was granted of the fore channel: 2,048 to 66,560 bytes of a request and of a reply, 1 to 64 operations,
    /// and 1 to 16 slots.
    pub fn channel(&self) -> ChannelAttrs
        ensures channel { result ≡ self.now.channel }
        ensures granted { IsGranted result }
        ensures count { result.maxrequests ≡ length self.now.slots }
    {
        self.channel
    }

    /// What slot `slot` says of a request with this number, caller and argument bytes, as `Slots::judge` does.
    pub fn judge(&self, slot: u32, number: u32, uid: u32, args: &Args<'_>) -> Verdict
        ensures { result ≡ judge self.now.slots slot number uid args.now }
    {
        self.slots.judge(slot, number, uid, args)
    }

    /// The reply that slot `slot` keeps, from the status of its COMPOUND on; none where it keeps nothing. With the RPC
    /// head in front it is no longer than the channel's response size.
    pub fn kept(&self, slot: u32) -> &[u8]
        ensures reply { result.now ≡ kept self.now.slots slot }
        ensures fits { HasGrantedSlots self.now }
    {
        self.slots.kept(slot)
    }

    /// Keeps the reply to a request that was fresh and has run.
    pub(crate) fn keep(&mut self, slot: u32, number: u32, uid: u32, args: &Args<'_>, reply: &[u8])
        requires { MayKeep self.old slot number uid args.now reply.now }
        ensures { self.new ≡ record self.old { slots = keep self.old.slots slot number uid args.now reply.now } }
    {
        self.slots.keep(slot, number, uid, args, reply);
    }
}
