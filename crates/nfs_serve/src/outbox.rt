//! What is owed to the peer of a connection.

ghost use Rattle.std.specs.Prelude.{◌≡◌, ◌≤◌, ◌+◌, ◌++◌, ℕ, Option, [], length, drop, take, true, IfOk};
ghost use Rattle.nfs_serve.specs.Desk.{most_owed};
ghost use Rattle.nfs_serve.specs.Run.{one_fragment, spell_answer};
ghost use Rattle.nfs_serve.specs.Script.{last_moment};
ghost use Rattle.nfs_serve.specs.Server.{state_of};
ghost use Rattle.nfs_serve.specs.Step.{step};
ghost use Rattle.nfs_serve.specs.declared.form.Form.TheVariants.{Plain};

use crate::connection::MARK;
use crate::engine::Engine;
use crate::form::Outcome;
use nfs_rpc::LAST_FRAGMENT;
use nfs_xdr::Sheet;
use std::alloc::{AllocError, Global};
use std::marker::Model;

/// Bytes that may be owed where one more record is stepped.
const MOST_OWED: usize = 65_536;

/// Room for them and for the largest reply with its record mark.
const ROOM: usize = MOST_OWED + MARK + 70_000;

/// Bytes that are owed to a peer, in room that is made once.
///
/// Contracts see the bytes, and how much of the room was laid out since it was last cleared.
#[derive(Drop)]
pub(crate) struct Outbox {
    sheet: Sheet,
    at: usize,
}

impl Model for Outbox {
    ghost use Rattle.std.specs.Prelude.{drop, length, ◌≡◌, ◌≤◌};
    ghost use Rattle.nfs_serve.specs.Boxes.{OutboxModel};

    ghost Value = { OutboxModel };

    ghost view = { λ b. record { bytes = drop b.at b.sheet.bytes; laid = length b.sheet.bytes } };

    ghost invariant = { λ b. (b.at ≤ length b.sheet.bytes) × (length b.sheet.bytes ≤ 135540) × (b.sheet.room ≡ 135540) };
}

impl Outbox {
    /// An empty one. Its buffer is made here.
    pub(crate) fn new(alloc: Global) -> Result<Outbox, AllocError>
        ensures { IfOk result (λ b. b.bytes ≡ []) }
    {
        let sheet = Sheet::new(alloc, ROOM)?;
        Ok(Outbox { sheet, at: 0 })
    }

    /// The bytes.
    pub(crate) fn rest(&self) -> &[u8]
        ensures { result.now ≡ self.now.bytes }
    {
        &self.sheet.bytes()[self.at..]
    }

    /// Whether one more record may be stepped.
    pub(crate) fn has_room(&self) -> bool
        ensures { result ≡ true → (self.now.laid ≤ most_owed) × (length self.now.bytes ≤ most_owed) }
    {
        self.sheet.len() <= MOST_OWED
    }

    /// Notes that so many bytes in front were taken.
    pub(crate) fn consume(&mut self, n: usize)
        requires { n ≤ length self.old.bytes }
        ensures { self.new.bytes ≡ drop n self.old.bytes }
    {
        self.at += n;
    }

    /// Lets go all.
    pub(crate) fn clear(&mut self)
        ensures { self.new ≡ record { bytes = []; laid = 0 } }
    {
        self.at = 0;
        self.sheet.clear();
    }

    /// Steps a record, and makes what it is answered where it leaves: with its record mark alone, behind those that are there.
    pub(crate) fn answer(&mut self, alloc: Global, engine: &mut Engine, call: &[u8], now: u64)
        requires room { self.old.laid ≤ most_owed }
        requires now { now ≤ last_moment }
        ensures { (choice : Option ℕ)
            × ((conn : ℕ) → self.new.bytes ≡ self.old.bytes ++ spell_answer Plain conn (step (state_of engine.old.kept) call.now now choice).reply)
            × (state_of engine.new.kept ≡ (step (state_of engine.old.kept) call.now now choice).state) }
    {
        let at = self.sheet.len();
        self.sheet.put_u32(0);
        match engine.record_onto(alloc, call, now, &mut self.sheet) {
            Outcome::Reply => set_mark(&mut self.sheet, at),
            Outcome::Silent => self.sheet.cut(at),
        }
    }
}

/// Writes the record mark of what stands behind it, in one fragment.
#[tactic(auto, using(nfs_xdr::proofs::Putting::putting))]
fn set_mark(sheet: &mut Sheet, at: usize)
    requires within { at + 4 ≤ length sheet.old.bytes }
    requires room { sheet.old.room ≡ 135540 }
    ensures marked { sheet.new ≡ record sheet.old { bytes = take at sheet.old.bytes ++ one_fragment (drop (at + 4) sheet.old.bytes) } }
    ensures size { length sheet.new.bytes ≤ 135540 }
{
    let size = (sheet.len() - at - MARK) as u32;
    sheet.set_u32(at, LAST_FRAGMENT + size);
}
