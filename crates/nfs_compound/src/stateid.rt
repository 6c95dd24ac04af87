//! Stateids: RFC 8881 section 8.2.2.

ghost use Rattle.std.specs.Prelude.{◌≡◌, ◌<◌, ◌*◌, ◌^◌, length, get_or, []};
ghost use Rattle.nfs_xdr.specs.Readers.{ReadsPartBy};
ghost use Rattle.nfs_compound.specs.Stateid.{stateid, stateids, stateid_of};

use nfs_xdr::{Cursor, Unreadable};
use std::marker::Model;

/// Names a state of an open or of a lock (RFC 8881 section 8.2.2).
#[derive(Clone, Copy)]
pub struct Stateid {
    pub seqid: u32,
    pub other: [u8; 12],
}

impl Stateid {
    /// Reads a stateid. Unreadable where it is cut.
    #[tactic(auto, unfolding(crate::specs::Stateid::stateid))]
    pub fn read(c: &mut Cursor<'_>) -> Result<Stateid, Unreadable>
        ensures { ReadsPartBy (λ s. s) result (stateid.read c.old) c.new }
    {
        let seqid = c.u32()?;
        let other = c.fixed::<12>()?;
        Ok(Stateid { seqid, other })
    }
}

/// Stateids, lent from the record. Contracts see them one after the other.
#[derive(Drop)]
pub struct Stateids<'a> {
    spelled: &'a [[u8; 16]],
}

impl<'a> Model for Stateids<'a> {
    ghost use Rattle.std.specs.Prelude.{List, map};
    ghost use Rattle.nfs_compound.specs.declared.stateid.Stateid.{Stateid};
    ghost use Rattle.nfs_compound.specs.Stateid.{stateid_of};

    ghost Value = { List Stateid };

    ghost view = { λ s. map stateid_of s.spelled.now };
}

impl<'a> Stateids<'a> {
    /// Reads a count and that many stateids. Unreadable where they are cut.
    #[tactic(auto, unfolding(crate::specs::Stateid::stateids))]
    pub fn read(c: &mut Cursor<'a>) -> Result<Stateids<'a>, Unreadable>
        ensures { ReadsPartBy (λ x. x) result (stateids.read c.old) c.new }
    {
        let spelled = c.pieces::<16>()?;
        Ok(Stateids { spelled })
    }

    /// How many there are. Each takes 16 bytes of the record.
    pub fn len(&self) -> usize
        ensures value { result ≡ length self.now }
        ensures bound { 16 * result < 2 ^ 64 }
    {
        self.spelled.len()
    }

    /// The stateid at a place.
    pub fn get(&self, place: usize) -> Stateid
        requires { place < length self.now }
        ensures { result ≡ get_or self.now place (stateid_of []) }
    {
        spelled_at(self.spelled, place)
    }
}

/// The stateid that is spelled at a place.
fn spelled_at(spelled: &[[u8; 16]], place: usize) -> Stateid
    requires { place < length spelled.now }
    ensures { result ≡ stateid_of (get_or spelled.now place []) }
{
    let spelled = &spelled[place];
    let mut seqid = [0; 4];
    seqid.copy_from_slice(&spelled[..4]);
    let mut other = [0; 12];
    other.copy_from_slice(&spelled[4..]);
    Stateid {
        seqid: u32::from_be_bytes(seqid),
        other,
    }
}
