//! Open owners and lock owners: RFC 8881 section 3.3.13.

ghost use Rattle.nfs_xdr.specs.Readers.{ReadsPartBy};
ghost use Rattle.nfs_compound.specs.StateOwner.{state_owner};

use crate::lent::Lent;
use nfs_xdr::{Cursor, OPAQUE_LIMIT, Unreadable};

/// An open owner or a lock owner (RFC 8881 section 3.3.13).
#[derive(Drop)]
pub struct StateOwner<'a> {
    pub clientid: u64,
    /// At most 1,024 bytes.
    pub owner: Lent<'a>,
}

impl<'a> StateOwner<'a> {
    /// Reads an owner. Unreadable where it is cut, above its bound, or padded by other than zeros.
    #[tactic(auto, unfolding(crate::specs::StateOwner::state_owner))]
    pub fn read(c: &mut Cursor<'a>) -> Result<StateOwner<'a>, Unreadable>
        ensures { ReadsPartBy (λ x. x) result (state_owner.read c.old) c.new }
    {
        let clientid = c.u64()?;
        let owner = Lent::read(c, OPAQUE_LIMIT)?;
        Ok(StateOwner { clientid, owner })
    }
}
