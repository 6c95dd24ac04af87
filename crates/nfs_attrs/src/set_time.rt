//! Times that are set (RFC 8881 sections 3.3.3, 5.8.2.38 and 5.8.2.44).

ghost use Rattle.nfs_xdr.specs.Readers.{ReadsPartBy};
ghost use Rattle.nfs_attrs.specs.SetTime as spelled;

use nfs_xdr::{Cursor, Time, Unreadable};

/// A time that a request sets (`settime4`).
#[derive(Clone, Copy, Debug, PartialEq, Eq)]
pub enum SetTime {
    /// The moment at which the server runs the operation.
    Now,
    /// The time that the client gives.
    Given(Time),
}

impl SetTime {
    /// Reads one: the number 0, or the number 1 and a time. Unreadable where it is cut or begins with another number.
    #[tactic(auto, unfolding(crate::specs::SetTime::set_time))]
    pub fn read(cursor: &mut Cursor<'_>) -> Result<SetTime, Unreadable>
        ensures { ReadsPartBy (λ t. t) result (spelled.set_time.read cursor.old) cursor.new }
    {
        match cursor.u32()? {
            0 => Ok(SetTime::Now),
            1 => Ok(SetTime::Given(cursor.time()?)),
            _ => Err(Unreadable),
        }
    }
}
