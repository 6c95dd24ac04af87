//! What is shown of client records.

ghost use Rattle.std.specs.Prelude.{◌≡◌, find, nat_lt, option_map};
ghost use Rattle.nfs_clients.specs.Seen.{shown_of, told_of};

use crate::clients::Clients;

/// What is shown of a client record.
#[derive(Clone, Copy)]
pub struct Shown<'a> {
    /// The client id.
    pub id: u64,
    /// The string by which the client names itself.
    pub owner: &'a [u8],
    /// A CREATE_SESSION has confirmed the record.
    pub confirmed: bool,
}

impl Clients {
    /// What is shown of the record with the lowest id behind `after`.
    pub fn next_behind(&self, after: u64) -> Option<Shown<'_>>
        ensures { option_map shown_of result ≡ option_map told_of (find (λ c. nat_lt after c.id) self.now.records) }
    {
        let client = self.records.next(after)?;
        Some(Shown {
            id: client.id(),
            owner: client.owner(),
            confirmed: client.is_confirmed(),
        })
    }
}
