//! What is shown of each client.

ghost use Rattle.std.specs.Prelude.{◌≡◌, ◌==◌, ◌&&◌, find, nat_lt, option_map};
ghost use Rattle.nfs_exec.specs.Step.Machine.{machine_of};

use crate::world::World;

/// What is shown of a client, between two records.
#[derive(Clone, Copy)]
pub struct ClientShown<'a> {
    /// Its id.
    pub id: u64,
    /// The string by which it names itself (`co_ownerid`, RFC 8881 section 2.4).
    pub owner: &'a [u8],
    /// Whether a CREATE_SESSION has confirmed it.
    pub confirmed: bool,
    /// How many sessions it has.
    pub sessions: usize,
    /// The counter in the session id of the oldest of them.
    pub session: Option<u64>,
    /// The moment of its last renewal, in seconds.
    pub renewed: Option<u64>,
}

impl World {
    /// What is shown of the client with the lowest id behind `after`.
    pub fn next_client(&self, after: u64) -> Option<ClientShown<'_>>
        ensures { option_map (λ c. c.id) result ≡ option_map (λ c. c.id) (find (λ c. nat_lt after c.id) (machine_of self.now).clients.records) }
    {
        let tables = self.tables();
        let shown = tables.clients.next_behind(after)?;
        Some(ClientShown {
            id: shown.id,
            owner: shown.owner,
            confirmed: shown.confirmed,
            sessions: tables.sessions.count_of(shown.id),
            session: tables.sessions.oldest_of(shown.id),
            renewed: tables.leases.renewed(shown.id),
        })
    }

    /// The number of the open of a client with the lowest number behind `after`.
    pub fn next_open(&self, client: u64, after: u64) -> Option<u64>
        ensures { result ≡ option_map (λ o. o.number) (find (λ o. (o.client == client) && nat_lt after o.number) (machine_of self.now).store.opens.opens) }
    {
        let open = self.tables().store.opens.next_of(client, after)?;
        Some(open.number)
    }

    /// The number of the lock state under an open with the lowest number behind `after`.
    pub fn next_lock(&self, opened: u64, after: u64) -> Option<u64>
        ensures { result ≡ option_map (λ l. l.number) (find (λ l. (l.opened == opened) && nat_lt after l.number) (machine_of self.now).store.opens.locks) }
    {
        let lock = self.tables().store.opens.next_under(opened, after)?;
        Some(lock.number)
    }
}
