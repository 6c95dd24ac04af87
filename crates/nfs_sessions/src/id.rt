//! The ids of sessions (RFC 8881 sections 2.10 and 3.2).

ghost use Rattle.std.specs.Prelude.{◌≡◌};
ghost use Rattle.nfs_sessions.specs.Id.{id_bytes, id_of};

/// The id of a session (sessionid4, RFC 8881 sections 2.10 and 3.2): its client's id, and a counter that no other session has.
#[derive(Clone, Copy, Debug, PartialEq, Eq)]
pub struct SessionId {
    pub client: u64,
    pub counter: u64,
}

impl SessionId {
    /// The 16 bytes in which a session's id is spelled.
    #[tactic(auto, unfolding(nfs_xdr::specs::Spelling::hyper))]
    pub fn to_bytes(self) -> [u8; 16]
        ensures { result ≡ id_bytes self }
    {
        let mut bytes = [0; 16];
        bytes[..8].copy_from_slice(&self.client.to_be_bytes());
        bytes[8..].copy_from_slice(&self.counter.to_be_bytes());
        bytes
    }

    /// The id that is spelled in these 16 bytes.
    #[tactic(auto, unfolding(nfs_xdr::specs::Spelling::hyper))]
    pub fn from_bytes(bytes: &[u8; 16]) -> SessionId
        ensures spelled { id_bytes result ≡ bytes.now }
        ensures read { result ≡ id_of bytes.now }
    {
        let (front, back) = bytes.split_at(8);
        let mut client = [0; 8];
        client.copy_from_slice(front);
        let mut counter = [0; 8];
        counter.copy_from_slice(back);
        SessionId {
            client: u64::from_be_bytes(client),
            counter: u64::from_be_bytes(counter),
        }
    }
}
