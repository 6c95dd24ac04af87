//! How replies are counted (RFC 5531 section 9, RFC 8881 section 16.2).

ghost use Rattle.std.specs.Prelude.{◌≡◌};
ghost use Rattle.nfs_sockets.specs.Tally.{word_at, is_limit, status_in, noted};

// (numbers of RFC 8881 section 15.1)
pub const FBIG: u32 = 27;

pub const NOSPC: u32 = 28;

pub const MLINK: u32 = 31;

pub const SERVERFAULT: u32 = 10_006;

pub const DELAY: u32 = 10_008;

/// The status that stands for a call that ONC RPC itself refuses. No operation has it.
const REFUSED: u32 = 1;

/// How many calls were answered, and how.
#[derive(Clone, Copy, Debug, PartialEq, Eq)]
pub struct Tally {
    /// All that were answered.
    pub calls: u64,
    /// Of them those whose status is NFS4ERR_DELAY: memory was refused.
    pub delays: u64,
    /// Those whose status is another error, or that ONC RPC refuses.
    pub refusals: u64,
    /// The status of the last one that told of a limit, or 0: NFS4ERR_DELAY, FBIG, NOSPC, MLINK or SERVERFAULT.
    pub full: u32,
}

impl Tally {
    /// Nothing was answered.
    pub const NONE: Tally = Tally {
        calls: 0,
        delays: 0,
        refusals: 0,
        full: 0,
    };

    /// These bytes were put out for a record: its reply, with the record mark, or none.
    pub fn note(&mut self, reply: &[u8])
        ensures { self.new ≡ noted self.old (status_in reply.now) }
    {
        match status_in(reply) {
            None => {}
            Some(0) => self.calls = self.calls.saturating_add(1),
            Some(DELAY) => {
                self.calls = self.calls.saturating_add(1);
                self.delays = self.delays.saturating_add(1);
                self.full = DELAY;
            }
            Some(status) => {
                self.calls = self.calls.saturating_add(1);
                self.refusals = self.refusals.saturating_add(1);
                if is_limit(status) {
                    self.full = status;
                }
            }
        }
    }
}

/// Whether a status tells of a limit.
fn is_limit(status: u32) -> bool
    ensures { result ≡ is_limit status }
{
    matches!(status, FBIG | NOSPC | MLINK | SERVERFAULT)
}

/// The status of a reply with its mark: the compound's, 0 for one that has none, 1 for a call that ONC RPC refuses. `None` where there is no reply.
fn status_in(reply: &[u8]) -> Option<u32>
    ensures { result ≡ status_in reply.now }
{
    match word_at(reply, 12) {
        None => None,
        Some(0) => match word_at(reply, 24) {
            Some(0) => match word_at(reply, 28) {
                Some(status) => Some(status),
                None => Some(0),
            },
            _ => Some(REFUSED),
        },
        Some(_) => Some(REFUSED),
    }
}

/// The number of four bytes at a place.
pub(crate) fn word_at(bytes: &[u8], place: usize) -> Option<u32>
    ensures { result ≡ word_at place bytes.now }
{
    if bytes.len() <= place {
        return None;
    }
    let (_, rest) = bytes.split_at(place);
    let Some((front, _)) = rest.split_first_chunk::<4>() else {
        return None;
    };
    Some(u32::from_be_bytes(*front))
}
