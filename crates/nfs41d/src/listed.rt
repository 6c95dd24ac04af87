//! The clients of a server, in a file for whoever keeps it running (docs/OPERATING.md, "Who its clients are").
//!
//! A list is written in parts, so that no sweep waits for it: so many clients, opens and lock states are looked at between two sweeps.

use crate::replaced::Replaced;
use nfs_exec::{ClientShown, World};
use nfs_pace::{MICROS, Places};
use std::alloc::AllocError;
use std::fmt;

/// How many clients, and how many opens and lock states, are looked at between two sweeps.
const CLIENTS: u32 = 256;

const STATES: u32 = 2_048;

/// Where a list stands: behind which client the next one is looked for; and what was counted of that one, if it is not yet written.
#[derive(Clone, Copy)]
struct Reached {
    client: u64,
    counting: Option<Counting>,
}

/// What was counted of a client's states so far.
#[derive(Clone, Copy)]
struct Counting {
    client: u64,
    opens: u64,
    locks: u64,
    /// The open, and the lock state under it, that were counted last.
    open: u64,
    lock: u64,
}

/// A file that lists the clients, and is written once a second.
#[derive(Drop)]
pub struct Listed<'a> {
    rt: &'a HostRuntime,
    file: Replaced<'a>,
    /// When the next list is due, in microseconds since the ports began.
    due: u64,
    /// Where the list stands that is being written.
    at: Option<Reached>,
}

/// An owner in printable signs: each other byte as `\x` and two digits.
#[derive(Clone, Copy)]
struct Printable<'a>(&'a [u8]);

impl fmt::Display for Printable<'_> {
    fn fmt<W: fmt::Write>(&self, f: &mut fmt::Formatter<W>) -> fmt::Result {
        for byte in self.0 {
            let byte = *byte;
            if byte >= 0x20 && byte < 0x7f && byte != b'"' && byte != b'\\' {
                f.write_char(char::from(byte))?;
            } else {
                write!(f, "\\x{byte:02x}")?;
            }
        }
        Ok(())
    }
}

impl<'a> Listed<'a> {
    /// The file of this name. `AllocError` where memory is refused.
    pub fn new(rt: &'a HostRuntime, path: &'a str) -> Result<Listed<'a>, AllocError> {
        Ok(Listed {
            rt,
            file: Replaced::new(rt, path)?,
            due: 0,
            at: None,
        })
    }

    /// The file.
    pub fn file(&self) -> &Replaced<'a> {
        &self.file
    }

    /// Whether a list is being written, or due.
    pub fn is_due(&self, now: u64) -> bool {
        self.at.is_some() || now >= self.due
    }

    /// Writes on, and begins a list that is due. `second` is the moment.
    pub fn write(&mut self, now: u64, second: u64, world: &World, places: &Places) {
        let mut reached = match self.at {
            Some(reached) => reached,
            None => {
                if now < self.due {
                    return;
                }
                self.due = now.saturating_add(MICROS);
                self.file.begin();
                Reached {
                    client: 0,
                    counting: None,
                }
            }
        };
        let mut states = STATES;
        for _ in 0..CLIENTS {
            let Some(shown) = world.next_client(reached.client) else {
                self.file.end();
                self.at = None;
                return;
            };
            let mut counting = counting_of(reached.counting, shown.id);
            if !count(world, &mut counting, &mut states) {
                reached.counting = Some(counting);
                break;
            }
            self.line(&shown, &counting, second, places);
            reached = Reached {
                client: shown.id,
                counting: None,
            };
        }
        self.at = Some(reached);
    }

    /// The line of a client.
    fn line(&mut self, shown: &ClientShown<'_>, counted: &Counting, second: u64, places: &Places) {
        let ClientShown {
            id,
            owner,
            confirmed,
            sessions,
            session,
            renewed,
        } = *shown;
        let Counting { opens, locks, .. } = *counted;
        let (a, b, c, d) = parts(places.address_of(id).unwrap_or(0));
        let confirmed = if confirmed { "yes" } else { "no" };
        let counter = session.unwrap_or(0);
        let ago = second.saturating_sub(renewed.unwrap_or(second));
        let owner = Printable(owner);
        if let Ok(text) = format!(in self.rt.alloc();
            "client={id:016x} address={a}.{b}.{c}.{d} confirmed={confirmed} sessions={sessions} session={id:016x}{counter:016x} opens={opens} locks={locks} renewed_s={ago} owner=\"{owner}\"\n"
        ) {
            self.file.put(text.as_str());
        }
    }
}

/// What was counted of this client so far.
fn counting_of(counting: Option<Counting>, client: u64) -> Counting {
    match counting {
        Some(counting) if counting.client == client => counting,
        _ => Counting {
            client,
            opens: 0,
            locks: 0,
            open: 0,
            lock: 0,
        },
    }
}

/// Counts on, so many states at most. Whether that was all.
fn count(world: &World, counting: &mut Counting, states: &mut u32) -> bool {
    let most = *states;
    for _ in 0..most {
        *states = states.saturating_sub(1);
        match world.next_lock(counting.open, counting.lock) {
            Some(lock) => {
                counting.lock = lock;
                counting.locks = counting.locks.saturating_add(1);
            }
            None => match world.next_open(counting.client, counting.open) {
                Some(open) => {
                    counting.open = open;
                    counting.lock = 0;
                    counting.opens = counting.opens.saturating_add(1);
                }
                None => return true,
            },
        }
    }
    false
}

/// The four parts of an address.
fn parts(address: u32) -> (u32, u32, u32, u32) {
    (
        address >> 24,
        address >> 16 & 0xff,
        address >> 8 & 0xff,
        address & 0xff,
    )
}
