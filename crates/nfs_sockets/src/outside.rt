//! Those who were taken from the system and wait for a port.

ghost use Rattle.std.specs.Prelude.{◌≡◌, ◌<◌, length, nat_eq, nat_lt, MatchOption};
ghost use Rattle.std.specs.List.{count_by, list_any};
ghost use Rattle.nfs_sockets.specs.Accepting.{lasts};

use mio::net::{TcpListener, TcpStream};
use nfs_pace::Places;
use std::alloc::{AllocError, Global};
use std::io;
use std::io::ErrorKind;
use std::net::SocketAddr;

/// How many wait for a port. Further ones wait in the system's queue.
const OUTSIDE: usize = 64;

/// A connection that was taken and waits for a port.
#[derive(Drop)]
pub(crate) struct Newcomer {
    /// The connection itself.
    pub(crate) stream: TcpStream,
    /// Where its peer is.
    pub(crate) address: u32,
}

/// The listener, and who waits for a port, in the order in which they came.
#[derive(Drop)]
pub(crate) struct Outside {
    listener: TcpListener,
    /// Whether somebody may be waiting to be accepted.
    calling: bool,
    newcomers: Vec<Newcomer>,
}

impl Outside {
    /// Nobody so far.
    pub(crate) fn new(alloc: Global, listener: TcpListener) -> Result<Outside, AllocError> {
        Ok(Outside {
            listener,
            calling: true,
            newcomers: Vec::with_capacity(alloc, OUTSIDE + 1)?,
        })
    }

    /// The address that is listened on.
    pub(crate) fn local_addr(&self) -> io::Result<SocketAddr> {
        self.listener.local_addr()
    }

    /// Whether somebody may be waiting to be accepted.
    pub(crate) fn is_calling(&self) -> bool
        ensures { result ≡ self.now.calling }
    {
        self.calling
    }

    /// Somebody may be, where that was told.
    pub(crate) fn note(&mut self, told: bool)
        ensures { self.new.newcomers ≡ self.old.newcomers }
    {
        self.calling = self.calling || told;
    }

    /// How many wait for a port.
    pub(crate) fn count(&self) -> usize
        ensures { result ≡ length self.now.newcomers.items }
    {
        self.newcomers.len()
    }

    /// Where one of them is.
    pub(crate) fn address(&self, at: usize) -> u32
        requires { at < length self.now.newcomers.items }
    {
        self.newcomers[at].address
    }

    /// One of them waits no more.
    pub(crate) fn take(&mut self, at: usize) -> Newcomer
        requires { at < length self.old.newcomers.items }
    {
        self.newcomers.remove(at)
    }

    /// Takes those that call, as far as there is room for them: whether more may call. Where there is none, and nobody was let in before, one of an
    /// address of which two are there makes room for the next; else who calls keeps its turn in the system's queue.
    pub(crate) fn call_in(&mut self, stuck: bool) -> io::Result<bool> {
        for _ in 0..OUTSIDE {
            let is_full = self.newcomers.len() >= OUTSIDE;
            if !self.calling || is_full && !(stuck && self.is_crowded()) {
                return Ok(false);
            }
            match self.listener.accept() {
                Ok((stream, addr)) => {
                    let address = bits_of(addr);
                    self.newcomers.push(Newcomer { stream, address })?;
                    if self.newcomers.len() > OUTSIDE {
                        self.turn_away();
                    }
                }
                Err(e) if e.kind() == ErrorKind::WouldBlock => self.calling = false,
                Err(e) if ends(&e) => return Err(e),
                Err(_) => return Ok(false),
            }
        }
        Ok(true)
    }

    /// How many of an address are there.
    fn crowd(&self, address: u32) -> usize
        ensures { result ≡ count_by (λ n. nat_eq n.address address) self.now.newcomers.items }
    {
        self.newcomers
            .iter()
            .filter(|newcomer| newcomer.address == address)
            .count()
    }

    /// Whether two of one address are.
    fn is_crowded(&self) -> bool
        ensures { result ≡ list_any (λ n. nat_lt 1 (count_by (λ other. nat_eq other.address n.address) self.now.newcomers.items)) self.now.newcomers.items }
    {
        self.newcomers
            .iter()
            .any(|newcomer| self.crowd(newcomer.address) > 1)
    }

    /// The last one of an address of which most are there is closed.
    fn turn_away(&mut self) {
        let mut last = 0;
        let mut most = 0;
        for at in 0..self.newcomers.len() {
            let crowd = self.crowd(self.newcomers[at].address);
            if crowd >= most {
                most = crowd;
                last = at;
            }
        }
        if last < self.newcomers.len() {
            let _ = self.newcomers.remove(last);
        }
    }

    /// Who comes in next: of the address of which fewest stand in the hall, and of such the one that came first.
    pub(crate) fn next_in(&self, places: &Places) -> Option<usize>
        ensures { MatchOption result (length self.now.newcomers.items ≡ 0) (λ at. at < length self.now.newcomers.items) }
    {
        let mut found = None;
        let mut fewest = 0;
        for at in 0..self.newcomers.len() {
            let here = places.in_hall(self.newcomers[at].address);
            if found.is_none() || here < fewest {
                fewest = here;
                found = Some(at);
            }
        }
        found
    }
}

/// The 32 bits of the address; 0 for one that is not of IPv4, of which none comes.
fn bits_of(addr: SocketAddr) -> u32 {
    match addr {
        SocketAddr::V4(addr) => addr.ip().to_bits(),
        SocketAddr::V6(_) => 0,
    }
}

/// Whether no connection can be taken any more behind this failure to take one. Others pass: a connection that its peer gave up, a network that is
/// down, want of memory or of descriptors.
fn ends(e: &io::Error) -> bool {
    match e.raw_os_error() {
        Some(number) => match u32::try_from(number) {
            Ok(number) => lasts(number),
            Err(_) => false,
        },
        None => false,
    }
}

/// Whether a failure of Linux to take a connection (its number) lasts, as the listener is none, or none any more: EBADF, EFAULT, EINVAL, ENOTSOCK,
/// EOPNOTSUPP.
fn lasts(number: u32) -> bool
    ensures { result ≡ lasts number }
{
    matches!(number, 9 | 14 | 22 | 88 | 95)
}
