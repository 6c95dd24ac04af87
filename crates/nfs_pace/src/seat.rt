//! A seat that somebody has, or nobody.

ghost use Rattle.std.specs.Prelude.{◌≡◌};
ghost use Rattle.nfs_pace.specs.Places.{sits, left, is_at, is_of, is_kept_for, is_dead, is_run_out, seat_at, given_to, used_at, owner, port_of};

use crate::crowds::NOBODY;
use crate::guest::Guest;
use crate::paced::MICROS;

/// For how many microseconds a connection is unanswered before another of its client and address has its seat.
const DEAD: u64 = MICROS;

/// A seat that somebody has.
#[derive(Clone, Copy)]
pub struct Seat {
    pub(crate) client: u64,
    pub(crate) address: u32,
    /// What was shown when a SEQUENCE of its client was last answered there.
    pub(crate) used: u64,
    /// Where its connection is; `None` where it is kept for its client, whose connection has ended.
    pub(crate) port: Option<usize>,
}

/// The seat of a place, if there is one and somebody has it.
pub(crate) fn seat_in(seats: &[Option<Seat>], j: usize) -> Option<Seat>
    ensures { result ≡ seat_at seats.now j }
{
    match seats.get(j) {
        Some(seat) => *seat,
        None => None,
    }
}

/// The client of a seat.
pub(crate) fn owner(seat: Option<Seat>) -> u64
    ensures { result ≡ owner seat }
{
    match seat {
        Some(seat) => seat.client,
        None => NOBODY,
    }
}

/// Where its connection is.
pub(crate) fn port_of(seat: Option<Seat>) -> Option<usize>
    ensures { result ≡ port_of seat }
{
    match seat {
        Some(seat) => seat.port,
        None => None,
    }
}

/// What was shown when something was last answered there.
pub(crate) fn used_at(seat: Option<Seat>) -> u64
    ensures { result ≡ used_at seat }
{
    match seat {
        Some(seat) => seat.used,
        None => 0,
    }
}

/// Whether the seat is that of who is on the port.
pub(crate) fn is_at(seat: Option<Seat>, port: usize) -> bool
    ensures { result ≡ is_at port seat }
{
    match seat {
        Some(seat) => match seat.port {
            Some(at) => at == port,
            None => false,
        },
        None => false,
    }
}

/// Whether it is a client's.
pub(crate) fn is_of(seat: Option<Seat>, client: u64) -> bool
    ensures { result ≡ is_of client seat }
{
    match seat {
        Some(seat) => seat.client == client,
        None => false,
    }
}

/// Whether it is kept for a client.
pub(crate) fn is_kept_for(seat: Option<Seat>, client: u64) -> bool
    ensures { result ≡ is_kept_for client seat }
{
    match seat {
        Some(seat) => seat.client == client && seat.port.is_none(),
        None => false,
    }
}

/// Whether it is of this client and address, and was answered nothing since another connection of them came, and for a second.
pub(crate) fn is_dead(seat: Option<Seat>, client: u64, address: u32, since: u64, shown: u64) -> bool
    ensures { result ≡ is_dead client address since shown seat }
{
    match seat {
        Some(seat) => {
            let same = seat.client == client && seat.address == address;
            same && seat.used <= since && shown.saturating_sub(seat.used) >= DEAD
        }
        None => false,
    }
}

/// Whether nothing was answered there for longer than a lease.
pub(crate) fn is_run_out(seat: Option<Seat>, lease: u64, shown: u64) -> bool
    ensures { result ≡ is_run_out lease shown seat }
{
    match seat {
        Some(seat) => lease < shown.saturating_sub(seat.used),
        None => false,
    }
}

/// A SEQUENCE of this client was answered on the port.
pub(crate) fn sits(seat: &mut Option<Seat>, port: usize, client: u64, shown: u64)
    ensures { seat.new ≡ sits port client shown seat.old }
{
    if is_at(*seat, port) {
        if let Some(seat) = seat {
            seat.client = client;
            seat.used = shown;
        }
    }
}

/// What becomes of it where the connection of the port is gone, on which a session had ended or not.
pub(crate) fn left(
    seat: Option<Seat>,
    port: usize,
    ended: bool,
    lease: u64,
    shown: u64,
) -> Option<Seat>
    ensures { result ≡ left port ended lease shown seat }
{
    match seat {
        Some(seat) => {
            if !is_at(Some(seat), port) {
                Some(seat)
            } else if ended || is_run_out(Some(seat), lease, shown) {
                None
            } else {
                Some(Seat { port: None, ..seat })
            }
        }
        None => None,
    }
}

/// The seat, given to who is on the port. Where it was of the same client, it was last answered there or here.
pub(crate) fn given_to(guest: Option<Guest>, port: usize, seat: Option<Seat>) -> Option<Seat>
    ensures { result ≡ given_to port guest seat }
{
    match guest {
        Some(guest) => {
            let before = match seat {
                Some(seat) => {
                    if seat.client == guest.client {
                        seat.used
                    } else {
                        0
                    }
                }
                None => 0,
            };
            Some(Seat {
                client: guest.client,
                address: guest.address,
                used: guest.used.max(before),
                port: Some(port),
            })
        }
        None => seat,
    }
}
