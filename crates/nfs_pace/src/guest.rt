//! Who is on a port.

ghost use Rattle.std.specs.Prelude.{◌≡◌, false};
ghost use Rattle.nfs_pace.specs.Places.{is_over, has_ended, answers, hears, ends, is_from, has_stood, stander, stood};

use crate::crowds::NOBODY;
use crate::paced::MICROS;

/// For how many microseconds one is spared of whom no client is known.
const STRANGER: u64 = 10 * MICROS;

/// For how many microseconds, and how many sweeps, one stands in the hall before it gives way to another.
const STAY: u64 = MICROS;

const STAY_SWEEPS: u64 = 8;

/// Who is on a port.
#[derive(Clone, Copy)]
pub struct Guest {
    /// Where its peer is: the 32 bits of an IPv4 address.
    pub(crate) address: u32,
    /// The client of the last SEQUENCE that was answered on it.
    pub(crate) client: u64,
    /// What was shown at that; of a stranger, at its last answer, and at first when it came.
    pub(crate) used: u64,
    /// What was shown when it came.
    pub(crate) since: u64,
    /// When it came.
    pub(crate) came: u64,
    /// In which sweep it came.
    pub(crate) sweep: u64,
    /// Whether a session or a client was ended on it since.
    pub(crate) ended: bool,
}

/// Whether it was silent for longer than it is spared: a stranger for ten seconds, where a lease is longer.
pub(crate) fn is_over(guest: Option<Guest>, lease: u64, shown: u64) -> bool
    ensures { result ≡ is_over lease shown guest }
{
    match guest {
        Some(guest) => {
            let spared = if guest.client == 0 {
                lease.min(STRANGER)
            } else {
                lease
            };
            spared < shown.saturating_sub(guest.used)
        }
        None => false,
    }
}

/// Whether a session or a client was ended there.
pub(crate) fn has_ended(guest: Option<Guest>) -> bool
    ensures { result ≡ has_ended guest }
{
    match guest {
        Some(guest) => guest.ended,
        None => false,
    }
}

/// A SEQUENCE of this client was answered there.
pub(crate) fn answers(guest: &mut Option<Guest>, client: u64, shown: u64)
    ensures { guest.new ≡ answers client shown guest.old }
{
    if let Some(guest) = guest {
        guest.client = client;
        guest.used = shown;
        guest.ended = false;
    }
}

/// Something else was answered there.
pub(crate) fn hears(guest: &mut Option<Guest>, shown: u64)
    ensures { guest.new ≡ hears shown guest.old }
{
    if let Some(guest) = guest {
        if guest.client == 0 {
            guest.used = shown;
        }
    }
}

/// A session or a client was ended there.
pub(crate) fn ends(guest: &mut Option<Guest>)
    ensures { guest.new ≡ ends guest.old }
{
    if let Some(guest) = guest {
        guest.ended = true;
    }
}

/// Whether the last SEQUENCE that was answered there was a client's.
pub(crate) fn is_from(guest: Option<Guest>, client: u64) -> bool
    ensures { result ≡ is_from client guest }
{
    match guest {
        Some(guest) => guest.client == client,
        None => false,
    }
}

/// How long ago one came.
pub(crate) fn stood(guest: Option<Guest>, now: u64) -> u64
    ensures { result ≡ stood now guest }
{
    match guest {
        Some(guest) => now.saturating_sub(guest.came),
        None => 0,
    }
}

/// Whether it stood long enough to give way to another.
pub(crate) fn has_stood(guest: Guest, now: u64, sweep: u64) -> bool
    ensures { result ≡ has_stood now sweep guest }
{
    now.saturating_sub(guest.came) >= STAY && sweep.saturating_sub(guest.sweep) >= STAY_SWEEPS
}

/// The address of who stands in the hall.
pub(crate) fn stander(guest: Option<Guest>) -> u64
    ensures { result ≡ stander false guest }
{
    match guest {
        Some(guest) => u64::from(guest.address),
        None => NOBODY,
    }
}
