//! How much memory the machine has, and how many pages of it files may have.

ghost use Rattle.std.specs.Prelude.{◌≡◌};
ghost use Rattle.nfs_settings.specs.SettingsFile.{pages_of};

use libc::{_SC_PAGESIZE, sysconf};
use nfs_tree::Limits;

/// What `sysconf` is asked for how many pages of memory there are (glibc).
const SC_PHYS_PAGES: i32 = 85;

/// The bytes of a page of a file.
const PAGE: u64 = 4_096;

/// Half of the machine's memory in bytes, or 0 where the system does not say it.
pub fn half_of_memory() -> u64 {
    said(SC_PHYS_PAGES).saturating_mul(said(_SC_PAGESIZE)) / 2
}

/// A number of the system, or 0 where it has none.
fn said(name: i32) -> u64 {
    u64::try_from(sysconf(name)).unwrap_or(0)
}

/// How many pages lie in so many bytes, where 0 is no bound.
pub(crate) fn pages_of(memory: u64) -> u64
    ensures { result ≡ pages_of memory }
{
    if memory == 0 {
        Limits::ANY_PAGES
    } else {
        memory / PAGE
    }
}
