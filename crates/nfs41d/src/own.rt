//! What a server that lasts has of its own: an instance and a name that no other start has.

ghost use Rattle.std.specs.Prelude.{◌≤◌};

use nfs_names::ServerOwner;
use nfs_settings::{Fault, named};
use nfs_sockets::instance_at;
use std::alloc::{Allocator, Global};
use std::fmt::Write;
use std::random::RandomSource;

/// An instance of the system's random source. Where that cannot be read it is of the start, in microseconds since 1970.
pub fn own_instance<R: RandomSource>(random: &R, micros: u64) -> u32
    ensures { (1 ≤ result) × (result ≤ 4294967294) }
{
    let mut bytes = [0; 4];
    match random.fill_bytes(&mut bytes) {
        Ok(()) => instance_at(u64::from(u32::from_le_bytes(bytes))),
        Err(_) => instance_at(micros),
    }
}

/// `nfs41d-` and 32 hexadecimal digits of 16 bytes of the system's random source. Where that cannot be read, it is `nfs41d-`, the
/// start in microseconds since 1970, and the address.
///
/// `Start` for want of memory.
pub fn own_name(rt: &HostRuntime, micros: u64, address: &str) -> Result<ServerOwner, Fault> {
    let mut name = String::new(rt.alloc());
    let mut bytes = [0; 16];
    let written = match rt.fill_bytes(&mut bytes) {
        Ok(()) => write!(name, "nfs41d-{:032x}", u128::from_be_bytes(bytes)),
        Err(_) => write!(name, "nfs41d-{micros}-{address}"),
    };
    match written {
        Ok(()) => named(rt.alloc(), name.as_str()).map_err(|_| Fault::Start),
        Err(_) => Err(Fault::Start),
    }
}
