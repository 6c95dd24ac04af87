//! Who looks on while many connections are served.

use nfs_exec::World;

/// Who looks on between two sweeps over many connections. Nothing of them changes by it.
pub trait Watch<P, C> {
    /// A sweep has ended. Whether it asks what the server keeps.
    fn asks(&mut self, ports: &P, clock: &C) -> bool;

    /// This the server keeps.
    fn look(&mut self, ports: &P, clock: &C, world: &World);
}
