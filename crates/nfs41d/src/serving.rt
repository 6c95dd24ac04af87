//! Many TCP connections over one server.

ghost use Rattle.std.specs.Prelude.{MatchResult};
ghost use Rattle.nfs_settings.specs.ExitStatus.{IsOfConnections};

use nfs_serve::{Clock, Hub, Server, Watch};
use nfs_settings::Fault;
use nfs_sockets::Listening;
use std::alloc::Global;
use std::io::Write;

/// Says on `told` which address the ports are of, and serves the connections that come there, until they are over. The watch looks on.
///
/// `Start` where the address is not told; `Accept` where no connection can be taken any more.
pub fn serve<P, C, S, W>(
    alloc: Global,
    server: &mut Server,
    hub: &mut Hub,
    ports: &mut P,
    clock: &mut C,
    watch: &mut S,
    told: &mut W,
) -> Result<(), Fault>
where
    P: Listening,
    C: Clock,
    S: Watch<P, C>,
    W: Write,
    ensures { MatchResult result (λ _. Unit {0}) (λ fault. IsOfConnections fault) }
{
    match ports.local_addr() {
        Ok(addr) => {
            let _ = writeln!(told, "nfs41d: listening on {addr}");
            server.serve_ports(alloc, hub, ports, clock, watch);
            if ports.failed() {
                Err(Fault::Accept)
            } else {
                Ok(())
            }
        }
        Err(_) => Err(Fault::Start),
    }
}
