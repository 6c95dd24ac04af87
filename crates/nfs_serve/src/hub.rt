//! Many connections at once.

ghost use Rattle.std.specs.Prelude.{◌≡◌, ◌≤◌, ◌<◌, ◌-◌, ℕ, [], ◌∷◌, length, replicate, true, false, IfOk};
ghost use Rattle.nfs_serve.specs.Server.{state_of};
ghost use Rattle.nfs_serve.specs.Told.{Sweep, Turn, Logs};
ghost use Rattle.nfs_serve.specs.Desk.{most_ports, closed, HasMore};
ghost use Rattle.nfs_serve.specs.Hub.{Serves, at};
ghost use Rattle.nfs_serve.specs.Lane.{desk_of, desks_of};
ghost use Rattle.nfs_serve.specs.Sweep.{Begins, PassesOver, Quiet, ServesOnce, SweepsAll, SweepsOn};

use crate::engine::Engine;
use crate::lane::Lane;
use crate::ports::{Next, Ports};
use crate::{Clock, Watch};
use std::alloc::{AllocError, Global};
use std::marker::Model;

/// What many connections at once are served with: what is held of each stream, what came, and what is owed.
#[derive(Drop)]
pub struct Hub {
    /// The ports that were made so far, numbered from 0.
    lanes: Vec<Lane>,
    /// How many there may be.
    most: u32,
}

impl Model for Hub {
    ghost use Rattle.std.specs.Prelude.{List, vec_len, ◌≤◌};
    ghost use Rattle.nfs_serve.specs.Desk.{most_ports};
    ghost use Rattle.nfs_serve.specs.Hub.{HubModel};
    ghost use Rattle.nfs_serve.specs.Lane.{desks_of};

    ghost Value = { HubModel };

    ghost view = { λ h. record { desks = desks_of h.lanes.items; most = h.most } };

    ghost invariant = { λ h. (vec_len h.lanes ≤ h.most) × (h.most ≤ most_ports) };
}

impl Hub {
    /// So many ports, none of which has a connection. The buffers of a port are made when all that were made before it are taken.
    pub fn new(alloc: Global, most: u32) -> Hub
        requires { most ≤ most_ports }
        ensures { result ≡ record { desks = []; most = most } }
    {
        Hub {
            lanes: Vec::new(alloc),
            most,
        }
    }
}

/// Closes every connection, then serves those that come until none is left and none will come.
pub(crate) fn serve<P: Ports, C: Clock, W: Watch<P, C>>(
    alloc: Global,
    engine: &mut Engine,
    hub: &mut Hub,
    ports: &mut P,
    clock: &mut C,
    watch: &mut W,
)
    ensures run { Serves hub.old.most (state_of engine.old.kept) (state_of engine.new.kept) hub.new.desks (P.log ports.old) (P.log ports.new) (C.told clock.old) (C.told clock.new) }
    ensures most { hub.new.most ≡ hub.old.most }
{
    reset_all(&mut hub.lanes);
    serve_lanes(alloc, engine, &mut hub.lanes, hub.most, ports, clock, watch);
}

/// Closes all connections.
fn reset_all(lanes: &mut [Lane])
    ensures length { length lanes.new ≡ length lanes.old }
    ensures closed { (port : ℕ) → at (desks_of lanes.new) port ≡ closed }
{
    for port in 0..lanes.len() {
        lanes[port].reset();
    }
}

/// Serves from ports without a connection on.
fn serve_lanes<P: Ports, C: Clock, W: Watch<P, C>>(
    alloc: Global,
    engine: &mut Engine,
    lanes: &mut Vec<Lane>,
    most: u32,
    ports: &mut P,
    clock: &mut C,
    watch: &mut W,
)
    requires ports { length lanes.old.items ≤ most }
    requires most { most ≤ most_ports }
    requires closed { (port : ℕ) → at (desks_of lanes.old.items) port ≡ closed }
    ensures length { length lanes.new.items ≤ most }
    ensures serves { Serves most (state_of engine.old.kept) (state_of engine.new.kept) (desks_of lanes.new.items) (P.log ports.old) (P.log ports.new) (C.told clock.old) (C.told clock.new) }
{
    let mut quiet = false;
    for _ in 0..u64::MAX {
        grow(alloc, lanes, most);
        if !serve_once(alloc, engine, lanes, &mut quiet, ports, clock) {
            return;
        }
        show(engine, ports, clock, watch);
    }
}

/// Lets the connection begin that is to begin, if there is one, and visits each port once. `false` where none is left and none will come. `quiet` is
/// whether it is known that nothing waits to be stepped on any port, so that nobody looks for it.
fn serve_once<P: Ports, C: Clock>(
    alloc: Global,
    engine: &mut Engine,
    lanes: &mut [Lane],
    quiet: &mut bool,
    ports: &mut P,
    clock: &mut C,
) -> bool
    requires ports { length lanes.old ≤ most_ports }
    requires quiet { Quiet quiet.old lanes.old }
    ensures length { length lanes.new ≡ length lanes.old }
    ensures quiet { Quiet quiet.new lanes.new }
    ensures serves { ServesOnce result (length lanes.old) (state_of engine.old.kept) (at (desks_of lanes.old)) (state_of engine.new.kept) (at (desks_of lanes.new)) (P.log ports.old) (P.log ports.new) (C.told clock.old) (C.told clock.new) }
{
    // What earlier records left is dropped while nobody asks, too.
    let left = engine.tidy();
    *quiet = is_quiet(lanes, *quiet);
    if !begin_sweep(lanes, ports, clock, !left && *quiet) {
        return false;
    }
    sweep(alloc, engine, lanes, quiet, ports, clock);
    true
}

/// Lets the watch look on, with what the server keeps where it asks for that.
fn show<P: Ports, C: Clock, W: Watch<P, C>>(engine: &Engine, ports: &P, clock: &C, watch: &mut W) {
    if watch.asks(ports, clock) {
        watch.look(ports, clock, engine.world());
    }
}

/// Makes a further port where the last one is taken, if there may be one more and memory for its buffers is granted.
fn grow(alloc: Global, lanes: &mut Vec<Lane>, most: u32)
    requires { length lanes.old.items ≤ most }
    ensures length { length lanes.new.items ≤ most }
    ensures alike { (port : ℕ) → at (desks_of lanes.new.items) port ≡ at (desks_of lanes.old.items) port }
{
    let count = lanes.len();
    if count >= most as usize || count > 0 && !lanes[count - 1].is_live() {
        return;
    }
    match Lane::new(alloc) {
        Ok(lane) => {
            let _ = lanes.push(lane);
        }
        Err(_) => {}
    }
}

/// Whether nothing waits to be stepped on any port. Where that is known, none is looked at.
fn is_quiet(lanes: &[Lane], quiet: bool) -> bool
    requires { Quiet quiet lanes.now }
    ensures quiet { Quiet result lanes.now }
    ensures more { result ≡ false → (port : ℕ) × (port < length lanes.now) × HasMore (at (desks_of lanes.now) port) }
{
    quiet || !have_more(lanes)
}

/// Whether on some port something waits to be stepped.
fn have_more(lanes: &[Lane]) -> bool
    ensures none { result ≡ false → (port : ℕ) → port < length lanes.now → HasMore (at (desks_of lanes.now) port) → ⊥ }
    ensures some { result ≡ true → (port : ℕ) × (port < length lanes.now) × HasMore (at (desks_of lanes.now) port) }
{
    next_more(lanes, 0) < lanes.len()
}

/// The first port from one on on which something waits to be stepped; as many as there are where there is none.
fn next_more(lanes: &[Lane], from: usize) -> usize
    requires { from ≤ length lanes.now }
    ensures bound { (from ≤ result) × (result ≤ length lanes.now) }
    ensures none { (port : ℕ) → from ≤ port → port < result → HasMore (at (desks_of lanes.now) port) → ⊥ }
    ensures some { result < length lanes.now → HasMore (at (desks_of lanes.now) result) }
{
    for port in from..lanes.len() {
        if lanes[port].has_more() {
            return port;
        }
    }
    lanes.len()
}

/// Up to which port from one on nothing waits to be stepped. Where that is known of all, none is looked at.
fn next_waiting(lanes: &[Lane], quiet: bool, from: usize) -> usize
    requires from { from ≤ length lanes.now }
    requires quiet { Quiet quiet lanes.now }
    ensures bound { (from ≤ result) × (result ≤ length lanes.now) }
    ensures none { (port : ℕ) → from ≤ port → port < result → HasMore (at (desks_of lanes.now) port) → ⊥ }
{
    if quiet {
        lanes.len()
    } else {
        next_more(lanes, from)
    }
}

/// Lets the connection begin that is to begin, if there is one. `false` where none is left and none will come.
fn begin<P: Ports>(lanes: &mut [Lane], ports: &mut P, may_wait: bool) -> bool
    requires ports { length lanes.old ≤ most_ports }
    ensures length { length lanes.new ≡ length lanes.old }
    ensures begins { Begins (length lanes.old) result (at (desks_of lanes.old)) (at (desks_of lanes.new)) (P.log ports.old) (P.log ports.new) }
    ensures over { result ≡ false → lanes.new ≡ lanes.old }
{
    match ports.next(lanes.len() as u32, may_wait) {
        Next::Opened(port) => {
            lanes[port as usize].begin();
            true
        }
        Next::Nobody => true,
        Next::Over => false,
    }
}

/// A sweep begins on the clock, once the connection has begun that is to begin. `false` where none is left and none will come: then none begins.
fn begin_sweep<P: Ports, C: Clock>(
    lanes: &mut [Lane],
    ports: &mut P,
    clock: &mut C,
    may_wait: bool,
) -> bool
    requires ports { length lanes.old ≤ most_ports }
    ensures length { length lanes.new ≡ length lanes.old }
    ensures begins { Begins (length lanes.old) result (at (desks_of lanes.old)) (at (desks_of lanes.new)) (P.log ports.old) (P.log ports.new) }
    ensures told { result ≡ true → Logs (C.told clock.old) (C.told clock.new) (Sweep ∷ []) }
    ensures over { result ≡ false → (lanes.new ≡ lanes.old) × (C.told clock.new ≡ C.told clock.old) }
{
    if !begin(lanes, ports, may_wait) {
        return false;
    }
    clock.begin_sweep();
    true
}

/// Visits each port once, in the order of their numbers.
fn sweep<P: Ports, C: Clock>(
    alloc: Global,
    engine: &mut Engine,
    lanes: &mut [Lane],
    quiet: &mut bool,
    ports: &mut P,
    clock: &mut C,
)
    requires ports { length lanes.old ≤ most_ports }
    requires quiet { Quiet quiet.old lanes.old }
    ensures length { length lanes.new ≡ length lanes.old }
    ensures quiet { Quiet quiet.new lanes.new }
    ensures sweeps { SweepsAll engine.old.kept lanes.old engine.new.kept lanes.new (P.log ports.old) (P.log ports.new) (C.told clock.old) (C.told clock.new) }
{
    let mut port = 0;
    while port < lanes.len() {
        port = visit_next(alloc, engine, lanes, quiet, port, ports, clock);
    }
}

/// Visits the first port from one on that is ready or has something to step, if there is one, and passes over those before it: which port comes then.
fn visit_next<P: Ports, C: Clock>(
    alloc: Global,
    engine: &mut Engine,
    lanes: &mut [Lane],
    quiet: &mut bool,
    from: usize,
    ports: &mut P,
    clock: &mut C,
) -> usize
    requires ports { length lanes.old ≤ most_ports }
    requires from { from < length lanes.old }
    requires quiet { Quiet quiet.old lanes.old }
    ensures length { length lanes.new ≡ length lanes.old }
    ensures quiet { Quiet quiet.new lanes.new }
    ensures order { (from < result) × (result ≤ length lanes.old) }
    ensures sweeps { SweepsOn from result engine.old.kept lanes.old engine.new.kept lanes.new (P.log ports.old) (P.log ports.new) (C.told clock.old) (C.told clock.new) }
{
    let port = pass_over(lanes, *quiet, from, ports, clock);
    if port >= lanes.len() {
        return port;
    }
    lanes[port].visit(alloc, engine, port as u32, ports, clock);
    *quiet = stays_quiet(*quiet, &lanes[port]);
    port + 1
}

/// Whether nothing waits to be stepped still, behind a visit of this port.
fn stays_quiet(quiet: bool, lane: &Lane) -> bool
    ensures { result ≡ true → (quiet ≡ true) × (HasMore (desk_of lane.now) → ⊥) }
{
    quiet && !lane.has_more()
}

/// Passes over the ports that are not ready and have nothing to step: which port comes then.
fn pass_over<P: Ports, C: Clock>(
    lanes: &[Lane],
    quiet: bool,
    from: usize,
    ports: &mut P,
    clock: &mut C,
) -> usize
    requires ports { length lanes.now ≤ most_ports }
    requires from { from ≤ length lanes.now }
    requires quiet { Quiet quiet lanes.now }
    ensures { PassesOver from result lanes.now (P.log ports.old) (P.log ports.new) (C.told clock.old) (C.told clock.new) }
{
    let until = next_waiting(lanes, quiet, from);
    let at = match ports.next_ready(from as u32, until as u32) {
        Some(port) => port as usize,
        None => until,
    };
    begin_turns(at - from, clock);
    at
}

/// Tells the clock of so many turns in which nothing is done.
fn begin_turns<C: Clock>(count: usize, clock: &mut C)
    ensures { Logs (C.told clock.old) (C.told clock.new) (replicate count Turn) }
{
    for _ in 0..count {
        clock.begin_turn(0);
    }
}
