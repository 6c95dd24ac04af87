//! The run of a script.
ghost use Rattle.std.specs.Prelude.{◌≡◌, ◌≤◌, ℕ, List, false, length};
ghost use Rattle.std.specs.Io.KnownBytes.{Consumes};
ghost use Rattle.nfs_xdr.specs.Text.{IsBytes};
ghost use Rattle.nfs_serve.specs.Run.{all_closed};
ghost use Rattle.nfs_serve.specs.Server.{fresh, held_on, state_of};
ghost use Rattle.nfs_serve.specs.Replay.{AllStand, Replays, Reports};
ghost use Rattle.nfs_serve.specs.Running.{RunsEntryOn, EndsBehind};
ghost use Rattle.nfs_serve.specs.Script.{last_moment, last_connection, connection_count, most_piece};

use crate::connection::Connection;
use crate::engine::Engine;
use crate::fault::{ReplayFault, Stop};
use crate::form::Form;
use crate::lending::Lends;
use crate::moving::{WriteFailed, fill};
use crate::script::{Entry, HEAD, next_entry, whole_entry};
use crate::{Sink, Source};
use std::alloc::Global;

/// The most entries of a script.
const MAX_ENTRIES: u32 = 1_000_000;

/// Runs the script that the reader gives, from closed connections, and writes what is put out. An entry that stands whole in what
/// the reader lends is run where it stands.
pub(crate) fn run<L: Lends<R>, R: Source, W: Sink>(
    alloc: Global,
    engine: &mut Engine,
    connections: &mut [Connection],
    buf: &mut [u8],
    r: &mut R,
    w: &mut W,
) -> Result<(), ReplayFault>
    requires connections { length connections.old ≡ connection_count }
    requires closed { AllStand all_closed connections.old }
    requires room { length buf.old ≡ most_piece }
    requires read { R.has_failed r.old ≡ false }
    requires ended { R.has_ended r.old ≡ false }
    requires write { W.has_failed w.old ≡ false }
    ensures run { Replays result (state_of engine.old.kept) (state_of engine.new.kept) connections.new (R.left r.old) (R.left r.new) (W.held w.old) (W.held w.new) }
    ensures reported { Reports result (R.has_ended r.new) (R.has_failed r.new) (W.has_failed w.new) (R.left r.new) }
{
    for done in 0..MAX_ENTRIES {
        let ran = match whole_entry(L::bytes(r)) {
            Some(entry) => {
                let size = HEAD + entry.piece.len();
                let ran = run_entry(alloc, engine, connections, &entry, w);
                L::consume(r, size);
                ran
            }
            None => match next_entry(r, buf) {
                Ok(Some(entry)) => run_entry(alloc, engine, connections, &entry, w),
                Ok(None) => return Ok(()),
                Err(stop) => {
                    return Err(ReplayFault {
                        number: stop,
                        entry: done + 1,
                    });
                }
            },
        };
        if ran.is_err() {
            return Err(ReplayFault {
                number: Stop::WriteFailed,
                entry: done + 1,
            });
        }
    }
    behind_last(r)
}

/// Closes all connections.
pub(crate) fn close_all(connections: &mut [Connection])
    ensures length { length connections.new ≡ length connections.old }
    ensures closed { (conn : ℕ) → held_on connections.new conn ≡ fresh }
{
    for conn in 0..connections.len() {
        connections[conn].close();
    }
}

/// Runs one entry: closes its connection, or takes its piece.
fn run_entry<W: Sink>(
    alloc: Global,
    engine: &mut Engine,
    connections: &mut [Connection],
    entry: &Entry<'_>,
    w: &mut W,
) -> Result<(), WriteFailed>
    requires connections { length connections.old ≡ connection_count }
    requires conn { entry.now.conn ≤ last_connection }
    requires moment { entry.now.moment ≤ last_moment }
    requires bytes { IsBytes entry.now.piece.now }
    requires write { W.has_failed w.old ≡ false }
    ensures ran { RunsEntryOn result engine.old.kept engine.new.kept connections.old connections.new entry.now (W.held w.old) (W.held w.new) (W.has_failed w.new) }
    ensures length { length connections.new ≡ connection_count }
{
    let conn = entry.conn as usize;
    if entry.piece.is_empty() {
        connections[conn].close();
        return Ok(());
    }
    match connections[conn].feed(alloc, engine, entry, Form::Tagged, w) {
        Ok(_) => Ok(()),
        Err(WriteFailed) => Err(WriteFailed),
    }
}

/// What stands behind the last entry that may be: nothing, or a byte.
fn behind_last<R: Source>(r: &mut R) -> Result<(), ReplayFault>
    requires failed { R.has_failed r.old ≡ false }
    requires ended { R.has_ended r.old ≡ false }
    ensures { (rest : List ℕ) × Consumes (R.left r.old) (R.left r.new) rest × EndsBehind result rest × Reports result (R.has_ended r.new) (R.has_failed r.new) false (R.left r.new) }
{
    let mut one = [0u8; 1];
    if fill(r, &mut one) == 1 {
        return Err(ReplayFault {
            number: Stop::Many,
            entry: MAX_ENTRIES + 1,
        });
    }
    if r.failed() {
        return Err(ReplayFault {
            number: Stop::ReadFailed,
            entry: MAX_ENTRIES + 1,
        });
    }
    Ok(())
}
