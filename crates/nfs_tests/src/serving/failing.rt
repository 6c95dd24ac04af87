//! Runs over ends that fail at each of their calls in turn.

use super::fakes::{Drip, Tray};
use super::{EXCHANGE_ID, LAST, NULL, NULL_REPLY, SETTINGS, exchanged};
use nfs_serve::{Host, ReplayFault, Server, Stop};
use nfs_testing::bytes_of;
use std::alloc::{AllocError, Global};
use std::test::Fail;

fn fault(number: Stop, entry: u32) -> ReplayFault {
    ReplayFault { number, entry }
}

/// NULL and EXCHANGE_ID on connection 0, in two entries of 60 and 124 bytes.
fn script(alloc: Global) -> Result<Vec<u8>, AllocError> {
    bytes_of(
        alloc,
        &[
            &[0, 100, 0, 44, LAST + 40],
            &NULL,
            &[0, 100, 0, 108, LAST + 104],
            &EXCHANGE_ID,
        ],
    )
}

/// What is put out for it: 32 bytes and 108.
fn output(alloc: Global) -> Result<Vec<u8>, AllocError> {
    bytes_of(
        alloc,
        &[
            &[0, LAST + 24],
            &NULL_REPLY,
            &[0, LAST + 100],
            &exchanged(1),
        ],
    )
}

/// How a run ended, what was written, and whether the reader and the writer have failed.
#[derive(Drop)]
struct Ran {
    done: Result<(), ReplayFault>,
    written: Vec<u8>,
    failed: (bool, bool),
}

/// Runs a script over ends that move a byte at each call. The reader fails at one of its calls, the writer at one of
/// its own; they are counted from 1, and at 0 there is none.
fn run(
    server: &mut Server,
    alloc: Global,
    script: &[u8],
    read_fails: usize,
    write_fails: usize,
) -> Ran {
    let mut r = Host::new(Drip {
        bytes: script,
        most: 1,
        fails: read_fails,
        calls: 0,
    });
    let mut w = Host::new(Tray {
        bytes: Vec::new(alloc),
        most: 1,
        fails: write_fails,
        calls: 0,
    });
    let done = server.replay(alloc, &mut r, &mut w);
    Ran {
        done,
        failed: (r.failed, w.failed),
        written: w.inner.bytes,
    }
}

/// The same over a new server.
fn run_anew(
    alloc: Global,
    script: &[u8],
    read_fails: usize,
    write_fails: usize,
) -> Result<Ran, Fail> {
    let mut server = Server::new(alloc, SETTINGS, 7)?;
    Ok(run(&mut server, alloc, script, read_fails, write_fails))
}

#[test]
fn reads_fail_in_turn(rt: HostRuntime) -> Result<(), Fail> {
    let script = script(rt.alloc())?;
    let output = output(rt.alloc())?;
    // The script is 184 reads of one byte, and call 185 meets its end.
    for fails in 1..=186 {
        let ran = run_anew(rt.alloc(), script.as_slice(), fails, 0)?;
        let (wanted, written) = match fails {
            1..=60 => (Err(fault(Stop::ReadFailed, 1)), 0),
            61..=184 => (Err(fault(Stop::ReadFailed, 2)), 32),
            185 => (Err(fault(Stop::ReadFailed, 3)), 140),
            _ => (Ok(()), 140),
        };
        assert_eq!(rt;
            (ran.done, Some(ran.written.as_slice()), ran.failed),
            (wanted, output.get(..written), (wanted.is_err(), false)),
            "at call {fails}"
        );
    }
    Ok(())
}

#[test]
fn writes_fail_in_turn(rt: HostRuntime) -> Result<(), Fail> {
    let script = script(rt.alloc())?;
    let output = output(rt.alloc())?;
    for fails in 1..=141 {
        let ran = run_anew(rt.alloc(), script.as_slice(), 0, fails)?;
        let wanted = match fails {
            1..=32 => Err(fault(Stop::WriteFailed, 1)),
            33..=140 => Err(fault(Stop::WriteFailed, 2)),
            _ => Ok(()),
        };
        assert_eq!(rt;
            (ran.done, Some(ran.written.as_slice()), ran.failed),
            (wanted, output.get(..fails - 1), (false, wanted.is_err())),
            "at call {fails}"
        );
    }
    Ok(())
}
