//! Talks over ends that fail at each of their calls in turn, and over a reader that never ends.

use super::fakes::{Counting, Drip, Tray};
use super::{EXCHANGE_ID, LAST, NULL, NULL_REPLY, SETTINGS, exchanged};
use nfs_serve::{Host, Server, Talk};
use nfs_testing::bytes_of;
use std::alloc::{AllocError, Global};
use std::io::Read;
use std::test::Fail;

/// NULL and EXCHANGE_ID, records of 44 and 108 bytes with their marks.
fn calls(alloc: Global) -> Result<Vec<u8>, AllocError> {
    bytes_of(alloc, &[&[LAST + 40], &NULL, &[LAST + 104], &EXCHANGE_ID])
}

/// Their replies, 28 bytes and 104.
fn replies(alloc: Global) -> Result<Vec<u8>, AllocError> {
    bytes_of(
        alloc,
        &[&[LAST + 24], &NULL_REPLY, &[LAST + 100], &exchanged(1)],
    )
}

/// How a talk ended, what was written, and how often the clock was asked.
#[derive(Drop)]
struct Talked {
    ended: Talk,
    written: Vec<u8>,
    asked: usize,
}

/// A talk whose writer takes a byte at each call, and fails at one of them, counted from 1; at 0 there is none.
fn talk<R: Read + Drop>(
    server: &mut Server,
    alloc: Global,
    reader: R,
    write_fails: usize,
) -> Talked {
    let mut r = Host::new(reader);
    let mut w = Host::new(Tray {
        bytes: Vec::new(alloc),
        most: 1,
        fails: write_fails,
        calls: 0,
    });
    let mut clock = Counting { asked: 0 };
    let ended = server.talk(alloc, &mut r, &mut w, &mut clock);
    Talked {
        ended,
        asked: clock.asked,
        written: w.inner.bytes,
    }
}

/// The same over a new server.
fn talk_anew<R: Read + Drop>(alloc: Global, reader: R, write_fails: usize) -> Result<Talked, Fail> {
    let mut server = Server::new(alloc, SETTINGS, 7)?;
    Ok(talk(&mut server, alloc, reader, write_fails))
}

#[test]
fn a_reader_fails_at_each_call(rt: HostRuntime) -> Result<(), Fail> {
    let calls = calls(rt.alloc())?;
    let replies = replies(rt.alloc())?;
    for fails in 1..=154 {
        let reader = Drip {
            bytes: calls.as_slice(),
            most: 1,
            fails,
            calls: 0,
        };
        let talked = talk_anew(rt.alloc(), reader, 0)?;
        let (wanted, written, asked) = match fails {
            1..=44 => (Talk::ReadFailed, 0, fails - 1),
            45..=152 => (Talk::ReadFailed, 28, fails - 1),
            153 => (Talk::ReadFailed, 132, 152),
            _ => (Talk::Ended, 132, 152),
        };
        assert_eq!(rt;
            (talked.ended, Some(talked.written.as_slice()), talked.asked),
            (wanted, replies.get(..written), asked),
            "at call {fails}"
        );
    }
    Ok(())
}

#[test]
fn a_writer_fails_at_each_call(rt: HostRuntime) -> Result<(), Fail> {
    let calls = calls(rt.alloc())?;
    let replies = replies(rt.alloc())?;
    for fails in 1..=133 {
        let reader = Drip {
            bytes: calls.as_slice(),
            most: 1_000,
            fails: 0,
            calls: 0,
        };
        let talked = talk_anew(rt.alloc(), reader, fails)?;
        let wanted = match fails {
            1..=132 => Talk::WriteFailed,
            _ => Talk::Ended,
        };
        assert_eq!(rt;
            (talked.ended, Some(talked.written.as_slice()), talked.asked),
            (wanted, replies.get(..fails - 1), 1),
            "at call {fails}"
        );
    }
    Ok(())
}
