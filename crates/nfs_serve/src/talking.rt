//! A talk over one connection.
ghost use Rattle.std.specs.Prelude.{◌≡◌, false, length};
ghost use Rattle.nfs_serve.specs.Server.{state_of};
ghost use Rattle.nfs_serve.specs.Talk.{Talks, TalkReports};
ghost use Rattle.nfs_serve.specs.Script.{most_piece};

use crate::connection::Connection;
use crate::engine::Engine;
use crate::form::{Flow, Form};
use crate::moving::WriteFailed;
use crate::script::Entry;
use crate::{Clock, Sink, Source};
use std::alloc::Global;

/// How a talk over one connection ended.
#[derive(Clone, Copy, Debug, PartialEq, Eq)]
pub enum Talk {
    /// The reader has ended.
    Ended,
    /// The stream is too long (RFC 5531 section 11).
    Shut,
    /// The reader has failed.
    ReadFailed,
    /// The writer has failed.
    WriteFailed,
    /// 2^64 - 1 pieces were read.
    TooMany,
}

/// Closes connection 0 and runs what the reader gives as its pieces, each at the clock's answer for it.
pub(crate) fn converse<R: Source, W: Sink, C: Clock>(
    alloc: Global,
    engine: &mut Engine,
    connection: &mut Connection,
    buf: &mut [u8],
    r: &mut R,
    w: &mut W,
    clock: &mut C,
) -> Talk
    requires room { length buf.old ≡ most_piece }
    requires read { R.has_failed r.old ≡ false }
    requires ended { R.has_ended r.old ≡ false }
    requires write { W.has_failed w.old ≡ false }
    ensures run { Talks result (state_of engine.old.kept) (state_of engine.new.kept) (R.left r.old) (R.left r.new) (W.held w.old) (W.held w.new) (C.told clock.old) (C.told clock.new) }
    ensures reported { TalkReports result (R.has_ended r.new) (R.has_failed r.new) (W.has_failed w.new) (R.left r.new) }
{
    connection.close();
    for _ in 0..u64::MAX {
        match r.read(buf) {
            Ok(0) => return Talk::Ended,
            Ok(n) => {
                let entry = Entry {
                    moment: clock.now(),
                    conn: 0,
                    piece: &buf[..n],
                };
                match connection.feed(alloc, engine, &entry, Form::Plain, w) {
                    Ok(Flow::Open) => {}
                    Ok(Flow::Shut) => return Talk::Shut,
                    Err(WriteFailed) => return Talk::WriteFailed,
                }
            }
            Err(_) => return Talk::ReadFailed,
        }
    }
    Talk::TooMany
}
