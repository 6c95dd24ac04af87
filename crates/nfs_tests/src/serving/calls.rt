//! The calls of a server that the program does not make: a record by itself, a piece by itself, and a script that lies in memory.

use super::{EXCHANGE_ID, LAST, SETTINGS, exchanged};
use nfs_serve::{Flow, Form, Host, Outcome, ReplayFault, Server};
use nfs_testing::bytes_of;
use std::alloc::Global;
use std::test::Fail;

/// What each call answered, and the bytes that it gave.
#[derive(Drop)]
struct Told {
    outcome: Outcome,
    reply: Vec<u8>,
    flow: Option<Flow>,
    written: Vec<u8>,
    done: Result<(), ReplayFault>,
    output: Vec<u8>,
}

/// Steps the record, feeds the piece to connection 9 and runs the script, one behind the other.
fn call_each(
    server: &mut Server,
    alloc: Global,
    record: &[u8],
    piece: &[u8],
    script: &[u8],
) -> Result<Told, Fail> {
    let outcome = server.record(alloc, record, 100);
    let reply = Vec::from_slice(alloc, server.reply())?;
    let mut out = Host::new(Vec::new(alloc));
    let flow = server
        .feed(alloc, 9, piece, 100, Form::Plain, &mut out)
        .ok();
    let (mut from, mut to) = (Host::new(script), Host::new(Vec::new(alloc)));
    let done = server.replay(alloc, &mut from, &mut to);
    Ok(Told {
        outcome,
        reply,
        flow,
        written: out.inner,
        done,
        output: to.inner,
    })
}

/// The same over a new server, which each of them brings the same EXCHANGE_ID.
fn call_each_anew(alloc: Global) -> Result<Told, Fail> {
    let record = bytes_of(alloc, &[&EXCHANGE_ID])?;
    let piece = bytes_of(alloc, &[&[LAST + 104], &EXCHANGE_ID])?;
    let script = bytes_of(alloc, &[&[0, 100, 0, 108, LAST + 104], &EXCHANGE_ID])?;
    let mut server = Server::new(alloc, SETTINGS, 7)?;
    call_each(
        &mut server,
        alloc,
        record.as_slice(),
        piece.as_slice(),
        script.as_slice(),
    )
}

#[test]
fn each_call_goes_on_from_the_state_of_the_one_before(rt: HostRuntime) -> Result<(), Fail> {
    let first = bytes_of(rt.alloc(), &[&exchanged(1)])?;
    let second = bytes_of(rt.alloc(), &[&[LAST + 100], &exchanged(2)])?;
    let third = bytes_of(rt.alloc(), &[&[0, LAST + 100], &exchanged(3)])?;
    let told = call_each_anew(rt.alloc())?;
    assert_eq!(rt;
        (told.outcome, told.reply.as_slice()),
        (Outcome::Reply, first.as_slice())
    );
    assert_eq!(rt;
        (told.flow, told.written.as_slice()),
        (Some(Flow::Open), second.as_slice())
    );
    assert_eq!(rt;
        (told.done, told.output.as_slice()),
        (Ok(()), third.as_slice())
    );
    Ok(())
}
