//! Calls in sessions, by [`Server::record`] alone: three callers whose calls come three times, late and out of order.

use super::{EXCHANGE_ID, SETTINGS};
use nfs_serve::Server;
use nfs_testing::bytes_of;
use std::alloc::{AllocError, Global};
use std::test::Fail;

const BADSESSION: u32 = 10_052;

const SEQ_MISORDERED: u32 = 10_063;

/// A slot of a client's session, and the name of the directory that its calls make and remove, as it is spelled.
#[derive(Clone, Copy)]
pub(super) struct Caller {
    pub(super) client: u32,
    pub(super) slot: u32,
    pub(super) name: [u32; 2],
}

/// Slot 0 of client A, slot 1 of it, and slot 0 of client B; their directories are `d0`, `d1` and `d2`.
fn slot_of(number: u32) -> Caller {
    match number {
        0 => Caller {
            client: 1,
            slot: 0,
            name: [2, 0x6430_0000],
        },
        1 => Caller {
            client: 1,
            slot: 1,
            name: [2, 0x6431_0000],
        },
        _ => Caller {
            client: 2,
            slot: 0,
            name: [2, 0x6432_0000],
        },
    }
}

/// EXCHANGE_ID of an owner of one byte, as it is spelled.
fn exchange_id(owner: u32) -> [u32; 26] {
    let mut words = EXCHANGE_ID;
    words[22] = owner;
    words
}

/// CREATE_SESSION of a client: 66,560 bytes, 64 operations and 16 slots.
pub(super) const fn create_session(client: u32) -> [u32; 39] {
    [
        3, 0, 2, 100_003, 4, 1, 1, 20, 0, 0, 0, 0, 0, 0, 0, 0, 1, 1, 43, 7, client, 1, 0, 0,
        66_560, 66_560, 66_560, 64, 16, 0, 0, 66_560, 66_560, 66_560, 64, 16, 0, 0, 0,
    ]
}

/// A compound of a caller: SEQUENCE with this number, PUTROOTFH, and CREATE of the caller's directory or REMOVE of it.
pub(super) fn call(
    alloc: Global,
    xid: u32,
    by: &Caller,
    number: u32,
    makes: bool,
) -> Result<Vec<u8>, AllocError> {
    let head = [
        xid, 0, 2, 100_003, 4, 1, 1, 20, 0, 0, 0, 0, 0, 0, 0, 0, 1, 3,
    ];
    let sequence = [
        53, 7, by.client, 0, by.client, number, by.slot, by.slot, 0, 24,
    ];
    if makes {
        bytes_of(alloc, &[&head, &sequence, &[6, 2], &by.name, &[0, 0]])
    } else {
        bytes_of(alloc, &[&head, &sequence, &[28], &by.name])
    }
}

/// The reply to it where all is done, and the root's change attribute was `before`.
pub(super) fn done(
    alloc: Global,
    xid: u32,
    by: &Caller,
    number: u32,
    makes: bool,
    before: u32,
) -> Result<Vec<u8>, AllocError> {
    let head = [xid, 1, 0, 0, 0, 0, 0, 0, 3];
    let sequence = [
        53, 0, 7, by.client, 0, by.client, number, by.slot, 15, 15, 0, 24, 0,
    ];
    let change = [0, 1, 0, before, 0, before.wrapping_add(1)];
    if makes {
        bytes_of(alloc, &[&head, &sequence, &[6], &change, &[0]])
    } else {
        bytes_of(alloc, &[&head, &sequence, &[28], &change])
    }
}

/// The reply of a SEQUENCE that is refused.
fn refused(alloc: Global, xid: u32, status: u32) -> Result<Vec<u8>, AllocError> {
    bytes_of(alloc, &[&[xid, 1, 0, 0, 0, 0, status, 0, 1, 53, status]])
}

/// What is delivered, under xids from 105 on: the moment; whose call it is, its number, and whether it makes the directory; the status that it
/// is answered with, and under NFS4_OK what the root's change attribute was before. The lease is 90 seconds, and client B is silent from 100 on.
const DELIVERIES: [(u32, u32, u32, bool, u32, u32); 23] = [
    (100, 0, 1, true, 0, 1),
    (100, 1, 1, true, 0, 2),
    (100, 2, 1, true, 0, 3),
    (100, 2, 1, true, 0, 3),
    (100, 2, 2, false, 0, 4),
    (100, 1, 1, true, 0, 2),
    (100, 1, 2, false, 0, 5),
    (100, 0, 1, true, 0, 1),
    (100, 0, 2, false, 0, 6),
    (100, 0, 1, true, SEQ_MISORDERED, 0),
    (100, 0, 2, false, 0, 6),
    (100, 1, 1, true, SEQ_MISORDERED, 0),
    (100, 1, 2, false, 0, 5),
    (100, 2, 1, true, SEQ_MISORDERED, 0),
    (100, 2, 2, false, 0, 4),
    (190, 0, 3, true, 0, 7),
    (190, 1, 3, true, 0, 8),
    (190, 2, 2, false, 0, 4),
    (191, 2, 3, true, BADSESSION, 0),
    (191, 2, 2, false, BADSESSION, 0),
    (191, 0, 3, true, 0, 7),
    (191, 1, 3, true, 0, 8),
    (191, 0, 1, true, SEQ_MISORDERED, 0),
];

/// Records, each with its moment, and the replies to them.
type Records = Vec<(u32, Vec<u8>)>;

/// The replies of a server to records, one behind the other.
pub(super) fn play(
    server: &mut Server,
    alloc: Global,
    records: &[(u32, Vec<u8>)],
) -> Result<Vec<Vec<u8>>, Fail> {
    let mut replies = Vec::new(alloc);
    for (now, record) in records {
        server.record(alloc, record.as_slice(), u64::from(*now));
        replies.push(Vec::from_slice(alloc, server.reply())?)?;
    }
    Ok(replies)
}

/// The two clients with a session each, and then all that is delivered.
fn records(alloc: Global) -> Result<Records, Fail> {
    let mut records = Vec::new(alloc);
    for owner in [0x4100_0000, 0x4200_0000] {
        records.push((100, bytes_of(alloc, &[&exchange_id(owner)])?))?;
    }
    for client in [1, 2] {
        records.push((100, bytes_of(alloc, &[&create_session(client)])?))?;
    }
    let mut xid: u32 = 105;
    for (now, by, number, makes, _, _) in &DELIVERIES {
        records.push((*now, call(alloc, xid, &slot_of(*by), *number, *makes)?))?;
        xid = xid.wrapping_add(1);
    }
    Ok(records)
}

/// The same played by a new server.
fn played(alloc: Global) -> Result<Vec<Vec<u8>>, Fail> {
    let records = records(alloc)?;
    let mut server = Server::new(alloc, SETTINGS, 7)?;
    play(&mut server, alloc, records.as_slice())
}

#[test]
fn calls_of_three_callers_run_once(rt: HostRuntime) -> Result<(), Fail> {
    let replies = played(rt.alloc())?;
    assert_eq!(rt; replies.len(), 27);
    let mut xid: u32 = 105;
    for ((_, by, number, makes, status, before), told) in DELIVERIES
        .iter()
        .zip(replies.iter().skip(4))
    {
        let wanted = if *status == 0 {
            done(rt.alloc(), xid, &slot_of(*by), *number, *makes, *before)?
        } else {
            refused(rt.alloc(), xid, *status)?
        };
        assert_eq!(rt; told.as_slice(), wanted.as_slice(), "xid {xid}");
        xid = xid.wrapping_add(1);
    }
    Ok(())
}
