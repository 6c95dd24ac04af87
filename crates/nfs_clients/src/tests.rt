//! The last client id, and which results of CREATE_SESSION are kept (RFC 8881 sections 18.35 and 18.36).

use super::*;
use nfs_xdr::Status;
use std::test::Fail;

const OLD: [u8; 8] = [0, 0, 0, 0, 0, 0, 0, 1];

/// The id that a server of instance 7 gives at this count.
fn id(count: u32) -> u64 {
    0x7_0000_0000 + u64::from(count)
}

fn stands(count: u32, number: u32) -> Result<Exchanged, ClientFault> {
    Ok(Exchanged {
        id: id(count),
        number,
        confirmed: true,
        added: false,
        replaced: None,
    })
}

#[test]
fn the_last_id_is_given_and_none_behind_it(rt: HostRuntime) -> Result<(), Fail> {
    let mut clients = Clients::new(rt.alloc(), 7, 1_024);
    clients.last = id(u32::MAX - 1);
    for (owner, want) in [
        (b"A", Ok(id(u32::MAX))),
        (b"B", Err(ClientFault::ServerFault)),
    ] {
        let asked = clients.exchange(rt.alloc(), owner, OLD, 0, 0, false);
        assert_eq!(rt; asked.map(|it| it.id), want);
    }
    Ok(())
}

/// What a verdict says, but for the bytes of a success.
#[derive(Clone, Copy, Debug, PartialEq, Eq)]
enum Said {
    Stale,
    AgainDone,
    Again(Status),
    Misordered,
    InUse,
    Runs,
}

fn verdict_of(clients: &Clients, client: u64, number: u32, uid: u32) -> Said {
    match clients.create_judge(client, number, uid) {
        CreateVerdict::Stale => Said::Stale,
        CreateVerdict::Again(CreateResult::Done(_)) => Said::AgainDone,
        CreateVerdict::Again(CreateResult::Refused(status)) => Said::Again(*status),
        CreateVerdict::Misordered => Said::Misordered,
        CreateVerdict::InUse => Said::InUse,
        CreateVerdict::Runs => Said::Runs,
    }
}

#[test]
fn create_session_numbers(rt: HostRuntime) -> Result<(), Fail> {
    let mut clients = Clients::new(rt.alloc(), 7, 1_024);
    clients.exchange(rt.alloc(), b"A", OLD, 0, 0, false)?;
    let cases = [
        (None, 2, 1, 0, Said::Stale),
        (None, 1, 0, 0, Said::Misordered),
        (None, 1, 1, 0, Said::Runs),
        (None, 1, 2, 0, Said::Misordered),
        (None, 1, 1, 9, Said::InUse),
        (Some(Status::Delay), 1, 1, 0, Said::Runs),
        (Some(Status::StaleClientId), 1, 1, 0, Said::Runs),
        (Some(Status::SeqMisordered), 1, 1, 0, Said::Runs),
        (Some(Status::ClidInUse), 1, 1, 0, Said::Runs),
        (
            Some(Status::TooSmall),
            1,
            1,
            0,
            Said::Again(Status::TooSmall),
        ),
        (None, 1, 1, 9, Said::Again(Status::TooSmall)),
        (None, 1, 2, 0, Said::Runs),
        (Some(Status::NoSpc), 1, 2, 0, Said::Again(Status::NoSpc)),
        (None, 1, 2, 9, Said::Again(Status::NoSpc)),
        (None, 1, 3, 0, Said::Runs),
        (
            Some(Status::ServerFault),
            1,
            3,
            0,
            Said::Again(Status::ServerFault),
        ),
        (None, 1, 3, 9, Said::Again(Status::ServerFault)),
        (None, 1, 4, 0, Said::Runs),
    ];
    for (refused, count, number, uid, want) in cases {
        if let Some(status) = refused {
            clients.keep_created(id(1), CreateResult::Refused(status));
        }
        let said = verdict_of(&clients, id(count), number, uid);
        assert_eq!(rt; said, want, "number {number} by {uid}");
    }
    clients.keep_created(id(1), CreateResult::Done(Resok::new(b"body")));
    for (number, want) in [
        (3, Said::Misordered),
        (4, Said::AgainDone),
        (5, Said::Runs),
        (6, Said::Misordered),
    ] {
        let said = verdict_of(&clients, id(1), number, 0);
        assert_eq!(rt; said, want, "number {number}");
    }
    let CreateVerdict::Again(CreateResult::Done(kept)) = clients.create_judge(id(1), 4, 9) else {
        return Err(Fail::from("no kept result"));
    };
    assert_eq!(rt; kept.bytes(), b"body".as_slice());
    clients.confirm(id(1));
    assert_eq!(rt;
        clients.exchange(rt.alloc(), b"A", OLD, 0, 0, false),
        stands(1, 5)
    );
    Ok(())
}
