//! Each operation's arguments, with a field of its own number for each word. Of an operation of several forms the row says which.

use crate::names::{create_form, is_of_files, is_of_names};
use crate::opens::{is_held, is_of_opens, lock_form, open_form};
use crate::words::{A, B, SESSION};
use nfs_compound::{
    ChannelAttrs, Compound, CreateSession, ExchangeId, Item, Op, SecinfoStyle, Stateid,
};
use nfs_testing::bytes_of;
use std::alloc::{AllocError, Global};
use std::test::Fail;

/// Which form of its operation this is, by the number that RFC 5662 has for that, if each field is what the words say.
fn form_of(op: &Op<'_>) -> Option<u32> {
    match op {
        Op::Open(open) => open_form(open),
        Op::Lock(lock) => lock_form(lock),
        Op::Create(create) => create_form(create),
        Op::ExchangeId(asked) => exchange_id_form(asked),
        Op::CreateSession(asked) => create_session_form(asked),
        Op::SecinfoNoName { style } => Some(style_form(style)),
        _ => is_of_one_form(op).then_some(0),
    }
}

fn is_of_one_form(op: &Op<'_>) -> bool {
    is_of_sessions(op) || is_of_opens(op) || is_of_files(op) || is_of_names(op)
}

fn style_form(it: &SecinfoStyle) -> u32 {
    match it {
        SecinfoStyle::CurrentFh => 0,
        SecinfoStyle::Parent => 1,
    }
}

/// How many implementations it names.
fn exchange_id_form(it: &ExchangeId<'_>) -> Option<u32> {
    if it.verifier != [0, 0, 0, 1, 0, 0, 0, 2]
        || it.ownerid.bytes() != b"a".as_slice()
        || it.flags != 3
    {
        return None;
    }
    match &it.impl_id {
        None => Some(0),
        Some(by) if by.domain.bytes() != b"b".as_slice() || by.name.bytes() != b"a".as_slice() =>
            None,
        Some(by) => ((by.date.seconds, by.date.nanoseconds) == (-2, 6)).then_some(1),
    }
}

/// How many security parameters it has: all of its words that are left, as the bytes that they take.
fn create_session_form(it: &CreateSession<'_>) -> Option<u32> {
    let numbers = (it.clientid, it.sequence, it.flags, it.cb_program);
    let is_fore = sizes(&it.fore_chan_attrs) == [10, 11, 12, 13, 14, 15, 16];
    let is_back = sizes(&it.back_chan_attrs) == [20, 21, 22, 23, 24, 25, 0];
    let parameters = match it.sec_parms.bytes().len() {
        8 => 1,
        68 => 3,
        _ => return None,
    };
    (numbers == (1, 2, 3, 30) && is_fore && is_back).then_some(parameters)
}

fn sizes(it: &ChannelAttrs) -> [u32; 7] {
    [
        it.headerpadsize,
        it.maxrequestsize,
        it.maxresponsesize,
        it.maxresponsesize_cached,
        it.maxoperations,
        it.maxrequests,
        it.rdma_ird.unwrap_or(0),
    ]
}

/// Whether the stateid is spelled like the session id.
fn is_first(it: &Stateid) -> bool {
    it.seqid == 1 && it.other == [0, 0, 0, 2, 0, 0, 0, 3, 0, 0, 0, 4]
}

fn is_of_sessions(op: &Op<'_>) -> bool {
    match op {
        Op::DestroySession { sessionid } => *sessionid == SESSION,
        Op::Sequence(it) => {
            let numbers = (it.sequenceid, it.slotid, it.highest_slotid, it.cachethis);
            it.sessionid == SESSION && numbers == (5, 6, 7, true)
        }
        Op::DestroyClientId { clientid } => *clientid == 0x0000_0001_0000_0002,
        Op::ReclaimComplete { one_fs } => *one_fs,
        Op::FreeStateid { stateid } => is_held(stateid),
        Op::TestStateid { stateids } => {
            stateids.len() == 2 && is_held(&stateids.get(1)) && is_first(&stateids.get(0))
        }
        _ => false,
    }
}

/// Whether the words are the arguments of one operation, in this form.
fn is_read(alloc: Global, form: u32, words: &[u32]) -> Result<bool, AllocError> {
    let args = bytes_of(alloc, &[&[2, 0x6162_0000, 1, 1], words])?;
    let Ok(mut compound) = Compound::open(args.as_slice()) else {
        return Ok(false);
    };
    let Some(Item::Operation(op)) = compound.next() else {
        return Ok(false);
    };
    if let Op::CreateSession(asked) = &op {
        if !args.as_slice().ends_with(asked.sec_parms.bytes()) {
            return Ok(false);
        }
    }
    Ok(form_of(&op) == Some(form) && words.first() == Some(&op.number()))
}

/// The first case, if any, whose words are not read as that form.
fn misread(alloc: Global, cases: &[(u32, &[u32])]) -> Result<Option<usize>, AllocError> {
    for (i, (form, words)) in cases.iter().enumerate() {
        if !is_read(alloc, *form, words)? {
            return Ok(Some(i));
        }
    }
    Ok(None)
}

/// Whether this is a compound of one operation, tagged `ab`.
fn has_head(args: &[u8]) -> bool {
    let Ok(mut compound) = Compound::open(args) else {
        return false;
    };
    let numbers = (compound.minor(), compound.declared()) == (1, 1);
    let bytes = compound.tag() == b"ab".as_slice() && compound.bytes() == args;
    numbers && bytes && compound.next().is_some() && compound.next().is_none()
}

#[test]
fn the_head_of_a_compound_is_read(rt: HostRuntime) -> Result<(), Fail> {
    let args = bytes_of(rt.alloc(), &[&[2, 0x6162_0000, 1, 1, 24]])?;
    assert!(rt; has_head(args.as_slice()));
    Ok(())
}

#[test]
fn operations_on_sessions_are_read(rt: HostRuntime) -> Result<(), Fail> {
    let cases: [(u32, &[u32]); 11] = [
        (0, &[42, 1, 2, 1, A, 3, 0, 0]),
        (
            1,
            &[
                42,
                1,
                2,
                1,
                A,
                3,
                0,
                1,
                1,
                B,
                1,
                A,
                0xffff_ffff,
                0xffff_fffe,
                6,
            ],
        ),
        (
            1,
            &[
                43, 0, 1, 2, 3, 10, 11, 12, 13, 14, 15, 1, 16, 20, 21, 22, 23, 24, 25, 0, 30, 1, 0,
            ],
        ),
        // AUTH_SYS with two groups, RPCSEC_GSS with two handles, and AUTH_NONE.
        (
            3,
            &[
                43, 0, 1, 2, 3, 10, 11, 12, 13, 14, 15, 1, 16, 20, 21, 22, 23, 24, 25, 0, 30, 3, 1,
                31, 1, A, 32, 33, 2, 34, 35, 6, 36, 1, A, 1, B, 0,
            ],
        ),
        (0, &[44, 1, 2, 3, 4]),
        (0, &[53, 1, 2, 3, 4, 5, 6, 7, 1]),
        (0, &[57, 1, 2]),
        (0, &[58, 1]),
        (0, &[45, 6, 7, 8, 9]),
        (0, &[55, 2, 1, 2, 3, 4, 6, 7, 8, 9]),
        (0, &[9, 2, 5, 6]),
    ];
    assert_eq!(rt; misread(rt.alloc(), &cases)?, None);
    Ok(())
}

#[test]
fn operations_on_opens_and_locks_are_read(rt: HostRuntime) -> Result<(), Fail> {
    let cases: [(u32, &[u32]); 13] = [
        (0, &[18, 1, 2, 3, 0, 4, 1, A, 0, 0, 1, B]),
        (1, &[18, 1, 2, 3, 0, 4, 1, A, 1, 0, 1, 5, 1, B, 1, 2]),
        (
            2,
            &[
                18, 1, 2, 3, 0, 4, 1, A, 1, 1, 1, 5, 1, B, 2, 6, 7, 8, 9, 1, A,
            ],
        ),
        (3, &[18, 1, 2, 3, 0, 4, 1, A, 1, 2, 10, 11, 3, 1, B]),
        (4, &[18, 1, 2, 3, 0, 4, 1, A, 1, 3, 10, 11, 1, 5, 1, B, 4]),
        (5, &[18, 1, 2, 3, 0, 4, 1, A, 0, 5, 6, 7, 8, 9]),
        (6, &[18, 1, 2, 3, 0, 4, 1, A, 0, 6]),
        (0, &[21, 6, 7, 8, 9, 1, 2, 3]),
        (0, &[4, 5, 6, 7, 8, 9]),
        (1, &[12, 2, 1, 0, 2, 0, 3, 1, 5, 6, 7, 8, 9, 10, 0, 4, 1, A]),
        (0, &[12, 4, 0, 0, 2, 0, 3, 0, 6, 7, 8, 9, 5]),
        (0, &[13, 3, 0, 5, 0, 6, 0, 4, 1, A]),
        (0, &[14, 1, 2, 6, 7, 8, 9, 0, 3, 0, 4]),
    ];
    assert_eq!(rt; misread(rt.alloc(), &cases)?, None);
    Ok(())
}

#[test]
fn operations_on_files_and_names_are_read(rt: HostRuntime) -> Result<(), Fail> {
    let cases: [(u32, &[u32]); 26] = [
        (0, &[3, 31]),
        (0, &[5, 0, 7, 8]),
        (3, &[6, 3, 7, 8, 1, A, 1, 5, 1, B]),
        (4, &[6, 4, 7, 8, 1, A, 1, 5, 1, B]),
        (5, &[6, 5, 1, B, 1, A, 1, 5, 1, B]),
        (2, &[6, 2, 1, A, 1, 5, 1, B]),
        (0, &[10]),
        (0, &[11, 1, A]),
        (0, &[15, 1, A]),
        (0, &[16]),
        (0, &[17, 1, 5, 1, B]),
        (0, &[22, 1, A]),
        (0, &[23]),
        (0, &[24]),
        (0, &[25, 6, 7, 8, 9, 0, 1, 2]),
        (0, &[26, 0, 1, 2, 3, 4, 5, 1, 6]),
        (0, &[27]),
        (0, &[28, 1, A]),
        (0, &[29, 1, A, 1, B]),
        (0, &[31]),
        (0, &[32]),
        (0, &[34, 6, 7, 8, 9, 1, 5, 1, B]),
        (0, &[37, 1, 5, 1, B]),
        (0, &[38, 6, 7, 8, 9, 0, 1, 2, 1, A]),
        (0, &[52, 0]),
        (1, &[52, 1]),
    ];
    assert_eq!(rt; misread(rt.alloc(), &cases)?, None);
    Ok(())
}
