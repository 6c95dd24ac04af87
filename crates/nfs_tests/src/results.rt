//! Each operation's results, read and put again, with a field of its own number for each word.

ghost use Rattle.std.specs.Prelude.{◌≤◌, IsTrue, length};
ghost use Rattle.nfs_results.specs.MayAnswer.{HasSizes};
ghost use Rattle.nfs_results.specs.ResultCodec.{IsBounded};

use crate::words::{A, SESSION};
use nfs_compound::{ChannelAttrs, Item, LockType, Op, Read, StableHow, Stateid};
use nfs_results::{
    AttrSet, ChangeInfo, CreateSessionOk, Denied, ExchangeIdOk, Res, can_refuse, given, largest,
    read_reply, write, write_compound_head,
};
use nfs_testing::bytes_of;
use nfs_xdr::{Sheet, Status};
use std::alloc::{AllocError, Global};
use std::test::Fail;

/// The words 3, 10, 11 and 12.
fn is_stateid(it: &Stateid) -> bool {
    it.seqid == 3 && it.other == [0, 0, 0, 10, 0, 0, 0, 11, 0, 0, 0, 12]
}

/// The words 1, 4, 5, 6 and 7.
fn is_change(it: &ChangeInfo) -> bool {
    (it.atomic, it.before, it.after) == (true, 0x0000_0004_0000_0005, 0x0000_0006_0000_0007)
}

/// The words 0, 0, 8, 0 and 9.
fn is_other_change(it: &ChangeInfo) -> bool {
    (it.atomic, it.before, it.after) == (false, 8, 9)
}

/// The words 0, 1, 0, 2, 2, 0, 4, 1 and `A`.
fn is_denied(it: &Denied<'_>) -> bool {
    let is_range = (it.offset, it.length) == (1, 2);
    let is_owner = it.owner.clientid == 4 && it.owner.owner.bytes() == b"a".as_slice();
    matches!(it.locktype, LockType::Write) && is_range && is_owner
}

fn is_granted(it: &ExchangeIdOk<'_>) -> bool {
    let numbers = (it.clientid, it.sequenceid, it.flags, it.minor_id);
    let is_server = it.major_id.bytes() == b"nfs41d".as_slice()
        && it.server_scope.bytes() == b"scop".as_slice();
    numbers == (0x0000_0007_0000_0001, 2, 0x0001_0000, 0x0000_0003_0000_0004) && is_server
}

fn is_made(it: &CreateSessionOk) -> bool {
    let is_fore = sizes(&it.fore_chan_attrs) == [9, 66560, 66561, 7584, 64, 16, 0];
    let is_back = sizes(&it.back_chan_attrs) == [8, 4096, 4097, 6, 2, 1, 17];
    it.sessionid == SESSION && (it.sequence, it.flags) == (5, 7) && is_fore && is_back
}

fn sizes(it: &ChannelAttrs) -> [u32; 7] {
    [
        it.headerpadsize,
        it.maxrequestsize,
        it.maxresponsesize,
        it.maxresponsesize_cached,
        it.maxoperations,
        it.maxrequests,
        it.rdma_ird.unwrap_or(0),
    ]
}

/// Whether each field is what the words say.
fn has_fields(res: &Res<'_>) -> bool {
    match res {
        Res::Access(_)
        | Res::Commit(_)
        | Res::Create(_)
        | Res::GetAttr(_)
        | Res::GetFh(_)
        | Res::Link(_)
        | Res::Read(_)
        | Res::ReadLink(_)
        | Res::Remove(_)
        | Res::Rename(_)
        | Res::SetAttr { .. }
        | Res::Write(_) => is_of_files(res),
        Res::Close(stateid)
        | Res::Lock(stateid)
        | Res::LockU(stateid)
        | Res::OpenDowngrade(stateid) => is_stateid(stateid),
        Res::LockDenied(denied) | Res::LockTDenied(denied) => is_denied(denied),
        Res::Open(it) => {
            is_stateid(&it.stateid) && is_change(&it.cinfo) && it.attrset.words() == [16, 2, 0]
        }
        Res::ExchangeId(granted) => is_granted(granted),
        Res::CreateSession(made) => is_made(made),
        Res::SecinfoNoName(it) => it.spelled().len() == 1 && it.spelled()[0] == [0, 0, 0, 1],
        Res::Sequence(it) => {
            let slots = [
                it.sequenceid,
                it.slotid,
                it.highest_slotid,
                it.target_highest_slotid,
            ];
            it.sessionid == SESSION && slots == [5, 6, 15, 14] && it.status_flags == 7
        }
        Res::TestStateid(it) => it.spelled().len() == 2 && it.spelled()[1] == [0, 0, 0x27, 0x29],
        _ => true,
    }
}

fn is_of_files(res: &Res<'_>) -> bool {
    match res {
        Res::Access(it) => (it.supported, it.access) == (0x3f, 0x21),
        Res::Commit(writeverf) => *writeverf == [0, 0, 0, 7, 0, 0, 0, 9],
        Res::Create(it) => is_change(&it.cinfo) && it.attrset.words() == [0, 0, 5],
        Res::GetAttr(it) => it.attrmask.words() == [8, 0, 0]
            && it.attr_vals.bytes() == b"abcdefgh".as_slice(),
        Res::GetFh(object) => object.bytes() == b"abcde".as_slice(),
        Res::Link(cinfo) | Res::Remove(cinfo) => is_change(cinfo),
        Res::Read(it) => it.eof && it.bytes.bytes() == b"abcdef".as_slice(),
        Res::ReadLink(link) => link.bytes() == b"a".as_slice(),
        Res::Rename(it) => is_change(&it.source_cinfo) && is_other_change(&it.target_cinfo),
        Res::SetAttr { status, attrsset } => {
            let set = if status.number() == 0 { 16 } else { 0 };
            attrsset.words() == [set, 0, 0]
        }
        Res::Write(it) => {
            let is_lasting = matches!(it.committed, StableHow::FileSync);
            it.count == 6 && is_lasting && it.writeverf == [0, 0, 0, 7, 0, 0, 0, 9]
        }
        _ => false,
    }
}

/// Whether the result can be put, and a sheet of 2,200 bytes has room for it.
fn is_small(res: &Res<'_>) -> bool
    ensures bounds { IsTrue result → IsBounded res.now }
    ensures sizes { IsTrue result → HasSizes 64 res.now }
{
    match res {
        Res::ReadDir(_) | Res::TestStateid(_) => false,
        Res::Create(created) => has_three_words(&created.attrset),
        Res::GetAttr(attributes) => {
            has_three_words(&attributes.attrmask) && attributes.attr_vals.bytes().len() <= 612
        }
        Res::GetFh(object) => object.bytes().len() <= 16,
        Res::LockDenied(denied) | Res::LockTDenied(denied) => denied.owner.owner.bytes().len()
            <= 1024,
        Res::Read(read) => read.bytes.bytes().len() <= 64,
        Res::ReadLink(link) => link.bytes().len() <= 1024,
        Res::ExchangeId(granted) => are_short(granted),
        Res::CreateSession(made) => made.fore_chan_attrs.rdma_ird.is_none(),
        Res::SecinfoNoName(flavors) => flavors.spelled().len() <= 1,
        Res::Open(opened) => has_three_words(&opened.attrset),
        Res::SetAttr { status, attrsset } => {
            has_three_words(attrsset) && *status != Status::OpIllegal
        }
        Res::Refused { operation, status } => can_refuse(*operation, *status),
        _ => true,
    }
}

/// Whether the set is spelled by three words at most, as each is.
fn has_three_words(set: &AttrSet) -> bool
    ensures { length set.now ≤ 3 }
{
    set.words().len() == 3
}

fn are_short(granted: &ExchangeIdOk<'_>) -> bool
    ensures major { IsTrue result → length granted.now.major_id ≤ 8 }
    ensures scope { IsTrue result → length granted.now.server_scope ≤ 8 }
{
    granted.major_id.bytes().len() <= 8 && granted.server_scope.bytes().len() <= 8
}

/// Whether a compound of this result alone is put as these bytes. READDIR and TEST_STATEID are put in parts.
fn is_put(alloc: Global, res: &Res<'_>, bytes: &[u8]) -> Result<bool, AllocError> {
    if !is_small(res) {
        return Ok(matches!(res, Res::ReadDir(_) | Res::TestStateid(_)));
    }
    let mut out = Sheet::new(alloc, 2200)?;
    write_compound_head(Status::Nfs4Ok, b"", 1, &mut out);
    write(res, &mut out);
    Ok(out.bytes() == bytes)
}

/// Whether the words behind the head of one result are read as that result, and put again.
fn is_spelled(alloc: Global, words: &[u32]) -> Result<bool, AllocError> {
    let bytes = bytes_of(alloc, &[&[0, 0, 1], words])?;
    let Ok(mut reply) = read_reply(bytes.as_slice()) else {
        return Ok(false);
    };
    let Some(res) = reply.next() else {
        return Ok(false);
    };
    let is_own = words.len() >= 2 && words[..2] == [res.operation(), res.status().number()];
    Ok(is_own && has_fields(&res) && is_put(alloc, &res, bytes.as_slice())?)
}

/// The first case, if any, whose words are spelled or not, other than wanted.
fn misread(alloc: Global, cases: &[&[u32]], want: bool) -> Result<Option<usize>, AllocError> {
    for (i, words) in cases.iter().enumerate() {
        if is_spelled(alloc, words)? != want {
            return Ok(Some(i));
        }
    }
    Ok(None)
}

#[test]
fn results_are_read_and_put(rt: HostRuntime) -> Result<(), Fail> {
    let cases: [&[u32]; 27] = [
        &[3, 0, 0x3f, 0x21],
        &[4, 0, 3, 10, 11, 12],
        &[5, 0, 7, 9],
        &[6, 0, 1, 4, 5, 6, 7, 3, 0, 0, 5],
        &[9, 0, 1, 8, 8, 0x6162_6364, 0x6566_6768],
        &[10, 0, 5, 0x6162_6364, 0x6500_0000],
        &[11, 0, 1, 4, 5, 6, 7],
        &[12, 0, 3, 10, 11, 12],
        &[12, 10010, 0, 1, 0, 2, 2, 0, 4, 1, A],
        &[13, 0],
        &[13, 10010, 0, 1, 0, 2, 2, 0, 4, 1, A],
        &[14, 0, 3, 10, 11, 12],
        &[18, 0, 3, 10, 11, 12, 1, 4, 5, 6, 7, 12, 2, 16, 2, 0],
        &[21, 0, 3, 10, 11, 12],
        &[25, 0, 1, 6, 0x6162_6364, 0x6566_0000],
        &[27, 0, 1, A],
        &[28, 0, 1, 4, 5, 6, 7],
        &[29, 0, 1, 4, 5, 6, 7, 0, 0, 8, 0, 9],
        &[34, 0, 1, 16],
        &[38, 0, 6, 2, 7, 9],
        &[
            42,
            0,
            7,
            1,
            2,
            0x0001_0000,
            0,
            3,
            4,
            6,
            0x6e66_7334,
            0x3164_0000,
            4,
            0x7363_6f70,
            0,
        ],
        &[
            43, 0, 1, 2, 3, 4, 5, 7, 9, 66560, 66561, 7584, 64, 16, 0, 8, 4096, 4097, 6, 2, 1, 1,
            17,
        ],
        &[52, 0, 1, 1],
        &[53, 0, 1, 2, 3, 4, 5, 6, 15, 14, 7],
        &[55, 0, 2, 0, 10025],
        &[10044, 10044],
        &[10044, 10066],
    ];
    assert_eq!(rt; misread(rt.alloc(), &cases, true)?, None);
    Ok(())
}

#[test]
fn results_of_a_status_alone_are_read_and_put(rt: HostRuntime) -> Result<(), Fail> {
    let cases: [&[u32]; 20] = [
        &[15, 0],
        &[16, 0],
        &[17, 0],
        &[22, 0],
        &[23, 0],
        &[24, 0],
        &[31, 0],
        &[32, 0],
        &[37, 0],
        &[44, 0],
        &[45, 0],
        &[57, 0],
        &[58, 0],
        &[14, 10010],
        &[41, 10004],
        // SETATTR reports what was set with every status that it can have.
        &[34, 10004, 0],
        &[34, 10036, 0],
        &[34, 10066, 0],
        &[34, 10010, 0],
        &[34, 13, 0],
    ];
    assert_eq!(rt; misread(rt.alloc(), &cases, true)?, None);
    Ok(())
}

#[test]
fn no_result_has_these_words(rt: HostRuntime) -> Result<(), Fail> {
    let cases: [&[u32]; 20] = [
        &[5000, 10004],
        &[2, 10004],
        &[59, 10004],
        &[10044, 22],
        &[15, 10044],
        &[58, 0, 0],
        &[12, 10010],
        &[13, 10010, 0, 1, 0, 2, 5, 0, 4, 1, A],
        &[34, 10004],
        &[34, 13],
        &[34, 10004, 1, 0],
        &[34, 10044, 0],
        &[15, 9999],
        &[15, 0, 0],
        &[18, 0, 3, 10, 11, 12, 1, 4, 5, 6, 7, 8, 0, 0],
        &[25, 0, 2, 0],
        &[38, 0, 6, 3, 7, 9],
        &[42, 0, 7, 1, 2, 3, 1, 3, 4, 1, A, 1, A, 0],
        &[43, 0, 1, 2, 3, 4, 5, 7, 9, 1, 1, 1, 1, 1, 2],
        &[55, 0, 1, 9999],
    ];
    assert_eq!(rt; misread(rt.alloc(), &cases, false)?, None);
    Ok(())
}

#[test]
fn the_largest_results_are_those_of_the_profile(rt: HostRuntime) {
    let stateid = Stateid {
        seqid: 3,
        other: [0; 12],
    };
    let asked = Read {
        stateid,
        offset: 0,
        count: 5,
    };
    let bad = Item::Fault {
        number: 53,
        status: Status::BadXdr,
    };
    let sizes = [
        largest(&Item::Operation(Op::Read(asked))),
        largest(&Item::Operation(Op::GetFh)),
        largest(&Item::Operation(Op::ReadLink)),
        largest(&Item::Operation(Op::LookupP)),
        largest(&bad),
        u64::from(given(65_537)),
    ];
    assert_eq!(rt; sizes, [24, 28, 1036, 64, 64, 65_536]);
}
