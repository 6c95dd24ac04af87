//! Results that are put in parts, and the head of a compound that is closed behind its result.

ghost use Rattle.std.specs.Prelude.{◌≡◌, ◌≤◌, ◌+◌, ℕ, length};
ghost use Rattle.nfs_results.specs.OpenHead.{HasHead};

use nfs_compound::OpNum;
use nfs_results::{
    Entry, OpenHead, Res, read_reply, write_done_head, write_entry, write_list_end,
    write_read_dir_head, write_read_head, write_test_stateid_head,
};
use nfs_testing::bytes_of;
use nfs_xdr::{Sheet, Status};
use std::test::Fail;

/// A READ of two bytes, and the zeros that fill up their word.
#[tactic(auto, using(nfs_results::proofs::Lengths::lengths))]
fn put_read(out: &mut Sheet)
    requires room { length out.old.bytes + 20 ≤ out.old.room }
    ensures bytes { length out.new.bytes ≡ length out.old.bytes + 20 }
    ensures room { out.new.room ≡ out.old.room }
    ensures stands { (status_at count_at : ℕ) → HasHead status_at count_at out.old.bytes → HasHead status_at count_at out.new.bytes }
{
    write_read_head(true, 2, out);
    out.put_bytes(&[0x78, 0x79, 0, 0]);
}

/// A READDIR of one entry with no attributes.
#[tactic(auto, using(nfs_results::proofs::Lengths::lengths))]
fn put_read_dir(out: &mut Sheet)
    requires room { length out.old.bytes + 52 ≤ out.old.room }
    ensures bytes { length out.new.bytes ≡ length out.old.bytes + 52 }
    ensures room { out.new.room ≡ out.old.room }
{
    write_read_dir_head(&[0, 0, 0, 5, 0, 0, 0, 6], out);
    write_entry(3, b"d", out);
    out.put_u32(0);
    out.put_opaque(b"");
    write_list_end(true, out);
}

/// A GETATTR of no attributes, and a TEST_STATEID of one stateid.
#[tactic(auto, using(nfs_results::proofs::Lengths::lengths))]
fn put_get_attr_and_test_stateid(out: &mut Sheet)
    requires room { length out.old.bytes + 32 ≤ out.old.room }
    ensures bytes { length out.new.bytes ≡ length out.old.bytes + 32 }
    ensures room { out.new.room ≡ out.old.room }
{
    write_done_head(OpNum::GetAttr, out);
    out.put_u32(0);
    out.put_opaque(b"");
    write_test_stateid_head(1, out);
    out.put_u32(10025);
}

#[test]
#[tactic(auto, using(nfs_results::proofs::Lengths::lengths))]
fn results_are_put_in_parts(rt: HostRuntime) -> Result<(), Fail> {
    let mut out = Sheet::new(rt.alloc(), 200)?;
    put_read_dir(&mut out);
    put_get_attr_and_test_stateid(&mut out);
    let head = OpenHead::put(b"ab", &mut out);
    put_read(&mut out);
    head.close(Status::Inval, 1, &mut out);
    let want = [
        26,
        0,
        5,
        6,
        1,
        0,
        3,
        1,
        0x6400_0000,
        0,
        0,
        0,
        1,
        9,
        0,
        0,
        0,
        55,
        0,
        1,
        10025,
        22,
        2,
        0x6162_0000,
        1,
        25,
        0,
        1,
        2,
        0x7879_0000,
    ];
    assert!(rt; out.bytes() == bytes_of(rt.alloc(), &[&want])?.as_slice());
    Ok(())
}

/// Whether a compound, tagged `ab` and refused as invalid, is a READDIR of one entry, which is lent with its attributes.
fn is_listed(bytes: &[u8]) -> bool {
    let Ok(mut reply) = read_reply(bytes) else {
        return false;
    };
    let is_head = reply.status().number() == 22 && reply.tag() == b"ab".as_slice();
    let Some(Res::ReadDir(listed)) = reply.next() else {
        return false;
    };
    let is_whole = listed.eof && listed.cookieverf == [0, 0, 0, 5, 0, 0, 0, 6];
    let mut entries = listed.entries;
    let Some(entry) = entries.next() else {
        return false;
    };
    is_head && is_whole && is_entry(&entry) && entries.next().is_none() && reply.next().is_none()
}

fn is_entry(it: &Entry<'_>) -> bool {
    let is_named = it.cookie == 3 && it.name.bytes() == b"d".as_slice();
    is_named
        && it.attrs.attrmask.words() == [8, 4, 0]
        && it.attrs.attr_vals.bytes() == b"e".as_slice()
}

#[test]
fn entries_are_lent(rt: HostRuntime) -> Result<(), Fail> {
    let words = [
        22,
        2,
        0x6162_0000,
        1,
        26,
        0,
        5,
        6,
        1,
        0,
        3,
        1,
        0x6400_0000,
        2,
        8,
        4,
        1,
        0x6500_0000,
        0,
        1,
    ];
    let bytes = bytes_of(rt.alloc(), &[&words])?;
    assert!(rt; is_listed(bytes.as_slice()));
    Ok(())
}
