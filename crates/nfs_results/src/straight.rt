//! Results whose bytes come straight from where they are kept: the parts in front of them and behind them.
//!
//! READ is [`write_read_head`], the bytes, and the zeros that fill up their last word. READDIR is
//! [`write_read_dir_head`], for each entry [`write_entry`] and its attributes, and [`write_list_end`]. GETATTR is
//! [`write_done_head`] and the attributes. TEST_STATEID is [`write_test_stateid_head`] and the number of each status.

ghost use Rattle.std.specs.Prelude.{◌<◌, ◌^◌, ◌++◌, length, replicate};
ghost use Rattle.nfs_xdr.specs.SheetState.{HasRoom, Puts};
ghost use Rattle.nfs_xdr.specs.Spelling.{number, flag, padding};
ghost use Rattle.nfs_results.specs.Straight.{read_head, read_dir_head, entry_head, list_end, test_stateid_head};
ghost use Rattle.nfs_results.specs.Results.{done_head};

use crate::writing::put_head;
use nfs_compound::OpNum;
use nfs_xdr::{Sheet, Status};

/// Puts the number of an operation that was done, and NFS4_OK.
#[tactic(auto, using(nfs_xdr::proofs::Putting::putting))]
pub fn write_done_head(op: OpNum, out: &mut Sheet)
    requires room { HasRoom out.old (done_head op) }
    ensures { Puts out.old out.new (done_head op) }
{
    put_head(op.number(), Status::Nfs4Ok, out);
}

/// Puts what a READ has in front of `count` bytes (RFC 8881 section 18.22.2).
#[tactic(auto, using(nfs_xdr::proofs::Putting::putting))]
pub fn write_read_head(eof: bool, count: u32, out: &mut Sheet)
    requires room { HasRoom out.old (read_head eof count) }
    ensures { Puts out.old out.new (read_head eof count) }
{
    write_done_head(OpNum::Read, out);
    put_eof_and_count(eof, count, out);
}

#[tactic(auto, using(nfs_xdr::proofs::Putting::putting))]
fn put_eof_and_count(eof: bool, count: u32, out: &mut Sheet)
    requires room { HasRoom out.old (flag eof ++ number count) }
    ensures { Puts out.old out.new (flag eof ++ number count) }
{
    out.put_flag(eof);
    out.put_u32(count);
}

/// Puts what a READDIR has in front of its entries (RFC 8881 section 18.23.2).
#[tactic(auto, using(nfs_xdr::proofs::Putting::putting))]
pub fn write_read_dir_head(cookieverf: &[u8; 8], out: &mut Sheet)
    requires room { HasRoom out.old (read_dir_head cookieverf.now) }
    ensures { Puts out.old out.new (read_dir_head cookieverf.now) }
{
    write_done_head(OpNum::ReadDir, out);
    out.put_fixed(cookieverf);
}

/// Puts what an entry of a directory has in front of its attributes, and that it follows.
#[tactic(auto, using(nfs_xdr::proofs::Putting::putting))]
pub fn write_entry(cookie: u64, name: &[u8], out: &mut Sheet)
    requires name { length name.now < 2 ^ 32 }
    requires room { HasRoom out.old (entry_head cookie name.now) }
    ensures { Puts out.old out.new (entry_head cookie name.now) }
{
    out.put_flag(true);
    out.put_u64(cookie);
    out.put_u32(name.len() as u32);
    out.put_bytes(name);
    put_padding(name.len(), out);
}

/// Puts the zeros that fill up the last word of so many bytes. Each arm is one store, and not a copy of some length.
fn put_padding(length: usize, out: &mut Sheet)
    requires room { HasRoom out.old (replicate (padding length) 0) }
    ensures { Puts out.old out.new (replicate (padding length) 0) }
{
    match length % 4 {
        1 => out.put_bytes(&[0; 3]),
        2 => out.put_bytes(&[0; 2]),
        3 => out.put_bytes(&[0]),
        _ => (),
    }
}

/// Puts that no entry follows, and whether the directory has none left.
#[tactic(auto, using(nfs_xdr::proofs::Putting::putting))]
pub fn write_list_end(eof: bool, out: &mut Sheet)
    requires room { HasRoom out.old (list_end eof) }
    ensures { Puts out.old out.new (list_end eof) }
{
    out.put_flag(false);
    out.put_flag(eof);
}

/// Puts what a TEST_STATEID has in front of `count` statuses (RFC 8881 section 18.48.2).
#[tactic(auto, using(nfs_xdr::proofs::Putting::putting))]
pub fn write_test_stateid_head(count: u32, out: &mut Sheet)
    requires room { HasRoom out.old (test_stateid_head count) }
    ensures { Puts out.old out.new (test_stateid_head count) }
{
    write_done_head(OpNum::TestStateid, out);
    out.put_u32(count);
}
