//! Operations on the bytes of files (RFC 8881 sections 18.3, 18.22 and 18.32).

ghost use Rattle.std.specs.Prelude.{◌≡◌, ◌+◌, ◌≤◌, ◌<◌, ◌^◌, length};
ghost use Rattle.nfs_xdr.specs.SheetState.{Puts};
ghost use Rattle.nfs_xdr.specs.Spelling.{padding};
ghost use Rattle.nfs_compound.specs.declared.op_num.OpNum.TheVariants as Num;
ghost use Rattle.nfs_results.specs.Largest.{given};
ghost use Rattle.nfs_results.specs.declared.res.Res.TheVariants as Res;
ghost use Rattle.nfs_results.specs.Results.{spell_result};
ghost use Rattle.nfs_tree.specs.Bytes.{has_bytes};
ghost use Rattle.nfs_names.specs.State.{state_of};
ghost use Rattle.nfs_names.specs.Comes.{Comes};
ghost use Rattle.nfs_names.specs.Outcome.{checked, lacks};
ghost use Rattle.nfs_names.specs.View.{outcome_of, MayWant};
ghost use Rattle.nfs_names.specs.Checks as check;
ghost use Rattle.nfs_files.specs.Parts as parts;
ghost use Rattle.nfs_files.specs.Bytes as of_bytes;
ghost use Rattle.nfs_files.specs.Commit as of_commit;
ghost use Rattle.nfs_files.specs.Read as of_read;
ghost use Rattle.nfs_files.specs.Write as of_write;

use crate::access::{behind_sets, judge_file, readable, writable};
use nfs_compound::{OpNum, Read, StableHow, Write};
use nfs_names::{Context, Node, Store, current, put_refusal, refuse, status_of};
use nfs_results::{Res, WriteOk, given, write_done_head};
use nfs_tree::TreeFault;
use nfs_xdr::{Sheet, Status, Time};
use std::alloc::Global;

/// Tells this start of the server from others: the instance and four zero bytes.
#[tactic(auto, unfolding(nfs_xdr::specs::Spelling::number))]
fn write_verifier(store: &Store) -> [u8; 8]
    ensures { result ≡ of_commit.write_verifier (state_of store.now) }
{
    let [a, b, c, d] = store.opens.instance().to_be_bytes();
    [a, b, c, d, 0, 0, 0, 0]
}

/// The file whose bytes are to last.
fn judge_commit(store: &Store, context: &Context<'_>) -> Result<Node, Status>
    ensures { result ≡ checked (check.current (state_of store.now) context.now) of_bytes.file_checks }
{
    let node = current(store, context)?;
    judge_file(node)
}

/// COMMIT.
pub(crate) fn commit(store: &Store, context: &Context<'_>) -> Res<'static>
    ensures { outcome_of result (state_of store.now) context.now ≡ of_commit.commit (state_of store.now) context.now }
{
    match judge_commit(store, context) {
        Ok(_) => Res::Commit(write_verifier(store)),
        Err(status) => refuse(OpNum::Commit, status),
    }
}

/// The file that is to be written.
#[tactic(auto, unfolding(crate::specs::Parts::writable))]
fn to_write(store: &Store, context: &Context<'_>, asked: &Write<'_>) -> Result<Node, Status>
    ensures { result ≡ parts.writable (state_of store.now) context.now asked.now.stateid (check.current (state_of store.now) context.now) }
{
    let node = current(store, context)?;
    writable(store, context, &asked.stateid, node)
}

/// All bytes were written, as lastingly as any are.
fn write_ok(store: &Store, asked: &Write<'_>) -> WriteOk
    requires { length asked.now.bytes < 2 ^ 32 }
    ensures { result ≡ of_write.write_ok (state_of store.now) asked.now }
{
    WriteOk {
        count: asked.bytes.bytes().len() as u32,
        committed: StableHow::FileSync,
        writeverf: write_verifier(store),
    }
}

/// The status of bytes that find no memory, by the profile (docs/PROTOCOL.md).
fn lack_of(store: &Store) -> Status
    ensures { result ≡ lacks (state_of store.now) Num.Write }
{
    if store.tree.profile().is_unix() {
        Status::NoSpc
    } else {
        Status::Delay
    }
}

/// The status of what the tree refuses of a WRITE; that of lack of memory is given.
fn refused_as(fault: TreeFault, lack: Status) -> Status
    ensures { result ≡ of_write.refused_as lack fault }
{
    match fault {
        TreeFault::Memory => lack,
        _ => status_of(fault),
    }
}

/// WRITE.
pub(crate) fn write_bytes(
    alloc: Global,
    store: &mut Store,
    context: &Context<'_>,
    asked: &Write<'_>,
    now: Time,
) -> Res<'static>
    ensures { MayWant (has_bytes asked.now.bytes) (state_of store.old) context.now Num.Write (of_write.write (state_of store.old) context.now now asked.now)
        result (state_of store.new) context.now }
{
    match to_write(store, context, asked) {
        Ok(node) => {
            let sets = behind_sets(&store.tree, context, &node);
            let offset = asked.offset;
            let lack = lack_of(store);
            match store.tree.write(alloc, node.number, offset, asked.bytes.bytes(), &sets, now) {
                Ok(()) => Res::Write(write_ok(store, asked)),
                Err(fault) => refuse(OpNum::Write, refused_as(fault, lack)),
            }
        }
        Err(status) => refuse(OpNum::Write, status),
    }
}

/// Puts bytes of a file, as READ answers them.
fn put_read(store: &Store, node: &Node, asked: &Read, out: &mut Sheet)
    requires { length out.old.bytes + (16 + (given asked.now.count + padding (given asked.now.count))) ≤ out.old.room }
    ensures { Puts out.old out.new (spell_result (Res.Read (of_read.was_read (state_of store.now) asked.now node.now))) }
{
    write_done_head(OpNum::Read, out);
    let count = given(asked.count);
    store
        .tree
        .read_with_end(node.number, asked.offset, out, count);
}

/// The file that is to be read.
#[tactic(auto, unfolding(crate::specs::Parts::readable))]
fn to_read(store: &Store, context: &Context<'_>, asked: &Read) -> Result<Node, Status>
    ensures { result ≡ parts.readable (state_of store.now) context.now asked.now.stateid (check.current (state_of store.now) context.now) }
{
    let node = current(store, context)?;
    readable(store, context, &asked.stateid, node)
}

/// READ.
pub(crate) fn read(store: &Store, context: &Context<'_>, asked: &Read, out: &mut Sheet) -> Status
    requires { length out.old.bytes + (16 + (given asked.now.count + padding (given asked.now.count))) ≤ out.old.room }
    ensures { Comes (of_read.read (state_of store.now) context.now asked.now) out.old out.new result (state_of store.now) context.now }
{
    match to_read(store, context, asked) {
        Ok(node) => {
            put_read(store, &node, asked, out);
            Status::Nfs4Ok
        }
        Err(status) => put_refusal(OpNum::Read, status, out),
    }
}
