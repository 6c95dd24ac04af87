//! Putting what stands behind the status of a result.

ghost use Rattle.std.specs.Prelude.{◌≡◌, ◌≤◌, ◌<◌, ◌^◌, ◌++◌, length, map};
ghost use Rattle.std.specs.Int.{w32, from_be_bytes};
ghost use Rattle.nfs_xdr.specs.Spelling.{opaque};
ghost use Rattle.nfs_xdr.specs.Spelling as spelling;
ghost use Rattle.nfs_xdr.specs.SheetState.{HasRoom, Puts};
ghost use Rattle.nfs_xdr.specs.Codec.{array, number};
ghost use Rattle.nfs_xdr.specs.Combinators.{optional};
ghost use Rattle.nfs_xdr.specs.Limits.{opaque_limit};
ghost use Rattle.nfs_compound.specs.Stateid.{stateid};
ghost use Rattle.nfs_compound.specs.StateOwner.{state_owner};
ghost use Rattle.nfs_compound.specs.ChannelAttrs.{channel_attrs};
ghost use Rattle.nfs_compound.specs.Enums.{stable_how_number};
ghost use Rattle.nfs_results.specs.Items as table;
ghost use Rattle.nfs_results.specs.Listing as listing;

use crate::res::{
    AccessOk, AttrSet, ChangeInfo, CreateOk, CreateSessionOk, Denied, ExchangeIdOk, Fattr, OpenOk,
    ReadDirOk, ReadOk, RenameOk, SequenceOk, WriteOk,
};
use nfs_compound::{ChannelAttrs, SP4_NONE, StableHow, StateOwner, Stateid};
use nfs_xdr::Sheet;

/// No delegation.
pub(crate) const OPEN_DELEGATE_NONE: u32 = 0;

#[tactic(auto, using(nfs_xdr::proofs::Putting::putting), unfolding(nfs_compound::specs::Stateid::stateid))]
pub(crate) fn put_stateid(s: &Stateid, out: &mut Sheet)
    requires room { HasRoom out.old (stateid.spell s.now) }
    ensures { Puts out.old out.new (stateid.spell s.now) }
{
    out.put_u32(s.seqid);
    out.put_fixed(&s.other);
}

#[tactic(auto, using(nfs_xdr::proofs::Putting::putting), unfolding(nfs_compound::specs::StateOwner::state_owner))]
fn put_state_owner(o: &StateOwner<'_>, out: &mut Sheet)
    requires size { length o.now.owner ≤ opaque_limit }
    requires room { HasRoom out.old (state_owner.spell o.now) }
    ensures { Puts out.old out.new (state_owner.spell o.now) }
{
    out.put_u64(o.clientid);
    out.put_opaque(o.owner.bytes());
}

#[tactic(auto, using(nfs_xdr::proofs::Putting::putting), unfolding(crate::specs::Items::access))]
pub(crate) fn put_access(a: &AccessOk, out: &mut Sheet)
    requires room { HasRoom out.old (table.access.spell a.now) }
    ensures { Puts out.old out.new (table.access.spell a.now) }
{
    out.put_u32(a.supported);
    out.put_u32(a.access);
}

#[tactic(auto, using(nfs_xdr::proofs::Putting::putting), unfolding(crate::specs::Items::change_info))]
pub(crate) fn put_change_info(c: &ChangeInfo, out: &mut Sheet)
    requires room { HasRoom out.old (table.change_info.spell c.now) }
    ensures { Puts out.old out.new (table.change_info.spell c.now) }
{
    out.put_flag(c.atomic);
    out.put_u64(c.before);
    out.put_u64(c.after);
}

/// Puts the words up to the last that is not zero.
#[tactic(auto, using(nfs_xdr::proofs::Putting::putting), unfolding(crate::specs::Items::attr_set))]
pub(crate) fn put_attr_set(set: &AttrSet, out: &mut Sheet)
    requires room { HasRoom out.old (table.attr_set.spell set.now) }
    ensures { Puts out.old out.new (table.attr_set.spell set.now) }
{
    match set.words() {
        [0, 0, 0] => out.put_u32(0),
        [first, 0, 0] => {
            out.put_u32(1);
            out.put_u32(first);
        }
        [first, second, 0] => {
            out.put_u32(2);
            out.put_u32(first);
            out.put_u32(second);
        }
        [first, second, third] => {
            out.put_u32(3);
            out.put_u32(first);
            out.put_u32(second);
            out.put_u32(third);
        }
    }
}

#[tactic(auto, using(nfs_xdr::proofs::Putting::putting), unfolding(crate::specs::Items::create))]
pub(crate) fn put_create(c: &CreateOk, out: &mut Sheet)
    requires room { HasRoom out.old (table.create.spell c.now) }
    ensures { Puts out.old out.new (table.create.spell c.now) }
{
    put_change_info(&c.cinfo, out);
    put_attr_set(&c.attrset, out);
}

#[tactic(auto, using(nfs_xdr::proofs::Putting::putting), unfolding(crate::specs::Items::fattr))]
pub(crate) fn put_fattr(f: &Fattr<'_>, out: &mut Sheet)
    requires size { length f.now.attr_vals < 2 ^ 32 }
    requires room { HasRoom out.old (table.fattr.spell f.now) }
    ensures { Puts out.old out.new (table.fattr.spell f.now) }
{
    put_attr_set(&f.attrmask, out);
    out.put_opaque(f.attr_vals.bytes());
}

#[tactic(auto, using(nfs_xdr::proofs::Putting::putting), unfolding(crate::specs::Items::denied, nfs_compound::specs::ArgCodecs::lock_type))]
pub(crate) fn put_denied(d: &Denied<'_>, out: &mut Sheet)
    requires size { length d.now.owner.owner ≤ opaque_limit }
    requires room { HasRoom out.old (table.denied.spell d.now) }
    ensures { Puts out.old out.new (table.denied.spell d.now) }
{
    out.put_u64(d.offset);
    out.put_u64(d.length);
    out.put_u32(d.locktype.number());
    put_state_owner(&d.owner, out);
}

#[tactic(auto, using(nfs_xdr::proofs::Putting::putting), unfolding(crate::specs::Items::open_ok))]
pub(crate) fn put_open(o: &OpenOk, out: &mut Sheet)
    requires room { HasRoom out.old (table.open_ok.spell o.now) }
    ensures { Puts out.old out.new (table.open_ok.spell o.now) }
{
    put_stateid(&o.stateid, out);
    put_change_info(&o.cinfo, out);
    out.put_u32(o.rflags);
    put_attr_set(&o.attrset, out);
    out.put_u32(OPEN_DELEGATE_NONE);
}

#[tactic(auto, using(nfs_xdr::proofs::Putting::putting), unfolding(crate::specs::Items::read_ok))]
pub(crate) fn put_read(r: &ReadOk<'_>, out: &mut Sheet)
    requires size { length r.now.bytes < 2 ^ 32 }
    requires room { HasRoom out.old (table.read_ok.spell r.now) }
    ensures { Puts out.old out.new (table.read_ok.spell r.now) }
{
    out.put_flag(r.eof);
    out.put_opaque(r.bytes.bytes());
}

#[tactic(auto, using(nfs_xdr::proofs::Putting::putting), unfolding(crate::specs::Listing::read_dir))]
pub(crate) fn put_read_dir(r: &ReadDirOk<'_>, out: &mut Sheet)
    requires room { HasRoom out.old (listing.read_dir.spell r.now) }
    ensures { Puts out.old out.new (listing.read_dir.spell r.now) }
{
    out.put_fixed(&r.cookieverf);
    r.entries.put(out);
    out.put_flag(r.eof);
}

#[tactic(auto, using(nfs_xdr::proofs::Putting::putting), unfolding(crate::specs::Items::rename))]
pub(crate) fn put_rename(r: &RenameOk, out: &mut Sheet)
    requires room { HasRoom out.old (table.rename.spell r.now) }
    ensures { Puts out.old out.new (table.rename.spell r.now) }
{
    put_change_info(&r.source_cinfo, out);
    put_change_info(&r.target_cinfo, out);
}

#[tactic(auto, using(nfs_xdr::proofs::Putting::putting), unfolding(crate::specs::Items::write_ok, nfs_compound::specs::ArgCodecs::stable_how))]
pub(crate) fn put_write(w: &WriteOk, out: &mut Sheet)
    requires room { HasRoom out.old (table.write_ok.spell w.now) }
    ensures { Puts out.old out.new (table.write_ok.spell w.now) }
{
    out.put_u32(w.count);
    out.put_u32(stable_number(w.committed));
    out.put_fixed(&w.writeverf);
}

fn stable_number(how: StableHow) -> u32
    ensures { result ≡ stable_how_number how }
{
    match how {
        StableHow::Unstable => 0,
        StableHow::DataSync => 1,
        StableHow::FileSync => 2,
    }
}

#[tactic(auto, using(nfs_xdr::proofs::Putting::putting), unfolding(crate::specs::Items::exchange_id))]
pub(crate) fn put_exchange_id(r: &ExchangeIdOk<'_>, out: &mut Sheet)
    requires major { length r.now.major_id ≤ opaque_limit }
    requires scope { length r.now.server_scope ≤ opaque_limit }
    requires room { HasRoom out.old (table.exchange_id.spell r.now) }
    ensures { Puts out.old out.new (table.exchange_id.spell r.now) }
{
    out.put_u64(r.clientid);
    out.put_u32(r.sequenceid);
    out.put_u32(r.flags);
    out.put_u32(SP4_NONE);
    out.put_u64(r.minor_id);
    put_names(r.major_id.bytes(), r.server_scope.bytes(), out);
}

/// The tail of an EXCHANGE_ID: the server's major id, its scope, and no implementation.
#[tactic(auto, using(nfs_xdr::proofs::Putting::putting))]
fn put_names(major_id: &[u8], server_scope: &[u8], out: &mut Sheet)
    requires major { length major_id.now ≤ opaque_limit }
    requires scope { length server_scope.now ≤ opaque_limit }
    requires room { HasRoom out.old (opaque major_id.now ++ (opaque server_scope.now ++ spelling.number 0)) }
    ensures { Puts out.old out.new (opaque major_id.now ++ (opaque server_scope.now ++ spelling.number 0)) }
{
    out.put_opaque(major_id);
    put_scope(server_scope, out);
}

#[tactic(auto, using(nfs_xdr::proofs::Putting::putting))]
fn put_scope(server_scope: &[u8], out: &mut Sheet)
    requires scope { length server_scope.now ≤ opaque_limit }
    requires room { HasRoom out.old (opaque server_scope.now ++ spelling.number 0) }
    ensures { Puts out.old out.new (opaque server_scope.now ++ spelling.number 0) }
{
    out.put_opaque(server_scope);
    out.put_u32(0);
}

#[tactic(auto, using(nfs_xdr::proofs::Putting::putting), unfolding(crate::specs::Items::create_session))]
pub(crate) fn put_create_session(s: &CreateSessionOk, out: &mut Sheet)
    requires room { HasRoom out.old (table.create_session.spell s.now) }
    ensures { Puts out.old out.new (table.create_session.spell s.now) }
{
    out.put_fixed(&s.sessionid);
    out.put_u32(s.sequence);
    out.put_u32(s.flags);
    put_channel_attrs(&s.fore_chan_attrs, out);
    put_channel_attrs(&s.back_chan_attrs, out);
}

#[tactic(auto, using(nfs_xdr::proofs::Putting::putting), unfolding(nfs_compound::specs::ChannelAttrs::channel_attrs))]
fn put_channel_attrs(a: &ChannelAttrs, out: &mut Sheet)
    requires room { HasRoom out.old (channel_attrs.spell a.now) }
    ensures { Puts out.old out.new (channel_attrs.spell a.now) }
{
    out.put_u32(a.headerpadsize);
    out.put_u32(a.maxrequestsize);
    out.put_u32(a.maxresponsesize);
    out.put_u32(a.maxresponsesize_cached);
    out.put_u32(a.maxoperations);
    out.put_u32(a.maxrequests);
    put_rdma_ird(a.rdma_ird, out);
}

#[tactic(auto, using(nfs_xdr::proofs::Putting::putting))]
fn put_rdma_ird(rdma_ird: Option<u32>, out: &mut Sheet)
    requires room { HasRoom out.old ((optional number).spell rdma_ird) }
    ensures { Puts out.old out.new ((optional number).spell rdma_ird) }
{
    match rdma_ird {
        None => out.put_flag(false),
        Some(limit) => {
            out.put_flag(true);
            out.put_u32(limit);
        }
    }
}

#[tactic(auto, using(nfs_xdr::proofs::Putting::putting), unfolding(crate::specs::Items::sequence))]
pub(crate) fn put_sequence(s: &SequenceOk, out: &mut Sheet)
    requires room { HasRoom out.old (table.sequence.spell s.now) }
    ensures { Puts out.old out.new (table.sequence.spell s.now) }
{
    out.put_fixed(&s.sessionid);
    put_slot(s, out);
}

/// Puts what stands behind the session id, at once.
#[tactic(auto, unfolding(nfs_xdr::specs::Spelling::number))]
fn put_slot(s: &SequenceOk, out: &mut Sheet)
    requires room { HasRoom out.old (table.slot.spell (table.slot_of s.now)) }
    ensures { Puts out.old out.new (table.slot.spell (table.slot_of s.now)) }
{
    let words = [
        s.sequenceid.to_be_bytes(),
        s.slotid.to_be_bytes(),
        s.highest_slotid.to_be_bytes(),
        s.target_highest_slotid.to_be_bytes(),
        s.status_flags.to_be_bytes(),
    ];
    out.put_bytes(words.as_flattened());
}

/// Puts a count and that many numbers.
#[tactic(auto, using(nfs_xdr::proofs::Putting::putting))]
pub(crate) fn put_numbers(spelled: &[[u8; 4]], out: &mut Sheet)
    requires size { length spelled.now < 2 ^ 32 }
    requires room { HasRoom out.old ((array number).spell (map (from_be_bytes w32) spelled.now)) }
    ensures { Puts out.old out.new ((array number).spell (map (from_be_bytes w32) spelled.now)) }
{
    out.put_u32(spelled.len() as u32);
    for number in spelled {
        out.put_u32(u32::from_be_bytes(*number));
    }
}
