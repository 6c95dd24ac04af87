//! Reading what stands behind the status of a result. A refusal leaves the cursor anywhere.

ghost use Rattle.std.specs.Prelude.{◌≡◌, ◌==◌, map, is_some, not};
ghost use Rattle.std.specs.Int.{w32, from_be_bytes};
ghost use Rattle.nfs_xdr.specs.Readers.{ReadsPartBy};
ghost use Rattle.nfs_xdr.specs.StatusCodec.{status_of};
ghost use Rattle.nfs_results.specs.Items as table;
ghost use Rattle.nfs_results.specs.Listing as listing;

use crate::entries::Entries;
use crate::item_writing::OPEN_DELEGATE_NONE;
use crate::res::{
    AccessOk, AttrSet, ChangeInfo, CreateOk, CreateSessionOk, Denied, Entry, ExchangeIdOk, Fattr,
    OpenOk, ReadDirOk, ReadOk, RenameOk, SequenceOk, Words, WriteOk,
};
use nfs_compound::{ChannelAttrs, Lent, LockType, SP4_NONE, StableHow, StateOwner, Stateid};
use nfs_xdr::{Cursor, OPAQUE_LIMIT, Status, Unreadable};

/// A number that is always the same.
fn always(number: u32, c: &mut Cursor<'_>) -> Result<(), Unreadable>
    ensures { ReadsPartBy (λ x. tt) result ((table.always number).read c.old) c.new }
{
    if c.u32()? != number {
        return Err(Unreadable);
    }
    Ok(())
}

#[tactic(auto, unfolding(crate::specs::Items::access))]
pub(crate) fn access(c: &mut Cursor<'_>) -> Result<AccessOk, Unreadable>
    ensures { ReadsPartBy (λ a. a) result (table.access.read c.old) c.new }
{
    let supported = c.u32()?;
    let access = c.u32()?;
    Ok(AccessOk { supported, access })
}

#[tactic(auto, unfolding(crate::specs::Items::change_info))]
pub(crate) fn change_info(c: &mut Cursor<'_>) -> Result<ChangeInfo, Unreadable>
    ensures { ReadsPartBy (λ i. i) result (table.change_info.read c.old) c.new }
{
    let atomic = c.flag()?;
    let before = c.u64()?;
    let after = c.u64()?;
    Ok(ChangeInfo {
        atomic,
        before,
        after,
    })
}

/// A set of attributes below 96, with no word at its end that is zero.
#[tactic(auto, unfolding(crate::specs::Items::attr_set))]
pub(crate) fn attr_set(c: &mut Cursor<'_>) -> Result<AttrSet, Unreadable>
    ensures { ReadsPartBy (λ x. x) result (table.attr_set.read c.old) c.new }
{
    let words = match c.u32()? {
        0 => [0, 0, 0],
        1 => [last_word(c)?, 0, 0],
        2 => [c.u32()?, last_word(c)?, 0],
        3 => [c.u32()?, c.u32()?, last_word(c)?],
        _ => return Err(Unreadable),
    };
    Ok(AttrSet::of(words))
}

/// A number that is not zero.
fn last_word(c: &mut Cursor<'_>) -> Result<u32, Unreadable>
    ensures { ReadsPartBy (λ n. n) result (table.last_word.read c.old) c.new }
{
    let word = c.u32()?;
    if word == 0 {
        return Err(Unreadable);
    }
    Ok(word)
}

#[tactic(auto, unfolding(crate::specs::Items::create))]
pub(crate) fn create(c: &mut Cursor<'_>) -> Result<CreateOk, Unreadable>
    ensures { ReadsPartBy (λ x. x) result (table.create.read c.old) c.new }
{
    let cinfo = change_info(c)?;
    let attrset = attr_set(c)?;
    Ok(CreateOk { cinfo, attrset })
}

#[tactic(auto, unfolding(crate::specs::Items::fattr))]
pub(crate) fn fattr<'a>(c: &mut Cursor<'a>) -> Result<Fattr<'a>, Unreadable>
    ensures { ReadsPartBy (λ x. x) result (table.fattr.read c.old) c.new }
{
    let attrmask = attr_set(c)?;
    let attr_vals = Lent::read(c, u32::MAX)?;
    Ok(Fattr {
        attrmask,
        attr_vals,
    })
}

#[tactic(auto, unfolding(crate::specs::Items::denied))]
pub(crate) fn denied<'a>(c: &mut Cursor<'a>) -> Result<Denied<'a>, Unreadable>
    ensures { ReadsPartBy (λ x. x) result (table.denied.read c.old) c.new }
{
    let offset = c.u64()?;
    let length = c.u64()?;
    let locktype = LockType::read(c)?;
    let owner = StateOwner::read(c)?;
    Ok(Denied {
        offset,
        length,
        locktype,
        owner,
    })
}

#[tactic(auto, unfolding(crate::specs::Items::open_ok))]
pub(crate) fn open_ok(c: &mut Cursor<'_>) -> Result<OpenOk, Unreadable>
    ensures { ReadsPartBy (λ x. x) result (table.open_ok.read c.old) c.new }
{
    let stateid = Stateid::read(c)?;
    let cinfo = change_info(c)?;
    let rflags = c.u32()?;
    let attrset = attr_set(c)?;
    always(OPEN_DELEGATE_NONE, c)?;
    Ok(OpenOk {
        stateid,
        cinfo,
        rflags,
        attrset,
    })
}

#[tactic(auto, unfolding(crate::specs::Items::read_ok))]
pub(crate) fn read_ok<'a>(c: &mut Cursor<'a>) -> Result<ReadOk<'a>, Unreadable>
    ensures { ReadsPartBy (λ x. x) result (table.read_ok.read c.old) c.new }
{
    let eof = c.flag()?;
    let bytes = Lent::read(c, u32::MAX)?;
    Ok(ReadOk { eof, bytes })
}

#[tactic(auto, unfolding(crate::specs::Items::entry))]
pub(crate) fn entry<'a>(c: &mut Cursor<'a>) -> Result<Entry<'a>, Unreadable>
    ensures { ReadsPartBy (λ x. x) result (table.entry.read c.old) c.new }
{
    let cookie = c.u64()?;
    let name = Lent::read(c, u32::MAX)?;
    let attrs = fattr(c)?;
    Ok(Entry {
        cookie,
        name,
        attrs,
    })
}

#[tactic(auto, unfolding(crate::specs::Listing::read_dir))]
pub(crate) fn read_dir<'a>(c: &mut Cursor<'a>) -> Result<ReadDirOk<'a>, Unreadable>
    ensures { ReadsPartBy (λ x. x) result (listing.read_dir.read c.old) c.new }
{
    let cookieverf = c.fixed::<8>()?;
    let entries = Entries::read(c)?;
    let eof = c.flag()?;
    Ok(ReadDirOk {
        cookieverf,
        entries,
        eof,
    })
}

#[tactic(auto, unfolding(crate::specs::Items::rename))]
pub(crate) fn rename(c: &mut Cursor<'_>) -> Result<RenameOk, Unreadable>
    ensures { ReadsPartBy (λ r. r) result (table.rename.read c.old) c.new }
{
    let source_cinfo = change_info(c)?;
    let target_cinfo = change_info(c)?;
    Ok(RenameOk {
        source_cinfo,
        target_cinfo,
    })
}

#[tactic(auto, unfolding(crate::specs::Items::write_ok))]
pub(crate) fn write_ok(c: &mut Cursor<'_>) -> Result<WriteOk, Unreadable>
    ensures { ReadsPartBy (λ w. w) result (table.write_ok.read c.old) c.new }
{
    let count = c.u32()?;
    let committed = StableHow::read(c)?;
    let writeverf = c.fixed::<8>()?;
    Ok(WriteOk {
        count,
        committed,
        writeverf,
    })
}

#[tactic(auto, unfolding(crate::specs::Items::exchange_id))]
pub(crate) fn exchange_id<'a>(c: &mut Cursor<'a>) -> Result<ExchangeIdOk<'a>, Unreadable>
    ensures { ReadsPartBy (λ x. x) result (table.exchange_id.read c.old) c.new }
{
    let clientid = c.u64()?;
    let sequenceid = c.u32()?;
    let flags = c.u32()?;
    always(SP4_NONE, c)?;
    let minor_id = c.u64()?;
    let major_id = Lent::read(c, OPAQUE_LIMIT)?;
    let server_scope = Lent::read(c, OPAQUE_LIMIT)?;
    always(0, c)?;
    Ok(ExchangeIdOk {
        clientid,
        sequenceid,
        flags,
        minor_id,
        major_id,
        server_scope,
    })
}

#[tactic(auto, unfolding(crate::specs::Items::create_session))]
pub(crate) fn create_session(c: &mut Cursor<'_>) -> Result<CreateSessionOk, Unreadable>
    ensures { ReadsPartBy (λ s. s) result (table.create_session.read c.old) c.new }
{
    let sessionid = c.fixed::<16>()?;
    let sequence = c.u32()?;
    let flags = c.u32()?;
    let fore_chan_attrs = ChannelAttrs::read(c)?;
    let back_chan_attrs = ChannelAttrs::read(c)?;
    Ok(CreateSessionOk {
        sessionid,
        sequence,
        flags,
        fore_chan_attrs,
        back_chan_attrs,
    })
}

#[tactic(auto, unfolding(crate::specs::Items::flavors))]
pub(crate) fn flavors<'a>(c: &mut Cursor<'a>) -> Result<Words<'a>, Unreadable>
    ensures { ReadsPartBy (λ x. x) result (table.flavors.read c.old) c.new }
{
    let spelled = c.pieces::<4>()?;
    Ok(Words::of(spelled))
}

#[tactic(auto, unfolding(crate::specs::Items::sequence))]
pub(crate) fn sequence(c: &mut Cursor<'_>) -> Result<SequenceOk, Unreadable>
    ensures { ReadsPartBy (λ s. s) result (table.sequence.read c.old) c.new }
{
    let sessionid = c.fixed::<16>()?;
    let sequenceid = c.u32()?;
    let slotid = c.u32()?;
    let highest_slotid = c.u32()?;
    let target_highest_slotid = c.u32()?;
    let status_flags = c.u32()?;
    Ok(SequenceOk {
        sessionid,
        sequenceid,
        slotid,
        highest_slotid,
        target_highest_slotid,
        status_flags,
    })
}

#[tactic(auto, unfolding(crate::specs::Items::status_codes))]
pub(crate) fn status_codes<'a>(c: &mut Cursor<'a>) -> Result<Words<'a>, Unreadable>
    ensures { ReadsPartBy (λ x. x) result (table.status_codes.read c.old) c.new }
{
    let spelled = c.pieces::<4>()?;
    if !are_statuses(spelled) {
        return Err(Unreadable);
    }
    Ok(Words::of(spelled))
}

/// Whether each of the numbers, four bytes each, is that of a status that this server answers.
pub(crate) fn are_statuses(spelled: &[[u8; 4]]) -> bool
    ensures { result ≡ table.are_statuses (map (from_be_bytes w32) spelled.now) }
{
    for number in spelled {
        if !is_status(number) {
            return false;
        }
    }
    true
}

fn is_status(spelled: &[u8; 4]) -> bool
    ensures { result ≡ is_some (status_of (from_be_bytes w32 spelled.now)) }
{
    Status::of(u32::from_be_bytes(*spelled)).is_some()
}
