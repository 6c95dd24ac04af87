//! CLOSE and OPEN_DOWNGRADE (RFC 8881 sections 18.2 and 18.18).

ghost use Rattle.std.specs.Prelude.{◌≡◌};
ghost use Rattle.nfs_names.specs.State.{state_of};
ghost use Rattle.nfs_names.specs.StoreInvariants.{IsRooted};
ghost use Rattle.nfs_names.specs.View.{outcome_of};
ghost use Rattle.nfs_files.specs.Parts as parts;
ghost use Rattle.nfs_files.specs.Close as of_close;
ghost use Rattle.nfs_files.specs.OpenDowngrade as of_downgrade;

use crate::stateids::wire_id;
use crate::target::{Target, target_for};
use nfs_compound::{Close, OpNum, OpenDowngrade, Stateid};
use nfs_names::{Context, Store, refuse};
use nfs_opens::{CurrentSeqid, Share, Sort};
use nfs_results::Res;
use nfs_xdr::Status;

/// What is left of an open's stateid: no operation takes it.
const SPENT: Stateid = Stateid {
    seqid: u32::MAX,
    other: [0; 12],
};

/// An open goes, and with its last open a file that no row names.
fn close_open(store: &mut Store, context: &mut Context<'_>, target: Target) -> Res<'static>
    requires { IsRooted store.old.tree }
    ensures { outcome_of result (state_of store.new) context.new ≡ parts.closes (state_of store.old) context.old target }
{
    match store.opens.close(target.id, context.client, target.file) {
        Ok(()) => {
            store.drop_unused(target.file);
            context.stateid = SPENT;
            Res::Close(SPENT)
        }
        Err(status) => refuse(OpNum::Close, status),
    }
}

/// CLOSE.
pub(crate) fn close(store: &mut Store, context: &mut Context<'_>, asked: &Close) -> Res<'static>
    requires { IsRooted store.old.tree }
    ensures { outcome_of result (state_of store.new) context.new ≡ of_close.close (state_of store.old) context.old asked.now }
{
    match target_for(store, context, CurrentSeqid::Own, &asked.open_stateid) {
        Ok(target) => close_open(store, context, target),
        Err(status) => refuse(OpNum::Close, status),
    }
}

/// The two bits of a share; a number that has others is none.
fn bits(number: u32) -> Share
    ensures { result ≡ of_downgrade.bits number }
{
    match Share::from_bits(number) {
        Some(share) => share,
        None => Share::neither(),
    }
}

/// The open that is to have less.
fn judge_downgrade(
    store: &Store,
    context: &Context<'_>,
    asked: &OpenDowngrade,
) -> Result<Target, Status>
    ensures { result ≡ parts.narrowing (state_of store.now) context.now asked.now }
{
    let target = target_for(store, context, CurrentSeqid::Own, &asked.open_stateid)?;
    store.opens.judge(target.id, context.client, Some(target.file), Sort::OpenOnly)?;
    if Share::from_bits(asked.share_access).is_none() {
        return Err(Status::Inval);
    }
    if Share::from_bits(asked.share_deny).is_none() {
        return Err(Status::Inval);
    }
    Ok(target)
}

/// An open has less access and denies less.
fn narrow_open(
    store: &mut Store,
    context: &mut Context<'_>,
    asked: &OpenDowngrade,
    target: Target,
) -> Res<'static>
    ensures { outcome_of result (state_of store.new) context.new ≡ parts.narrows (state_of store.old) context.old asked.now target }
{
    let access = bits(asked.share_access);
    let deny = bits(asked.share_deny);
    match store
        .opens
        .downgrade(target.id, context.client, target.file, access, deny)
    {
        Ok(id) => {
            let id = wire_id(id);
            context.stateid = id;
            Res::OpenDowngrade(id)
        }
        Err(status) => refuse(OpNum::OpenDowngrade, status),
    }
}

/// OPEN_DOWNGRADE.
pub(crate) fn open_downgrade(
    store: &mut Store,
    context: &mut Context<'_>,
    asked: &OpenDowngrade,
) -> Res<'static>
    ensures { outcome_of result (state_of store.new) context.new ≡ of_downgrade.open_downgrade (state_of store.old) context.old asked.now }
{
    match judge_downgrade(store, context, asked) {
        Ok(target) => narrow_open(store, context, asked, target),
        Err(status) => refuse(OpNum::OpenDowngrade, status),
    }
}
