//! SETATTR (RFC 8881 section 18.30).

ghost use Rattle.std.specs.Prelude.{◌≡◌};
ghost use Rattle.nfs_names.specs.State.{state_of};
ghost use Rattle.nfs_names.specs.Create.{given_sets};
ghost use Rattle.nfs_names.specs.View.{outcome_of};
ghost use Rattle.nfs_files.specs.SetAttr as of_set_attr;
ghost use Rattle.nfs_files.specs.SetAttrParts as part;

use crate::access::writable;
use nfs_attrs::{Wanted, may_set, settled};
use nfs_compound::{OpNum, SetAttr, Stateid};
use nfs_names::{
    Context, Node, Store, attr_set, current, mask_in, refuse, status_of, time_of, wanted_of,
};
use nfs_results::Res;
use nfs_tree::{Sets, Tree, TreeFault};
use nfs_xdr::{Status, Time};

/// An object, and what is to be set of it.
#[derive(Clone, Copy, Debug, PartialEq, Eq)]
pub(crate) struct Setting {
    pub(crate) node: Node,
    pub(crate) wanted: Wanted,
}

/// What is to be set of which object, where the caller may.
fn judge_setting(
    store: &Store,
    context: &Context<'_>,
    asked: &SetAttr<'_>,
) -> Result<Setting, Status>
    ensures { result ≡ part.setting (state_of store.now) context.now asked.now }
{
    let node = current(store, context)?;
    let wanted = wanted_of(&asked.obj_attributes)?;
    may_set(
        store.tree.profile(),
        &node.object,
        &wanted,
        context.who.who(),
    )?;
    Ok(Setting { node, wanted })
}

/// The object, where it can have a size by the stateid if one is to be set.
fn judge_sized(
    store: &Store,
    context: &Context<'_>,
    given: &Stateid,
    setting: &Setting,
) -> Result<Node, Status>
    ensures { result ≡ part.sized (state_of store.now) context.now given.now setting.now }
{
    match setting.wanted.size {
        Some(_) => writable(store, context, given, setting.node),
        None => Ok(setting.node),
    }
}

#[tactic(auto, unfolding(crate::specs::SetAttrParts::asked_for))]
fn judge(store: &Store, context: &Context<'_>, asked: &SetAttr<'_>) -> Result<Setting, Status>
    ensures { result ≡ part.asked_for (state_of store.now) context.now asked.now }
{
    let setting = judge_setting(store, context, asked)?;
    judge_sized(store, context, &asked.stateid, &setting)?;
    Ok(setting)
}

fn sets_of(now: Time, wanted: &Wanted) -> Sets
    ensures { result ≡ given_sets now wanted.now }
{
    Sets {
        mode: wanted.mode,
        owner: wanted.owner,
        group: wanted.group,
        access: time_of(wanted.access, now),
        modify: time_of(wanted.modify, now),
    }
}

/// What is set of an object, by the profile.
fn settled_sets(tree: &Tree, context: &Context<'_>, setting: &Setting, now: Time) -> Sets
    ensures { result ≡ of_set_attr.settled_sets tree.now context.now setting.now.node now setting.now.wanted }
{
    let who = context.who.who();
    let object = &setting.node.object;
    let wanted = settled(tree.profile(), object, who, setting.wanted);
    sets_of(now, &wanted)
}

/// Whether an attribute is given.
fn gives_some(wanted: &Wanted) -> bool
    ensures { result ≡ of_set_attr.gives_some wanted.now }
{
    wanted.size.is_some()
        || wanted.mode.is_some()
        || wanted.owner.is_some()
        || wanted.group.is_some()
        || wanted.access.is_some()
        || wanted.modify.is_some()
}

/// Sets what is wanted of an object. The tree's own faults are the last checks.
fn change(
    tree: &mut Tree,
    context: &Context<'_>,
    setting: &Setting,
    now: Time,
) -> Result<(), TreeFault>
    ensures answer { result ≡ (part.changed tree.old context.now now setting.now).answer }
    ensures after { tree.new ≡ (part.changed tree.old context.now now setting.now).after }
{
    let sets = settled_sets(tree, context, setting, now);
    match setting.wanted.size {
        Some(size) => tree.resize(setting.node.number, size, &sets, now),
        None => {
            if !gives_some(&setting.wanted) {
                return Ok(());
            }
            tree.set(setting.node.number, &sets, now)
        }
    }
}

/// SETATTR. It takes no memory: pages that nothing was written to take none.
pub(crate) fn set_attr(
    store: &mut Store,
    context: &Context<'_>,
    asked: &SetAttr<'_>,
    now: Time,
) -> Res<'static>
    ensures { outcome_of result (state_of store.new) context.now ≡ of_set_attr.set_attr (state_of store.old) context.now now asked.now }
{
    match judge(store, context, asked) {
        Ok(setting) => match change(&mut store.tree, context, &setting, now) {
            Ok(()) => {
                let given = mask_in(&asked.obj_attributes.attrmask);
                Res::SetAttr {
                    status: Status::Nfs4Ok,
                    attrsset: attr_set(&given),
                }
            }
            Err(fault) => refuse(OpNum::SetAttr, status_of(fault)),
        },
        Err(status) => refuse(OpNum::SetAttr, status),
    }
}
