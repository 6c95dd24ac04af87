//! The fields of operations on opens and locks.

use crate::names::is_attributes;
use nfs_compound::{
    CreateHow, DelegationType, Lock, LockType, Locker, Op, Open, OpenClaim, OpenHow, StateOwner,
    Stateid,
};

/// The words 6, 7, 8 and 9.
pub(crate) fn is_held(it: &Stateid) -> bool {
    it.seqid == 6 && it.other == [0, 0, 0, 7, 0, 0, 0, 8, 0, 0, 0, 9]
}

/// The words 0, 4, 1 and `A`.
pub(crate) fn is_owner(it: &StateOwner<'_>) -> bool {
    it.clientid == 4 && it.owner.bytes() == b"a".as_slice()
}

/// The number of the claim; each claim stands with one way to open.
pub(crate) fn open_form(it: &Open<'_>) -> Option<u32> {
    if (it.seqid, it.share_access, it.share_deny) != (1, 2, 3) || !is_owner(&it.owner) {
        return None;
    }
    match (&it.openhow, &it.claim) {
        (OpenHow::NoCreate, claim) => plain_form(claim),
        (OpenHow::Create(how), claim) => create_form(how, claim),
    }
}

fn plain_form(claim: &OpenClaim<'_>) -> Option<u32> {
    match claim {
        OpenClaim::Null { file } => (file.bytes() == b"b".as_slice()).then_some(0),
        OpenClaim::DelegCurFh { delegate_stateid } => is_held(delegate_stateid).then_some(5),
        OpenClaim::DelegPrevFh => Some(6),
        _ => None,
    }
}

fn create_form(how: &CreateHow<'_>, claim: &OpenClaim<'_>) -> Option<u32> {
    match (how, claim) {
        (CreateHow::Unchecked { createattrs }, OpenClaim::Previous { delegate_type }) => {
            let is_write = matches!(delegate_type, DelegationType::WriteDelegation);
            (is_write && is_attributes(createattrs)).then_some(1)
        }
        (
            CreateHow::Guarded { createattrs },
            OpenClaim::DelegateCur {
                delegate_stateid,
                file,
            },
        ) => {
            let is_file = file.bytes() == b"a".as_slice() && is_held(delegate_stateid);
            (is_file && is_attributes(createattrs)).then_some(2)
        }
        (CreateHow::Exclusive { createverf }, OpenClaim::DelegatePrev { file }) => {
            (is_verifier(createverf) && file.bytes() == b"b".as_slice()).then_some(3)
        }
        (CreateHow::Exclusive41 { verf, attrs }, OpenClaim::Fh) => {
            (is_verifier(verf) && is_attributes(attrs)).then_some(4)
        }
        _ => None,
    }
}

/// The words 10 and 11.
fn is_verifier(it: &[u8; 8]) -> bool {
    *it == [0, 0, 0, 10, 0, 0, 0, 11]
}

/// Whether the owner is a new one.
pub(crate) fn lock_form(it: &Lock<'_>) -> Option<u32> {
    if (it.offset, it.length) != (2, 3) {
        return None;
    }
    match (&it.locktype, &it.locker) {
        (LockType::Write, Locker::OpenOwner(new)) => {
            let is_new = (new.open_seqid, new.lock_seqid) == (5, 10) && is_held(&new.open_stateid);
            (it.reclaim && is_new && is_owner(&new.lock_owner)).then_some(1)
        }
        (LockType::WriteW, Locker::LockOwner(known)) => {
            let is_known = known.lock_seqid == 5 && is_held(&known.lock_stateid);
            (!it.reclaim && is_known).then_some(0)
        }
        _ => None,
    }
}

/// The other operations on opens and locks.
pub(crate) fn is_of_opens(op: &Op<'_>) -> bool {
    match op {
        Op::OpenDowngrade(it) => {
            let numbers = (it.seqid, it.share_access, it.share_deny);
            is_held(&it.open_stateid) && numbers == (1, 2, 3)
        }
        Op::Close(it) => it.seqid == 5 && is_held(&it.open_stateid),
        Op::LockT(it) => {
            let is_range = (it.offset, it.length) == (5, 6);
            matches!(it.locktype, LockType::ReadW) && is_range && is_owner(&it.owner)
        }
        Op::LockU(it) => {
            let is_range = (it.seqid, it.offset, it.length) == (2, 3, 4);
            matches!(it.locktype, LockType::Read) && is_range && is_held(&it.lock_stateid)
        }
        _ => false,
    }
}
