//! LOCK, LOCKT and LOCKU: RFC 8881 sections 18.10 to 18.12.

ghost use Rattle.std.specs.Prelude.{◌≡◌};
ghost use Rattle.nfs_xdr.specs.Readers.{ReadsPartBy};
ghost use Rattle.nfs_compound.specs.Enums.{lock_type_number};
ghost use Rattle.nfs_compound.specs.ArgCodecs.{lock_type, open_to_lock_owner, exist_lock_owner, locker, lock_args, lock_t_args, lock_u_args};

use crate::state_owner::StateOwner;
use crate::stateid::Stateid;
use nfs_xdr::{Cursor, Unreadable};

/// The kind of a lock (nfs_lock_type4).
#[derive(Clone, Copy)]
pub enum LockType {
    /// READ_LT, 1.
    Read,
    /// WRITE_LT, 2.
    Write,
    /// READW_LT, 3: the client would wait.
    ReadW,
    /// WRITEW_LT, 4: the client would wait.
    WriteW,
}

impl LockType {
    /// Reads the kind of a lock; unreadable where it is not spelled so.
    #[tactic(auto, unfolding(crate::specs::ArgCodecs::lock_type))]
    pub fn read(c: &mut Cursor<'_>) -> Result<LockType, Unreadable>
        ensures { ReadsPartBy (λ k. k) result (lock_type.read c.old) c.new }
    {
        match c.u32()? {
            1 => Ok(LockType::Read),
            2 => Ok(LockType::Write),
            3 => Ok(LockType::ReadW),
            4 => Ok(LockType::WriteW),
            _ => Err(Unreadable),
        }
    }

    /// The number of the kind (RFC 5662).
    pub fn number(self) -> u32
        ensures { result ≡ lock_type_number self }
    {
        match self {
            LockType::Read => 1,
            LockType::Write => 2,
            LockType::ReadW => 3,
            LockType::WriteW => 4,
        }
    }
}

/// The first lock of an owner on a file (open_to_lock_owner4).
#[derive(Drop)]
pub struct OpenToLockOwner<'a> {
    pub open_seqid: u32,
    pub open_stateid: Stateid,
    pub lock_seqid: u32,
    pub lock_owner: StateOwner<'a>,
}

impl<'a> OpenToLockOwner<'a> {
    /// Reads the first lock of an owner on a file; unreadable where it is not spelled so.
    #[tactic(auto, unfolding(crate::specs::ArgCodecs::open_to_lock_owner))]
    pub fn read(c: &mut Cursor<'a>) -> Result<OpenToLockOwner<'a>, Unreadable>
        ensures { ReadsPartBy (λ x. x) result (open_to_lock_owner.read c.old) c.new }
    {
        let open_seqid = c.u32()?;
        let open_stateid = Stateid::read(c)?;
        let lock_seqid = c.u32()?;
        let lock_owner = StateOwner::read(c)?;
        Ok(OpenToLockOwner {
            open_seqid,
            open_stateid,
            lock_seqid,
            lock_owner,
        })
    }
}

/// A further lock of an owner on a file (exist_lock_owner4).
#[derive(Clone, Copy)]
pub struct ExistLockOwner {
    pub lock_stateid: Stateid,
    pub lock_seqid: u32,
}

impl ExistLockOwner {
    /// Reads a further lock of an owner on a file; unreadable where it is not spelled so.
    #[tactic(auto, unfolding(crate::specs::ArgCodecs::exist_lock_owner))]
    pub fn read(c: &mut Cursor<'_>) -> Result<ExistLockOwner, Unreadable>
        ensures { ReadsPartBy (λ o. o) result (exist_lock_owner.read c.old) c.new }
    {
        let lock_stateid = Stateid::read(c)?;
        let lock_seqid = c.u32()?;
        Ok(ExistLockOwner {
            lock_stateid,
            lock_seqid,
        })
    }
}

/// Who locks (locker4).
#[derive(Drop)]
pub enum Locker<'a> {
    /// A new lock owner.
    OpenOwner(OpenToLockOwner<'a>),
    /// A lock owner that has a state on the file.
    LockOwner(ExistLockOwner),
}

impl<'a> Locker<'a> {
    /// Reads who locks; unreadable where it is not spelled so.
    #[tactic(auto, unfolding(crate::specs::ArgCodecs::locker))]
    pub fn read(c: &mut Cursor<'a>) -> Result<Locker<'a>, Unreadable>
        ensures { ReadsPartBy (λ x. x) result (locker.read c.old) c.new }
    {
        match c.u32()? {
            1 => Ok(Locker::OpenOwner(OpenToLockOwner::read(c)?)),
            0 => Ok(Locker::LockOwner(ExistLockOwner::read(c)?)),
            _ => Err(Unreadable),
        }
    }
}

/// The arguments of LOCK.
#[derive(Drop)]
pub struct Lock<'a> {
    pub locktype: LockType,
    pub reclaim: bool,
    /// In bytes.
    pub offset: u64,
    /// In bytes; the greatest number means up to the last byte that a file can have.
    pub length: u64,
    pub locker: Locker<'a>,
}

impl<'a> Lock<'a> {
    /// Reads the arguments of LOCK; unreadable where they are not spelled so.
    #[tactic(auto, unfolding(crate::specs::ArgCodecs::lock_args))]
    pub fn read(c: &mut Cursor<'a>) -> Result<Lock<'a>, Unreadable>
        ensures { ReadsPartBy (λ x. x) result (lock_args.read c.old) c.new }
    {
        let locktype = LockType::read(c)?;
        let reclaim = c.flag()?;
        let offset = c.u64()?;
        let length = c.u64()?;
        let locker = Locker::read(c)?;
        Ok(Lock {
            locktype,
            reclaim,
            offset,
            length,
            locker,
        })
    }
}

/// The arguments of LOCKT.
#[derive(Drop)]
pub struct LockT<'a> {
    pub locktype: LockType,
    pub offset: u64,
    pub length: u64,
    pub owner: StateOwner<'a>,
}

impl<'a> LockT<'a> {
    /// Reads the arguments of LOCKT; unreadable where they are not spelled so.
    #[tactic(auto, unfolding(crate::specs::ArgCodecs::lock_t_args))]
    pub fn read(c: &mut Cursor<'a>) -> Result<LockT<'a>, Unreadable>
        ensures { ReadsPartBy (λ x. x) result (lock_t_args.read c.old) c.new }
    {
        let locktype = LockType::read(c)?;
        let offset = c.u64()?;
        let length = c.u64()?;
        let owner = StateOwner::read(c)?;
        Ok(LockT {
            locktype,
            offset,
            length,
            owner,
        })
    }
}

/// The arguments of LOCKU.
#[derive(Clone, Copy)]
pub struct LockU {
    pub locktype: LockType,
    pub seqid: u32,
    pub lock_stateid: Stateid,
    pub offset: u64,
    pub length: u64,
}

impl LockU {
    /// Reads the arguments of LOCKU; unreadable where they are not spelled so.
    #[tactic(auto, unfolding(crate::specs::ArgCodecs::lock_u_args))]
    pub fn read(c: &mut Cursor<'_>) -> Result<LockU, Unreadable>
        ensures { ReadsPartBy (λ l. l) result (lock_u_args.read c.old) c.new }
    {
        let locktype = LockType::read(c)?;
        let seqid = c.u32()?;
        let lock_stateid = Stateid::read(c)?;
        let offset = c.u64()?;
        let length = c.u64()?;
        Ok(LockU {
            locktype,
            seqid,
            lock_stateid,
            offset,
            length,
        })
    }
}
