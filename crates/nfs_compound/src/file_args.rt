//! COMMIT, READ, WRITE and SETATTR: RFC 8881 sections 18.3, 18.22, 18.32 and 18.30.

ghost use Rattle.nfs_xdr.specs.Readers.{ReadsPartBy};
ghost use Rattle.nfs_compound.specs.ArgCodecs.{commit_args, read_args, stable_how, write_args, set_attr_args};

use crate::attributes::Attributes;
use crate::lent::Lent;
use crate::stateid::Stateid;
use nfs_xdr::{Cursor, Unreadable};

/// The arguments of COMMIT.
#[derive(Clone, Copy)]
pub struct Commit {
    /// In bytes.
    pub offset: u64,
    /// In bytes.
    pub count: u32,
}

impl Commit {
    /// Reads the arguments of COMMIT; unreadable where they are not spelled so.
    #[tactic(auto, unfolding(crate::specs::ArgCodecs::commit_args))]
    pub fn read(c: &mut Cursor<'_>) -> Result<Commit, Unreadable>
        ensures { ReadsPartBy (λ x. x) result (commit_args.read c.old) c.new }
    {
        let offset = c.u64()?;
        let count = c.u32()?;
        Ok(Commit { offset, count })
    }
}

/// The arguments of READ.
#[derive(Clone, Copy)]
pub struct Read {
    pub stateid: Stateid,
    /// In bytes.
    pub offset: u64,
    /// In bytes.
    pub count: u32,
}

impl Read {
    /// Reads the arguments of READ; unreadable where they are not spelled so.
    #[tactic(auto, unfolding(crate::specs::ArgCodecs::read_args))]
    pub fn read(c: &mut Cursor<'_>) -> Result<Read, Unreadable>
        ensures { ReadsPartBy (λ x. x) result (read_args.read c.old) c.new }
    {
        let stateid = Stateid::read(c)?;
        let offset = c.u64()?;
        let count = c.u32()?;
        Ok(Read {
            stateid,
            offset,
            count,
        })
    }
}

/// How safely bytes are to be written (stable_how4).
#[derive(Clone, Copy)]
pub enum StableHow {
    /// UNSTABLE4, 0.
    Unstable,
    /// DATA_SYNC4, 1.
    DataSync,
    /// FILE_SYNC4, 2.
    FileSync,
}

impl StableHow {
    /// Reads how safely bytes are to be written; unreadable where it is not spelled so.
    #[tactic(auto, unfolding(crate::specs::ArgCodecs::stable_how))]
    pub fn read(c: &mut Cursor<'_>) -> Result<StableHow, Unreadable>
        ensures { ReadsPartBy (λ x. x) result (stable_how.read c.old) c.new }
    {
        match c.u32()? {
            0 => Ok(StableHow::Unstable),
            1 => Ok(StableHow::DataSync),
            2 => Ok(StableHow::FileSync),
            _ => Err(Unreadable),
        }
    }
}

/// The arguments of WRITE.
#[derive(Drop)]
pub struct Write<'a> {
    pub stateid: Stateid,
    /// In bytes.
    pub offset: u64,
    pub stable: StableHow,
    /// The bytes that are written, whatever their number.
    pub bytes: Lent<'a>,
}

impl<'a> Write<'a> {
    /// Reads the arguments of WRITE; unreadable where they are not spelled so.
    #[tactic(auto, unfolding(crate::specs::ArgCodecs::write_args))]
    pub fn read(c: &mut Cursor<'a>) -> Result<Write<'a>, Unreadable>
        ensures { ReadsPartBy (λ x. x) result (write_args.read c.old) c.new }
    {
        let stateid = Stateid::read(c)?;
        let offset = c.u64()?;
        let stable = StableHow::read(c)?;
        let bytes = Lent::read(c, u32::MAX)?;
        Ok(Write {
            stateid,
            offset,
            stable,
            bytes,
        })
    }
}

/// The arguments of SETATTR.
#[derive(Drop)]
pub struct SetAttr<'a> {
    pub stateid: Stateid,
    pub obj_attributes: Attributes<'a>,
}

impl<'a> SetAttr<'a> {
    /// Reads the arguments of SETATTR; unreadable where they are not spelled so.
    #[tactic(auto, unfolding(crate::specs::ArgCodecs::set_attr_args))]
    pub fn read(c: &mut Cursor<'a>) -> Result<SetAttr<'a>, Unreadable>
        ensures { ReadsPartBy (λ x. x) result (set_attr_args.read c.old) c.new }
    {
        let stateid = Stateid::read(c)?;
        let obj_attributes = Attributes::read(c)?;
        Ok(SetAttr {
            stateid,
            obj_attributes,
        })
    }
}
