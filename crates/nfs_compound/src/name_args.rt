//! CREATE, READDIR, RENAME and SECINFO_NO_NAME: RFC 8881 sections 18.4, 18.23, 18.26 and 18.45.

ghost use Rattle.nfs_xdr.specs.Readers.{ReadsPartBy};
ghost use Rattle.nfs_compound.specs.ArgCodecs.{spec_data, create_type, create_args, read_dir_args, rename_args, secinfo_style};

use crate::attributes::{Attributes, Bitmap};
use crate::lent::Lent;
use nfs_xdr::{Cursor, Unreadable};

/// The numbers of a device (specdata4).
#[derive(Clone, Copy)]
pub struct SpecData {
    pub specdata1: u32,
    pub specdata2: u32,
}

impl SpecData {
    /// Reads the numbers of a device; unreadable where they are not spelled so.
    #[tactic(auto, unfolding(crate::specs::ArgCodecs::spec_data))]
    pub fn read(c: &mut Cursor<'_>) -> Result<SpecData, Unreadable>
        ensures { ReadsPartBy (λ d. d) result (spec_data.read c.old) c.new }
    {
        let specdata1 = c.u32()?;
        let specdata2 = c.u32()?;
        Ok(SpecData {
            specdata1,
            specdata2,
        })
    }
}

/// The type of an object that is made (createtype4 with the numbers of nfs_ftype4).
#[derive(Drop)]
pub enum CreateType<'a> {
    /// NF4BLK, 3.
    Block(SpecData),
    /// NF4CHR, 4.
    Character(SpecData),
    /// NF4LNK, 5.
    Symlink { linkdata: Lent<'a> },
    /// Any other number, behind which nothing stands: 2 is NF4DIR.
    Other { objtype: u32 },
}

impl<'a> CreateType<'a> {
    /// Reads the type of an object that is made; unreadable where it is not spelled so.
    #[tactic(auto, unfolding(crate::specs::ArgCodecs::create_type))]
    pub fn read(c: &mut Cursor<'a>) -> Result<CreateType<'a>, Unreadable>
        ensures { ReadsPartBy (λ x. x) result (create_type.read c.old) c.new }
    {
        match c.u32()? {
            3 => Ok(CreateType::Block(SpecData::read(c)?)),
            4 => Ok(CreateType::Character(SpecData::read(c)?)),
            5 => Ok(CreateType::Symlink {
                linkdata: Lent::read(c, u32::MAX)?,
            }),
            objtype => Ok(CreateType::Other { objtype }),
        }
    }
}

/// The arguments of CREATE.
#[derive(Drop)]
pub struct Create<'a> {
    pub objtype: CreateType<'a>,
    pub objname: Lent<'a>,
    pub createattrs: Attributes<'a>,
}

impl<'a> Create<'a> {
    /// Reads the arguments of CREATE; unreadable where they are not spelled so.
    #[tactic(auto, unfolding(crate::specs::ArgCodecs::create_args))]
    pub fn read(c: &mut Cursor<'a>) -> Result<Create<'a>, Unreadable>
        ensures { ReadsPartBy (λ x. x) result (create_args.read c.old) c.new }
    {
        let objtype = CreateType::read(c)?;
        let objname = Lent::read(c, u32::MAX)?;
        let createattrs = Attributes::read(c)?;
        Ok(Create {
            objtype,
            objname,
            createattrs,
        })
    }
}

/// The arguments of READDIR.
#[derive(Drop)]
pub struct ReadDir<'a> {
    pub cookie: u64,
    pub cookieverf: [u8; 8],
    /// In bytes.
    pub dircount: u32,
    /// In bytes.
    pub maxcount: u32,
    pub attr_request: Bitmap<'a>,
}

impl<'a> ReadDir<'a> {
    /// Reads the arguments of READDIR; unreadable where they are not spelled so.
    #[tactic(auto, unfolding(crate::specs::ArgCodecs::read_dir_args))]
    pub fn read(c: &mut Cursor<'a>) -> Result<ReadDir<'a>, Unreadable>
        ensures { ReadsPartBy (λ x. x) result (read_dir_args.read c.old) c.new }
    {
        let cookie = c.u64()?;
        let cookieverf = c.fixed::<8>()?;
        let dircount = c.u32()?;
        let maxcount = c.u32()?;
        let attr_request = Bitmap::read(c)?;
        Ok(ReadDir {
            cookie,
            cookieverf,
            dircount,
            maxcount,
            attr_request,
        })
    }
}

/// The arguments of RENAME.
#[derive(Drop)]
pub struct Rename<'a> {
    pub oldname: Lent<'a>,
    pub newname: Lent<'a>,
}

impl<'a> Rename<'a> {
    /// Reads the arguments of RENAME; unreadable where they are not spelled so.
    #[tactic(auto, unfolding(crate::specs::ArgCodecs::rename_args))]
    pub fn read(c: &mut Cursor<'a>) -> Result<Rename<'a>, Unreadable>
        ensures { ReadsPartBy (λ x. x) result (rename_args.read c.old) c.new }
    {
        let oldname = Lent::read(c, u32::MAX)?;
        let newname = Lent::read(c, u32::MAX)?;
        Ok(Rename { oldname, newname })
    }
}

/// Whose flavors SECINFO_NO_NAME asks for (secinfo_style4).
#[derive(Clone, Copy)]
pub enum SecinfoStyle {
    /// SECINFO_STYLE4_CURRENT_FH, 0.
    CurrentFh,
    /// SECINFO_STYLE4_PARENT, 1.
    Parent,
}

impl SecinfoStyle {
    /// Reads whose flavors are asked for; unreadable where it is not spelled so.
    #[tactic(auto, unfolding(crate::specs::ArgCodecs::secinfo_style))]
    pub fn read(c: &mut Cursor<'_>) -> Result<SecinfoStyle, Unreadable>
        ensures { ReadsPartBy (λ s. s) result (secinfo_style.read c.old) c.new }
    {
        match c.u32()? {
            0 => Ok(SecinfoStyle::CurrentFh),
            1 => Ok(SecinfoStyle::Parent),
            _ => Err(Unreadable),
        }
    }
}
