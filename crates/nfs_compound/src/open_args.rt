//! OPEN, OPEN_DOWNGRADE and CLOSE: RFC 8881 sections 18.16, 18.18 and 18.2.

ghost use Rattle.nfs_xdr.specs.Readers.{ReadsPartBy};
ghost use Rattle.nfs_compound.specs.OpenCodecs.{create_how, open_how, delegation_type, open_claim, open_args, open_downgrade_args, close_args};

use crate::attributes::Attributes;
use crate::lent::Lent;
use crate::state_owner::StateOwner;
use crate::stateid::Stateid;
use nfs_xdr::{Cursor, Unreadable};

/// How a file is made (createhow4).
#[derive(Drop)]
pub enum CreateHow<'a> {
    /// UNCHECKED4, mode 0.
    Unchecked {
        createattrs: Attributes<'a>,
    },
    /// GUARDED4, mode 1.
    Guarded {
        createattrs: Attributes<'a>,
    },
    /// EXCLUSIVE4, mode 2.
    Exclusive {
        createverf: [u8; 8],
    },
    /// EXCLUSIVE4_1, mode 3.
    Exclusive41 {
        verf: [u8; 8],
        attrs: Attributes<'a>,
    },
}

impl<'a> CreateHow<'a> {
    /// Reads how a file is made; unreadable where it is not spelled so.
    #[tactic(auto, unfolding(crate::specs::OpenCodecs::create_how))]
    pub fn read(c: &mut Cursor<'a>) -> Result<CreateHow<'a>, Unreadable>
        ensures { ReadsPartBy (λ x. x) result (create_how.read c.old) c.new }
    {
        match c.u32()? {
            0 => Ok(CreateHow::Unchecked {
                createattrs: Attributes::read(c)?,
            }),
            1 => Ok(CreateHow::Guarded {
                createattrs: Attributes::read(c)?,
            }),
            2 => Ok(CreateHow::Exclusive {
                createverf: c.fixed::<8>()?,
            }),
            3 => {
                let verf = c.fixed::<8>()?;
                let attrs = Attributes::read(c)?;
                Ok(CreateHow::Exclusive41 { verf, attrs })
            }
            _ => Err(Unreadable),
        }
    }
}

/// Whether a file is made (openflag4).
#[derive(Drop)]
pub enum OpenHow<'a> {
    /// OPEN4_NOCREATE, 0.
    NoCreate,
    /// OPEN4_CREATE, 1.
    Create(CreateHow<'a>),
}

impl<'a> OpenHow<'a> {
    /// Reads whether a file is made; unreadable where it is not spelled so.
    #[tactic(auto, unfolding(crate::specs::OpenCodecs::open_how))]
    pub fn read(c: &mut Cursor<'a>) -> Result<OpenHow<'a>, Unreadable>
        ensures { ReadsPartBy (λ x. x) result (open_how.read c.old) c.new }
    {
        match c.u32()? {
            0 => Ok(OpenHow::NoCreate),
            1 => Ok(OpenHow::Create(CreateHow::read(c)?)),
            _ => Err(Unreadable),
        }
    }
}

/// The kind of a delegation (open_delegation_type4).
#[derive(Clone, Copy)]
pub enum DelegationType {
    /// OPEN_DELEGATE_NONE, 0.
    NoDelegation,
    /// OPEN_DELEGATE_READ, 1.
    ReadDelegation,
    /// OPEN_DELEGATE_WRITE, 2.
    WriteDelegation,
    /// OPEN_DELEGATE_NONE_EXT, 3.
    NoDelegationExt,
}

impl DelegationType {
    /// Reads the kind of a delegation; unreadable where it is not spelled so.
    #[tactic(auto, unfolding(crate::specs::OpenCodecs::delegation_type))]
    pub fn read(c: &mut Cursor<'_>) -> Result<DelegationType, Unreadable>
        ensures { ReadsPartBy (λ d. d) result (delegation_type.read c.old) c.new }
    {
        match c.u32()? {
            0 => Ok(DelegationType::NoDelegation),
            1 => Ok(DelegationType::ReadDelegation),
            2 => Ok(DelegationType::WriteDelegation),
            3 => Ok(DelegationType::NoDelegationExt),
            _ => Err(Unreadable),
        }
    }
}

/// What is opened (open_claim4).
#[derive(Drop)]
pub enum OpenClaim<'a> {
    /// CLAIM_NULL, 0: the file of this name in the current directory.
    Null {
        file: Lent<'a>,
    },
    /// CLAIM_PREVIOUS, 1.
    Previous {
        delegate_type: DelegationType,
    },
    /// CLAIM_DELEGATE_CUR, 2.
    DelegateCur {
        delegate_stateid: Stateid,
        file: Lent<'a>,
    },
    /// CLAIM_DELEGATE_PREV, 3.
    DelegatePrev {
        file: Lent<'a>,
    },
    /// CLAIM_FH, 4: the current filehandle.
    Fh,
    /// CLAIM_DELEG_CUR_FH, 5.
    DelegCurFh {
        delegate_stateid: Stateid,
    },
    /// CLAIM_DELEG_PREV_FH, 6.
    DelegPrevFh,
}

impl<'a> OpenClaim<'a> {
    /// Reads what is opened; unreadable where it is not spelled so.
    #[tactic(auto, unfolding(crate::specs::OpenCodecs::open_claim))]
    pub fn read(c: &mut Cursor<'a>) -> Result<OpenClaim<'a>, Unreadable>
        ensures { ReadsPartBy (λ x. x) result (open_claim.read c.old) c.new }
    {
        match c.u32()? {
            0 => Ok(OpenClaim::Null {
                file: Lent::read(c, u32::MAX)?,
            }),
            1 => Ok(OpenClaim::Previous {
                delegate_type: DelegationType::read(c)?,
            }),
            2 => {
                let delegate_stateid = Stateid::read(c)?;
                let file = Lent::read(c, u32::MAX)?;
                Ok(OpenClaim::DelegateCur {
                    delegate_stateid,
                    file,
                })
            }
            3 => Ok(OpenClaim::DelegatePrev {
                file: Lent::read(c, u32::MAX)?,
            }),
            4 => Ok(OpenClaim::Fh),
            5 => Ok(OpenClaim::DelegCurFh {
                delegate_stateid: Stateid::read(c)?,
            }),
            6 => Ok(OpenClaim::DelegPrevFh),
            _ => Err(Unreadable),
        }
    }
}

/// The arguments of OPEN. Access and deny are any numbers.
#[derive(Drop)]
pub struct Open<'a> {
    pub seqid: u32,
    pub share_access: u32,
    pub share_deny: u32,
    pub owner: StateOwner<'a>,
    pub openhow: OpenHow<'a>,
    pub claim: OpenClaim<'a>,
}

impl<'a> Open<'a> {
    /// Reads the arguments of OPEN; unreadable where they are not spelled so.
    #[tactic(auto, unfolding(crate::specs::OpenCodecs::open_args))]
    pub fn read(c: &mut Cursor<'a>) -> Result<Open<'a>, Unreadable>
        ensures { ReadsPartBy (λ x. x) result (open_args.read c.old) c.new }
    {
        let seqid = c.u32()?;
        let share_access = c.u32()?;
        let share_deny = c.u32()?;
        let owner = StateOwner::read(c)?;
        let openhow = OpenHow::read(c)?;
        let claim = OpenClaim::read(c)?;
        Ok(Open {
            seqid,
            share_access,
            share_deny,
            owner,
            openhow,
            claim,
        })
    }
}

/// The arguments of OPEN_DOWNGRADE. Access and deny are any numbers.
#[derive(Clone, Copy)]
pub struct OpenDowngrade {
    pub open_stateid: Stateid,
    pub seqid: u32,
    pub share_access: u32,
    pub share_deny: u32,
}

impl OpenDowngrade {
    /// Reads the arguments of OPEN_DOWNGRADE; unreadable where they are not spelled so.
    #[tactic(auto, unfolding(crate::specs::OpenCodecs::open_downgrade_args))]
    pub fn read(c: &mut Cursor<'_>) -> Result<OpenDowngrade, Unreadable>
        ensures { ReadsPartBy (λ o. o) result (open_downgrade_args.read c.old) c.new }
    {
        let open_stateid = Stateid::read(c)?;
        let seqid = c.u32()?;
        let share_access = c.u32()?;
        let share_deny = c.u32()?;
        Ok(OpenDowngrade {
            open_stateid,
            seqid,
            share_access,
            share_deny,
        })
    }
}

/// The arguments of CLOSE.
#[derive(Clone, Copy)]
pub struct Close {
    pub seqid: u32,
    pub open_stateid: Stateid,
}

impl Close {
    /// Reads the arguments of CLOSE; unreadable where they are not spelled so.
    #[tactic(auto, unfolding(crate::specs::OpenCodecs::close_args))]
    pub fn read(c: &mut Cursor<'_>) -> Result<Close, Unreadable>
        ensures { ReadsPartBy (λ o. o) result (close_args.read c.old) c.new }
    {
        let seqid = c.u32()?;
        let open_stateid = Stateid::read(c)?;
        Ok(Close {
            seqid,
            open_stateid,
        })
    }
}
