//! EXCHANGE_ID, CREATE_SESSION and SEQUENCE: RFC 8881 sections 18.35, 18.36 and 18.46.

ghost use Rattle.std.specs.Prelude.{◌≡◌, is_some};
ghost use Rattle.nfs_xdr.specs.Readers.{ReadsPartBy};
ghost use Rattle.nfs_xdr.specs.Combinators.{in_arm, passed};
ghost use Rattle.nfs_compound.specs.ArgCodecs.{impl_id, exchange_id_args, protected, create_session_args, sequence_args};

use crate::callback::all_sec_parms;
use crate::channel_attrs::ChannelAttrs;
use crate::lent::Lent;
use nfs_xdr::{Cursor, OPAQUE_LIMIT, Time, Unreadable};

/// No state protection (RFC 8881 section 18.35).
pub const SP4_NONE: u32 = 0;

/// State protection by machine credentials.
const SP4_MACH_CRED: u32 = 1;

/// State protection by a secret that client and server share.
const SP4_SSV: u32 = 2;

/// Who made a client, and when (nfs_impl_id4).
#[derive(Drop)]
pub struct ImplId<'a> {
    pub domain: Lent<'a>,
    pub name: Lent<'a>,
    pub date: Time,
}

impl<'a> ImplId<'a> {
    /// Reads who made a client, and when; unreadable where it is not spelled so.
    #[tactic(auto, unfolding(crate::specs::ArgCodecs::impl_id))]
    pub fn read(c: &mut Cursor<'a>) -> Result<ImplId<'a>, Unreadable>
        ensures { ReadsPartBy (λ x. x) result (impl_id.read c.old) c.new }
    {
        let domain = Lent::read(c, u32::MAX)?;
        let name = Lent::read(c, u32::MAX)?;
        let date = c.time()?;
        Ok(ImplId { domain, name, date })
    }
}

/// The arguments of EXCHANGE_ID with no state protection.
#[derive(Drop)]
pub struct ExchangeId<'a> {
    pub verifier: [u8; 8],
    /// At most 1,024 bytes.
    pub ownerid: Lent<'a>,
    pub flags: u32,
    pub impl_id: Option<ImplId<'a>>,
}

impl<'a> ExchangeId<'a> {
    /// Reads the arguments of EXCHANGE_ID with no state protection; unreadable where they are not spelled so.
    #[tactic(auto, unfolding(crate::specs::ArgCodecs::exchange_id_args))]
    pub fn read(c: &mut Cursor<'a>) -> Result<ExchangeId<'a>, Unreadable>
        ensures { ReadsPartBy (λ x. x) result (exchange_id_args.read c.old) c.new }
    {
        let verifier = c.fixed::<8>()?;
        let ownerid = Lent::read(c, OPAQUE_LIMIT)?;
        let flags = c.u32()?;
        if c.u32()? != SP4_NONE {
            return Err(Unreadable);
        }
        let impl_id = if c.flag()? {
            Some(ImplId::read(c)?)
        } else {
            None
        };
        Ok(ExchangeId {
            verifier,
            ownerid,
            flags,
            impl_id,
        })
    }

    /// Whether an EXCHANGE_ID stands here up to a state protection that is not served.
    pub fn wants_protection(bytes: &[u8]) -> bool
        ensures { result ≡ is_some (protected.read bytes.now) }
    {
        protection(&mut Cursor::new(bytes)).is_ok()
    }
}

#[tactic(auto, unfolding(crate::specs::ArgCodecs::protected))]
fn protection(c: &mut Cursor<'_>) -> Result<u32, Unreadable>
    ensures { ReadsPartBy (λ n. n) result (in_arm (λ x. x.1.1.1) (protected.read c.old)) c.new }
{
    c.fixed::<8>()?;
    c.opaque(OPAQUE_LIMIT)?;
    c.u32()?;
    match c.u32()? {
        how @ (SP4_MACH_CRED | SP4_SSV) => Ok(how),
        _ => Err(Unreadable),
    }
}

/// The arguments of CREATE_SESSION.
#[derive(Drop)]
pub struct CreateSession<'a> {
    pub clientid: u64,
    pub sequence: u32,
    pub flags: u32,
    pub fore_chan_attrs: ChannelAttrs,
    pub back_chan_attrs: ChannelAttrs,
    pub cb_program: u32,
    /// The security parameters of callbacks as they are spelled; nothing looks at them.
    pub sec_parms: Lent<'a>,
}

impl<'a> CreateSession<'a> {
    /// Reads the arguments of CREATE_SESSION; unreadable where they are not spelled so.
    #[tactic(auto, unfolding(crate::specs::ArgCodecs::create_session_args))]
    pub fn read(c: &mut Cursor<'a>) -> Result<CreateSession<'a>, Unreadable>
        ensures { ReadsPartBy (λ x. x) result (create_session_args.read c.old) c.new }
    {
        let clientid = c.u64()?;
        let sequence = c.u32()?;
        let flags = c.u32()?;
        let fore_chan_attrs = ChannelAttrs::read(c)?;
        let back_chan_attrs = ChannelAttrs::read(c)?;
        let cb_program = c.u32()?;
        let sec_parms = Lent::of(all_sec_parms(c)?);
        Ok(CreateSession {
            clientid,
            sequence,
            flags,
            fore_chan_attrs,
            back_chan_attrs,
            cb_program,
            sec_parms,
        })
    }
}

/// The arguments of SEQUENCE.
#[derive(Clone, Copy)]
pub struct Sequence {
    pub sessionid: [u8; 16],
    pub sequenceid: u32,
    pub slotid: u32,
    pub highest_slotid: u32,
    pub cachethis: bool,
}

impl Sequence {
    /// Reads the arguments of SEQUENCE; unreadable where they are not spelled so.
    #[tactic(auto, unfolding(crate::specs::ArgCodecs::sequence_args))]
    pub fn read(c: &mut Cursor<'_>) -> Result<Sequence, Unreadable>
        ensures { ReadsPartBy (λ s. s) result (sequence_args.read c.old) c.new }
    {
        let sessionid = c.fixed::<16>()?;
        let sequenceid = c.u32()?;
        let slotid = c.u32()?;
        let highest_slotid = c.u32()?;
        let cachethis = c.flag()?;
        Ok(Sequence {
            sessionid,
            sequenceid,
            slotid,
            highest_slotid,
            cachethis,
        })
    }

    /// Passes over the arguments of SEQUENCE, with [`Sequence::read`]'s refusals.
    #[tactic(auto, unfolding(crate::specs::ArgCodecs::sequence_args))]
    pub(crate) fn pass(c: &mut Cursor<'_>) -> Result<(), Unreadable>
        ensures { ReadsPartBy (λ u. u) result (passed (sequence_args.read c.old)) c.new }
    {
        c.fixed::<16>()?;
        c.u32()?;
        c.u32()?;
        c.u32()?;
        c.flag()?;
        Ok(())
    }
}
