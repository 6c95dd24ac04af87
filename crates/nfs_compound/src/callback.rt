//! The security parameters of callbacks, which are gone over and not looked at: RFC 8881 section 18.36.1.

ghost use Rattle.std.specs.Prelude.{◌≡◌};
ghost use Rattle.nfs_xdr.specs.Readers.{ReadsPartBy};
ghost use Rattle.nfs_xdr.specs.Codec.{array};
ghost use Rattle.nfs_xdr.specs.Combinators.{passed};
ghost use Rattle.nfs_xdr.specs.AuthSys.{auth_sys};
ghost use Rattle.nfs_compound.specs.ArgCodecs.{gss_handles, sec_parms, all_sec_parms};

use nfs_xdr::{AUTH_NONE, AUTH_SYS, Cursor, MAX_GROUPS, MAX_MACHINE_NAME, Unreadable};

/// The flavor of a callback whose parameters are handles of RPCSEC_GSS (RFC 2203).
const RPCSEC_GSS: u32 = 6;

/// The bytes of an array of callback security parameters. Unreadable where one of them is.
pub(crate) fn all_sec_parms<'a>(c: &mut Cursor<'a>) -> Result<&'a [u8], Unreadable>
    ensures { ReadsPartBy (λ x. x.now) result (all_sec_parms.read c.old) c.new }
{
    let bytes = c.rest();
    pass_all(c)?;
    Ok(&bytes[..bytes.len().saturating_sub(c.left())])
}

fn pass_all(c: &mut Cursor<'_>) -> Result<(), Unreadable>
    ensures { ReadsPartBy (λ u. u) result (passed ((array sec_parms).read c.old)) c.new }
{
    let count = c.u32()?;
    for _ in 0..count {
        pass(c)?;
    }
    Ok(())
}

/// Goes over the parameters of one flavor: AUTH_NONE, AUTH_SYS or RPCSEC_GSS.
#[tactic(auto, unfolding(crate::specs::ArgCodecs::sec_parms))]
fn pass(c: &mut Cursor<'_>) -> Result<(), Unreadable>
    ensures { ReadsPartBy (λ u. u) result (passed (sec_parms.read c.old)) c.new }
{
    match c.u32()? {
        AUTH_NONE => Ok(()),
        AUTH_SYS => pass_auth_sys(c),
        RPCSEC_GSS => pass_gss_handles(c),
        _ => Err(Unreadable),
    }
}

#[tactic(auto, unfolding(nfs_xdr::specs::AuthSys::auth_sys))]
fn pass_auth_sys(c: &mut Cursor<'_>) -> Result<(), Unreadable>
    ensures { ReadsPartBy (λ u. u) result (passed (auth_sys.read c.old)) c.new }
{
    c.u32()?;
    c.opaque(MAX_MACHINE_NAME)?;
    c.u32()?;
    c.u32()?;
    let gids = c.pieces::<4>()?;
    if gids.len() > MAX_GROUPS {
        return Err(Unreadable);
    }
    Ok(())
}

#[tactic(auto, unfolding(crate::specs::ArgCodecs::gss_handles))]
fn pass_gss_handles(c: &mut Cursor<'_>) -> Result<(), Unreadable>
    ensures { ReadsPartBy (λ u. u) result (passed (gss_handles.read c.old)) c.new }
{
    c.u32()?;
    c.opaque(u32::MAX)?;
    c.opaque(u32::MAX)?;
    Ok(())
}
