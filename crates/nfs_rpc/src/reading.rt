//! Reading the head of a call (RFC 5531 sections 8.2 and 9, appendix A).

ghost use Rattle.std.specs.Prelude.{◌≡◌, ◌≤◌, length, IfOk, MatchResult, Some, None};
ghost use Rattle.nfs_xdr.specs.Readers.{ReadsPartBy};
ghost use Rattle.nfs_xdr.specs.Checks.{first_fault};
ghost use Rattle.nfs_xdr.specs.Caller as calling;
ghost use Rattle.nfs_rpc.specs.HeadCodec as codec;
ghost use Rattle.nfs_rpc.specs.CallHead.{call_of, behind_header, caller_of, caller_by, checks, Refused};
ghost use Rattle.nfs_rpc.specs.View as view;
ghost use Rattle.nfs_rpc.specs.View.{IsCalled, IsCaller};

use crate::call::{Call, Header, OpaqueAuth, Procedure};
use crate::numbers::{CALL, COMPOUND, MAX_AUTH, NULL, PROGRAM, RPC_VERSION, VERSION};
use crate::refusal::{AcceptStat, AuthStat, Refusal};
use nfs_xdr::{AUTH_NONE, AUTH_SYS, Cursor, MAX_GROUPS, MAX_MACHINE_NAME, Unreadable, Who};

impl<'a> Call<'a> {
    /// Reads the head of a call from the bytes of a record, by this server's order of checks (docs/PROTOCOL.md); the first
    /// check that fails gives the refusal, which bears the call's xid.
    ///
    /// 1. `Silent`: no xid or message type can be read, or the message is no call.
    /// 2. `Mismatch`: the version of RPC can be read and is not 2.
    /// 3. `Silent`: the rest of the head cannot be read, a credential or verifier above 400 bytes included.
    /// 4. `Auth`: `RejectedCred` for a flavor other than AUTH_NONE and AUTH_SYS, `BadCred` for an AUTH_SYS body that
    ///    cannot be read.
    /// 5. `Accept`: `ProgUnavail`, `ProgMismatch`, `ProcUnavail`.
    /// 6. `Auth`: `TooWeak` for COMPOUND under AUTH_NONE.
    /// 7. `Accept`: `GarbageArgs` for NULL with arguments. The arguments of COMPOUND are not looked at.
    pub fn read(bytes: &'a [u8]) -> Result<Call<'a>, Refusal>
        ensures called { IsCalled result (call_of bytes.now) }
        ensures groups { IfOk result (λ c. length c.who.groups.now ≤ 16) }
    {
        let mut c = Cursor::new(bytes);
        let (xid, header) = head(&mut c)?;
        judge(xid, &header, c.rest())
    }
}

/// The xid and the header of a call of RPC version 2, which stand at the front.
#[tactic(auto, unfolding(crate::specs::CallHead::call_of))]
fn head<'a>(c: &mut Cursor<'a>) -> Result<(u32, Header<'a>), Refusal>
    ensures { MatchResult result (λ h. call_of c.old ≡ behind_header h.0 (view.header h.1) c.new) (λ refusal. call_of c.old ≡ Refused refusal) }
{
    let Ok(xid) = c.u32() else {
        return Err(Refusal::Silent);
    };
    let Ok(kind) = c.u32() else {
        return Err(Refusal::Silent);
    };
    if kind != CALL {
        return Err(Refusal::Silent);
    }
    let Ok(rpcvers) = c.u32() else {
        return Err(Refusal::Silent);
    };
    if rpcvers != RPC_VERSION {
        return Err(Refusal::Mismatch { xid });
    }
    let Ok(header) = header(c) else {
        return Err(Refusal::Silent);
    };
    Ok((xid, header))
}

#[tactic(auto, unfolding(crate::specs::HeadCodec::header))]
fn header<'a>(c: &mut Cursor<'a>) -> Result<Header<'a>, Unreadable>
    ensures { ReadsPartBy view.header result (codec.header.read c.old) c.new }
{
    let program = c.u32()?;
    let version = c.u32()?;
    let procedure = c.u32()?;
    let credential = opaque_auth(c)?;
    let verifier = opaque_auth(c)?;
    Ok(Header {
        program,
        version,
        procedure,
        credential,
        verifier,
    })
}

#[tactic(auto, unfolding(crate::specs::HeadCodec::opaque_auth))]
fn opaque_auth<'a>(c: &mut Cursor<'a>) -> Result<OpaqueAuth<'a>, Unreadable>
    ensures { ReadsPartBy view.opaque_auth result (codec.opaque_auth.read c.old) c.new }
{
    let flavor = c.u32()?;
    let body = c.opaque(MAX_AUTH)?;
    Ok(OpaqueAuth { flavor, body })
}

/// The call behind a header that can be read, or the first check that refuses it.
#[tactic(auto, unfolding(crate::specs::CallHead::behind_header))]
fn judge<'a>(xid: u32, header: &Header<'a>, args: &'a [u8]) -> Result<Call<'a>, Refusal>
    ensures called { IsCalled result (behind_header xid (view.header header.now) args.now) }
    ensures groups { IfOk result (λ c. length c.who.groups.now ≤ 16) }
{
    let who = caller(xid, &header.credential)?;
    if let Some(refusal) = fault(xid, header, args) {
        return Err(refusal);
    }
    let procedure = match header.procedure {
        NULL => Procedure::Null,
        _ => Procedure::Compound,
    };
    Ok(Call {
        xid,
        procedure,
        who,
        args,
    })
}

/// Who calls by a credential of AUTH_NONE, whose body is not looked at, or of AUTH_SYS.
fn caller<'a>(xid: u32, credential: &OpaqueAuth<'a>) -> Result<Who<'a>, Refusal>
    ensures caller { IsCaller result (caller_by xid (view.opaque_auth credential.now)) }
    ensures groups { IfOk result (λ w. length w.groups.now ≤ 16) }
{
    let refusal = |stat| Refusal::Auth { xid, stat };
    match credential.flavor {
        AUTH_NONE => Ok(Who::nobody()),
        AUTH_SYS => auth_sys(credential.body).map_err(|_| refusal(AuthStat::BadCred)),
        _ => Err(refusal(AuthStat::RejectedCred)),
    }
}

/// The first check behind the credential that refuses the call.
fn fault(xid: u32, header: &Header<'_>, args: &[u8]) -> Option<Refusal>
    ensures { result ≡ first_fault (checks xid (view.header header.now) args.now) }
{
    let stat = if header.program != PROGRAM {
        AcceptStat::ProgUnavail
    } else if header.version != VERSION {
        AcceptStat::ProgMismatch
    } else if header.procedure != NULL && header.procedure != COMPOUND {
        AcceptStat::ProcUnavail
    } else if header.procedure == COMPOUND && header.credential.flavor == AUTH_NONE {
        return Some(Refusal::Auth {
            xid,
            stat: AuthStat::TooWeak,
        });
    } else if header.procedure == NULL && !args.is_empty() {
        AcceptStat::GarbageArgs
    } else {
        return None;
    };
    Some(Refusal::Accept { xid, stat })
}

/// Who calls by the body of an AUTH_SYS credential.
#[tactic(auto, unfolding(crate::specs::CallHead::caller_of, nfs_xdr::specs::AuthSys::auth_sys))]
fn auth_sys(body: &[u8]) -> Result<Who<'_>, Unreadable>
    ensures caller { MatchResult result (λ w. caller_of body.now ≡ Some (calling.caller w)) (λ _. caller_of body.now ≡ None) }
    ensures groups { IfOk result (λ w. length w.groups.now ≤ 16) }
{
    let mut c = Cursor::new(body);
    let _stamp = c.u32()?;
    let _machine = c.opaque(MAX_MACHINE_NAME)?;
    let uid = c.u32()?;
    let gid = c.u32()?;
    let groups = c.pieces::<4>()?;
    if groups.len() > MAX_GROUPS || c.left() > 0 {
        return Err(Unreadable);
    }
    Ok(Who { uid, gid, groups })
}
