//! Why a call is refused (RFC 5531 section 9).

/// Why a credential is refused: auth_stat (RFC 5531 section 9).
#[derive(Clone, Copy, Debug, PartialEq, Eq)]
pub enum AuthStat {
    /// AUTH_BADCRED, 1: the body of an AUTH_SYS credential cannot be read.
    BadCred,
    /// AUTH_REJECTEDCRED, 2: the flavor is neither AUTH_NONE nor AUTH_SYS.
    RejectedCred,
    /// AUTH_TOOWEAK, 5: COMPOUND under AUTH_NONE.
    TooWeak,
}

/// Why an accepted call is not run: accept_stat (RFC 5531 section 9).
#[derive(Clone, Copy, Debug, PartialEq, Eq)]
pub enum AcceptStat {
    /// PROG_UNAVAIL, 1: the program is not 100003.
    ProgUnavail,
    /// PROG_MISMATCH, 2: the version is not 4.
    ProgMismatch,
    /// PROC_UNAVAIL, 3: the procedure is neither NULL nor COMPOUND.
    ProcUnavail,
    /// GARBAGE_ARGS, 4: the arguments cannot be read.
    GarbageArgs,
}

/// Why a record is not a call that is run, with the xid that the reply bears.
#[derive(Clone, Copy, Debug, PartialEq, Eq)]
pub enum Refusal {
    /// The record is no call whose head can be read: nobody is answered.
    Silent,
    /// RPC_MISMATCH: the version of RPC is not 2.
    Mismatch {
        /// The call's number.
        xid: u32,
    },
    /// AUTH_ERROR: the credential is refused.
    Auth {
        /// The call's number.
        xid: u32,
        /// Why.
        stat: AuthStat,
    },
    /// The call is accepted and not run.
    Accept {
        /// The call's number.
        xid: u32,
        /// Why.
        stat: AcceptStat,
    },
}
