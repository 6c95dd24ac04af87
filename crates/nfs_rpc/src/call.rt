//! A call and the parts of its head (RFC 5531 section 9).

use nfs_xdr::Who;

/// A procedure of version 4 of program 100003 (RFC 8881 section 16, RFC 5662).
#[derive(Clone, Copy, Debug, PartialEq, Eq)]
pub enum Procedure {
    /// NULL, 0: does nothing, and has no arguments.
    Null,
    /// COMPOUND, 1: operations that run in order.
    Compound,
}

/// A call whose head was read and passed every check (RFC 5531 section 9).
#[derive(Clone, Copy, Debug)]
pub struct Call<'a> {
    /// The call's number, which its reply repeats.
    pub xid: u32,
    /// What is called.
    pub procedure: Procedure,
    /// Who calls.
    pub who: Who<'a>,
    /// The procedure's arguments, lent from the record.
    pub args: &'a [u8],
}

/// A credential or a verifier (RFC 5531 section 8.2).
#[derive(Clone, Copy)]
pub(crate) struct OpaqueAuth<'a> {
    pub(crate) flavor: u32,
    pub(crate) body: &'a [u8],
}

/// What stands behind the version of RPC in a call (RFC 5531 section 9).
#[derive(Clone, Copy)]
pub(crate) struct Header<'a> {
    pub(crate) program: u32,
    pub(crate) version: u32,
    pub(crate) procedure: u32,
    pub(crate) credential: OpaqueAuth<'a>,
    pub(crate) verifier: OpaqueAuth<'a>,
}
