//! The numbers of the operations: nfs_opnum4 of RFC 5662.

ghost use Rattle.std.specs.Prelude.{◌≡◌};
ghost use Rattle.nfs_compound.specs.OpNum.{op_number, op_num};

/// The operations that this server reads, under RFC 8881's names (nfs_opnum4 of RFC 5662).
#[derive(Clone, Copy)]
pub enum OpNum {
    /// ACCESS, RFC 8881 section 18.1.
    Access = 3,
    /// CLOSE, RFC 8881 section 18.2.
    Close = 4,
    /// COMMIT, RFC 8881 section 18.3.
    Commit = 5,
    /// CREATE, RFC 8881 section 18.4.
    Create = 6,
    /// GETATTR, RFC 8881 section 18.7.
    GetAttr = 9,
    /// GETFH, RFC 8881 section 18.8.
    GetFh = 10,
    /// LINK, RFC 8881 section 18.9.
    Link = 11,
    /// LOCK, RFC 8881 section 18.10.
    Lock = 12,
    /// LOCKT, RFC 8881 section 18.11.
    LockT = 13,
    /// LOCKU, RFC 8881 section 18.12.
    LockU = 14,
    /// LOOKUP, RFC 8881 section 18.13.
    Lookup = 15,
    /// LOOKUPP, RFC 8881 section 18.14.
    LookupP = 16,
    /// NVERIFY, RFC 8881 section 18.15.
    NVerify = 17,
    /// OPEN, RFC 8881 section 18.16.
    Open = 18,
    /// OPEN_DOWNGRADE, RFC 8881 section 18.18.
    OpenDowngrade = 21,
    /// PUTFH, RFC 8881 section 18.19.
    PutFh = 22,
    /// PUTPUBFH, RFC 8881 section 18.20.
    PutPubFh = 23,
    /// PUTROOTFH, RFC 8881 section 18.21.
    PutRootFh = 24,
    /// READ, RFC 8881 section 18.22.
    Read = 25,
    /// READDIR, RFC 8881 section 18.23.
    ReadDir = 26,
    /// READLINK, RFC 8881 section 18.24.
    ReadLink = 27,
    /// REMOVE, RFC 8881 section 18.25.
    Remove = 28,
    /// RENAME, RFC 8881 section 18.26.
    Rename = 29,
    /// RESTOREFH, RFC 8881 section 18.27.
    RestoreFh = 31,
    /// SAVEFH, RFC 8881 section 18.28.
    SaveFh = 32,
    /// SETATTR, RFC 8881 section 18.30.
    SetAttr = 34,
    /// VERIFY, RFC 8881 section 18.31.
    Verify = 37,
    /// WRITE, RFC 8881 section 18.32.
    Write = 38,
    /// EXCHANGE_ID, RFC 8881 section 18.35.
    ExchangeId = 42,
    /// CREATE_SESSION, RFC 8881 section 18.36.
    CreateSession = 43,
    /// DESTROY_SESSION, RFC 8881 section 18.37.
    DestroySession = 44,
    /// FREE_STATEID, RFC 8881 section 18.38.
    FreeStateid = 45,
    /// SECINFO_NO_NAME, RFC 8881 section 18.45.
    SecinfoNoName = 52,
    /// SEQUENCE, RFC 8881 section 18.46.
    Sequence = 53,
    /// TEST_STATEID, RFC 8881 section 18.48.
    TestStateid = 55,
    /// DESTROY_CLIENTID, RFC 8881 section 18.50.
    DestroyClientId = 57,
    /// RECLAIM_COMPLETE, RFC 8881 section 18.51.
    ReclaimComplete = 58,
}

/// The least number of an operation of minor version 1, whether or not this server reads it: ACCESS.
pub const FIRST_OP: u32 = 3;

/// The greatest: RECLAIM_COMPLETE.
pub const LAST_OP: u32 = 58;

/// The number under which an illegal operation is answered.
pub const OP_ILLEGAL: u32 = 10044;

impl OpNum {
    /// The operation's number (RFC 5662).
    pub fn number(self) -> u32
        ensures { result ≡ op_number self }
    {
        self as u32
    }

    /// The operation that has the number, if this server reads it.
    #[inline(always)]
    pub fn of(number: u32) -> Option<OpNum>
        ensures { result ≡ op_num number }
    {
        match number {
            3 => Some(OpNum::Access),
            4 => Some(OpNum::Close),
            5 => Some(OpNum::Commit),
            6 => Some(OpNum::Create),
            9 => Some(OpNum::GetAttr),
            10 => Some(OpNum::GetFh),
            11 => Some(OpNum::Link),
            12 => Some(OpNum::Lock),
            13 => Some(OpNum::LockT),
            14 => Some(OpNum::LockU),
            15 => Some(OpNum::Lookup),
            16 => Some(OpNum::LookupP),
            17 => Some(OpNum::NVerify),
            18 => Some(OpNum::Open),
            21 => Some(OpNum::OpenDowngrade),
            22 => Some(OpNum::PutFh),
            23 => Some(OpNum::PutPubFh),
            24 => Some(OpNum::PutRootFh),
            25 => Some(OpNum::Read),
            26 => Some(OpNum::ReadDir),
            27 => Some(OpNum::ReadLink),
            28 => Some(OpNum::Remove),
            29 => Some(OpNum::Rename),
            31 => Some(OpNum::RestoreFh),
            32 => Some(OpNum::SaveFh),
            34 => Some(OpNum::SetAttr),
            37 => Some(OpNum::Verify),
            38 => Some(OpNum::Write),
            42 => Some(OpNum::ExchangeId),
            43 => Some(OpNum::CreateSession),
            44 => Some(OpNum::DestroySession),
            45 => Some(OpNum::FreeStateid),
            52 => Some(OpNum::SecinfoNoName),
            53 => Some(OpNum::Sequence),
            55 => Some(OpNum::TestStateid),
            57 => Some(OpNum::DestroyClientId),
            58 => Some(OpNum::ReclaimComplete),
            _ => None,
        }
    }
}
