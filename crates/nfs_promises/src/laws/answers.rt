//! What is promised of answers, whatever was asked.

ghost use Rattle.nfs_promises.specs.Answers.{FirstSays.EachFirstSaysSo, FirstSaysWorked.FirstsRefused, Granted.EachIsGranted, Reasons.EachNoHasItsReason, ReasonsWorked.{AreAnsweredSo, AnswersRefused, CutsRefused}, RowsWorked.{AreGranted, RowsRefused, GrantsRefused}, YesIsTrue.{EachYesIsTrue, LookupLeads}, YesIsTrueWorked.{AreAsked, YesesRefused}};

/// In every run what stands behind a SEQUENCE is refused with a reason, a row of the table of statuses: for want of room in the reply or of memory, or by what the server has
/// and was asked; and what is answered NFS4_OK was granted: to LOOKUP, REMOVE and RENAME by the modes, to SETATTR by whose the object is, and a guarded create found the name
/// free.
pub fn each_no_has_its_reason()
    ensures { EachNoHasItsReason }
{}

/// In every run what has no reason to be refused is granted: an operation that no row of the table of statuses refuses, that the reply has room for and that memory is not refused to. A
/// stateid with the seqid of its state, or with 0, is answered neither NFS4ERR_OLD_STATEID nor NFS4ERR_BAD_STATEID, and a LOCK by such a one of bytes that nobody holds in a
/// way that clashes is granted.
pub fn each_is_granted()
    ensures { EachIsGranted }
{}

/// The definitions compute: stateids that LOCK and OPEN answered are taken by LOCKU and CLOSE, an owner locks its byte once more, a file that is there is opened, a directory is made under a free name and an
/// owner sets a file's mode; a guarded create of a name that is there is refused by NFS4ERR_EXIST, a RENAME in a root that its owner alone may change by NFS4ERR_ACCESS, and
/// a SETATTR of the root's mode by another user by NFS4ERR_PERM.
#[tactic(auto, using(crate::proofs::Answers::ReasonsWorked::are_answered_so))]
pub fn refusals_have_reasons()
    ensures { AreAnsweredSo }
{}

/// The definitions compute: `each_no_has_its_reason` refuses a LOCKU and a CLOSE that are answered NFS4ERR_OLD_STATEID or NFS4ERR_BAD_STATEID by a stateid as it was
/// answered, an OPEN of a file that is there that is answered NFS4ERR_EXIST, NFS4ERR_NOENT or NFS4ERR_ISDIR, a CREATE of a free name that is answered NFS4ERR_EXIST, a REMOVE
/// and a RENAME of a name that is there that are answered NFS4ERR_NOENT, a RENAME between directories that is answered NFS4ERR_NOTDIR, a SETATTR by the owner that is answered
/// NFS4ERR_PERM and one by another user that is answered NFS4_OK, a guarded create that opens what is there, a RENAME that asks nobody's permission, and in the profile `unix` a READ that is
/// answered NFS4ERR_ACCESS though the caller may execute the file; and a LOCK that is answered NFS4ERR_DENIED for the owner's own lock.
#[tactic(auto, using(crate::proofs::Answers::ReasonsWorked::answers_refused))]
pub fn wrong_reasons_are_refused()
    ensures { AnswersRefused }
{}

/// The definitions compute: `each_no_has_its_reason` refuses a REMOVE, a LOCKU and a READ that are answered NFS4ERR_REP_TOO_BIG where the reply has room, and a REMOVE that is answered NFS4ERR_DELAY where there
/// is memory.
#[tactic(auto, using(crate::proofs::Answers::ReasonsWorked::cuts_refused))]
pub fn wrong_cuts_are_refused()
    ensures { CutsRefused }
{}

/// The definitions compute: a name is found, a filehandle put, a link made, a reclaim completed, an attribute compared and a byte locked.
#[tactic(auto, using(crate::proofs::Answers::RowsWorked::are_granted))]
pub fn requests_are_granted()
    ensures { AreGranted }
{}

/// The definitions compute: `each_no_has_its_reason` refuses, for each row of its table that `wrong_reasons_are_refused` has no answer for, a request that was answered NFS4_OK
/// and is refused by the row's status, among these LOCKED, SHARE_DENIED, OPENMODE and DENIED. And `each_is_granted` refuses a LOCKU that is refused for the stateid
/// that LOCK answered, and a LOCK of a byte that nobody has locked that is denied.
#[tactic(auto, using(crate::proofs::Answers::RowsWorked::rows_refused, crate::proofs::Answers::RowsWorked::grants_refused))]
pub fn wrong_rows_are_refused()
    ensures rows { RowsRefused }
    ensures grants { GrantsRefused }
{}

/// In every run what an operation answers with NFS4_OK is so: ACCESS of the user's rights, GETATTR and READDIR of each attribute of an object, GETFH of its filehandle, LOCKT of the locks
/// of others, LOOKUP of the name, READLINK of the link's text, TEST_STATEID of the client's states, WRITE and COMMIT of the verifier. OPEN opened, OPEN_DOWNGRADE downgraded, LOCK
/// locked and LOCKU unlocked, each what was asked, and tells the stateid of that open or lock state with its seqid; and CLOSE closed.
#[tactic(auto, using(crate::proofs::Answers::YesIsTrue::each_yes_is_true))]
pub fn each_yes_is_true()
    ensures { EachYesIsTrue }
{}

/// In every run an operation behind a LOOKUP has the object of the name as the current one.
pub fn a_lookup_leads()
    ensures { LookupLeads }
{}

/// In every run what stands first in a compound is refused with a reason, a row of another table, or is a repeat and answered what is kept, or what it answers is so: SEQUENCE
/// tells the session's last slot and no flag, EXCHANGE_ID the id, the number and the state of a record of its owner, CREATE_SESSION the channel that is kept and as many
/// slots, and DESTROY_SESSION and DESTROY_CLIENTID leave none.
pub fn each_first_says_so()
    ensures { EachFirstSaysSo }
{}

/// The definitions compute: `each_first_says_so` refuses a SEQUENCE that says that all state was revoked, one that says that the session has more slots, one that is
/// refused by NFS4ERR_BADSLOT on a slot of its session, a CREATE_SESSION that tells more slots than the session has, and an EXCHANGE_ID that tells a newcomer another client's id.
#[tactic(auto, using(crate::proofs::Answers::FirstSaysWorked::firsts_refused))]
pub fn wrong_firsts_are_refused()
    ensures { FirstsRefused }
{}

/// The definitions compute: LOCKT is denied for the lock of another client, and GETATTR, READDIR, ACCESS, READLINK, TEST_STATEID and COMMIT are answered.
#[tactic(auto, using(crate::proofs::Answers::YesIsTrueWorked::are_asked))]
pub fn questions_are_answered()
    ensures { AreAsked }
{}

/// The definitions compute: `each_yes_is_true` refuses a LOCKT that finds no lock where another client has locked the byte, a GETATTR that answers the root's fileid or
/// another mode, a READDIR that answers it with an entry, an ACCESS that grants the owner nothing, a READLINK that answers no text, a TEST_STATEID that calls an open's stateid bad, an OPEN, an
/// OPEN_DOWNGRADE, a LOCK, a LOCKU and a CLOSE that change nothing, a LOCK that locks the byte behind, an OPEN, a LOCK, a LOCKU and a CLOSE that tell another stateid or another seqid, a WRITE that
/// answers UNSTABLE4, a COMMIT that answers another verifier, and a LOOKUP of a name that is not there that is answered NFS4_OK.
#[tactic(auto, using(crate::proofs::Answers::YesIsTrueWorked::yeses_refused))]
pub fn wrong_yeses_are_refused()
    ensures { YesesRefused }
{}
