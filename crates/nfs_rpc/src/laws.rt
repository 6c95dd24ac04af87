//! Laws of the streams, and of a call's head.

ghost use Rattle.std.specs.Prelude.{◌≡◌, ◌↔◌, ◌≤◌, ◌++◌, ◌∷◌, List, [], ℕ, Some, length, take, drop};
ghost use Rattle.nfs_rpc.specs.RecordMarking.{IsRecord, IsTooLong, Part, IsPart, start};
ghost use Rattle.nfs_rpc.specs.Stream.{IsUnfinished, End, Open, TooLong, IsReading, ReadsOn};
ghost use Rattle.nfs_rpc.specs.declared.refusal.Refusal.{Refusal};
ghost use Rattle.nfs_rpc.specs.Reply.{spell_head, spell_refusal};
ghost use Rattle.nfs_xdr.specs.Caller.{Caller};
ghost use Rattle.nfs_rpc.specs.CallHead.{caller_of, Call, Accepted, behind_header, call_of};
ghost use Rattle.nfs_rpc.specs.HeadCodec.{message_at, header_at, auth_sys_at};
ghost use Rattle.nfs_rpc.specs.Wire.{Header, call_body, rpc_msg, call};
ghost use Rattle.nfs_rpc.specs.Laws.{HasHead, IsUser, Names};
ghost use Rattle.nfs_xdr.specs.AuthSys.{AuthSys};
ghost use Rattle.nfs_xdr.specs.Text.{IsBytes, Leads};
ghost use Rattle.nfs_xdr.specs.Wire.{authsys_parms};

/// One stream is read into records in one way, however it is cut into pieces.
pub fn one_reading()
    ensures some { (stream : List ℕ) → IsBytes stream → (records : List (List ℕ)) × (end : End) × IsReading stream records end }
    ensures one { (stream : List ℕ) (a b : List (List ℕ)) (e f : End) → IsReading stream a e → IsReading stream b f → (a ≡ b) × (e ≡ f) }
    ensures cut { (stream piece rest : List ℕ) (a b : List (List ℕ)) (e : End) → IsReading stream a (Open rest) → IsReading (rest ++ piece) b e → IsReading (stream ++ piece) (a ++ b) e }
{}

/// What is kept of a rest is one, and no record stands in front of a rest of which something is kept.
pub fn one_part()
    ensures empty { IsPart [] start }
    ensures unfinished { (rest : List ℕ) (p : Part) → IsPart rest p → IsUnfinished rest }
    ensures one { (rest : List ℕ) (p q : Part) → IsPart rest p → IsPart rest q → p ≡ q }
{}

/// What each answer to a piece says of the reading of a stream: nothing is whole; a record is, and what stands behind the
/// bytes taken is read on; or it is too long.
pub fn following()
    ensures more { (rest : List ℕ) (p : Part) → IsPart rest p → IsReading rest [] (Open rest) }
    ensures whole { (rest piece : List ℕ) (used : ℕ) → ReadsOn rest piece used }
    ensures too_long { (rest piece : List ℕ) (used : ℕ) → IsTooLong (rest ++ take used piece) → IsReading (rest ++ piece) [] TooLong }
{}

/// The head of an accepted reply has 24 bytes, and the reply to a refused call at most 32.
pub fn lengths()
    ensures head { (xid : ℕ) → length (spell_head xid) ≡ 24 }
    ensures refusal { (refusal : Refusal) → length (spell_refusal refusal) ≤ 32 }
{}

/// The readers give what stands at the front as the wire's text has it. A head that stands there is judged, and a call that is accepted has one.
pub fn heads()
    ensures message { (bytes : List ℕ) (x : (ℕ × ℕ) × List ℕ) → IsBytes bytes → message_at bytes ≡ Some x ↔ Leads rpc_msg bytes x }
    ensures header { (bytes : List ℕ) (x : Header × List ℕ) → IsBytes bytes → header_at bytes ≡ Some x ↔ Leads call_body bytes x }
    ensures judged { (xid : ℕ) (h : Header) (args : List ℕ) → (call xid h).Fits → call_of ((call xid h).bytes ++ args) ≡ behind_header xid h args }
    ensures accepted { (bytes : List ℕ) (c : Call) → IsBytes bytes → call_of bytes ≡ Accepted c → HasHead bytes c }
{}

/// The parameters of AUTH_SYS are read as the wire's text has them, and a body names a caller exactly where it is that text: the user and the groups that stand in it.
pub fn auth_sys_bodies()
    ensures read { (bytes : List ℕ) (x : AuthSys × List ℕ) → IsBytes bytes → auth_sys_at bytes ≡ Some x ↔ Leads authsys_parms bytes x }
    ensures named { (s : AuthSys) → (authsys_parms s).Fits → (who : Caller) × (caller_of (authsys_parms s).bytes ≡ Some who) × IsUser s who }
    ensures taken { (body : List ℕ) (who : Caller) → IsBytes body → caller_of body ≡ Some who → Names body who }
{}
