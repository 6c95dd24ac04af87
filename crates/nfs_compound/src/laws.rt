//! Laws of the grammar of compounds.

ghost use Rattle.std.specs.Prelude.{◌≡◌, ◌↔◌, ℕ, List, Some, take};
ghost use Rattle.nfs_xdr.specs.Spelling.{number};
ghost use Rattle.nfs_xdr.specs.Text.{IsBytes, Leads};
ghost use Rattle.nfs_compound.specs.declared.op_num.OpNum.{OpNum};
ghost use Rattle.nfs_compound.specs.OpNum.{op_num, op_number};
ghost use Rattle.nfs_compound.specs.declared.op.Op.{Op};
ghost use Rattle.nfs_compound.specs.Arguments.{arguments};
ghost use Rattle.nfs_compound.specs.OpCodec.{operation_at, protected_at};
ghost use Rattle.nfs_compound.specs.ArgCodecs.{protected};
ghost use Rattle.nfs_compound.specs.Request.{spell_op, FitsOp};
ghost use Rattle.nfs_compound.specs.Wire.{protected4, nfs_argop4};
ghost use Rattle.nfs_compound.specs.Laws.{HasOneReading, HasNoOther, IsOneRequest, ReadsRequests, RefusesGarbage};

/// Each operation is read exactly where its text of RFC 5662 stands, and so is an EXCHANGE_ID that wants a state protection that is
/// not served. Each number is its own operation's and no other's.
pub fn arguments()
    ensures table { (bytes : List ℕ) (x : Op × List ℕ) → IsBytes bytes → operation_at bytes ≡ Some x ↔ Leads nfs_argop4 bytes x }
    ensures protected { (bytes : List ℕ) (x : (List ℕ × (List ℕ × (ℕ × ℕ))) × List ℕ) → IsBytes bytes → protected_at bytes ≡ Some x ↔ Leads protected4 bytes x }
    ensures own { (op : OpNum) → op_num (op_number op) ≡ Some op }
    ensures none_else { (n : ℕ) (op : OpNum) → op_num n ≡ Some op → n ≡ op_number op }
{}

/// Each operation is spelled as its structs and unions of RFC 5662 have it, and what has a spelling is just what fits there. It is the
/// operation whose number its text begins with.
pub fn wire()
    ensures number { (op : Op) (n : OpNum) → (arguments op).op ≡ n ↔ take 4 (nfs_argop4 op).bytes ≡ number (op_number n) }
    ensures spelled { (op : Op) → spell_op op ≡ (nfs_argop4 op).bytes }
    ensures fits { (op : Op) → FitsOp op ↔ (nfs_argop4 op).Fits }
{}

/// Each list of bytes is a request or garbage, never both, and it is one request at most.
pub fn one_reading()
    ensures one { HasOneReading }
    ensures no_other { HasNoOther }
    ensures one_request { IsOneRequest }
{}

/// What the reading function gives are the requests, and what it refuses is garbage.
pub fn reading()
    ensures requests { ReadsRequests }
    ensures garbage { RefusesGarbage }
{}
