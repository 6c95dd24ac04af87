//! Laws of the table of results (RFC 5662).

ghost use Rattle.nfs_results.specs.CompoundResult.{CompoundResult, result_at, compound_result_at};
ghost use Rattle.std.specs.Prelude.{◌≡◌, ◌↔◌, ◌+◌, ◌++◌, ℕ, List, Some, length, true};
ghost use Rattle.std.specs.List.{flat_map};
ghost use Rattle.nfs_xdr.specs.Spelling.{number, padding};
ghost use Rattle.nfs_xdr.specs.declared.status.Status.{Status};
ghost use Rattle.nfs_xdr.specs.Text.{IsBytes, ◌then◌, bool, Leads, BeginsNoOther};
ghost use Rattle.nfs_compound.specs.declared.op_num.OpNum.TheVariants as Num;
ghost use Rattle.nfs_results.specs.declared.res.Entry.{Entry};
ghost use Rattle.nfs_results.specs.declared.res.Fattr.{Fattr};
ghost use Rattle.nfs_results.specs.declared.res.ReadOk.{ReadOk};
ghost use Rattle.nfs_results.specs.declared.res.ReadDirOk.{ReadDirOk};
ghost use Rattle.nfs_results.specs.declared.res.Res.{Res};
ghost use Rattle.nfs_results.specs.declared.res.Res.TheVariants as Res;
ghost use Rattle.nfs_results.specs.Results.{spell_result, spell_compound_head, done_head};
ghost use Rattle.nfs_results.specs.Parts.{parts};
ghost use Rattle.nfs_results.specs.Straight.{read_head, read_end, read_dir_head, entry_text, list_end, test_stateid_head};
ghost use Rattle.nfs_results.specs.Wire.{fattr4, entry4, nfs_resop4, result4, compound4res};

/// Each result has the operation's number, the status and the bytes behind them that its structs and unions of RFC 5662 have, and what has a
/// spelling is just what fits there.
pub fn wire()
    ensures operation { (r : Res) → (parts r).operation ≡ (nfs_resop4 r).operation }
    ensures status { (r : Res) → (parts r).status ≡ (nfs_resop4 r).status }
    ensures spelled { (r : Res) → (parts r).behind ≡ (nfs_resop4 r).behind.bytes }
    ensures fits { (r : Res) → (parts r).Fits ↔ (nfs_resop4 r).behind.Fits }
{}

/// What READDIR puts of an entry is a bool that says that it follows, and entry4 of RFC 5662.
#[tactic(auto, using(crate::proofs::WireLaws::entry_is))]
pub fn entries()
    ensures { (e : Entry) → entry_text e ≡ (bool true then entry4 e).bytes }
{}

/// Each result, and each compound's result, is read exactly where its text stands, and none begins another.
pub fn results()
    ensures results { (bytes : List ℕ) (x : Res × List ℕ) → IsBytes bytes → result_at bytes ≡ Some x ↔ Leads result4 bytes x }
    ensures compounds { (bytes : List ℕ) (x : CompoundResult × List ℕ) → IsBytes bytes → compound_result_at bytes ≡ Some x ↔ Leads compound4res bytes x }
    ensures result_ends { BeginsNoOther result4 }
    ensures compound_ends { BeginsNoOther compound4res }
{}

/// The parts that are put straight from where bytes are kept make up their results.
pub fn parts()
    ensures read { (r : ReadOk) → spell_result (Res.Read r) ≡ read_head r.eof (length r.bytes) ++ (r.bytes ++ read_end (length r.bytes)) }
    ensures listed { (r : ReadDirOk) → spell_result (Res.ReadDir r) ≡ read_dir_head r.cookieverf ++ (flat_map entry_text r.entries ++ list_end r.eof) }
    ensures attributes { (f : Fattr) → spell_result (Res.GetAttr f) ≡ done_head Num.GetAttr ++ (fattr4 f).bytes }
    ensures codes { (codes : List ℕ) → spell_result (Res.TestStateid codes) ≡ test_stateid_head (length codes) ++ flat_map number codes }
{}

/// The head of a compound's result has its status, its tag in whole words behind their number, and its count; a result has its operation's
/// number and its status in front of the rest.
#[tactic(auto, using(crate::proofs::Lengths::length_compound_head, crate::proofs::Lengths::length_spelled))]
pub fn lengths()
    ensures compound { (status : Status) (tag : List ℕ) (count : ℕ) → length (spell_compound_head status tag count) ≡ 12 + length tag + padding (length tag) }
    ensures result { (r : Res) → length (spell_result r) ≡ 8 + length (parts r).behind }
{}
