//! Laws of the table of attributes and of what is spelled.

ghost use Rattle.std.specs.Prelude.{◌≡◌, ◌↔◌, ◌≤◌, ◌&&◌, ℕ, List, Some, true, length, is_some, not};
ghost use Rattle.nfs_xdr.specs.Text.{IsBytes, Leads};
ghost use Rattle.nfs_xdr.specs.Tables.{IsRising};
ghost use Rattle.nfs_tree.specs.declared.object.Object.{Object};
ghost use Rattle.nfs_tree.specs.declared.profile.Profile.TheVariants.{Exact, Unix};
ghost use Rattle.nfs_attrs.specs.Attributes as table;
ghost use Rattle.nfs_attrs.specs.Handle.{handle_of};
ghost use Rattle.nfs_attrs.specs.Laws.{mask_of_lines, AreText};
ghost use Rattle.nfs_attrs.specs.SetTime.{set_time_at};
ghost use Rattle.nfs_attrs.specs.SettingsCodec.{settings_of};
ghost use Rattle.nfs_attrs.specs.Wire.{nfs_fh4, settime4};
ghost use Rattle.nfs_attrs.specs.declared.about.About.{About};
ghost use Rattle.nfs_attrs.specs.declared.handle.Handle.{Handle};
ghost use Rattle.nfs_attrs.specs.declared.mask.Mask.{Mask};
ghost use Rattle.nfs_attrs.specs.declared.set_time.SetTime.{SetTime};

/// The masks are those of the table: of each profile all attributes and those that can be read, and those that can be set; and the table
/// is in rising order.
pub fn masks()
    ensures exact { table.supported Exact ≡ mask_of_lines (λ line. not line.unix) }
    ensures unix { table.supported Unix ≡ mask_of_lines (λ line. true) }
    ensures readable_exact { table.readable Exact ≡ mask_of_lines (λ line. is_some line.value && not line.unix) }
    ensures readable_unix { table.readable Unix ≡ mask_of_lines (λ line. is_some line.value) }
    ensures settable { table.settable ≡ mask_of_lines (λ line. is_some line.set) }
    ensures rising { IsRising (λ line. line.number) 0 table.attributes 96 }
{}

/// The readers give what the wire's text has: of a filehandle, of a time that is set, and of all values that a request sets, of which each is
/// there where its mask has it.
pub fn spellings()
    ensures handles { (bytes : List ℕ) (h : Handle) → IsBytes bytes → handle_of bytes ≡ Some h ↔ AreText bytes (nfs_fh4 h) }
    ensures times { (bytes : List ℕ) (x : SetTime × List ℕ) → IsBytes bytes → set_time_at bytes ≡ Some x ↔ Leads settime4 bytes x }
    ensures settings { (given : Mask) (bytes : List ℕ) (s : table.Settings) → IsBytes bytes → settings_of given bytes ≡ Some s ↔ AreText bytes (table.settings4 given s) }
{}

/// Attributes fit into 632 bytes, whatever is asked: with an operation number and a status they are within 640.
pub fn attributes_fit()
    ensures { (asked : Mask) (a : About) (o : Object) → length (table.spell_attrs asked a o) ≤ 632 }
{}
