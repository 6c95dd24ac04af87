//! What is promised of the bytes of files and of the change attribute.

ghost use Rattle.nfs_promises.specs.Bytes.ChangeSeenWorked as change_seen;
ghost use Rattle.nfs_promises.specs.Bytes.{ChangeNames.NamesAreAlike, ChangeNamesWorked.{IsFoundAgain, FindingsAreRefused}, ChangeSeen.ReportsAreTrue};
ghost use Rattle.nfs_promises.specs.Bytes.{ChangeSeen.ChangesAreNew, ChangeTells.{ChangeTells, ReadsAreAlike, AttributesAreAlike, ChangeIsTold}};
ghost use Rattle.nfs_promises.specs.Bytes.{ChangeTellsWorked.{ToldByChange, ToldByAttributes, ChangesAreRefused}, ChangesFit.{ChangesFit, ChangeIsRead}};
ghost use Rattle.nfs_promises.specs.Bytes.{ChangesFit.LastStays, ChangesFitWorked.ChangesAtLast, CloseToOpen.CloseToOpen, CloseToOpenWorked.IsKept};
ghost use Rattle.nfs_promises.specs.Bytes.{CloseToOpenWorked.StaleBytesRefused, EntriesAlike.EntriesAreAlike, EntriesAlikeWorked.IsToldAlike};
ghost use Rattle.nfs_promises.specs.Bytes.{EntriesAlikeWorked.{EntriesAreRefused, AttributesAreRefused}, FileRead.ReadsAreWhole, FileReadWorked.IsReadWhole};
ghost use Rattle.nfs_promises.specs.Bytes.{FileReadWorked.ReadsAreRefused, HandleBytes.BytesFollow, HandleBytesWorked.AreReadBack, WrittenStays.BytesStay};
ghost use Rattle.nfs_promises.specs.Bytes.{TimesRise.{TimesRise, TimesAreTold}, TimesRiseWorked.{TimesAreTwo, TimesAreRefused}};
ghost use Rattle.nfs_promises.specs.Bytes.WrittenStaysWorked.{StaysTo, BytesRefused};

/// What was written to a filehandle is read from it, by whomever, until a WRITE, a SETATTR of a size or an OPEN that sets it 0 changes the byte, of what may be that file by
/// what was sent and answered.
pub fn written_handles_are_read()
    ensures { BytesFollow }
{}

/// The definitions compute: a client puts a file's filehandle and writes, puts it again and reads. That run meets the premises of `written_handles_are_read`, which refuses a
/// READ that is answered zeros.
#[tactic(auto, using(crate::proofs::Bytes::HandleBytesWorked::are_read_back))]
pub fn a_handle_is_read()
    ensures { AreReadBack }
{}

/// Bytes written stay until they are changed: a byte that a WRITE brought, which answered NFS4_OK and a count, is what every later READ of it is given, until an
/// operation that is answered NFS4_OK changes it: a WRITE over it, a SETATTR of a size at or below it, or an OPEN that sets the size 0.
pub fn written_bytes_stay()
    ensures { BytesStay }
{}

/// The definitions compute: a client makes a file, writes it, writes more behind a gap, closes it and reads it. That run meets the premises of
/// `written_bytes_stay`.
#[tactic(auto, using(crate::proofs::Bytes::WrittenStaysWorked::stays_to))]
pub fn a_write_stays()
    ensures { StaysTo }
{}

/// The definitions compute: `written_bytes_stay` refuses a READ that is answered zeros, one that is answered no bytes, and a file that is gone at its last CLOSE
/// while it has a name.
#[tactic(auto, using(crate::proofs::Bytes::WrittenStaysWorked::bytes_refused))]
pub fn wrong_bytes_are_refused()
    ensures { BytesRefused }
{}

/// While an object's change is the same, so are its bytes, its attributes, the number of its names, and its entries; and its change does not fall.
pub fn change_tells()
    ensures { ChangeTells }
{}

/// While a file's change is the same, two READs of the same bytes that are answered NFS4_OK are answered the same, whoever asks for them.
pub fn reads_are_alike()
    ensures { ReadsAreAlike }
{}

/// While an object's change is the same, two GETATTRs of the same attributes that are answered NFS4_OK are answered the same: in `unix` if they ask for neither 21 nor 22,
/// which are the file system's.
pub fn attributes_are_alike()
    ensures { AttributesAreAlike }
{}

/// In every run READDIR tells of an object what GETATTR of it does, of the same attributes, as long as its change is the same; and so do two READDIRs.
pub fn entries_are_alike()
    ensures { EntriesAreAlike }
{}

/// The definitions compute: a file is written twice, and a GETATTR asks for its change, size, mode and number of names; a later READDIR of the root gives the same. That
/// run meets the premises of `entries_are_alike`.
#[tactic(auto, using(crate::proofs::Bytes::EntriesAlikeWorked::is_told_alike))]
pub fn an_entry_is_alike()
    ensures { IsToldAlike }
{}

/// The definitions compute: over that run `entries_are_alike` refuses an entry that gives the size from before the second WRITE, one that gives change 1, and one that gives
/// the attributes of another object.
#[tactic(auto, using(crate::proofs::Bytes::EntriesAlikeWorked::entries_are_refused))]
pub fn wrong_entries_are_refused()
    ensures { EntriesAreRefused }
{}

/// The definitions compute: over that run `attributes_are_alike` refuses a GETATTR that gives another mode while the change is the same, and `change_is_told` one that gives
/// change 1.
#[tactic(auto, using(crate::proofs::Bytes::EntriesAlikeWorked::attributes_are_refused))]
pub fn wrong_attributes_are_refused()
    ensures { AttributesAreRefused }
{}

/// In every run a GETATTR of attribute 3, whatever else it asks for, that answers NFS4_OK gives the object's change.
#[tactic(auto, using(crate::proofs::Bytes::ChangeTells::change_is_told))]
pub fn change_is_told()
    ensures { ChangeIsTold }
{}

/// While a directory's change is the same, each name in it leads to the same object, or to none, and a listing has the same entries; and of two LOOKUPs of a name neither
/// finds it where the other finds none.
pub fn names_are_alike()
    ensures { NamesAreAlike }
{}

/// The definitions compute: a name is looked up twice in the root, whose change is the same. That run meets the premises of `names_are_alike`.
#[tactic(auto, using(crate::proofs::Bytes::ChangeNamesWorked::is_found_again))]
pub fn a_name_is_found_again()
    ensures { IsFoundAgain }
{}

/// The definitions compute: over that run `names_are_alike` refuses a second LOOKUP that is answered NFS4ERR_NOENT, and a first one.
#[tactic(auto, using(crate::proofs::Bytes::ChangeNamesWorked::findings_are_refused))]
pub fn wrong_findings_are_refused()
    ensures { FindingsAreRefused }
{}

/// What CREATE, LINK, OPEN, REMOVE and RENAME report of a directory's change, if they are answered NFS4_OK, is its change before and behind the operation, with nothing
/// in between.
#[tactic(auto, using(crate::proofs::Bytes::ChangeSeen::reports_are_true))]
pub fn reports_are_true()
    ensures { ReportsAreTrue }
{}

/// A change is seen: an operation that changes an object, and is answered NFS4_OK, gives it a change that is greater than at any moment before.
pub fn changes_are_new()
    ensures { ChangesAreNew }
{}

/// In `unix` times tell too: of two changes that were answered NFS4_OK, of one object or of two, the later gives the later time, within a second as well, as long as the
/// nanoseconds do not come to 10^9; and another one, as long as fewer than 10^9 operations ran between. A GETATTR of the times gives them.
pub fn times_rise()
    ensures rise { TimesRise }
    ensures told { TimesAreTold }
{}

/// In every run the change of an object is below 2^64; so the number that a GETATTR gives for it is the change itself; and what would change an object that has the last
/// one is not answered NFS4_OK.
pub fn changes_fit()
    ensures fit { ChangesFit }
    ensures read { ChangeIsRead }
    ensures last { LastStays }
{}

/// The definitions compute: in `unix` a file is written twice within one second, and a GETATTR behind each tells two times, of which the later is that of the second. That run
/// meets the premises of `times_rise`.
#[tactic(auto, using(crate::proofs::Bytes::TimesRiseWorked::times_are_two))]
pub fn a_time_is_later()
    ensures { TimesAreTwo }
{}

/// The definitions compute: over that run `times_rise` refuses a second WRITE that leaves the times of the first, one that gives whole seconds, and one that leaves the time of
/// the bytes alone.
#[tactic(auto, using(crate::proofs::Bytes::TimesRiseWorked::times_are_refused))]
pub fn wrong_times_are_refused()
    ensures { TimesAreRefused }
{}

/// The definitions compute: `changes_fit` refuses a GETATTR that gives the low eight bytes of the change 2^64 + 1, which are 1, and a WRITE to a file that has the last
/// change, answered NFS4_OK.
#[tactic(auto, using(crate::proofs::Bytes::ChangesFitWorked::changes_at_last))]
pub fn changes_at_last_are_refused()
    ensures { ChangesAtLast }
{}

/// Close-to-open: a client asks for a file's change, reads, and asks for the change once more; if it is the same, then what was read is what the last WRITE brought,
/// whoever sent that, and whenever. So who opens a file behind another's CLOSE, and finds the change that it has kept, has kept the bytes of that other.
pub fn close_to_open()
    ensures { CloseToOpen }
{}

/// The definitions compute: a client asks for a file's change and reads it; another one writes it and closes; the first one opens it and finds another change, reads, opens it once
/// more, and finds the change that it has kept. That run meets the premises of `close_to_open`.
#[tactic(auto, using(crate::proofs::Bytes::CloseToOpenWorked::is_kept))]
pub fn what_is_kept_is_read()
    ensures { IsKept }
{}

/// The definitions compute: over that run `close_to_open` refuses a server whose WRITE keeps the change, since what the client kept is not what was written.
#[tactic(auto, using(crate::proofs::Bytes::CloseToOpenWorked::stale_refused))]
pub fn stale_bytes_are_refused()
    ensures { StaleBytesRefused }
{}

/// The definitions compute: OPEN makes a file, and reports the change of its directory; the file is written, and its change rises. That run meets the premises of
/// `changes_are_new` and `reports_are_true`.
#[tactic(auto, using(crate::proofs::Bytes::ChangeSeenWorked::is_seen))]
pub fn a_change_is_seen()
    ensures { change_seen.IsSeen }
{}

/// The definitions compute: `reports_are_true` refuses an OPEN that reports its directory's change as before, and one that reports that something came between; and
/// `changes_are_new` refuses a WRITE that keeps the change.
#[tactic(auto, using(crate::proofs::Bytes::ChangeSeenWorked::reports_are_refused))]
pub fn wrong_reports_are_refused()
    ensures { change_seen.ReportsAreRefused }
{}

/// The definitions compute: a file is written, and its change rises; then it is read twice, and its change is the same, and so is the answer. Then its attributes are
/// asked for twice. That run meets the premises of `change_tells`, `reads_are_alike` and `attributes_are_alike`.
#[tactic(auto, using(crate::proofs::Bytes::ChangeTellsWorked::told_by_change, crate::proofs::Bytes::ChangeTellsWorked::told_by_attributes))]
pub fn a_change_tells()
    ensures bytes { ToldByChange }
    ensures attributes { ToldByAttributes }
{}

/// The definitions compute: `change_tells` refuses a WRITE that keeps the change, a SETATTR that sets it back, a LINK that keeps it and a REMOVE that keeps the directory's; and
/// `reads_are_alike` refuses a second READ that is answered zeros.
#[tactic(auto, using(crate::proofs::Bytes::ChangeTellsWorked::changes_are_refused))]
pub fn wrong_changes_are_refused()
    ensures { ChangesAreRefused }
{}

/// What nobody wrote is zero: from the OPEN on that made a file, each READ of it that is answered NFS4_OK is given at each place what the last WRITE, cut or growth
/// left there, and zero where there was none, up to the file's end; and is told whether it came to that end.
pub fn reads_are_whole()
    ensures { ReadsAreWhole }
{}

/// The definitions compute: a file is made, written, and written behind a gap; it is read, cut, grows and is read once more. That run meets the premises of
/// `reads_are_whole`.
#[tactic(auto, using(crate::proofs::Bytes::FileReadWorked::is_read_whole))]
pub fn a_file_is_read_whole()
    ensures { IsReadWhole }
{}

/// The definitions compute: over that run `reads_are_whole` refuses a gap that is not zero, a growth that shows what was cut off, a READ of the whole file that tells
/// that it goes on, and one of fewer bytes that tells that it ends there.
#[tactic(auto, using(crate::proofs::Bytes::FileReadWorked::reads_are_refused))]
pub fn wrong_reads_are_refused()
    ensures { ReadsAreRefused }
{}
