//! What is promised of names and of filehandles.

ghost use Rattle.nfs_promises.specs.Names.{FileStays.{FilesStay, NamelessStays}, FileStaysWorked.{IsKeptOpen, LossesAreRefused}, Handles.HandlesLead};
ghost use Rattle.nfs_promises.specs.Names.{Handles.HandlesTell, HandlesWorked.IsLedBack, KnownHandles.HandlesFollow, KnownHandlesWorked.IsKnown};
ghost use Rattle.nfs_promises.specs.Names.{KnownHandlesWorked.HandlesRefused, ListsAll.{RowsAreListed, NamesAreListed, PagesAreParts, GoneIsUnlisted}};
ghost use Rattle.nfs_promises.specs.Names.{ListsAllWorked.{IsListedInPages, ListingsAreRefused}, NameStays.{NameStays, GoneStays}, NameStaysWorked.LeadsTo};
ghost use Rattle.nfs_promises.specs.Names.{NameStaysWorked.NamesAreRefused, OpenReads.OpensCanRead, StaleTruly.StaleIsTrue, StaleTrulyWorked.IsGone};

/// A filehandle is a file: what a GETFH gave for an object leads back to it by PUTFH, in whatever later record, and to nothing else; and while the object has a name or an
/// open it is not stale. Of two GETFHs the filehandles are the same just where the objects are.
pub fn handles_lead()
    ensures lead { HandlesLead }
    ensures tell { HandlesTell }
{}

/// The definitions compute: a client gets the filehandle of a file, and a later PUTFH of it leads to the file. `handles_lead` refuses a PUTFH that leads to the next
/// object, and one that answers NFS4ERR_STALE while the file has a name.
#[tactic(auto, using(crate::proofs::Names::HandlesWorked::is_led_back))]
pub fn a_handle_leads_back()
    ensures { IsLedBack }
{}

/// Filehandles are as they are known by what was sent and answered: a GETFH behind a PUTFH gives what was put, behind a PUTROOTFH always the same, behind a RESTOREFH what
/// SAVEFH saved, and behind a LOOKUP, CREATE or OPEN of a name what was given for it before. A LINK or a RENAME leads the new name to the object's.
#[tactic(auto, using(crate::proofs::Names::KnownHandles::handles_follow))]
pub fn handles_follow()
    ensures { HandlesFollow }
{}

/// The definitions compute: a client gets a file's filehandle by its name, links the file and renames it; the filehandle is known by each name. That run meets the premises
/// of `handles_follow`.
#[tactic(auto, using(crate::proofs::Names::KnownHandlesWorked::is_known))]
pub fn names_bear_handles()
    ensures { IsKnown }
{}

/// The definitions compute: `handles_follow` refuses a PUTFH that leads to another object or to none, a LINK that makes another object or that leaves the new name out, a
/// RENAME that gives the file another filehandle, a RESTOREFH that leaves the current one, and a root whose filehandle changes.
#[tactic(auto, using(crate::proofs::Names::KnownHandlesWorked::handles_refused))]
pub fn wrong_handles_are_refused()
    ensures { HandlesRefused }
{}

/// In every run an operation is answered NFS4ERR_STALE only where the object of the current filehandle, or of the saved one if it looks at that, has neither a name nor an
/// open; and a PUTFH where that is so of its own object, or another start of the server gave the filehandle.
pub fn stale_objects_are_gone()
    ensures { StaleIsTrue }
{}

/// The definitions compute: a file that has no name is stale behind its last CLOSE, and so is its filehandle; and one that another start gave is stale.
/// `stale_objects_are_gone` refuses a READ and a PUTFH that are answered so while the file is open.
#[tactic(auto, using(crate::proofs::Names::StaleTrulyWorked::is_gone))]
pub fn a_closed_file_is_stale()
    ensures { IsGone }
{}

/// A name leads where it was said: what a CREATE, an OPEN, a LINK, a RENAME or a LOOKUP said of a name in a directory holds, whoever asks, until a REMOVE of it, or a
/// RENAME from it or to it, is answered NFS4_OK.
pub fn names_stay()
    ensures { NameStays }
{}

/// A name that is gone is not found until it is made: behind a REMOVE of it or a RENAME from it that was answered NFS4_OK, or a LOOKUP of it that was answered
/// NFS4ERR_NOENT, no LOOKUP of it is answered NFS4_OK until a CREATE, an OPEN, a LINK or a RENAME to it is.
pub fn gone_names_stay_gone()
    ensures { GoneStays }
{}

/// The definitions compute: a client makes a file, finds it by its name twice, and renames it; the new name leads to the file and the old one nowhere, and once it is
/// removed, neither does the new one. That run meets the premises of `names_stay` and `gone_names_stay_gone`.
#[tactic(auto, using(crate::proofs::Names::NameStaysWorked::leads_to))]
pub fn a_name_leads()
    ensures { LeadsTo }
{}

/// The definitions compute: `names_stay` refuses a LOOKUP that is answered NFS4ERR_NOENT, one that leads to another object and a tree that lost its names; and
/// `gone_names_stay_gone` refuses a RENAME that leaves the old name, and a LOOKUP of it that is answered NFS4_OK.
#[tactic(auto, using(crate::proofs::Names::NameStaysWorked::names_are_refused))]
pub fn wrong_names_are_refused()
    ensures { NamesAreRefused }
{}

/// A file that is open stays when its names go: from an OPEN on that told an open, while no CLOSE of it is answered NFS4_OK and its client renews in time, no PUTFH of
/// the file's filehandle is answered NFS4ERR_STALE, and no operation that looks at the file: as the object of the current filehandle, or of the saved one, where the
/// object of the other one is there too if the operation looks at both.
pub fn open_files_stay()
    ensures { FilesStay }
{}

/// What is open can be had: under the same premises a GETATTR of the file, of whatever can be read, and a READ by the open's stateid, if the open may read, are answered
/// NFS4_OK, or NFS4ERR_REP_TOO_BIG where the reply has no room.
pub fn open_files_can_be_read()
    ensures { OpensCanRead }
{}

/// An object that no name leads to is not named again: no CREATE, OPEN, LOOKUP, LINK or RENAME that is answered NFS4_OK says that a name leads to it.
pub fn nameless_files_stay_nameless()
    ensures { NamelessStays }
{}

/// The definitions compute: a client makes and writes a file, and removes it while it is open; its bytes are read by its filehandle, and its name is not found; behind
/// the CLOSE the filehandle is stale. That run meets the premises of `open_files_stay`, `open_files_can_be_read` and `nameless_files_stay_nameless`.
#[tactic(auto, using(crate::proofs::Names::FileStaysWorked::is_kept_open))]
pub fn a_file_outlasts_its_name()
    ensures { IsKeptOpen }
{}

/// The definitions compute: over that run `open_files_stay` refuses a stale filehandle, a READ that is answered NFS4ERR_STALE and a file that is dropped with its name;
/// `open_files_can_be_read` refuses a READ that is answered NFS4ERR_NOENT, and `reads_are_whole` one that finds the file empty; and `nameless_files_stay_nameless` refuses
/// a name that is there again, and a LOOKUP that leads to the file.
#[tactic(auto, using(crate::proofs::Names::FileStaysWorked::losses_are_refused))]
pub fn wrong_losses_are_refused()
    ensures { LossesAreRefused }
{}

/// A listing in pages lists each name that stands all the while once, with its cookie and the attributes of its object, whatever comes between the pages: by the rows
/// that stand before each of its READDIRs, and by what operations were answered.
pub fn listings_are_whole()
    ensures rows { RowsAreListed }
    ensures names { NamesAreListed }
{}

/// Nothing else is listed: each entry of a page is of a name in the directory before its READDIR, behind the cookie that was asked for, and the cookies rise; a page
/// after which the directory goes on has an entry, and a name is left. A name that was said to lead nowhere is in no page until something may make it.
pub fn nothing_else_is_listed()
    ensures parts { PagesAreParts }
    ensures gone { GoneIsUnlisted }
{}

/// The definitions compute: a client makes three files and lists them in three pages, and removes the first of them behind the first page. That run meets the premises
/// of `listings_are_whole`.
#[tactic(auto, using(crate::proofs::Names::ListsAllWorked::is_listed_in_pages))]
pub fn a_listing_is_whole()
    ensures { IsListedInPages }
{}

/// The definitions compute: `listings_are_whole` refuses pages that skip an entry behind a REMOVE, pages that list one twice, and a READDIR that lists nothing and says
/// that the directory ends; and `nothing_else_is_listed` refuses a name that nobody made, and a page that lists nothing and says that the directory goes on.
#[tactic(auto, using(crate::proofs::Names::ListsAllWorked::listings_are_refused))]
pub fn wrong_listings_are_refused()
    ensures { ListingsAreRefused }
{}
