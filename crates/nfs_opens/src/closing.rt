//! CLOSE, the end of a client, and FREE_STATEID (RFC 8881 sections 18.2, 8.4.2 and 18.38).

ghost use Rattle.std.specs.Prelude.{◌≡◌, ◌==◌, false, not, filter, IfSome};
ghost use Rattle.std.specs.List.{list_any};
ghost use Rattle.nfs_ranges.specs.Holders.{dropped};
ghost use Rattle.nfs_opens.specs.Holding.{held_by, on_file, is_listed, ListsNoMore};
ghost use Rattle.nfs_opens.specs.Table.{table, open_at, answer_of, table_after};
ghost use Rattle.nfs_opens.specs.TableInvariants.{AreHolders};
ghost use Rattle.nfs_opens.specs.Closing.{without_open, close, lock_in, free};
ghost use Rattle.nfs_opens.specs.Calls.{without_client, drop_client, held_without};

use crate::judging::{Seat, Sort};
use crate::lock_states::LockStates;
use crate::locked_files::LockedFiles;
use crate::opens::Opens;
use crate::stateid::StateId;
use nfs_xdr::Status;

/// A lock state of a file goes, with the bytes that it holds.
fn leave_one(files: &mut LockedFiles, locks: &mut LockStates, file: u64, number: u64)
    ensures held { held_by files.new ≡ on_file (held_by files.old) file (λ h. dropped h number) }
    ensures listed { ListsNoMore files.old files.new }
    ensures locks { locks.new.items ≡ filter (λ l. not (l.number == number)) locks.old.items }
{
    files.drop_state(file, number);
    locks.remove(number);
}

/// The lock states under an open go, with the bytes that they hold.
fn leave_open(files: &mut LockedFiles, locks: &mut LockStates, opened: u64)
    ensures held { held_by files.new ≡ held_without (λ l. l.opened == opened) locks.old.items (held_by files.old) }
    ensures listed { ListsNoMore files.old files.new }
    ensures locks { locks.new.items ≡ filter (λ l. not (l.opened == opened)) locks.old.items }
{
    while let Some(lock) = locks.first_under(opened) {
        let (file, number) = (lock.file, lock.number);
        leave_one(files, locks, file, number);
    }
}

/// A file on which no lock state stands is no longer listed.
fn forget_unlocked(files: &mut LockedFiles, locks: &LockStates, file: u64)
    requires { AreHolders locks.now.items (held_by files.old) }
    ensures held { held_by files.new ≡ held_by files.old }
    ensures gone { list_any (λ l. l.file == file) locks.now.items ≡ false → is_listed file files.new ≡ false }
    ensures listed { ListsNoMore files.old files.new }
{
    if !locks.is_on(file) {
        files.forget(file);
    }
}

/// The lock state that FREE_STATEID may free: an open goes by CLOSE alone.
fn lock_in(seat: Seat) -> Result<u64, Status>
    ensures { result ≡ lock_in seat }
{
    match seat {
        Seat::Lock { number, .. } => Ok(number),
        Seat::Open { .. } => Err(Status::LocksHeld),
        Seat::Anonymous | Seat::ReadBypass => Err(Status::BadStateId),
    }
}

impl Opens {
    /// CLOSE: the open goes, with its lock states and the bytes that they hold.
    ///
    /// `id` and `file` are judged as of an open. A refusal changes nothing.
    pub fn close(&mut self, id: StateId, client: u64, file: u64) -> Result<(), Status>
        ensures answer { result ≡ answer_of (close (table self.old) id client file) }
        ensures after { table self.new ≡ table_after (table self.old) (close (table self.old) id client file) }
        ensures room { self.new.ready ≡ self.old.ready }
    {
        self.judge(id, client, Some(file), Sort::OpenOnly)?;
        self.remove_open(id.number, file);
        Ok(())
    }

    /// Removes one open of a client, with its lock states and the bytes that they hold, and returns its file. `None`: the
    /// client has no open left.
    pub fn drop_client(&mut self, client: u64) -> Option<u64>
        ensures file { result ≡ (drop_client (table self.old) client).file }
        ensures after { table self.new ≡ (drop_client (table self.old) client).after }
        ensures room { self.new.ready ≡ self.old.ready }
    {
        match self.first_of(client) {
            Some(open) => {
                let (number, file) = (open.number, open.file);
                self.remove_open(number, file);
                Some(file)
            }
            None => None,
        }
    }

    /// What a client leaves goes: its opens, with its lock states and the bytes that they hold. Each is found by a search:
    /// states of other clients are not walked over.
    pub fn end_client(&mut self, client: u64)
        ensures after { table self.new ≡ without_client (table self.old) client }
        ensures room { self.new.ready ≡ self.old.ready }
    {
        while let Some(open) = self.first_of(client) {
            let (opened, file) = (open.number, open.file);
            self.remove_open(opened, file);
        }
    }

    /// `file`: the open's.
    fn remove_open(&mut self, number: u64, file: u64)
        requires { IfSome (open_at (table self.old) number) (λ o. o.file ≡ file) }
        ensures after { table self.new ≡ without_open (table self.old) number }
        ensures room { self.new.ready ≡ self.old.ready }
    {
        leave_open(&mut self.files, &mut self.locks, number);
        self.opens.remove(number);
        forget_unlocked(&mut self.files, &self.locks, file);
    }

    /// FREE_STATEID: a lock state that holds no byte goes.
    ///
    /// `id` is judged as a lock state's or an open's of any file, and a special stateid is BAD_STATEID; then LOCKS_HELD
    /// for an open, and for a lock state that holds a byte. A refusal changes nothing.
    pub fn free(&mut self, id: StateId, client: u64) -> Result<(), Status>
        ensures answer { result ≡ answer_of (free (table self.old) id client) }
        ensures after { table self.new ≡ table_after (table self.old) (free (table self.old) id client) }
        ensures room { self.new.ready ≡ self.old.ready }
    {
        let number = lock_in(self.judge(id, client, None, Sort::Either)?)?;
        let file = match self.locks.get(number) {
            Some(lock) => lock.file,
            None => return Err(Status::BadStateId),
        };
        if self.files.any(file, number) {
            return Err(Status::LocksHeld);
        }
        self.locks.remove(number);
        forget_unlocked(&mut self.files, &self.locks, file);
        Ok(())
    }
}
