//! A slot whose contract binds the number alone: a call that is sent again runs again (RFC 8881 section 2.10.6.1).

ghost use Rattle.std.specs.Prelude.{◌≡◌, ◌==◌, ◌||◌, ◌&&◌, true, false, MatchBool};
ghost use Rattle.nfs_xdr.specs.Numbers.{next_number};

use super::callers::{Caller, call, create_session, done, play};
use super::{EXCHANGE_ID, SETTINGS};
use nfs_serve::Server;
use nfs_testing::bytes_of;
use std::alloc::{AllocError, Global};
use std::test::Fail;

const EXIST: u32 = 17;

/// Slot 0 of client A, and the directory `d`.
const CALLER: Caller = Caller {
    client: 1,
    slot: 0,
    name: [1, 0x6400_0000],
};

/// A slot whose contract says when a number is taken and what is left, and nothing of a repeat.
#[derive(Drop)]
struct NumberSlot {
    number: u32,
    used: bool,
}

impl NumberSlot {
    /// Takes a number that is the next or the last one, to run what came with it. So a repeat is run, which the contract lets pass.
    fn take(&mut self, number: u32) -> bool
        ensures { MatchBool ((number == next_number self.old.number) || (self.old.used && (number == self.old.number))) ((result ≡ true) × (self.new ≡ record { number = number; used = true })) ((result ≡ false) × (self.new ≡ self.old)) }
    {
        if number == self.number.wrapping_add(1) || (self.used && number == self.number) {
            self.number = number;
            self.used = true;
            return true;
        }
        false
    }
}

/// CREATE of `d`, as often as such a slot has it run where it comes with these numbers. What runs is sent under the next number of the
/// server's own slot, which would else stop a repeat.
fn runs(alloc: Global, numbers: &[u32]) -> Result<Vec<(u32, Vec<u8>)>, Fail> {
    let mut slot = NumberSlot {
        number: 0,
        used: false,
    };
    let mut records = Vec::new(alloc);
    records.push((100, bytes_of(alloc, &[&EXCHANGE_ID])?))?;
    records.push((100, bytes_of(alloc, &[&create_session(1)])?))?;
    let mut run: u32 = 0;
    for number in numbers {
        if slot.take(*number) {
            run = run.wrapping_add(1);
            records.push((100, call(alloc, 9, &CALLER, run, true)?))?;
        }
    }
    Ok(records)
}

fn played(alloc: Global, numbers: &[u32]) -> Result<Vec<Vec<u8>>, Fail> {
    let records = runs(alloc, numbers)?;
    let mut server = Server::new(alloc, SETTINGS, 7)?;
    play(&mut server, alloc, records.as_slice())
}

/// The reply where CREATE finds the name: NFS4ERR_EXIST.
fn exists(alloc: Global, number: u32) -> Result<Vec<u8>, AllocError> {
    let head = [9, 1, 0, 0, 0, 0, EXIST, 0, 3];
    let sequence = [53, 0, 7, 1, 0, 1, number, 0, 15, 15, 0, 24, 0];
    bytes_of(alloc, &[&head, &sequence, &[6, EXIST]])
}

#[test]
fn a_contract_of_the_number_alone_runs_a_create_twice(rt: HostRuntime) -> Result<(), Fail> {
    let replies = played(rt.alloc(), &[1, 1, 3])?;
    let wanted = [
        done(rt.alloc(), 9, &CALLER, 1, true, 1)?,
        exists(rt.alloc(), 2)?,
    ];
    assert_eq!(rt; replies.len(), 4);
    for (told, wanted) in replies.iter().skip(2).zip(wanted.iter()) {
        assert_eq!(rt; told.as_slice(), wanted.as_slice());
    }
    Ok(())
}
