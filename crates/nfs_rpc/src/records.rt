//! Records from the pieces of a stream (RFC 5531 section 11).

ghost use Rattle.std.specs.Prelude.{◌≡◌, ◌≤◌, ◌<◌, List, ℕ, IfOk, IfSome, IfNone, ◌+◌, ◌++◌, [], length, take, true, false};
ghost use Rattle.nfs_xdr.specs.Text.{IsBytes};
ghost use Rattle.nfs_rpc.specs.declared.records.State.TheVariants as States;
ghost use Rattle.nfs_rpc.specs.declared.records.Fed.TheVariants as Feds;
ghost use Rattle.nfs_rpc.specs.RecordMarking.{Part, Gathered, start, is_too_long};
ghost use Rattle.nfs_rpc.specs.RecordMarking as marking;
ghost use Rattle.nfs_rpc.specs.Feeding.{waits, waiting, done_with, AnswersFeed, StandsNow, BeginsWith, IsWhole, Holds};
ghost use Rattle.nfs_rpc.specs.Share.{state_of, at_mark, with_mark, with_data};

use crate::numbers::LAST_FRAGMENT;
use nfs_xdr::MAX_RECORD;
use std::alloc::{AllocError, Global};
use std::marker::Model;

/// The most data bytes of a record.
const LIMIT: usize = MAX_RECORD as usize;

/// What `Records::feed` answers.
#[derive(Clone, Copy, Debug, PartialEq, Eq)]
pub enum Fed {
    /// All of the piece was taken, and no record is whole.
    More,
    /// A record is whole and waits: it ends with the last of this many bytes of the piece. The bytes behind were not taken.
    Whole(usize),
    /// A mark promised more than a record may hold. Nothing more is taken until `Records::reset`.
    TooLong,
}

/// How far the record that is being put together has come.
#[derive(Clone, Copy, Debug, PartialEq, Eq)]
pub(crate) enum State {
    /// It has begun, or nothing of it has come.
    Begun,
    /// It is whole, and waits.
    Complete,
    /// Its marks promise more than a record may hold.
    Failed,
}

/// Puts records together from a stream that comes in pieces of any size (RFC 5531 section 11).
///
/// Contracts see what is held of the stream behind the last record that was done with: the part of a record that has begun,
/// the data of a whole record that waits, or that the record is too long.
#[derive(Drop)]
pub struct Records {
    taken: Vec<u8>,
    mark: [u8; 4],
    marked: usize,
    lacking: usize,
    last: bool,
    state: State,
}

impl Model for Records {
    ghost use Rattle.std.specs.Prelude.{◌+◌, ◌<◌, ◌≤◌, take, vec_len, vec_capacity};
    ghost use Rattle.nfs_xdr.specs.Limits.{most_record};
    ghost use Rattle.nfs_rpc.specs.RecordMarking.{Gathered};

    ghost Value = { Gathered };

    ghost use Rattle.nfs_rpc.specs.Share.{held};

    ghost view = { λ a. held a.state (record { taken = a.taken.items; mark = take a.marked a.mark; lacking = a.lacking; last = a.last }) };

    ghost invariant = { λ a. (a.marked < 4) × (vec_len a.taken + a.lacking ≤ most_record) × (most_record ≤ vec_capacity a.taken) };
}

impl Records {
    /// Nothing is held. The room for a record of 66,560 bytes is made here, and no other call takes memory.
    ///
    /// `AllocError` where memory is refused.
    pub fn new(alloc: Global) -> Result<Records, AllocError>
        ensures { IfOk result (λ r. r ≡ marking.Begun start) }
    {
        let taken = Vec::with_capacity(alloc, LIMIT)?;
        Ok(Records {
            taken,
            mark: [0; 4],
            marked: 0,
            lacking: 0,
            last: false,
            state: State::Begun,
        })
    }

    /// Takes the bytes of a piece of the stream up to the end of a record, or all of them.
    ///
    /// The bytes behind a whole record are to be fed again, once it is done with.
    pub fn feed(&mut self, piece: &[u8]) -> Fed
        requires { waits self.old ≡ false }
        ensures answer { AnswersFeed result self.new (length piece.now) }
        ensures stays { self.old ≡ marking.Failed → result ≡ Feds.TooLong }
        // For all bytes that what is held stands for: with the bytes taken they are what is held now.
        ensures stream { (rest : List ℕ) → IsBytes rest → Holds rest self.old → StandsNow result rest piece.now self.new }
    {
        if self.state() == State::Failed {
            return Fed::TooLong;
        }
        let mut used = 0;
        while used < piece.len() {
            used += self.advance(&piece[used..]);
            match self.state() {
                State::Begun => {}
                State::Complete => return Fed::Whole(used),
                State::Failed => return Fed::TooLong,
            }
        }
        Fed::More
    }

    /// The data of a record that stands whole at the front of the piece, in one fragment, where nothing is held. It is lent from the
    /// piece, and nothing is held behind it either. `None` elsewhere: then the piece is to be fed.
    pub fn whole<'p>(&self, piece: &'p [u8]) -> Option<&'p [u8]>
        ensures some { IfSome result (λ call. IsWhole self.now piece.now call.now) }
        ensures none { IfNone result (self.now ≡ marking.Begun start → (call : List ℕ) → BeginsWith piece.now call → ⊥) }
    {
        if !self.is_fresh() {
            return None;
        }
        let (mark, rest) = piece.split_first_chunk::<4>()?;
        let word = u32::from_be_bytes(*mark);
        let size = (word % LAST_FRAGMENT) as usize;
        if word < LAST_FRAGMENT || size > LIMIT || size > rest.len() {
            return None;
        }
        Some(&rest[..size])
    }

    /// The data bytes of the record that waits, and none where no whole record waits.
    pub fn record(&self) -> &[u8]
        ensures { result.now ≡ waiting self.now }
    {
        match self.state {
            State::Complete => self.taken.as_slice(),
            State::Begun | State::Failed => &[],
        }
    }

    /// Whether the record is too long: each piece is answered `TooLong`, until [`Records::reset`].
    pub fn is_too_long(&self) -> bool
        ensures { result ≡ is_too_long self.now }
    {
        match self.state {
            State::Failed => true,
            State::Begun | State::Complete => false,
        }
    }

    /// The record that waits is done with, and the next one begins. Where none waits nothing changes.
    pub fn take(&mut self)
        ensures { self.new ≡ done_with self.old }
    {
        if self.state == State::Complete {
            self.reset();
        }
    }

    /// Begins anew with an empty stream, whatever was held.
    pub fn reset(&mut self)
        ensures { self.new ≡ marking.Begun start }
    {
        self.taken.clear();
        self.marked = 0;
        self.lacking = 0;
        self.last = false;
        self.state = State::Begun;
    }

    /// Whether nothing is held.
    fn is_fresh(&self) -> bool
        ensures fresh { result ≡ true → self.now ≡ marking.Begun start }
        ensures held { result ≡ false → self.now ≡ marking.Begun start → ⊥ }
    {
        let mark = &self.mark[..self.marked];
        self.state == State::Begun
            && self.taken.is_empty()
            && mark.is_empty()
            && self.lacking == 0
            && !self.last
    }

    fn state(&self) -> State
        ensures { result ≡ state_of self.now }
    {
        self.state
    }

    /// Takes the front of the piece that is of one mark or of one fragment, and answers how many bytes that is.
    fn advance(&mut self, piece: &[u8]) -> usize
        requires begun { state_of self.old ≡ States.Begun }
        requires some { 0 < length piece.now }
        ensures used { (0 < result) × (result ≤ length piece.now) }
        ensures stream { (rest : List ℕ) → IsBytes rest → Holds rest self.old → Holds (rest ++ take result piece.now) self.new }
    {
        if self.lacking == 0 {
            match piece.first_chunk::<4>() {
                // A mark that stands whole in the piece is read where it stands.
                Some(mark) if self.marked == 0 => {
                    self.open_fragment(u32::from_be_bytes(*mark));
                    4
                }
                _ => {
                    let used = (4 - self.marked).min(piece.len());
                    self.take_mark(&piece[..used]);
                    used
                }
            }
        } else {
            let used = self.lacking.min(piece.len());
            self.take_data(&piece[..used]);
            used
        }
    }

    #[tactic(auto, unfolding(crate::specs::Share::with_data))]
    fn take_data(&mut self, bytes: &[u8])
        requires { (p : Part) × (self.old ≡ marking.Begun p) × (length bytes.now ≤ p.lacking) }
        ensures { (p : Part) → self.old ≡ marking.Begun p → self.new ≡ with_data p bytes.now }
    {
        let _ = self.taken.extend_from_slice(bytes);
        self.lacking -= bytes.len();
        if self.lacking == 0 && self.last {
            self.state = State::Complete;
        }
    }

    #[tactic(auto, unfolding(crate::specs::Share::with_mark))]
    fn take_mark(&mut self, bytes: &[u8])
        requires { (p : Part) × (self.old ≡ marking.Begun p) × (p.lacking ≡ 0) × (length p.mark + length bytes.now ≤ 4) }
        ensures { (p : Part) → self.old ≡ marking.Begun p → self.new ≡ with_mark p bytes.now }
    {
        write_behind(&mut self.mark, self.marked, bytes);
        let end = self.marked + bytes.len();
        if end < 4 {
            self.marked = end;
            return;
        }
        self.marked = 0;
        let word = u32::from_be_bytes(self.mark);
        self.open_fragment(word);
    }

    #[tactic(auto, unfolding(crate::specs::Share::at_mark))]
    fn open_fragment(&mut self, word: u32)
        requires { (p : Part) × (self.old ≡ marking.Begun p) × (p.lacking ≡ 0) × (p.mark ≡ []) }
        ensures { (p : Part) → self.old ≡ marking.Begun p → self.new ≡ at_mark p.taken word }
    {
        let size = (word % LAST_FRAGMENT) as usize;
        let last = word >= LAST_FRAGMENT;
        if self.taken.len() + size > LIMIT {
            self.state = State::Failed;
            return;
        }
        self.lacking = size;
        self.last = last;
        if size == 0 && last {
            self.state = State::Complete;
        }
    }
}

/// Writes bytes of a mark behind the first `at`.
#[tactic(auto, using(std::proofs::lemmas::Slice::overwrites))]
fn write_behind(mark: &mut [u8; 4], at: usize, bytes: &[u8])
    requires { at + length bytes.now ≤ 4 }
    ensures front { take (at + length bytes.now) mark.new ≡ take at mark.old ++ bytes.now }
    ensures whole { at + length bytes.now ≡ 4 → mark.new ≡ take at mark.old ++ bytes.now }
{
    mark[at..at + bytes.len()].copy_from_slice(bytes);
}
