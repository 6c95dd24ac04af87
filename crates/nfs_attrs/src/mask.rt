//! Which attributes are asked for, set or reported: `bitmap4` (RFC 8881 sections 3.3.7 and 5).

ghost use Rattle.std.specs.Prelude.{◌≡◌, ◌≤◌, ◌<◌, ◌*◌, ◌^◌, ◌%◌, ◌==◌, ◌∷◌, [], ℕ, map, take, drop, length, not, get_or, bit_and, MatchOption};
ghost use Rattle.std.specs.Int.{w32, from_be_bytes, bit_not, trailing_zeros};
ghost use Rattle.std.specs.List.{list_any};
ghost use Rattle.nfs_xdr.specs.SheetState.{HasRoom, Puts};
ghost use Rattle.nfs_attrs.specs.Attributes.{supported, readable};
ghost use Rattle.nfs_attrs.specs.Following.{Follows};
ghost use Rattle.nfs_attrs.specs.Mask.{mask_of, has, asks_set_only, asks_room, trimmed_words, spell_mask, common, within, numbers_of};

use crate::attribute;
use crate::following::{number_follows, numbers_follow};
use crate::spelled::Spelled;
use nfs_tree::Profile;
use nfs_xdr::Cursor;

/// A set of attributes by their numbers: attribute n is bit n mod 32 of word n / 32.
#[derive(Clone, Copy, Debug, PartialEq, Eq)]
pub struct Mask {
    /// The attributes 0 to 31, 32 to 63 and 64 to 95.
    pub words: [u32; 3],
    /// Whether there is one from 96 on.
    pub beyond: bool,
}

/// The word at `index`, which is zero behind the last.
fn word(words: &[[u8; 4]], index: usize) -> u32
    ensures { result ≡ get_or (map (from_be_bytes w32) words.now) index 0 }
{
    words.get(index).map_or(0, |word| u32::from_be_bytes(*word))
}

/// Whether a word behind the third is not zero.
fn any_beyond(words: &[[u8; 4]]) -> bool
    ensures { result ≡ list_any (λ w. not (w == 0)) (drop 3 (map (from_be_bytes w32) words.now)) }
{
    words
        .iter()
        .map(|word| u32::from_be_bytes(*word))
        .skip(3)
        .any(|word| word != 0)
}

/// A word that is not zero, without its lowest one.
fn without_least(word: u32) -> u32
    requires { 0 < word }
    ensures { result ≡ bit_and word (bit_not w32 (1 * 2 ^ trailing_zeros w32 word % 2 ^ 32)) }
{
    word & !(1 << word.trailing_zeros())
}

/// The attributes that the server has in the profile `exact`.
pub const SUPPORTED: Mask = Mask {
    words: [0xf818_0fff, 0x00f1_a03a, 0x0000_0800],
    beyond: false,
};

/// Those that it has in the profile `unix`, which are all: also how many objects and bytes there may be (21 to 23, 42 to 44), and 51.
pub const ALL_SUPPORTED: Mask = Mask {
    words: [0xf8f8_0fff, 0x00f9_bc3a, 0x0000_0800],
    beyond: false,
};

/// The attributes that the server has.
pub fn supported(profile: Profile) -> Mask
    ensures { result ≡ supported profile }
{
    match profile {
        Profile::Exact => SUPPORTED,
        Profile::Unix => ALL_SUPPORTED,
    }
}

/// Those of them that can be read: all but the two that only set a time.
pub fn readable(profile: Profile) -> Mask
    ensures { result ≡ readable profile }
{
    match profile {
        Profile::Exact => Mask {
            words: [0xf818_0fff, 0x00b0_a03a, 0x0000_0800],
            beyond: false,
        },
        Profile::Unix => Mask {
            words: [0xf8f8_0fff, 0x00b8_bc3a, 0x0000_0800],
            beyond: false,
        },
    }
}

/// Those of them that can be set.
pub const SETTABLE: Mask = Mask {
    words: [0x0000_0010, 0x0041_0032, 0x0000_0000],
    beyond: false,
};

impl Mask {
    /// The mask of a list of words, as a request lends it. Words that are not there are zero.
    pub fn new(words: &[[u8; 4]]) -> Mask
        ensures { result ≡ mask_of (map (from_be_bytes w32) words.now) }
    {
        Mask {
            words: [word(words, 0), word(words, 1), word(words, 2)],
            beyond: any_beyond(words),
        }
    }

    /// Whether the attribute of this number is in the mask.
    pub fn has(&self, number: u32) -> bool
        ensures { result ≡ has self.now number }
    {
        let word = self.words.get(number as usize / 32).map_or(0, |word| *word);
        (word >> (number % 32)) % 2 == 1
    }

    /// Whether it has one of the two attributes that can only be set: `time_access_set` and `time_modify_set`.
    pub fn asks_set_only(&self) -> bool
        ensures { result ≡ asks_set_only self.now }
    {
        self.has(attribute::TIME_ACCESS_SET) || self.has(attribute::TIME_MODIFY_SET)
    }

    /// Whether it has one of the attributes that tell how many objects and bytes there may be, or how many more: `files_avail`,
    /// `files_free`, `files_total`, `space_avail`, `space_free` and `space_total`.
    pub fn asks_room(&self) -> bool
        ensures { result ≡ asks_room self.now }
    {
        self.has(attribute::FILES_AVAIL)
            || self.has(attribute::FILES_FREE)
            || self.has(attribute::FILES_TOTAL)
            || self.has(attribute::SPACE_AVAIL)
            || self.has(attribute::SPACE_FREE)
            || self.has(attribute::SPACE_TOTAL)
    }

    /// The words of the mask as it is written: without zero words at its end.
    pub fn trimmed_words(&self) -> &[u32]
        ensures words { result.now ≡ trimmed_words self.now }
        ensures few { length result.now ≤ 3 }
    {
        match self.words {
            [0, 0, 0] => &[],
            [_, 0, 0] => &self.words[..1],
            [_, _, 0] => &self.words[..2],
            _ => &self.words,
        }
    }

    /// How many bytes the mask has as it is written.
    #[tactic(auto, using(crate::proofs::Lengths::measuring))]
    pub fn len(&self) -> usize
        ensures exact { result ≡ length (spell_mask self.now) }
        ensures small { result ≤ 16 }
        ensures words { result % 4 ≡ 0 }
    {
        4 + 4 * self.trimmed_words().len()
    }

    /// Whether each attribute of the mask is one of `others`.
    pub fn within(&self, others: &Mask) -> bool
        ensures { result ≡ within self.now others.now }
    {
        !self.beyond
            && self
                .words
                .iter()
                .zip(&others.words)
                .all(|(word, other)| word & other == *word)
    }

    /// The attributes below 96 that are in both.
    pub fn common(&self, others: &Mask) -> Mask
        ensures { result ≡ common self.now others.now }
    {
        let [a, b, c] = self.words;
        let [x, y, z] = others.words;
        Mask {
            words: [a & x, b & y, c & z],
            beyond: false,
        }
    }

    /// Takes the least attribute below 96 out of the mask; none where there is none.
    pub(crate) fn take_least(&mut self) -> Option<u32>
        ensures { MatchOption result
            (numbers_of self.old ≡ [])
            (λ n. numbers_of self.old ≡ n ∷ numbers_of self.new) }
    {
        match self.words {
            [0, 0, 0] => None,
            [0, 0, word] => {
                self.words[2] = without_least(word);
                Some(64 + word.trailing_zeros())
            }
            [0, word, _] => {
                self.words[1] = without_least(word);
                Some(32 + word.trailing_zeros())
            }
            [word, _, _] => {
                self.words[0] = without_least(word);
                Some(word.trailing_zeros())
            }
        }
    }

    /// Puts the mask: how many words, and the words.
    #[inline(always)]
    #[tactic(auto, using(nfs_xdr::proofs::Putting::putting))]
    pub(crate) fn put(&self, out: &mut Spelled)
        requires room { HasRoom out.old (spell_mask self.now) }
        ensures { Puts out.old out.new (spell_mask self.now) }
    {
        let words = self.trimmed_words();
        out.put_u32(words.len() as u32);
        for word in words {
            out.put_u32(*word);
        }
    }

    /// Whether the mask stands at the cursor as it is written, and the cursor is then behind it.
    pub fn follows(&self, cursor: &mut Cursor<'_>) -> bool
        ensures { Follows result (spell_mask self.now) cursor.old cursor.new }
    {
        let words = self.trimmed_words();
        number_follows(words.len() as u32, cursor) && numbers_follow(words, cursor)
    }
}
