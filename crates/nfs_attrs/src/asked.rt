//! What is asked for of one object after another.

ghost use Rattle.std.specs.Prelude.{◌≡◌, Some, length};
ghost use Rattle.nfs_xdr.specs.SheetState.{HasRoom, Puts};
ghost use Rattle.nfs_attrs.specs.Attributes.{spell_attrs, readable as readable_of};
ghost use Rattle.nfs_attrs.specs.Asked.{BeginsWith};
ghost use Rattle.nfs_attrs.specs.Mask.{common, spell_mask};

use crate::about::About;
use crate::mask::{Mask, readable};
use crate::spelled::Spelled;
use crate::value::put_values;
use nfs_tree::{Object, Profile};
use nfs_xdr::Sheet;
use std::marker::Model;

/// The attributes that are asked for, decoded once for many objects. Contracts see their mask.
#[derive(Drop)]
pub struct Asked {
    mask: Mask,
    /// For which profile `text` begins with the mask as it is spelled; none before the first object.
    profile: Option<Profile>,
    /// How many bytes of `text` are the mask.
    front: usize,
    /// The attributes of the last object as they are spelled: those of the next need no room of their own, nor their mask to
    /// be spelled again.
    text: Spelled,
}

impl Model for Asked {
    ghost use Rattle.std.specs.Prelude.{◌≡◌};
    ghost use Rattle.nfs_attrs.specs.declared.mask.Mask.{Mask};
    ghost use Rattle.nfs_attrs.specs.Asked.{BeginsWith};

    ghost Value = { Mask };

    ghost view = { λ a. a.mask };

    ghost invariant = { λ a. (a.text.room ≡ 436) × BeginsWith a.profile a.mask a.front a.text.bytes };
}

/// Spells the mask, and answers how many bytes it has.
fn spell_front(mask: &Mask, profile: Profile, text: &mut Spelled) -> usize
    requires room { text.old.room ≡ 436 }
    ensures text { text.new ≡ record text.old { bytes = spell_mask (common mask.now (readable_of profile)) } }
    ensures front { result ≡ length text.new.bytes }
{
    text.cut(0);
    mask.common(&readable(profile)).put(text);
    text.len()
}

/// Has the text begin with the mask, which is spelled unless it was spelled for this profile `last`, and answers how many
/// bytes it has.
fn begin(
    mask: &Mask,
    profile: Profile,
    last: Option<Profile>,
    front: usize,
    text: &mut Spelled,
) -> usize
    requires room { text.old.room ≡ 436 }
    requires begins { BeginsWith last mask.now front text.old.bytes }
    ensures room { text.new.room ≡ 436 }
    ensures begins { BeginsWith (Some profile) mask.now result text.new.bytes }
{
    if last == Some(profile) {
        front
    } else {
        spell_front(mask, profile, text)
    }
}

/// Spells the values of an object behind the mask. The count of their bytes is known when they are spelled, and is then
/// written in its place.
#[inline(always)]
fn spell_behind(front: usize, mask: &Mask, object: &Object, about: &About, text: &mut Spelled)
    requires room { text.old.room ≡ 436 }
    requires begins { BeginsWith (Some about.now.profile) mask.now front text.old.bytes }
    ensures text { text.new ≡ record text.old { bytes = spell_attrs mask.now about.now object.now } }
    ensures begins { BeginsWith (Some about.now.profile) mask.now front text.new.bytes }
{
    text.cut(front);
    text.put_u32(0);
    let before = text.len();
    put_values(mask, object, about, text);
    let count = text.len() - before;
    text.set_u32(front, count as u32);
}

impl Asked {
    /// What a mask asks for.
    pub fn new(mask: Mask) -> Asked
        ensures { result ≡ mask }
    {
        Asked {
            mask,
            profile: None,
            front: 0,
            text: Spelled::new(),
        }
    }

    /// The mask.
    pub fn mask(&self) -> Mask
        ensures { result ≡ self.now }
    {
        self.mask
    }

    /// Puts the attributes of an object. The sheet takes them at once.
    #[inline(always)]
    pub(crate) fn put(&mut self, object: &Object, about: &About, sheet: &mut Sheet)
        requires room { HasRoom sheet.old (spell_attrs self.old about.now object.now) }
        ensures put { Puts sheet.old sheet.new (spell_attrs self.old about.now object.now) }
        ensures same { self.new ≡ self.old }
    {
        self.front = begin(
            &self.mask,
            about.profile,
            self.profile,
            self.front,
            &mut self.text,
        );
        self.profile = Some(about.profile);
        spell_behind(self.front, &self.mask, object, about, &mut self.text);
        sheet.put_bytes(self.text.bytes());
    }
}
