//! Objects that are looked up one after another.

ghost use Rattle.std.specs.Prelude.{◌≡◌, ℕ, length, option_copied, option_map};
ghost use Rattle.nfs_tree.specs.{declared.object.Object.Object, declared.stored.Size.Size, Stored.{content_of, size_of}};
ghost use Rattle.nfs_tree.specs.Files.{stored_in};

use crate::object::Object;
use crate::rising::Rising;
use crate::stored::{Body, Size, Stored};
use crate::tree::Tree;
use std::marker::Model;

/// The objects by their numbers, where the next number or the one behind it is often the one that is looked for, as in a
/// directory whose entries were made in turn. Contracts see the list of the objects.
#[derive(Drop)]
pub struct InTurn<'a> {
    /// Those behind the numbers of a turn are the next.
    pub(crate) objects: Rising<'a, Body, Stored>,
    /// The number that was looked for last.
    pub(crate) last: u64,
}

impl<'a> Model for InTurn<'a> {
    ghost use Rattle.std.specs.Prelude.{List};
    ghost use Rattle.nfs_tree.specs.declared.stored.Stored.{Stored};

    ghost Value = { List Stored };

    ghost view = { λ t. t.objects };
}

/// An object, and how many bytes and pages it has.
pub(crate) fn with_size(body: Option<&Body>) -> Option<(&Object, Size)>
    ensures { option_map {U = Object × Size} (λ p. (p.0.now, p.1)) result ≡ option_map {U = Object × Size} (λ b. (b.object, size_of b.bytes)) (option_copied body.entry) }
{
    match body {
        Some(body) => Some((&body.object, body.size())),
        None => None,
    }
}

impl<'a> InTurn<'a> {
    /// The object of a number, if there is one, and how many bytes and pages it has.
    pub fn object_and_size(&mut self, number: u64) -> Option<(&'a Object, Size)>
        ensures found { option_map {U = Object × Size} (λ p. (p.0.now, p.1)) result ≡ option_map {U = Object × Size} (λ s. (s.object, size_of (content_of s))) (stored_in self.old number) }
        ensures same { self.new ≡ self.old }
    {
        let ahead = number.wrapping_sub(self.last);
        self.last = number;
        if ahead > 2 {
            return with_size(self.objects.sought(number));
        }
        if let Some(body) = self.objects.near(number) {
            return with_size(Some(body));
        }
        self.objects.go_behind(number);
        with_size(self.objects.sought(number))
    }
}

impl Tree {
    /// The objects, to be looked up one after another: as [`Tree::object_and_size`], and sooner where each number is the next or
    /// the one behind it, from this one on.
    pub fn in_turn(&self, number: u64) -> InTurn<'_>
        ensures { result ≡ self.now.objects }
    {
        self.objects.in_turn(number)
    }
}
