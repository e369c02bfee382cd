//! Words and strings with their places.

ghost use Rattle.std.specs.Prelude.{◌≡◌, ◌++◌, [], ◌∷◌, IfOk, OnOk, Some, None, if◌then◌else◌};
ghost use Rattle.std.specs.Str.{is_utf8};
ghost use Rattle.gser_tree.specs.TextOf.{part_at};
ghost use Rattle.gser_tree.specs.Lexing.{more};

use plain_values::Text;
use std::alloc::{AllocError, Global};
use std::marker::Model;
use std::str;

/// A word, or a string without its quotation marks, and the place of its first octet in the text, from 0.
#[derive(Debug, Drop)]
pub struct Part {
    pub place: usize,
    pub text: Text,
}

/// A part of which octets may still come. Contracts see it as the part so far.
#[derive(Drop)]
pub(crate) struct Draft {
    place: usize,
    octets: Vec<u8>,
}

impl Model for Draft {
    ghost use Rattle.gser_tree.specs.declared.part.Part.{Part};

    ghost Value = { Part };

    ghost view = { λ draft. record { place = draft.place; text = draft.octets.items } };
}

impl Draft {
    /// A part of no octets so far.
    pub(crate) fn new(alloc: Global, place: usize) -> Draft
        ensures exact { result ≡ part_at place [] }
    {
        Draft {
            place,
            octets: Vec::new(alloc),
        }
    }

    /// The part with one more octet.
    pub(crate) fn with(self, octet: u8) -> Result<Draft, AllocError>
        ensures ok { IfOk result (λ draft. draft ≡ more self octet) }
    {
        let Draft { place, mut octets } = self;
        octets.push(octet)?;
        Ok(Draft { place, octets })
    }

    /// The whole part; None where it is no UTF-8.
    pub(crate) fn whole(self) -> Option<Part>
        ensures exact { result ≡ (if is_utf8 self.text then Some self else None) }
    {
        let Draft { place, octets } = self;
        if !is_text(&octets) {
            return None;
        }
        match String::from_utf8(octets) {
            Ok(string) => Some(Part {
                place,
                text: Text::from_string(string),
            }),
            Err(_) => None,
        }
    }
}

// Whether octets are UTF-8.
fn is_text(octets: &[u8]) -> bool
    ensures exact { result ≡ is_utf8 octets.now }
{
    match str::from_utf8(octets) {
        Ok(_) => true,
        Err(_) => false,
    }
}
