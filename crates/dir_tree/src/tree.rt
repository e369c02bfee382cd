//! The tree: entries in the order of their names, each known by a number.

ghost use Rattle.std.specs.Prelude.{◌≡◌, ◌<◌, ◌≤◌, [], length, take, map, Option, None, if◌then◌else◌, nat_le};
ghost use Rattle.std.specs.List.{AllByRecursion};
ghost use Rattle.std.specs.Option.{option_map};

use crate::entry::Entry;
use crate::number::EntryNo;
use crate::slots::entry_at;
use dn_names::Dn;
use std::alloc::Global;
use std::collections::BTreeMap;
use std::marker::Model;

/// A tree of at most 200,000 entries. Contracts see the list of the entries with their numbers, in the order of
/// the names.
#[derive(Debug, Drop)]
pub struct Tree {
    pub(crate) slots: Vec<Option<Entry>>,
    pub(crate) places: BTreeMap<Vec<u8>, u32>,
    pub(crate) low: usize,
    pub(crate) subentries: Vec<EntryNo>,
}

impl Model for Tree {
    ghost use Rattle.std.specs.Prelude.{List};
    ghost use Rattle.std.specs.BTreeMap.{values};
    ghost use Rattle.dir_tree.specs.tree.Numbered.{Numbered};
    ghost use Rattle.dir_tree.specs.slots.Slots.{rows_of, numbers_in};
    ghost use Rattle.dir_tree.specs.Maps.{IsMapped};

    ghost Value = { List Numbered };

    ghost view = { λ tree. rows_of tree.slots.items (values tree.places) };

    ghost invariant = { λ tree.
        IsMapped (λ key. key.items) tree.slots.items tree.places.entries (numbers_in tree.subentries.items) };
}

impl Tree {
    ghost use Rattle.dir_tree.specs.tree.Trees.{most_entries};
    ghost use Rattle.dir_tree.specs.tree.Numbered.{IsNumberedTree, ids_of, entries_of, subentry_rows, entry_of, suffix_of, find_name, find_front, superior_of};

    /// A tree without entries. Takes no memory.
    pub fn new(alloc: Global) -> Tree
        ensures exact { result ≡ [] }
    {
        Tree {
            slots: Vec::new(alloc),
            places: BTreeMap::new(alloc),
            low: 0,
            subentries: Vec::new(alloc),
        }
    }

    /// Computes nothing: what it ensures is the law that the entries are those of a tree.
    pub fn entries_form_a_tree(&self)
        ensures exact { IsNumberedTree self.now }
    {
        let _places = &self.places;
    }

    /// The number of entries.
    pub fn len(&self) -> usize
        ensures exact { result ≡ length self.now }
    {
        self.places.len()
    }

    /// The numbers of the access control subentries, in the order of the names. The tree keeps them: no entry is looked
    /// at.
    pub fn access_subentries(&self) -> &[EntryNo]
        ensures exact { map (λ no. no.0) result.now ≡ ids_of (subentry_rows self.now) }
    {
        self.subentries.as_slice()
    }

    /// A number above all that are in use, of at most 200,000.
    pub fn bound(&self) -> usize
        ensures exact { AllByRecursion (λ row. row.id < result) self.now }
        ensures fits { result ≤ most_entries }
    {
        self.slots.len()
    }

    /// The number of the first entry, the suffix; None exactly where there is no entry.
    pub fn suffix(&self) -> Option<EntryNo>
        ensures exact { option_map (λ no. no.0) result ≡ suffix_of self.now }
    {
        match self.places.first_key_value() {
            Some((_, no)) => Some(EntryNo(*no)),
            None => None,
        }
    }

    /// The number of the entry of the name; None exactly for a name that no entry has.
    pub fn find(&self, name: &Dn) -> Option<EntryNo>
        ensures exact { option_map (λ no. no.0) result ≡ find_name name.now self.now }
    {
        self.number_of(name.path().as_slice())
    }

    /// The number of the entry that the front of the name names, a front of `len` RDNs. None exactly where no entry has
    /// that name, or the name has fewer RDNs.
    pub fn find_prefix(&self, name: &Dn, len: usize) -> Option<EntryNo>
        ensures exact { option_map (λ no. no.0) result ≡ find_front len name.now self.now }
    {
        match name.path_to(len) {
            Some(path) => self.number_of(path),
            None => None,
        }
    }

    /// The entry of the number; None exactly where the number is not in use.
    pub fn at(&self, no: EntryNo) -> Option<&Entry>
        ensures exact { option_map (λ entry. entry.now) result ≡ entry_of no.0 self.now }
    {
        entry_at(&self.slots, no.0)
    }

    /// The number of the superior of the entry of the number; None exactly where the number is not in use or is the
    /// suffix's.
    pub fn superior(&self, no: EntryNo) -> Option<EntryNo>
        ensures exact { option_map (λ no. no.0) result ≡ superior_of no.0 self.now }
    {
        match self.at(no) {
            Some(entry) => self.number_above(entry.name()),
            None => None,
        }
    }
}
