//! A walk over the entries of a scope.

ghost use Rattle.std.specs.Prelude.{◌≡◌, ◌≤◌, ◌&&◌, ◌∷◌, ℕ, [], false, length, filter, IfSome, Some, None};
ghost use Rattle.dir_tree.specs.Walk.{walked, is_one_below, is_at_depth};

use crate::entry::Entry;
use crate::number::EntryNo;
use crate::scope::Scope;
use crate::slots::entry_at;
use crate::tree::Tree;
use dn_names::{Dn, compare_names};
use std::collections::btree_map::Range;
use std::marker::Model;
use std::ops::Bound;

/// The numbers of the entries of a scope, in the order of the names. Contracts see the numbers that are left.
#[derive(Drop)]
pub struct Walk<'a> {
    slots: &'a [Option<Entry>],
    range: Range<'a, Vec<u8>, u32>,
    base: &'a [u8],
    depth: Option<usize>,
    ended: bool,
}

impl<'a> Model for Walk<'a> {
    ghost use Rattle.std.specs.Prelude.{ℕ, List, [], if◌then◌else◌};
    ghost use Rattle.dir_tree.specs.Walk.{walked};

    ghost Value = { List ℕ };

    ghost view = { λ walk. if walk.ended then []
        else walked (λ key. key.items) walk.depth walk.slots.now walk.base.now walk.range };
}

impl<'a> Iterator for Walk<'a> {
    ghost use Rattle.std.specs.Iterator.{YieldsFirstBy, item_count};

    type Item = EntryNo;

    ghost next_gives = { YieldsFirstBy (λ no. no.0) (λ left. left) };

    ghost remaining = { item_count (λ left. left) };

    fn next(&mut self) -> Option<EntryNo> {
        if self.ended {
            return None;
        }
        match next_number(&mut self.range, self.slots, self.base, self.depth) {
            Some(no) => Some(EntryNo(no)),
            None => {
                self.ended = true;
                None
            }
        }
    }
}

// The next number at or below the base and at the depth, if one is left.
fn next_number(
    range: &mut Range<'_, Vec<u8>, u32>,
    slots: &[Option<Entry>],
    base: &[u8],
    depth: Option<usize>,
) -> Option<u32>
    ensures found { IfSome result (λ no. walked (λ key. key.items) depth slots.now base.now range.old
        ≡ no ∷ walked (λ key. key.items) depth slots.now base.now range.new) }
    ensures empty { result ≡ None → walked (λ key. key.items) depth slots.now base.now range.old ≡ [] }
{
    while let Some((path, no)) = range.next() {
        if !path.as_slice().starts_with(base) {
            return None;
        }
        if is_at_depth(slots, *no, depth) {
            return Some(*no);
        }
    }
    None
}

// Whether the name in the slot of the number has one RDN more than the depth, if there is one.
fn is_at_depth(slots: &[Option<Entry>], no: u32, depth: Option<usize>) -> bool
    ensures exact { result ≡ is_at_depth depth slots.now no }
{
    match entry_at(slots, no) {
        Some(entry) => is_one_below(entry.name(), depth),
        None => depth.is_none(),
    }
}

// Whether the name has one RDN more than the depth, if there is one.
fn is_one_below(name: &Dn, depth: Option<usize>) -> bool
    ensures exact { result ≡ is_one_below depth name.now }
{
    match depth {
        Some(depth) => name.len() > depth && name.len() - depth == 1,
        None => true,
    }
}

impl Tree {
    ghost use Rattle.dir_tree.specs.tree.Trees.{most_entries, is_before, is_named};
    ghost use Rattle.dir_tree.specs.tree.Numbered.{ids_of, entry_of};
    ghost use Rattle.dir_tree.specs.Scope.{is_within, scoped, scoped_after};

    /// The numbers of the entries that the scope takes in, from the entry of the number on, in the order of the
    /// names; none where the number is not in use.
    pub fn below(&self, no: EntryNo, scope: Scope) -> Walk<'_>
        ensures exact { result ≡ scoped scope no.0 self.now }
        ensures fits { length result ≤ most_entries }
    {
        match self.at(no) {
            Some(entry) => self.walk_from(no, entry, scope),
            None => self.walk_nowhere(),
        }
    }

    /// The numbers of those entries that the scope takes in, from the entry of the number on, whose names come after the
    /// name, in the order of the names; none where the number is not in use. No entry need have the name, and what comes
    /// before it is not walked over.
    pub fn below_after<'a>(&'a self, no: EntryNo, scope: Scope, after: &Dn) -> Walk<'a>
        ensures exact { result ≡ scoped_after scope no.0 after.now self.now }
        ensures fits { length result ≤ most_entries }
    {
        match self.at(no) {
            Some(entry) => self.walk_from_after(no, entry, scope, after),
            None => self.walk_nowhere(),
        }
    }

    // The walk from the entry of the number, behind the name.
    fn walk_from_after<'a>(
        &'a self,
        no: EntryNo,
        entry: &'a Entry,
        scope: Scope,
        after: &Dn,
    ) -> Walk<'a>
        requires { entry_of no.0 self.now ≡ Some entry.now }
        ensures exact { result ≡ scoped_after scope no.0 after.now self.now }
        ensures fits { length result ≤ most_entries }
    {
        if compare_names(after, entry.name()).is_lt() {
            self.walk_from(no, entry, scope)
        } else {
            self.walk_behind(no, entry, scope, after)
        }
    }

    // The walk from the entry of the number, behind a name that does not come before the entry's.
    fn walk_behind<'a>(
        &'a self,
        no: EntryNo,
        entry: &'a Entry,
        scope: Scope,
        after: &Dn,
    ) -> Walk<'a>
        requires known { entry_of no.0 self.now ≡ Some entry.now }
        requires behind { is_before after.now entry.now.name ≡ false }
        ensures exact { result ≡ scoped_after scope no.0 after.now self.now }
        ensures fits { length result ≤ most_entries }
    {
        self.entries_form_a_tree();
        match scope {
            Scope::Base => self.walk_nowhere(),
            Scope::One => self.walk_after(entry.name(), Some(entry.name().len()), after),
            Scope::Sub => self.walk_after(entry.name(), None, after),
        }
    }

    // The walk from the entry of the number.
    fn walk_from<'a>(&'a self, no: EntryNo, entry: &'a Entry, scope: Scope) -> Walk<'a>
        requires { entry_of no.0 self.now ≡ Some entry.now }
        ensures exact { result ≡ scoped scope no.0 self.now }
        ensures fits { length result ≤ most_entries }
    {
        self.entries_form_a_tree();
        match scope {
            Scope::Base => self.walk_at(entry.name()),
            Scope::One => self.walk_within(entry.name(), Some(entry.name().len())),
            Scope::Sub => self.walk_within(entry.name(), None),
        }
    }

    // The walk over no entry.
    fn walk_nowhere(&self) -> Walk<'_>
        ensures exact { result ≡ [] }
    {
        let all: (Bound<&Vec<u8>>, Bound<&Vec<u8>>) = (Bound::Unbounded, Bound::Unbounded);
        Walk {
            slots: &self.slots,
            range: self.places.range(all),
            base: &[],
            depth: None,
            ended: true,
        }
    }

    // The walk over the entry of the name.
    fn walk_at<'a>(&'a self, name: &'a Dn) -> Walk<'a>
        ensures exact { result ≡ ids_of (filter (λ row. is_named name.now row.entry) self.now) }
    {
        let path = name.path();
        Walk {
            slots: &self.slots,
            range: self
                .places
                .range((Bound::Included(path), Bound::Included(path))),
            base: path,
            depth: None,
            ended: false,
        }
    }

    // The walk over the entries at or below the name, all or those one RDN below the depth.
    fn walk_within<'a>(&'a self, name: &'a Dn, depth: Option<usize>) -> Walk<'a>
        ensures exact { result ≡ ids_of (filter
            (λ row. is_within name.now row.entry && is_one_below depth row.entry.name) self.now) }
    {
        let path = name.path();
        Walk {
            slots: &self.slots,
            range: self.places.range((Bound::Included(path), Bound::Unbounded)),
            base: path,
            depth,
            ended: false,
        }
    }
    // The walk over the entries at or below the name, all or those one RDN below the depth, behind a name that does not
    // come before it.
    fn walk_after<'a>(&'a self, name: &'a Dn, depth: Option<usize>, after: &Dn) -> Walk<'a>
        requires { is_before after.now name.now ≡ false }
        ensures exact { result ≡ ids_of (filter
            (λ row. (is_within name.now row.entry && is_one_below depth row.entry.name)
            && is_before after.now row.entry.name) self.now) }
    {
        let path = name.path();
        let last = after.path();
        Walk {
            slots: &self.slots,
            range: self.places.range((Bound::Excluded(last), Bound::Unbounded)),
            base: path,
            depth,
            ended: false,
        }
    }
}
