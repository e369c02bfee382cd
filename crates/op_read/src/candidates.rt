//! The entries that a search looks at: all of its scope, or, where its filter needs a value whose holders the directory
//! knows, those of them that may be selected.

ghost use Rattle.std.specs.Prelude.{◌≡◌, IfSome, filter};
ghost use Rattle.dir_tree.specs.Scope.{scoped};
ghost use Rattle.page_core.specs.read_model.Selecting.{is_shown};
ghost use Rattle.page_core.specs.Starts.{is_after};
ghost use Rattle.op_read.specs.Candidates.{ids_in, HasShown, comes_after};
ghost use Rattle.op_read.specs.Seeing.{scope_of};
ghost use Rattle.op_read.specs.Sending.{shown_among};

use crate::selecting::scope_of;
use crate::sending::Search;
use dir_tree::dn_names::{Dn, compare_names};
use dir_tree::{EntryNo, Tree, Walk};
use directory::value_index::among;
use directory::{Asking, Dir};
use std::alloc::Global;
use std::marker::Model;

/// How many items of a filter are asked what it needs, at most: to ask one takes a walk over all of them.
const MOST_ITEMS: usize = 16;

/// Where the numbers come from.
#[derive(Drop)]
pub(crate) enum Source<'a> {
    /// A walk over the tree.
    Walk(Walk<'a>),
    /// A list.
    List(&'a [EntryNo]),
}

/// The numbers of the entries that a search looks at, in the order of the names. Contracts see the numbers that are left.
#[derive(Drop)]
pub(crate) struct Candidates<'a> {
    source: Source<'a>,
}

impl<'a> Model for Candidates<'a> {
    ghost use Rattle.std.specs.Prelude.{ℕ, List};
    ghost use Rattle.op_read.specs.Candidates.{left_of};

    ghost Value = { List ℕ };

    ghost view = { λ candidates. left_of candidates.source };
}

impl<'a> Iterator for Candidates<'a> {
    ghost use Rattle.std.specs.Iterator.{YieldsFirstBy, item_count};

    type Item = EntryNo;

    ghost next_gives = { YieldsFirstBy (λ no. no.0) (λ left. left) };

    ghost remaining = { item_count (λ left. left) };

    fn next(&mut self) -> Option<EntryNo> {
        match &mut self.source {
            Source::Walk(walk) => walk.next(),
            Source::List(numbers) => {
                let (first, rest) = numbers.split_first()?;
                *numbers = rest;
                Some(*first)
            }
        }
    }
}

impl<'a> Candidates<'a> {
    /// All that the walk comes to.
    pub(crate) fn of_walk(walk: Walk<'a>) -> Candidates<'a>
        ensures exact { result ≡ walk.entry }
    {
        Candidates {
            source: Source::Walk(walk),
        }
    }

    /// Those of the list.
    pub(crate) fn of_list(numbers: &'a [EntryNo]) -> Candidates<'a>
        ensures exact { result ≡ ids_in numbers.now }
    {
        Candidates {
            source: Source::List(numbers),
        }
    }
}

// The holders of the value that the item of the index asks for, if the filter needs it and the directory knows them.
// None also where memory is wanted.
fn holders_at<D: Dir>(
    alloc: Global,
    asking: &Asking<'_, D>,
    search: &Search<'_>,
    index: usize,
) -> Option<Vec<EntryNo>>
    ensures shown { IfSome result (λ numbers. HasShown
        (is_shown search.now.request.now search.now.subentries)
        (D.rows asking.now.dir.now) asking.now.who.now numbers.items) }
{
    let need = search.filter.need(index)?;
    match asking.dir.holders(alloc, need.kind, need.key) {
        Ok(found) => found,
        Err(_) => None,
    }
}

// The same of the first item of which there are such holders.
fn holders<D: Dir>(
    alloc: Global,
    asking: &Asking<'_, D>,
    search: &Search<'_>,
) -> Option<Vec<EntryNo>>
    ensures shown { IfSome result (λ numbers. HasShown
        (is_shown search.now.request.now search.now.subentries)
        (D.rows asking.now.dir.now) asking.now.who.now numbers.items) }
{
    for index in 0..search.filter.items().min(MOST_ITEMS) {
        let found = holders_at(alloc, asking, search, index);
        if found.is_some() {
            return found;
        }
    }
    None
}

/// The numbers of those entries of the scope that may be selected, from the entry of the number on, in the order of the
/// names: the holders of a value that the filter needs. None where the directory knows no such holders, where the scope
/// is the entry alone, and where memory is wanted: then all entries of the scope are to be looked at.
pub(crate) fn candidates_of<D: Dir>(
    alloc: Global,
    asking: &Asking<'_, D>,
    search: &Search<'_>,
    number: EntryNo,
) -> Option<Vec<EntryNo>>
    ensures same { IfSome result (λ numbers.
        shown_among (is_shown search.now.request.now search.now.subentries)
        (D.rows asking.now.dir.now) asking.now.who.now (ids_in numbers.items)
        ≡ shown_among (is_shown search.now.request.now search.now.subentries)
        (D.rows asking.now.dir.now) asking.now.who.now
        (scoped (scope_of search.now.request.now.scope) number.0 (D.rows asking.now.dir.now))) }
{
    if search.request.scope.is_base() {
        return None;
    }
    let holders = holders(alloc, asking, search)?;
    let scope = scope_of(search.request.scope);
    match among(alloc, asking.dir.tree(), number, scope, &holders) {
        Ok(numbers) => Some(numbers),
        Err(_) => None,
    }
}

// Whether the entry of the number comes after the name, if there is one.
fn comes_after(tree: &Tree, name: &Dn, number: EntryNo) -> bool
    ensures exact { result ≡ comes_after tree.now name.now number }
{
    match tree.at(number) {
        Some(entry) => compare_names(name, entry.name()).is_lt(),
        None => false,
    }
}

// Drops those that do not come after the name.
fn keep_after(tree: &Tree, name: &Dn, numbers: &mut Vec<EntryNo>)
    ensures exact { numbers.new.items ≡ filter (comes_after tree.now name.now) numbers.old.items }
{
    numbers.retain(
        |number: &EntryNo| -> bool
            ensures { result ≡ comes_after tree.entry.now name.entry.now number.now }
        { comes_after(tree, name, *number) },
    );
}

/// Those of them that come after the name. None as above.
pub(crate) fn candidates_after<D: Dir>(
    alloc: Global,
    asking: &Asking<'_, D>,
    search: &Search<'_>,
    number: EntryNo,
    after: &Dn,
) -> Option<Vec<EntryNo>>
    ensures same { IfSome result (λ numbers.
        shown_among (is_shown search.now.request.now search.now.subentries)
        (D.rows asking.now.dir.now) asking.now.who.now (ids_in numbers.items)
        ≡ filter (is_after after.now)
        (shown_among (is_shown search.now.request.now search.now.subentries)
        (D.rows asking.now.dir.now) asking.now.who.now
        (scoped (scope_of search.now.request.now.scope) number.0 (D.rows asking.now.dir.now)))) }
{
    let mut numbers = candidates_of(alloc, asking, search, number)?;
    keep_after(asking.dir.tree(), after, &mut numbers);
    Some(numbers)
}
