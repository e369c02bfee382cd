//! What is kept of an entry.

ghost use Rattle.std.specs.Prelude.{◌≡◌, map};
ghost use Rattle.acdf_filters.specs.aci_item.item.Views.{tuple_of};
ghost use Rattle.aci_lists.specs.Order.{IsHighestFirst};
ghost use Rattle.aci_lists.specs.kept.Lists.{lists_at, lists_of, no_lists};

use crate::OrderedTuples;
use acdf_filters::aci_item::AciTuple;
use acdf_filters::admin_scope::AccessSubentry;
use dir_tree::EntryNo;
use dir_tree::dn_names::Dn;
use std::alloc::Global;

/// What is kept of an entry: the subentries that are in force for it, and the tuples of its own access control
/// items, those of the highest precedence first.
#[derive(Drop)]
pub struct Kept {
    /// The numbers of the access control subentries in force for an ordinary entry.
    pub in_force: Vec<EntryNo>,
    /// Those of its prescriptiveACI values.
    pub prescriptive: OrderedTuples,
    /// Those of its entryACI values.
    pub own: OrderedTuples,
    /// Those of its subentryACI values.
    pub below: OrderedTuples,
}

/// What is kept beside a tree: its access control subentries with their subtrees, what is kept of each entry, by its
/// number, and the groups that the items name.
#[derive(Drop)]
pub struct Holdings {
    pub subtrees: Vec<AccessSubentry>,
    pub lists: Vec<Kept>,
    pub groups: Vec<Dn>,
}

/// What is kept where no entry is. Takes no memory.
pub fn no_lists(alloc: Global) -> Kept
    ensures exact { lists_of result ≡ no_lists }
{
    Kept {
        in_force: Vec::new(alloc),
        prescriptive: OrderedTuples::new(alloc),
        own: OrderedTuples::new(alloc),
        below: OrderedTuples::new(alloc),
    }
}

/// The tuples of the prescriptiveACI values of the number.
pub(crate) fn prescriptive_at(kept: &[Kept], number: EntryNo) -> &[AciTuple]
    ensures exact { map tuple_of result.now ≡ (lists_at kept.now number.0).prescriptive }
    ensures ordered { IsHighestFirst (map tuple_of result.now) }
{
    match kept.get(number.0 as usize) {
        Some(lists) => &lists.prescriptive.tuples,
        None => &[],
    }
}

/// The tuples of the entryACI values of the number.
pub(crate) fn own_at(kept: &[Kept], number: EntryNo) -> &[AciTuple]
    ensures exact { map tuple_of result.now ≡ (lists_at kept.now number.0).own }
    ensures ordered { IsHighestFirst (map tuple_of result.now) }
{
    match kept.get(number.0 as usize) {
        Some(lists) => &lists.own.tuples,
        None => &[],
    }
}

/// The tuples of the subentryACI values of the number.
pub(crate) fn below_at(kept: &[Kept], number: EntryNo) -> &[AciTuple]
    ensures exact { map tuple_of result.now ≡ (lists_at kept.now number.0).below }
    ensures ordered { IsHighestFirst (map tuple_of result.now) }
{
    match kept.get(number.0 as usize) {
        Some(lists) => &lists.below.tuples,
        None => &[],
    }
}

/// The numbers of the subentries in force for the number.
pub fn in_force_at(kept: &[Kept], number: EntryNo) -> &[EntryNo]
    ensures exact { map (λ no. no.0) result.now ≡ (lists_at kept.now number.0).in_force }
{
    match kept.get(number.0 as usize) {
        Some(lists) => &lists.in_force,
        None => &[],
    }
}
