//! What is kept, made of a tree.

ghost use Rattle.std.specs.Prelude.{◌≡◌, map, ◌+◌, ◌<◌, ℕ, Some, IfOk, OnOk, length};
ghost use Rattle.dir_tree.specs.Entry.{EntryInformation};
ghost use Rattle.dir_tree.specs.tree.Numbered.{entry_of};
ghost use Rattle.acdf_filters.specs.admin_scope.Finding.{AreSubtrees};
ghost use Rattle.acdf_filters.specs.aci_item.item.Views.{tuple_of};
ghost use Rattle.acdf_filters.specs.Tuples.{items_in};
ghost use Rattle.aci_lists.specs.Order.{highest_first};
ghost use Rattle.aci_lists.specs.kept.Lists.{AreOf, IsKept, IsKeptBelow, lists_of, tuples_in};
ghost use Rattle.aci_lists.specs.kept.Holdings.{IsHeld};

use crate::groups::named_groups;
use crate::kept::{Holdings, Kept, no_lists};
use crate::{OrderedTuples, order_tuples};
use acdf_filters::admin_scope::{AccessSubentry, access_subtrees, in_force_by};
use acdf_filters::read_items;
use dir_tree::schema_tables::AttrId;
use dir_tree::{Entry, EntryNo, NoMemory, Tree};
use std::alloc::Global;

// The tuples of the entry's values of the type, those of the highest precedence first.
fn read_tuples(alloc: Global, entry: &Entry, kind: AttrId) -> Result<OrderedTuples, NoMemory>
    ensures ok { IfOk result (λ ordered. map tuple_of ordered.tuples.items
        ≡ highest_first (tuples_in (items_in kind.0 entry.now))) }
{
    order_tuples(alloc, read_items(alloc, entry, kind)?)
}

/// What is kept of an entry, which need not be in the tree, by the subtrees of the tree's subentries. The error comes
/// where memory is wanted.
pub fn lists_for(
    alloc: Global,
    tree: &Tree,
    subtrees: &[AccessSubentry],
    entry: &Entry,
) -> Result<Kept, NoMemory>
    requires subtrees { AreSubtrees subtrees.now tree.now }
    ensures ok { IfOk result (λ kept. AreOf tree.now entry.now (lists_of kept)) }
{
    let in_force = in_force_by(alloc, tree, subtrees, entry)?;
    let prescriptive = read_tuples(alloc, entry, AttrId::PRESCRIPTIVE_ACI)?;
    let own = read_tuples(alloc, entry, AttrId::ENTRY_ACI)?;
    let below = read_tuples(alloc, entry, AttrId::SUBENTRY_ACI)?;
    Ok(Kept {
        in_force,
        prescriptive,
        own,
        below,
    })
}

/// What is kept of the entry of the number, if there is one. The error comes where memory is wanted.
pub fn make_at(
    alloc: Global,
    tree: &Tree,
    subtrees: &[AccessSubentry],
    number: EntryNo,
) -> Result<Kept, NoMemory>
    requires subtrees { AreSubtrees subtrees.now tree.now }
    ensures ok { (entry : EntryInformation) → entry_of number.0 tree.now ≡ Some entry
        → IfOk result (λ kept. AreOf tree.now entry (lists_of kept)) }
{
    match tree.at(number) {
        Some(entry) => lists_for(alloc, tree, subtrees, entry),
        None => Ok(no_lists(alloc)),
    }
}

// Puts what is kept of the next number at the end.
fn put_next(
    alloc: Global,
    tree: &Tree,
    subtrees: &[AccessSubentry],
    kept: &mut Vec<Kept>,
) -> Result<(), NoMemory>
    requires subtrees { AreSubtrees subtrees.now tree.now }
    requires fits { length kept.old.items < 200000 }
    requires below { IsKeptBelow kept.old.items tree.now }
    ensures below { OnOk result (IsKeptBelow kept.new.items tree.now) }
    ensures longer { OnOk result (length kept.new.items ≡ length kept.old.items + 1) }
{
    let number = EntryNo(kept.len() as u32);
    kept.push(make_at(alloc, tree, subtrees, number)?)?;
    Ok(())
}

// What is kept of each entry of the tree.
fn make_all(alloc: Global, tree: &Tree, subtrees: &[AccessSubentry]) -> Result<Vec<Kept>, NoMemory>
    requires subtrees { AreSubtrees subtrees.now tree.now }
    ensures ok { IfOk result (λ kept. IsKept kept.items tree.now) }
{
    let mut kept = Vec::new(alloc);
    for index in 0..tree.bound() {
        put_next(alloc, tree, subtrees, &mut kept)?;
    }
    Ok(kept)
}

/// What is kept beside the tree. The error comes where memory is wanted.
pub fn hold(alloc: Global, tree: &Tree) -> Result<Holdings, NoMemory>
    ensures ok { IfOk result (λ held. IsHeld held tree.now) }
{
    let subtrees = access_subtrees(alloc, tree)?;
    let lists = make_all(alloc, tree, &subtrees)?;
    let groups = named_groups(alloc, &lists)?;
    Ok(Holdings {
        subtrees,
        lists,
        groups,
    })
}
