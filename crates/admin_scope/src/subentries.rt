//! The access control subentries in force.

ghost use Rattle.std.specs.Prelude.{◌≡◌, ◌++◌, ℕ, map, flat_map, Some, IsSome, IfOk, OnOk, false, []};
ghost use Rattle.std.specs.List.{AllByRecursion};
ghost use Rattle.std.specs.Option.{option_map_or};
ghost use Rattle.dir_tree.specs.Entry.{EntryInformation};
ghost use Rattle.dir_tree.specs.tree.Numbered.{entry_of, entries_of, entries_at};
ghost use Rattle.admin_scope.specs.InForce.{in_force};
ghost use Rattle.admin_scope.specs.Walking.{walk_of};
ghost use Rattle.admin_scope.specs.Finding.{AreSubtrees, numbers_by};

use crate::roles::is_specific;
use crate::subtrees::{AccessSubentry, access_subtrees, holds_under};
use crate::upwards::walk_up;
use dir_tree::{Entry, EntryNo, NoMemory, Tree};
use std::alloc::Global;

// Lists those immediately below the point of the number.
fn list_below(
    tree: &Tree,
    subtrees: &[AccessSubentry],
    number: EntryNo,
    entry: &Entry,
    found: &mut Vec<EntryNo>,
) -> Result<(), NoMemory>
    ensures ok { OnOk result (map (λ no. no.0) found.new.items
        ≡ map (λ no. no.0) found.old.items ++ numbers_by tree.now entry.now subtrees.now number.0) }
{
    if let Some(point) = tree.at(number) {
        for subentry in subtrees {
            if holds_under(tree, subentry, point, entry) {
                found.push(subentry.number)?;
            }
        }
    }
    Ok(())
}

// Those below each point of the entry. Whether a specific point is above it shows at the end of the walk alone: without one
// no point governs the entry.
fn below_points(
    alloc: Global,
    tree: &Tree,
    subtrees: &[AccessSubentry],
    entry: &Entry,
) -> Result<Vec<EntryNo>, NoMemory>
    ensures exact { IfOk result (λ found. map (λ no. no.0) found.items
        ≡ flat_map (numbers_by tree.now entry.now subtrees.now) (walk_of entry.now.name tree.now)) }
{
    let mut found = Vec::new(alloc);
    let mut is_governed = false;
    for point in walk_up(tree, entry.name()) {
        list_below(tree, subtrees, point, entry, &mut found)?;
        is_governed = is_governed || is_specific(tree, point);
    }
    if is_governed {
        Ok(found)
    } else {
        Ok(Vec::new(alloc))
    }
}

/// The numbers of the access control subentries in force for an entry (X.501 18.3, RFC 3672 section 2), which need not be
/// in the tree, by the subtrees of the tree's subentries: point by point from the entry upwards, and in the order of names
/// under each. None for a subentry. No text is read. The error comes where memory is wanted.
pub fn in_force_by(
    alloc: Global,
    tree: &Tree,
    subtrees: &[AccessSubentry],
    entry: &Entry,
) -> Result<Vec<EntryNo>, NoMemory>
    requires subtrees { AreSubtrees subtrees.now tree.now }
    ensures exact { IfOk result (λ found. entries_at tree.now (map (λ no. no.0) found.items)
        ≡ in_force (entries_of tree.now) entry.now) }
    ensures live { IfOk result (λ found.
        AllByRecursion (λ id. IsSome (entry_of id tree.now)) (map (λ no. no.0) found.items)) }
{
    tree.entries_form_a_tree();
    if entry.is_subentry() {
        return Ok(Vec::new(alloc));
    }
    below_points(alloc, tree, subtrees, entry)
}

/// The same, with the subtrees read first.
pub fn in_force_for(alloc: Global, tree: &Tree, entry: &Entry) -> Result<Vec<EntryNo>, NoMemory>
    ensures exact { IfOk result (λ found. entries_at tree.now (map (λ no. no.0) found.items)
        ≡ in_force (entries_of tree.now) entry.now) }
    ensures live { IfOk result (λ found.
        AllByRecursion (λ id. IsSome (entry_of id tree.now)) (map (λ no. no.0) found.items)) }
{
    let subtrees = access_subtrees(alloc, tree)?;
    in_force_by(alloc, tree, &subtrees, entry)
}

/// The same for the entry of a number; none where the number is not in use.
pub fn in_force(alloc: Global, tree: &Tree, number: EntryNo) -> Result<Vec<EntryNo>, NoMemory>
    ensures exact { (entry : EntryInformation) → entry_of number.0 tree.now ≡ Some entry
        → IfOk result (λ found. entries_at tree.now (map (λ no. no.0) found.items)
        ≡ in_force (entries_of tree.now) entry) }
    ensures live { IfOk result (λ found.
        AllByRecursion (λ id. IsSome (entry_of id tree.now)) (map (λ no. no.0) found.items)) }
{
    match tree.at(number) {
        Some(entry) => in_force_for(alloc, tree, entry),
        None => Ok(Vec::new(alloc)),
    }
}
