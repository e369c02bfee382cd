//! The points of an entry.

ghost use Rattle.std.specs.Prelude.{◌≡◌, map, Some, IsSome, IfOk};
ghost use Rattle.std.specs.List.{AllByRecursion};
ghost use Rattle.dir_tree.specs.Entry.{EntryInformation};
ghost use Rattle.dir_tree.specs.tree.Numbered.{entry_of, entries_of, entries_at};
ghost use Rattle.admin_scope.specs.Areas.{areas};
ghost use Rattle.admin_scope.specs.Walking.{walk_of};

use crate::upwards::walk;
use dir_tree::dn_names::Dn;
use dir_tree::{EntryNo, NoMemory, Tree};
use std::alloc::Global;

// The numbers of the points of a name.
fn gather(alloc: Global, tree: &Tree, name: &Dn) -> Result<Vec<EntryNo>, NoMemory>
    ensures exact { IfOk result (λ numbers. map (λ no. no.0) numbers.items ≡ walk_of name.now tree.now) }
{
    let mut numbers = Vec::new(alloc);
    for number in walk(tree, name) {
        numbers.push(number)?;
    }
    Ok(numbers)
}

/// The numbers of the points that govern the entry of the number (X.501 14.3 and 18.3), from the entry itself upwards:
/// the inner points up to and including the first specific one. None where no specific one stands at or above the entry,
/// or the number is not in use. The error comes where memory is wanted.
pub fn areas(alloc: Global, tree: &Tree, number: EntryNo) -> Result<Vec<EntryNo>, NoMemory>
    ensures exact { (entry : EntryInformation) → entry_of number.0 tree.now ≡ Some entry
        → IfOk result (λ found. entries_at tree.now (map (λ no. no.0) found.items)
        ≡ areas (entries_of tree.now) entry) }
    ensures live { IfOk result (λ found.
        AllByRecursion (λ id. IsSome (entry_of id tree.now)) (map (λ no. no.0) found.items)) }
{
    tree.entries_form_a_tree();
    match tree.at(number) {
        Some(entry) => gather(alloc, tree, entry.name()),
        None => Ok(Vec::new(alloc)),
    }
}
