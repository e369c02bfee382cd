//! The lists of one number, made and put.

ghost use Rattle.std.specs.Prelude.{◌≡◌, ◌≢◌, ◌<◌, ◌≤◌, ℕ, IfOk, OnOk, length};
ghost use Rattle.acdf_filters.specs.admin_scope.Finding.{AreSubtrees};
ghost use Rattle.aci_lists.specs.kept.Lists.{AreOf, lists_at, lists_of};
ghost use Rattle.aci_index.specs.Steps.{AllStay, IsKeptOf, OthersStay};

use aci_lists::{Holdings, Kept, lists_for, no_lists, put_groups_of};
use dir_tree::{Entry, EntryNo, NoMemory, Tree};
use std::alloc::Global;

/// Makes room for the lists of so many numbers: nothing is kept yet of those that are new.
pub(crate) fn make_room(alloc: Global, kept: &mut Vec<Kept>, len: usize) -> Result<(), NoMemory>
    ensures room { OnOk result (len ≤ length kept.new.items) }
    ensures stay { (id : ℕ) → lists_at kept.new.items id ≡ lists_at kept.old.items id }
{
    for index in kept.len()..len {
        kept.push(no_lists(alloc))?;
    }
    Ok(())
}

// Puts the lists of the number in place of those that it has.
fn put_lists(kept: &mut [Kept], number: EntryNo, lists: Kept)
    requires room { number.0 < length kept.old }
    ensures own { lists_at kept.new number.0 ≡ lists_of lists }
    ensures others { (id : ℕ) → id ≢ number.0 → lists_at kept.new id ≡ lists_at kept.old id }
{
    kept[number.0 as usize] = lists;
}

/// Puts the lists of the number in place of those that it has; all others stay. Takes no memory.
pub(crate) fn put_own(held: &mut Holdings, number: EntryNo, lists: Kept)
    requires room { number.0 < length held.old.lists.items }
    ensures own { lists_at held.new.lists.items number.0 ≡ lists_of lists }
    ensures others { OthersStay number.0 held.old held.new }
{
    put_lists(&mut held.lists, number, lists);
}

/// Makes the lists of an entry, which need not be in the tree. The groups that its items name are then among those
/// known.
pub(crate) fn make_lists(
    alloc: Global,
    tree: &Tree,
    held: &mut Holdings,
    entry: &Entry,
) -> Result<Kept, NoMemory>
    requires subtrees { AreSubtrees held.old.subtrees.items tree.now }
    ensures ok { IfOk result (λ lists. AreOf tree.now entry.now (lists_of lists)) }
    ensures stay { AllStay held.old held.new }
{
    let lists = lists_for(alloc, tree, &held.subtrees, entry)?;
    put_groups_of(alloc, &lists, &mut held.groups)?;
    Ok(lists)
}

/// Makes the lists of an entry that has the number, or is to have it, and room for them: no more memory is needed then.
pub(crate) fn make_ready(
    alloc: Global,
    tree: &Tree,
    held: &mut Holdings,
    number: EntryNo,
    entry: &Entry,
) -> Result<Kept, NoMemory>
    requires subtrees { AreSubtrees held.old.subtrees.items tree.now }
    ensures ok { IfOk result (λ lists. AreOf tree.now entry.now (lists_of lists)) }
    ensures room { OnOk result (number.0 < length held.new.lists.items) }
    ensures stay { AllStay held.old held.new }
{
    let lists = make_lists(alloc, tree, held, entry)?;
    make_room(alloc, &mut held.lists, number.0 as usize + 1)?;
    Ok(lists)
}

/// Puts the lists of the entry that the number has in the tree in place of those that are kept of the number.
pub(crate) fn keep_anew(
    alloc: Global,
    tree: &Tree,
    held: &mut Holdings,
    number: EntryNo,
) -> Result<(), NoMemory>
    requires subtrees { AreSubtrees held.old.subtrees.items tree.now }
    ensures own { OnOk result (IsKeptOf number.0 held.new tree.now) }
    ensures others { OthersStay number.0 held.old held.new }
{
    if let Some(entry) = tree.at(number) {
        let lists = make_ready(alloc, tree, held, number, entry)?;
        put_own(held, number, lists);
    }
    Ok(())
}
