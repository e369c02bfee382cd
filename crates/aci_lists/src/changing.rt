//! What is kept, where an entry is put in or taken out.

ghost use Rattle.std.specs.Prelude.{◌≡◌, ◌≢◌, ◌==◌, ◌⊎◌, ℕ, not, [], Some, None, IfOk, IfErr, OnOk, OnErr, map, filter};
ghost use Rattle.dir_tree.specs.tree.Numbered.{entry_of, entries_of, put_entry, without};
ghost use Rattle.dir_tree.specs.Refusals.{insert_refusal, remove_refusal};
ghost use Rattle.aci_lists.specs.kept.Lists.{lists_at, lists_of, no_lists};
ghost use Rattle.aci_lists.specs.kept.Holdings.{IsHeld, IsForgotten, without_number, without_subentry};

use crate::kept::{Holdings, Kept, no_lists};
use acdf_filters::admin_scope::AccessSubentry;
use dir_tree::{EntryNo, Tree};
use std::alloc::Global;

/// Takes the entry of the number out again, which is not refused. Takes no memory.
pub fn take_back(tree: &mut Tree, number: EntryNo)
    requires { remove_refusal number.0 tree.old ≡ None }
    ensures { tree.new ≡ without number.0 tree.old }
{
    match tree.remove(number) {
        Ok(_) => {}
        Err(_) => {}
    }
}

// Drops the number from a list.
fn drop_number(numbers: &mut Vec<EntryNo>, number: EntryNo)
    ensures { map (λ no. no.0) numbers.new.items
        ≡ filter (λ id. not (id == number.0)) (map (λ no. no.0) numbers.old.items) }
{
    numbers.retain(
        |other: &EntryNo| -> bool
            ensures { result ≡ not (other.now.0 == number.0) }
        { other.0 != number.0 },
    );
}

// Drops the number from the subentries in force for an entry.
fn drop_in_force(kept: &mut Kept, number: EntryNo)
    ensures { lists_of kept.new ≡ without_number number.0 (lists_of kept.old) }
{
    drop_number(&mut kept.in_force, number);
}

// Drops the number from those in force for each entry.
fn drop_everywhere(kept: &mut [Kept], number: EntryNo)
    ensures { (id : ℕ) → lists_at kept.new id ≡ without_number number.0 (lists_at kept.old id) }
{
    for index in 0..kept.len() {
        drop_in_force(&mut kept[index], number);
    }
}

/// Keeps nothing of the number. Takes no memory.
pub fn empty_lists(alloc: Global, kept: &mut [Kept], number: EntryNo)
    ensures gone { lists_at kept.new number.0 ≡ no_lists }
    ensures others { (id : ℕ) → id ≢ number.0 → lists_at kept.new id ≡ lists_at kept.old id }
{
    let index = number.0 as usize;
    if index < kept.len() {
        kept[index] = no_lists(alloc);
    }
}

// Drops the subentry of the number.
fn drop_subentry(subtrees: &mut Vec<AccessSubentry>, number: EntryNo)
    ensures { subtrees.new.items ≡ without_subentry number.0 subtrees.old.items }
{
    subtrees.retain(
        |other: &AccessSubentry| -> bool
            ensures { result ≡ not (other.now.number.0 == number.0) }
        { other.number.0 != number.0 },
    );
}

/// Forgets the number of an entry that was taken out. Takes no memory.
pub fn forget(alloc: Global, held: &mut Holdings, number: EntryNo)
    ensures { IsForgotten number.0 held.old held.new }
{
    drop_subentry(&mut held.subtrees, number);
    drop_everywhere(&mut held.lists, number);
    empty_lists(alloc, &mut held.lists, number);
}
