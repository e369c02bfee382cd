//! What is kept, where an entry is taken out.

ghost use Rattle.std.specs.Prelude.{◌≡◌, true, false};
ghost use Rattle.dir_tree.specs.Points.{is_access_subentry};
ghost use Rattle.dir_tree.specs.Effects.{RemovesWithoutMemory};
ghost use Rattle.aci_lists.specs.kept.Holdings.{IsForgotten, IsHeld};
ghost use Rattle.aci_lists.specs.kept.Lists.{lists_at, no_lists};
ghost use Rattle.aci_index.specs.Steps.{OthersStay};

use aci_lists::{Holdings, empty_lists, forget};
use dir_tree::{Entry, EntryNo, RemoveRefusal, Tree};
use std::alloc::Global;

// Keeps nothing of the entry of the number, which was taken out.
fn drop_kept(alloc: Global, held: &mut Holdings, number: EntryNo, entry: &Entry)
    ensures subentry { is_access_subentry entry.now ≡ true → IsForgotten number.0 held.old held.new }
    ensures gone { lists_at held.new.lists.items number.0 ≡ no_lists }
    ensures ordinary { is_access_subentry entry.now ≡ false → OthersStay number.0 held.old held.new }
{
    if entry.is_access_subentry() {
        forget(alloc, held, number);
    } else {
        empty_lists(alloc, &mut held.lists, number);
    }
}

/// Takes the entry of the number out of the tree, and of what is kept what concerns it. Takes no memory.
pub(crate) fn remove_step(
    alloc: Global,
    tree: &mut Tree,
    held: &mut Holdings,
    number: EntryNo,
) -> Result<Entry, RemoveRefusal>
    requires held { IsHeld held.old tree.old }
    ensures exact { RemovesWithoutMemory number.0 tree.old result tree.new }
    ensures held { IsHeld held.new tree.new }
{
    tree.entries_form_a_tree();
    let entry = tree.remove(number)?;
    drop_kept(alloc, held, number, &entry);
    tree.entries_form_a_tree();
    Ok(entry)
}
