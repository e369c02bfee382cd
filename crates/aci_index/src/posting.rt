//! The index of values beside what decisions need, where the tree is changed: all or nothing.

ghost use Rattle.std.specs.Prelude.{◌≡◌, ◌≢◌, [], Some, None, IfOk};
ghost use Rattle.dir_tree.specs.Entry.{EntryInformation};
ghost use Rattle.dir_tree.specs.tree.Numbered.{entry_of, without};
ghost use Rattle.dir_tree.specs.Refusals.{remove_refusal};
ghost use Rattle.dir_tree.specs.Effects.{Inserts, RemovesWithoutMemory, Replaces};
ghost use Rattle.value_index.specs.Hashes.{hashes_of};
ghost use Rattle.aci_lists.specs.kept.Holdings.{IsHeld};
ghost use Rattle.aci_index.specs.Kept.{AreKept};
ghost use Rattle.aci_index.specs.Steps.{KeepsName};

use crate::inserting::insert_step;
use crate::removing::remove_step;
use crate::replacing::replace_step;
use crate::successor::Successor;
use aci_lists::Holdings;
use dir_tree::{Entry, EntryNo, InsertRefusal, NoMemory, RemoveRefusal, ReplaceRefusal, Tree};
use std::alloc::Global;
use value_index::{ValueIndex, hashes_of};

// Takes an entry out of the tree again. Takes no memory.
fn take_out_again(alloc: Global, tree: &mut Tree, held: &mut Holdings, number: EntryNo)
    requires removable { remove_refusal number.0 tree.old ≡ None }
    requires held { IsHeld held.old tree.old }
    ensures taken { tree.new ≡ without number.0 tree.old }
    ensures held { IsHeld held.new tree.new }
{
    match remove_step(alloc, tree, held, number) {
        Ok(_) => {}
        Err(_) => {}
    }
}

/// Puts the entry into the tree, and changes of what is kept what concerns it. Where there is no memory for that, the
/// entry is taken out again, and what is kept is right as before.
pub(crate) fn insert_posted(
    alloc: Global,
    tree: &mut Tree,
    held: &mut Holdings,
    index: &mut ValueIndex,
    entry: Entry,
) -> Result<EntryNo, InsertRefusal>
    requires named { entry.name ≢ [] }
    requires kept { AreKept held.old index.old tree.old }
    ensures exact { Inserts entry tree.old result tree.new }
    ensures kept { AreKept held.new index.new tree.new }
{
    let Ok(hashes) = hashes_of(alloc, &entry) else {
        return Err(InsertRefusal::NoMemory);
    };
    tree.entries_form_a_tree();
    let number = insert_step(alloc, tree, held, entry)?;
    match index.add(number, &hashes) {
        Ok(()) => Ok(number),
        Err(_) => {
            index.drop_but(number, &hashes, &[]);
            take_out_again(alloc, tree, held, number);
            Err(InsertRefusal::NoMemory)
        }
    }
}

/// Takes the entry of the number out of the tree, and of what is kept what concerns it. Takes no memory.
pub(crate) fn remove_posted(
    alloc: Global,
    tree: &mut Tree,
    held: &mut Holdings,
    index: &mut ValueIndex,
    number: EntryNo,
) -> Result<Entry, RemoveRefusal>
    requires kept { AreKept held.old index.old tree.old }
    ensures exact { RemovesWithoutMemory number.0 tree.old result tree.new }
    ensures kept { AreKept held.new index.new tree.new }
{
    let entry = remove_step(alloc, tree, held, number)?;
    index.forget(number, &entry);
    Ok(entry)
}

// The hashes of the entry of the number, if there is one.
fn hashes_at(alloc: Global, tree: &Tree, number: EntryNo) -> Result<Vec<u32>, NoMemory>
    ensures ok { IfOk result (λ hashes. (entry : EntryInformation)
        → entry_of number.0 tree.now ≡ Some entry → hashes.items ≡ hashes_of entry) }
{
    match tree.at(number) {
        Some(entry) => hashes_of(alloc, entry),
        None => Ok(Vec::new(alloc)),
    }
}

/// Gives the entry's place to another, and changes of what is kept what concerns the two. Where there is no memory for
/// that, the tree is as it was, and what is kept is right as before.
pub(crate) fn replace_posted(
    alloc: Global,
    tree: &mut Tree,
    held: &mut Holdings,
    index: &mut ValueIndex,
    successor: Successor,
) -> Result<Entry, ReplaceRefusal>
    requires named { KeepsName successor tree.old }
    requires kept { AreKept held.old index.old tree.old }
    ensures exact { Replaces successor.number.0 successor.entry tree.old result tree.new }
    ensures kept { AreKept held.new index.new tree.new }
{
    let number = successor.number;
    let Ok(before) = hashes_at(alloc, tree, number) else {
        return Err(ReplaceRefusal::NoMemory);
    };
    let Ok(after) = hashes_of(alloc, &successor.entry) else {
        return Err(ReplaceRefusal::NoMemory);
    };
    match index.add(number, &after) {
        Ok(()) => match replace_step(alloc, tree, held, successor) {
            Ok(old) => {
                index.drop_but(number, &before, &after);
                Ok(old)
            }
            Err(refusal) => {
                index.drop_but(number, &after, &before);
                Err(refusal)
            }
        },
        Err(_) => {
            index.drop_but(number, &after, &before);
            Err(ReplaceRefusal::NoMemory)
        }
    }
}
