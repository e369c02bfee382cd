//! What is kept, where an entry is put in.

ghost use Rattle.std.specs.Prelude.{◌≡◌, ◌≢◌, [], false};
ghost use Rattle.dir_tree.specs.Points.{is_access_subentry};
ghost use Rattle.dir_tree.specs.Effects.{Inserts};
ghost use Rattle.aci_lists.specs.kept.Holdings.{IsHeld};

use crate::anew::{Reach, make_anew_with_room, put_anew, top};
use crate::putting::{keep_anew, make_lists};
use aci_lists::{Holdings, take_back};
use dir_tree::{Entry, EntryNo, InsertRefusal, Tree};
use std::alloc::Global;

// Puts an entry that is no access control subentry into the tree: its own lists are made, and all others stay.
fn insert_ordinary(
    alloc: Global,
    tree: &mut Tree,
    held: &mut Holdings,
    entry: Entry,
) -> Result<EntryNo, InsertRefusal>
    requires named { entry.name ≢ [] }
    requires ordinary { is_access_subentry entry ≡ false }
    requires held { IsHeld held.old tree.old }
    ensures exact { Inserts entry tree.old result tree.new }
    ensures held { IsHeld held.new tree.new }
{
    tree.entries_form_a_tree();
    let number = tree.insert(entry)?;
    tree.entries_form_a_tree();
    match keep_anew(alloc, tree, held, number) {
        Ok(()) => Ok(number),
        Err(_) => {
            take_back(tree, number);
            Err(InsertRefusal::NoMemory)
        }
    }
}

// Puts an access control subentry into the tree: the lists of the entries at and below its superior are made anew, and
// all others stay.
fn insert_around(
    alloc: Global,
    tree: &mut Tree,
    held: &mut Holdings,
    entry: Entry,
) -> Result<EntryNo, InsertRefusal>
    requires named { entry.name ≢ [] }
    requires held { IsHeld held.old tree.old }
    ensures exact { Inserts entry tree.old result tree.new }
    ensures held { IsHeld held.new tree.new }
{
    tree.entries_form_a_tree();
    let number = tree.insert(entry)?;
    tree.entries_form_a_tree();
    let above = top(tree, number, Reach::Around);
    match make_anew_with_room(alloc, tree, held, above) {
        Ok(anew) => {
            put_anew(held, anew);
            Ok(number)
        }
        Err(_) => {
            take_back(tree, number);
            Err(InsertRefusal::NoMemory)
        }
    }
}

// Puts an access control subentry into the tree, and the groups that its items name among those known.
fn insert_subentry(
    alloc: Global,
    tree: &mut Tree,
    held: &mut Holdings,
    entry: Entry,
) -> Result<EntryNo, InsertRefusal>
    requires named { entry.name ≢ [] }
    requires held { IsHeld held.old tree.old }
    ensures exact { Inserts entry tree.old result tree.new }
    ensures held { IsHeld held.new tree.new }
{
    match make_lists(alloc, tree, held, &entry) {
        Ok(_) => insert_around(alloc, tree, held, entry),
        Err(_) => Err(InsertRefusal::NoMemory),
    }
}

/// Puts the entry into the tree, and changes of what is kept what concerns it. Where there is no memory for that, the
/// entry is taken out again, and what is kept is right as before.
pub(crate) fn insert_step(
    alloc: Global,
    tree: &mut Tree,
    held: &mut Holdings,
    entry: Entry,
) -> Result<EntryNo, InsertRefusal>
    requires named { entry.name ≢ [] }
    requires held { IsHeld held.old tree.old }
    ensures exact { Inserts entry tree.old result tree.new }
    ensures held { IsHeld held.new tree.new }
{
    if entry.is_access_subentry() {
        insert_subentry(alloc, tree, held, entry)
    } else {
        insert_ordinary(alloc, tree, held, entry)
    }
}
