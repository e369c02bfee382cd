//! What is kept, where an entry takes another's place.

ghost use Rattle.std.specs.Prelude.{◌≡◌, ◌<◌, true, length, OnOk};
ghost use Rattle.dir_tree.specs.Effects.{Replaces};
ghost use Rattle.acdf_filters.specs.admin_scope.Finding.{AreSubtrees};
ghost use Rattle.aci_lists.specs.kept.Lists.{AreOf, lists_of};
ghost use Rattle.aci_lists.specs.kept.Holdings.{IsHeld};
ghost use Rattle.aci_index.specs.Reach.{AreBelow};
ghost use Rattle.aci_index.specs.Steps.{AllStay, KeepsName, changes_own};

use crate::anew::{Anew, Reach, make_anew, no_anew, put_anew, top};
use crate::points::{changes_own, reach_at};
use crate::putting::{make_lists, make_ready, make_room, put_own};
use crate::successor::{Successor, put_successor, put_successor_read};
use aci_lists::{Holdings, Kept};
use dir_tree::{Entry, EntryNo, NoMemory, ReplaceRefusal, Tree, TreeReader};
use std::alloc::Global;

// Gives the entry's place to another, and puts the other's lists, for which there is room. Takes no memory for them.
fn put_in_place(
    tree: &mut Tree,
    held: &mut Holdings,
    successor: Successor,
    lists: Kept,
) -> Result<Entry, ReplaceRefusal>
    requires named { KeepsName successor tree.old }
    requires own { changes_own successor tree.old ≡ true }
    requires held { IsHeld held.old tree.old }
    requires lists { AreOf tree.old successor.entry (lists_of lists) }
    requires room { successor.number.0 < length held.old.lists.items }
    ensures exact { Replaces successor.number.0 successor.entry tree.old result tree.new }
    ensures held { IsHeld held.new tree.new }
{
    let number = successor.number;
    tree.entries_form_a_tree();
    let old = put_successor(tree, successor)?;
    tree.entries_form_a_tree();
    put_own(held, number, lists);
    Ok(old)
}

// Gives the entry's place to another that changes no lists but its own. What is in force for the other is so before and
// after, so its lists are made of the tree as it still is.
fn replace_own(
    alloc: Global,
    tree: &mut Tree,
    held: &mut Holdings,
    successor: Successor,
) -> Result<Entry, ReplaceRefusal>
    requires named { KeepsName successor tree.old }
    requires own { changes_own successor tree.old ≡ true }
    requires held { IsHeld held.old tree.old }
    ensures exact { Replaces successor.number.0 successor.entry tree.old result tree.new }
    ensures held { IsHeld held.new tree.new }
{
    match make_ready(alloc, tree, held, successor.number, &successor.entry) {
        Ok(lists) => put_in_place(tree, held, successor, lists),
        Err(_) => Err(ReplaceRefusal::NoMemory),
    }
}

// Makes the lists that the number's new entry changes, of the tree that it reads: at and below the top before, and at and
// below the one that it finds.
#[derive(Drop)]
struct Remaker {
    alloc: Global,
    number: EntryNo,
    reach: Reach,
    from: EntryNo,
    anew: Anew,
}

impl TreeReader for Remaker {
    ghost use Rattle.aci_index.specs.Reach.{IsAnew, top_of};

    ghost has_read = { λ before remaker rows.
        IsAnew before.from.0 (top_of before.reach before.number.0 rows) remaker.anew rows };

    fn read(&mut self, tree: &Tree) -> Result<(), NoMemory> {
        let to = top(tree, self.number, self.reach);
        self.anew = make_anew(self.alloc, tree, self.from, to)?;
        Ok(())
    }
}

// Makes room for the lists of all numbers, and puts the groups that the entry's items name among those known.
fn make_all_ready(
    alloc: Global,
    tree: &Tree,
    held: &mut Holdings,
    entry: &Entry,
) -> Result<(), NoMemory>
    requires subtrees { AreSubtrees held.old.subtrees.items tree.now }
    ensures room { OnOk result (AreBelow (length held.new.lists.items) tree.now) }
    ensures stay { AllStay held.old held.new }
{
    let _lists = make_lists(alloc, tree, held, entry)?;
    make_room(alloc, &mut held.lists, tree.bound())?;
    Ok(())
}

// Gives the entry's place to another: the lists that it reaches are made of the tree as it then is, and put, for which
// there is room. Takes no memory after the tree has changed for good.
fn replace_reached(
    alloc: Global,
    tree: &mut Tree,
    held: &mut Holdings,
    successor: Successor,
) -> Result<Entry, ReplaceRefusal>
    requires named { KeepsName successor tree.old }
    requires held { IsHeld held.old tree.old }
    requires room { AreBelow (length held.old.lists.items) tree.old }
    ensures exact { Replaces successor.number.0 successor.entry tree.old result tree.new }
    ensures held { IsHeld held.new tree.new }
{
    let number = successor.number;
    let reach = reach_at(tree, number, &successor.entry);
    let mut remaker = Remaker {
        alloc,
        number,
        reach,
        from: top(tree, number, reach),
        anew: no_anew(alloc),
    };
    tree.entries_form_a_tree();
    let old = put_successor_read(tree, successor, &mut remaker)?;
    tree.entries_form_a_tree();
    put_anew(held, remaker.anew);
    Ok(old)
}

// Gives the entry's place to another that changes more lists than its own.
fn replace_other(
    alloc: Global,
    tree: &mut Tree,
    held: &mut Holdings,
    successor: Successor,
) -> Result<Entry, ReplaceRefusal>
    requires named { KeepsName successor tree.old }
    requires held { IsHeld held.old tree.old }
    ensures exact { Replaces successor.number.0 successor.entry tree.old result tree.new }
    ensures held { IsHeld held.new tree.new }
{
    match make_all_ready(alloc, tree, held, &successor.entry) {
        Ok(()) => replace_reached(alloc, tree, held, successor),
        Err(_) => Err(ReplaceRefusal::NoMemory),
    }
}

/// Gives the entry's place to another, and changes of what is kept what concerns the two. Where there is no memory for
/// that, the tree is as it was, and what is kept is right as before.
pub(crate) fn replace_step(
    alloc: Global,
    tree: &mut Tree,
    held: &mut Holdings,
    successor: Successor,
) -> Result<Entry, ReplaceRefusal>
    requires named { KeepsName successor tree.old }
    requires held { IsHeld held.old tree.old }
    ensures exact { Replaces successor.number.0 successor.entry tree.old result tree.new }
    ensures held { IsHeld held.new tree.new }
{
    if changes_own(tree, &successor) {
        replace_own(alloc, tree, held, successor)
    } else {
        replace_other(alloc, tree, held, successor)
    }
}
