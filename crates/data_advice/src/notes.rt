//! All notes.

ghost use Rattle.std.specs.Prelude.{◌≡◌, ◌++◌, OnOk, IfOk, flat_map, string_bytes};
ghost use Rattle.dir_tree.specs.Scope.{scoped};
ghost use Rattle.dir_tree.specs.declared.scope.Scope.TheVariants.{Sub};
ghost use Rattle.dir_tree.specs.tree.Numbered.{entries_of, IsNumberedTree};
ghost use Rattle.data_advice.specs.EntryNotes.{entry_note};
ghost use Rattle.data_advice.specs.Advice.{points_note, advice_text};
ghost use Rattle.data_advice.specs.Walking.{gives};

use crate::entries::put_entry;
use crate::noting::NoMemory;
use crate::points::put_points;
use dir_tree::{EntryNo, Scope, Tree};
use std::alloc::Global;

// Writes what is noted of the entry of the number.
fn put_at(alloc: Global, tree: &Tree, no: EntryNo, out: &mut String) -> Result<(), NoMemory>
    ensures ok { OnOk result (string_bytes out.new
        ≡ string_bytes out.old ++ gives (entry_note (entries_of tree.now)) tree.now no.0) }
{
    match tree.at(no) {
        Some(entry) => put_entry(alloc, tree, entry, out),
        None => Ok(()),
    }
}

// Writes what is noted of the entries from the number on.
fn put_from(alloc: Global, tree: &Tree, suffix: EntryNo, out: &mut String) -> Result<(), NoMemory>
    ensures ok { OnOk result (string_bytes out.new ≡ string_bytes out.old
        ++ flat_map (gives (entry_note (entries_of tree.now)) tree.now) (scoped Sub suffix.0 tree.now)) }
{
    for no in tree.below(suffix, Scope::Sub) {
        put_at(alloc, tree, no, out)?;
    }
    Ok(())
}

// Writes what is noted of all entries, one by one.
fn put_entries(alloc: Global, tree: &Tree, out: &mut String) -> Result<(), NoMemory>
    ensures ok { OnOk result (string_bytes out.new
        ≡ string_bytes out.old ++ flat_map (entry_note (entries_of tree.now)) (entries_of tree.now)) }
    ensures tree { IsNumberedTree tree.now }
{
    tree.entries_form_a_tree();
    match tree.suffix() {
        Some(suffix) => put_from(alloc, tree, suffix, out),
        None => Ok(()),
    }
}

/// What may surprise the operator of the tree, line by line: that nobody may do anything for want of an administrative
/// point, how many entries nobody may find, and, entry by entry, subtrees that hold no entry, names in items that no entry
/// has, and passwords whose scheme accepts none. The error comes where memory is refused.
#[tactic(auto, unfolding(crate::specs::Advice::advice_text))]
pub fn advice(alloc: Global, tree: &Tree) -> Result<String, NoMemory>
    ensures ok { IfOk result (λ said. string_bytes said ≡ advice_text (entries_of tree.now)) }
{
    let mut out = String::new(alloc);
    put_points(alloc, tree, &mut out)?;
    put_entries(alloc, tree, &mut out)?;
    Ok(out)
}
