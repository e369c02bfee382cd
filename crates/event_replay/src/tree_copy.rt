//! A tree copied.

ghost use Rattle.std.specs.Prelude.{◌≡◌, ◌≢◌, ◌∷◌, ◌++◌, [], IfOk, OnOk};
ghost use Rattle.dir_tree.specs.Scope.{scoped};
ghost use Rattle.dir_tree.specs.declared.scope.Scope.TheVariants.{Sub};
ghost use Rattle.dir_tree.specs.tree.Trees.{IsTree};
ghost use Rattle.dir_tree.specs.tree.Numbered.{entries_of, entries_at};
ghost use Rattle.event_replay.specs.Copying.{IsLast};

use dir_tree::{Entry, EntryNo, NoMemory, Scope, Tree};
use std::alloc::{AllocError, Global};

// Puts a copy of the entry behind all others.
fn append(alloc: Global, copy: &mut Tree, entry: &Entry) -> Result<(), NoMemory>
    requires named { entry.now.name ≢ [] }
    requires last { IsLast entry.now (entries_of copy.old) }
    ensures ok { OnOk result (entries_of copy.new ≡ entries_of copy.old ++ entry.now ∷ []) }
{
    match copy.insert(entry.copy(alloc)?) {
        Ok(_) => Ok(()),
        Err(_) => Err(AllocError),
    }
}

// A tree of the entries at and below that of the number, in their order.
fn copied_below(alloc: Global, tree: &Tree, base: EntryNo) -> Result<Tree, NoMemory>
    requires { IsTree (entries_at tree.now (scoped Sub base.0 tree.now)) }
    ensures ok { IfOk result (λ copy. entries_of copy ≡ entries_at tree.now (scoped Sub base.0 tree.now)) }
{
    let mut copy = Tree::new(alloc);
    for number in tree.below(base, Scope::Sub) {
        if let Some(entry) = tree.at(number) {
            append(alloc, &mut copy, entry)?;
        }
    }
    Ok(copy)
}

/// A tree with the same entries, in memory of its own; the numbers by which it knows them may be others. The error comes
/// where memory is wanted.
pub fn copied_tree(alloc: Global, tree: &Tree) -> Result<Tree, NoMemory>
    ensures ok { IfOk result (λ copy. entries_of copy ≡ entries_of tree.now) }
{
    tree.entries_form_a_tree();
    match tree.suffix() {
        Some(suffix) => copied_below(alloc, tree, suffix),
        None => Ok(Tree::new(alloc)),
    }
}
