//! The entries of a tree, one after another.

ghost use Rattle.std.specs.Prelude.{◌≡◌, ◌∷◌, [], IfSome, None};
ghost use Rattle.dir_tree.specs.tree.Numbered.{entries_of, entries_at};

use dir_tree::{Entry, Scope, Tree, Walk};
use std::marker::Model;

/// The entries of a tree, in the order of their names. Contracts see those that are left.
#[derive(Drop)]
pub(crate) struct Rows<'a> {
    tree: &'a Tree,
    // none where the tree has no entry
    walk: Option<Walk<'a>>,
}

impl<'a> Model for Rows<'a> {
    ghost use Rattle.std.specs.Prelude.{List};
    ghost use Rattle.dir_tree.specs.Entry.{EntryInformation};
    ghost use Rattle.hush_laws.specs.Rows.{rows_left};

    ghost Value = { List EntryInformation };

    ghost view = { λ rows. rows_left rows.tree.now rows.walk };
}

impl<'a> Rows<'a> {
    /// All entries.
    pub(crate) fn new(tree: &'a Tree) -> Rows<'a>
        ensures exact { result ≡ entries_of tree.now }
    {
        tree.entries_form_a_tree();
        match tree.suffix() {
            Some(suffix) => Rows {
                tree,
                walk: Some(tree.below(suffix, Scope::Sub)),
            },
            None => Rows { tree, walk: None },
        }
    }
}

// The next entry of the walk, if one is left.
fn next_entry<'a>(tree: &'a Tree, walk: &mut Walk<'a>) -> Option<&'a Entry>
    ensures found { IfSome result (λ entry.
        entries_at tree.now walk.old ≡ entry.now ∷ entries_at tree.now walk.new) }
    ensures empty { result ≡ None → entries_at tree.now walk.old ≡ [] }
    ensures ended { result ≡ None → entries_at tree.now walk.new ≡ [] }
{
    while let Some(number) = walk.next() {
        if let Some(entry) = tree.at(number) {
            return Some(entry);
        }
    }
    None
}

impl<'a> Iterator for Rows<'a> {
    ghost use Rattle.std.specs.Iterator.{YieldsFirstBy, item_count};

    type Item = &'a Entry;

    ghost next_gives = { YieldsFirstBy (λ entry. entry.now) (λ left. left) };

    ghost remaining = { item_count (λ left. left) };

    fn next(&mut self) -> Option<&'a Entry> {
        match &mut self.walk {
            Some(walk) => next_entry(self.tree, walk),
            None => None,
        }
    }
}
