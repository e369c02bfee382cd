//! Entries of a tree, by their names and numbers.

ghost use Rattle.std.specs.Prelude.{◌≡◌, Some, IfSome};
ghost use Rattle.std.specs.Option.{option_map};
ghost use Rattle.dir_tree.specs.tree.Trees.{named_in};
ghost use Rattle.dir_tree.specs.tree.Numbered.{entry_of, entries_of, find_name};
ghost use Rattle.directory.specs.Targets.{is_suffix};

use dir_tree::dn_names::Dn;
use dir_tree::{Entry, EntryNo, Tree};

/// An entry of a tree, with its number.
#[derive(Clone, Copy)]
pub struct NumberedEntry<'a> {
    pub number: EntryNo,
    pub entry: &'a Entry,
}

/// The entry of the name; None exactly where there is none.
pub fn find_entry<'a>(tree: &'a Tree, name: &Dn) -> Option<NumberedEntry<'a>>
    ensures exact { option_map (λ found. found.entry.now) result ≡ named_in name.now (entries_of tree.now) }
    ensures number { option_map (λ found. found.number.0) result ≡ find_name name.now tree.now }
    ensures numbered { IfSome result (λ found. entry_of found.number.0 tree.now ≡ Some found.entry.now) }
{
    tree.entries_form_a_tree();
    let number = tree.find(name)?;
    match tree.at(number) {
        Some(entry) => Some(NumberedEntry { number, entry }),
        None => None,
    }
}

/// Whether the entry is the suffix, the tree's first one. No name is compared.
pub fn is_suffix(tree: &Tree, target: NumberedEntry<'_>) -> bool
    requires found { entry_of target.number.0 tree.now ≡ Some target.entry.now }
    ensures exact { result ≡ is_suffix target.entry.entry.now.name (entries_of tree.now) }
{
    tree.entries_form_a_tree();
    match tree.suffix() {
        Some(first) => first.0 == target.number.0,
        None => false,
    }
}
