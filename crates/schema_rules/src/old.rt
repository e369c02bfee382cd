//! The entry whose place another takes.

ghost use Rattle.std.specs.Prelude.{◌≡◌};
ghost use Rattle.std.specs.Option.{option_map, option_and_then};
ghost use Rattle.dir_tree.specs.tree.Numbered.{IsNumberedTree};
ghost use Rattle.dir_tree.specs.Scope.{is_number};
ghost use Rattle.schema_rules.specs.Checking.{replaced};
ghost use Rattle.schema_rules.specs.Beside.{entry_beside};

use dir_tree::{Entry, EntryNo, Tree};

/// The entry whose place is taken; None for a new entry, and where the number is not in use.
pub(crate) fn replaced(tree: &Tree, old: Option<EntryNo>) -> Option<&Entry>
    ensures exact { option_map (λ entry. entry.now) result
        ≡ replaced (option_map (λ no. no.0) old) tree.now }
    ensures tree { IsNumberedTree tree.now }
{
    tree.entries_form_a_tree();
    match old {
        Some(no) => tree.at(no),
        None => None,
    }
}

/// The entry of the number, if there is one whose place isn't taken.
pub(crate) fn entry_beside(
    tree: &Tree,
    old: Option<EntryNo>,
    number: Option<EntryNo>,
) -> Option<&Entry>
    ensures exact { option_map (λ entry. entry.now) result
        ≡ option_and_then (entry_beside (option_map (λ no. no.0) old) tree.now)
        (option_map (λ no. no.0) number) }
    ensures tree { IsNumberedTree tree.now }
{
    tree.entries_form_a_tree();
    match number {
        Some(no) => found_beside(tree, old, no),
        None => None,
    }
}

// The entry of the number, unless it is the one whose place is taken.
fn found_beside(tree: &Tree, old: Option<EntryNo>, no: EntryNo) -> Option<&Entry>
    ensures exact { option_map (λ entry. entry.now) result
        ≡ entry_beside (option_map (λ no. no.0) old) tree.now no.0 }
{
    if is_old(old, no) { None } else { tree.at(no) }
}

// Whether the number is that of the entry whose place is taken.
fn is_old(old: Option<EntryNo>, no: EntryNo) -> bool
    ensures exact { result ≡ is_number no.0 (option_map (λ no. no.0) old) }
{
    match old {
        Some(other) => other.0 == no.0,
        None => false,
    }
}
