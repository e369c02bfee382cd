//! Where administrative points and subentries stand (X.501 14.3, RFC 3672 section 2).

ghost use Rattle.std.specs.Prelude.{◌≡◌, ◌&&◌, not};
ghost use Rattle.std.specs.List.{list_any};
ghost use Rattle.std.specs.Option.{option_map};
ghost use Rattle.dir_tree.specs.tree.Trees.{superior_name, named_in};
ghost use Rattle.dir_tree.specs.tree.Numbered.{IsNumberedTree, find_name};
ghost use Rattle.dir_tree.specs.Scope.{scoped};
ghost use Rattle.dir_tree.specs.declared.scope.Scope.TheVariants.{One};
ghost use Rattle.schema_rules.specs.Checking.{IsSuperior, replaced, others};
ghost use Rattle.schema_rules.specs.Beside.{stands_wrong_below, takes_all_below, is_wrong_below};
ghost use Rattle.aci_item.specs.Rules.{stands_wrong, stands_wrong_above, is_misplaced};

use crate::old::entry_beside;
use dir_tree::dn_names::Dn;
use dir_tree::{Entry, EntryNo, Scope, Tree};

/// Whether the entry stands below a subentry, or is a subentry and stands below no administrative point; or whether one
/// would stand so below it of those immediately below the entry whose place it takes. The second number is that of its
/// superior.
#[tactic(auto, unfolding(aci_item::specs::Rules::is_misplaced))]
pub(crate) fn is_misplaced(
    tree: &Tree,
    old: Option<EntryNo>,
    superior: Option<EntryNo>,
    entry: &Entry,
) -> bool
    requires { IsSuperior (option_map (λ no. no.0) superior) entry.now tree.now }
    ensures exact { result
        ≡ is_misplaced (replaced (option_map (λ no. no.0) old) tree.now)
        (others (option_map (λ no. no.0) old) tree.now) entry.now }
{
    is_wrong_there(tree, old, superior, entry) || stands_wrong_above(tree, old, entry)
}

// Whether the entry may not stand below its superior, which is another than the entry whose place is taken.
fn is_wrong_there(
    tree: &Tree,
    old: Option<EntryNo>,
    superior: Option<EntryNo>,
    entry: &Entry,
) -> bool
    requires { IsSuperior (option_map (λ no. no.0) superior) entry.now tree.now }
    ensures exact { result
        ≡ stands_wrong (named_in (superior_name entry.now.name)
        (others (option_map (λ no. no.0) old) tree.now)) entry.now }
{
    stands_wrong(entry_beside(tree, old, superior), entry)
}

// Whether the entry may not stand immediately below the superior, or without one.
fn stands_wrong(superior: Option<&Entry>, entry: &Entry) -> bool
    ensures exact { result ≡ stands_wrong (option_map (λ entry. entry.now) superior.entry) entry.now }
{
    match superior {
        Some(superior) => stands_wrong_below(superior, entry),
        None => entry.is_subentry(),
    }
}

// Whether the superior is a subentry, or the entry is one and the superior is no administrative point.
fn stands_wrong_below(superior: &Entry, entry: &Entry) -> bool
    ensures exact { result ≡ stands_wrong_below superior.now entry.now }
{
    superior.is_subentry() || entry.is_subentry() && !superior.is_point()
}

// Whether one of those immediately below the entry whose place is taken may not stand immediately below the other.
fn stands_wrong_above(tree: &Tree, old: Option<EntryNo>, entry: &Entry) -> bool
    ensures exact { result
        ≡ stands_wrong_above (replaced (option_map (λ no. no.0) old) tree.now)
        (others (option_map (λ no. no.0) old) tree.now) entry.now }
{
    match old {
        Some(no) => has_wrong_below(tree, no, entry),
        None => false,
    }
}

// Whether one of those immediately below the entry of the number may not stand immediately below the other: they are not
// looked at where any may.
fn has_wrong_below(tree: &Tree, no: EntryNo, entry: &Entry) -> bool
    ensures exact { result
        ≡ (not (takes_all_below entry.now)
        && list_any (is_wrong_below entry.now tree.now) (scoped One no.0 tree.now)) }
    ensures tree { IsNumberedTree tree.now }
{
    tree.entries_form_a_tree();
    !takes_all_below(entry) && finds_wrong_below(tree, no, entry)
}

// Whether any entry may stand immediately below the entry.
fn takes_all_below(entry: &Entry) -> bool
    ensures exact { result ≡ takes_all_below entry.now }
{
    entry.is_point() && !entry.is_subentry()
}

// Whether one is found.
fn finds_wrong_below(tree: &Tree, no: EntryNo, entry: &Entry) -> bool
    ensures exact { result
        ≡ list_any (is_wrong_below entry.now tree.now) (scoped One no.0 tree.now) }
{
    for other in tree.below(no, Scope::One) {
        if is_wrong_below(tree, entry, other) {
            return true;
        }
    }
    false
}

// Whether the entry of the number may not stand immediately below the entry.
fn is_wrong_below(tree: &Tree, entry: &Entry, no: EntryNo) -> bool
    ensures exact { result ≡ is_wrong_below entry.now tree.now no.0 }
{
    match tree.at(no) {
        Some(other) => stands_wrong_below(entry, other),
        None => false,
    }
}

/// The number of the superior of an entry of the name, if it has one in the tree.
pub(crate) fn number_above(tree: &Tree, name: &Dn) -> Option<EntryNo>
    ensures exact { option_map (λ no. no.0) result ≡ find_name (superior_name name.now) tree.now }
{
    tree.find_prefix(name, name.len().saturating_sub(1))
}
