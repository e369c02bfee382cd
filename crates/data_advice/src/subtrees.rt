//! Whether subtrees hold an entry.

ghost use Rattle.std.specs.Prelude.{◌≡◌, false};
ghost use Rattle.std.specs.List.{list_any};
ghost use Rattle.dir_tree.specs.Scope.{scoped};
ghost use Rattle.dir_tree.specs.declared.scope.Scope.TheVariants.{Sub};
ghost use Rattle.dir_tree.specs.tree.Numbered.{entries_of, IsNumberedTree};
ghost use Rattle.subtree_spec.specs.Subtrees.{subtree_of};
ghost use Rattle.subtree_spec.specs.membership.Membership.{holds_name};
ghost use Rattle.admin_scope.specs.Refinements.{holds};
ghost use Rattle.data_advice.specs.Walking.{passes};

use admin_scope::holds;
use dir_tree::dn_names::Dn;
use dir_tree::{EntryNo, Scope, Tree};
use subtree_spec::{Spec, holds_name};

// Whether the entry of the number belongs to the subtree, whose base is read from the root.
fn holds_at(tree: &Tree, subtree: &Spec, no: EntryNo) -> bool
    ensures exact { result ≡ passes (λ entry. holds_name (subtree_of subtree.now) entry.name) tree.now no.0 }
{
    match tree.at(no) {
        Some(entry) => holds_name(subtree, entry.name()),
        None => false,
    }
}

// Whether one of the entries from the number on does.
fn holds_from(tree: &Tree, subtree: &Spec, suffix: EntryNo) -> bool
    ensures exact { result ≡ list_any (passes (λ entry. holds_name (subtree_of subtree.now) entry.name) tree.now)
        (scoped Sub suffix.0 tree.now) }
{
    for no in tree.below(suffix, Scope::Sub) {
        if holds_at(tree, subtree, no) {
            return true;
        }
    }
    false
}

/// Whether the subtree, whose base is read from the root, holds one of the entries.
pub(crate) fn holds_some(tree: &Tree, subtree: &Spec) -> bool
    ensures exact { result
        ≡ list_any (λ entry. holds_name (subtree_of subtree.now) entry.name) (entries_of tree.now) }
    ensures tree { IsNumberedTree tree.now }
{
    tree.entries_form_a_tree();
    match tree.suffix() {
        Some(suffix) => holds_from(tree, subtree, suffix),
        None => false,
    }
}

// Whether the entry of the number belongs to the subtree of the point.
fn holds_below_at(tree: &Tree, subtree: &Spec, point: &Dn, no: EntryNo) -> bool
    ensures exact { result ≡ passes (holds (subtree_of subtree.now) point.now) tree.now no.0 }
{
    match tree.at(no) {
        Some(entry) => holds(subtree, point, entry),
        None => false,
    }
}

// Whether one of the entries from the number on does.
fn holds_below_from(tree: &Tree, subtree: &Spec, point: &Dn, suffix: EntryNo) -> bool
    ensures exact { result ≡ list_any (passes (holds (subtree_of subtree.now) point.now) tree.now)
        (scoped Sub suffix.0 tree.now) }
{
    for no in tree.below(suffix, Scope::Sub) {
        if holds_below_at(tree, subtree, point, no) {
            return true;
        }
    }
    false
}

/// Whether the subtree of the point holds one of the entries.
pub(crate) fn holds_some_below(tree: &Tree, subtree: &Spec, point: &Dn) -> bool
    ensures exact { result ≡ list_any (holds (subtree_of subtree.now) point.now) (entries_of tree.now) }
    ensures tree { IsNumberedTree tree.now }
{
    tree.entries_form_a_tree();
    match tree.suffix() {
        Some(suffix) => holds_below_from(tree, subtree, point, suffix),
        None => false,
    }
}
