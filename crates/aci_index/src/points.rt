//! Which lists an entry changes that takes another's place.

ghost use Rattle.std.specs.Prelude.{◌≡◌, true};
ghost use Rattle.std.specs.Option.{option_map_or};
ghost use Rattle.dir_tree.specs.tree.Numbered.{entry_of};
ghost use Rattle.dir_tree.specs.dn_names.NameOrder.{is_same};
ghost use Rattle.acdf_filters.specs.admin_scope.Areas.{is_access_point};
ghost use Rattle.aci_index.specs.Reach.{reach_of};
ghost use Rattle.aci_index.specs.Steps.{are_alike, are_ordinary, changes_own, has_same_roles, is_same_point, is_own_change, KeepsName};

use crate::anew::Reach;
use crate::successor::Successor;
use acdf_filters::admin_scope::{is_inner_point, is_specific_point};
use dir_tree::dn_names::same;
use dir_tree::{Entry, EntryNo, Tree};

// Whether the entry is a point for access control.
fn is_access_point(entry: &Entry) -> bool
    ensures exact { result ≡ is_access_point entry.now }
{
    is_specific_point(entry) || is_inner_point(entry)
}

// Whether both hold or neither does.
fn are_alike(one: bool, other: bool) -> bool
    ensures exact { result ≡ are_alike one other }
{
    if one { other } else { !other }
}

// Whether the two are points of the same kind, or neither is a point.
fn has_same_roles(one: &Entry, other: &Entry) -> bool
    ensures exact { result ≡ has_same_roles one.now other.now }
{
    are_alike(is_specific_point(one), is_specific_point(other))
        && are_alike(is_inner_point(one), is_inner_point(other))
}

// Whether the entry that is to come has the name of the old one.
fn has_same_name(old: &Entry, successor: &Successor) -> bool
    requires named { successor.now.keeps_name ≡ true → is_same successor.now.entry.name old.now.name ≡ true }
    ensures exact { result ≡ is_same old.now.name successor.now.entry.name }
{
    successor.keeps_name || same(old.name(), successor.entry.name())
}

// Whether the two are the same as points.
fn is_same_point(old: &Entry, successor: &Successor) -> bool
    requires named { successor.now.keeps_name ≡ true → is_same successor.now.entry.name old.now.name ≡ true }
    ensures exact { result ≡ is_same_point old.now successor.now.entry }
{
    has_same_roles(old, &successor.entry)
        && (!is_access_point(old) || has_same_name(old, successor))
}

// Whether neither is an access control subentry.
fn are_ordinary(one: &Entry, other: &Entry) -> bool
    ensures exact { result ≡ are_ordinary one.now other.now }
{
    !one.is_access_subentry() && !other.is_access_subentry()
}

// Whether the one that is to come changes no lists but its own in place of the old one.
#[tactic(auto, unfolding(crate::specs::Steps::is_own_change))]
fn is_own_change(old: &Entry, successor: &Successor) -> bool
    requires named { successor.now.keeps_name ≡ true → is_same successor.now.entry.name old.now.name ≡ true }
    ensures exact { result ≡ is_own_change old.now successor.now.entry }
{
    are_ordinary(old, &successor.entry) && is_same_point(old, successor)
}

/// Whether the entry in place of that of the number changes no lists but its own; false where the number is not in use.
pub(crate) fn changes_own(tree: &Tree, successor: &Successor) -> bool
    requires named { KeepsName successor.now tree.now }
    ensures exact { result ≡ changes_own successor.now tree.now }
{
    match tree.at(successor.number) {
        Some(old) => is_own_change(old, successor),
        None => false,
    }
}

// What the one reaches in place of the other.
fn reach_of(old: &Entry, one: &Entry) -> Reach
    ensures exact { result ≡ reach_of old.now one.now }
{
    if are_ordinary(old, one) {
        Reach::Below
    } else {
        Reach::Around
    }
}

/// What the entry reaches in place of that of the number. Nothing takes the place of a number that is not in use.
pub(crate) fn reach_at(tree: &Tree, number: EntryNo, entry: &Entry) -> Reach
    ensures exact { result ≡ option_map_or (λ old. reach_of old entry.now) (entry_of number.0 tree.now) Reach.Around }
{
    match tree.at(number) {
        Some(old) => reach_of(old, entry),
        None => Reach::Around,
    }
}
