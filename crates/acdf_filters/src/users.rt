//! The user classes in which a requester is.

ghost use Rattle.std.specs.Prelude.{◌≡◌, ◌||◌, Some, map};
ghost use Rattle.std.specs.List.{list_any};
ghost use Rattle.std.specs.Option.{option_map};
ghost use Rattle.std.specs.Str.{bytes_eq};
ghost use Rattle.dir_tree.specs.dn_names.NameOrder.{is_same};
ghost use Rattle.dir_tree.specs.dn_names.Printing.{name_key};
ghost use Rattle.dir_tree.specs.Entry.{values_of, has_key};
ghost use Rattle.dir_tree.specs.tree.Trees.{named_in};
ghost use Rattle.dir_tree.specs.tree.Numbered.{entries_of};
ghost use Rattle.aci_item.specs.subtree_spec.Subtrees.{subtree_of};
ghost use Rattle.aci_item.specs.item.Views.{classes_of};
ghost use Rattle.acdf_filters.specs.users.Choices.{least, is_filled};
ghost use Rattle.acdf_filters.specs.users.Users.{has_member, is_in_group, is_in_groups, is_held, ranks_of, listed_ranks};
ghost use Rattle.acdf_filters.specs.weighing.Weighing.{AreMemberships, known_member, least_class, class_of_all, first_rank};

use crate::question::{Membership, Question};
use aci_item::UserClasses;
use aci_item::subtree_spec::{Spec, holds_name};
use dir_tree::dn_names::{Dn, is_key_of, same};
use dir_tree::schema_tables::AttrId;
use dir_tree::{Entry, Tree};

/// Whether the octets are the key of the name.
pub(crate) fn is_key(name: &Dn, key: &[u8]) -> bool
    ensures exact { result ≡ bytes_eq (name_key name.now) key.now }
{
    is_key_of(name, key)
}

// Whether the group has the name among its values of the type.
fn has_name(group: &Entry, kind: AttrId, name: &Dn) -> bool
    ensures exact { result ≡ has_key (name_key name.now) (values_of kind.0 group.now.attributes) }
{
    group
        .values(kind)
        .iter()
        .any(|value| is_key(name, value.key()))
}

/// Whether the name is among the members of the group.
pub(crate) fn has_member(group: &Entry, name: &Dn) -> bool
    ensures exact { result ≡ has_member name.now group.now }
{
    has_name(group, AttrId::MEMBER, name) || has_name(group, AttrId::UNIQUE_MEMBER, name)
}

/// The entry of the name.
pub(crate) fn entry_named<'a>(tree: &'a Tree, name: &Dn) -> Option<&'a Entry>
    ensures exact { option_map (λ entry. entry.now) result ≡ named_in name.now (entries_of tree.now) }
{
    tree.entries_form_a_tree();
    match tree.find(name) {
        Some(number) => tree.at(number),
        None => None,
    }
}

// Whether the name is a member of the group of this name: an absent group has no members, and a group that is a member
// gives none. No memory is taken.
fn is_in_group(tree: &Tree, name: &Dn, group: &Dn) -> bool
    ensures exact { result ≡ is_in_group (entries_of tree.now) name.now group.now }
{
    match entry_named(tree, group) {
        Some(entry) => has_member(entry, name),
        None => false,
    }
}

// What is known of the membership in the group.
fn find_membership(known: &[Membership], group: &Dn) -> Option<bool>
    ensures exact { result ≡ known_member known.now group.now }
{
    for membership in known {
        if same(&membership.group, group) {
            return Some(membership.member);
        }
    }
    None
}

// Whether the name is a member of the group: what is known, or else what the tree says.
fn is_member(question: &Question<'_>, name: &Dn, group: &Dn) -> bool
    requires { AreMemberships (entries_of question.now.tree.now) (Some name.now) question.now.known.now }
    ensures exact { result ≡ is_in_group (entries_of question.now.tree.now) name.now group.now }
{
    match find_membership(question.known, group) {
        Some(member) => member,
        None => is_in_group(question.tree, name, group),
    }
}

// Whether the name is a member of one of the groups.
fn is_in_groups(question: &Question<'_>, name: &Dn, groups: &[Dn]) -> bool
    requires { AreMemberships (entries_of question.now.tree.now) (Some name.now) question.now.known.now }
    ensures exact { result ≡ is_in_groups (entries_of question.now.tree.now) name.now groups.now }
{
    for group in groups {
        if is_member(question, name, group) {
            return true;
        }
    }
    false
}

// Whether the name is one of the names.
fn is_listed(names: &[Dn], name: &Dn) -> bool
    ensures exact { result ≡ list_any (is_same name.now) names.now }
{
    names.iter().any(|other| same(name, other))
}

// Whether one of the subtrees holds the name.
fn is_in_subtrees(subtrees: &[Spec], name: &Dn) -> bool
    ensures exact { result ≡ is_held name.now (map subtree_of subtrees.now) }
{
    for subtree in subtrees {
        if holds_name(subtree, name) {
            return true;
        }
    }
    false
}

// The rank of the most specific class in which a requester of this name is; None where it is in none.
#[tactic(auto, unfolding(crate::specs::users::Users::ranks_of))]
fn class_of_name(question: &Question<'_>, name: &Dn, classes: &UserClasses) -> Option<u8>
    requires { AreMemberships (entries_of question.now.tree.now) (Some name.now) question.now.known.now }
    ensures exact { result ≡ least_class
        (ranks_of (entries_of question.now.tree.now) question.now.entry.now (classes_of classes.now) (Some name.now)) }
{
    if (classes.this_entry && same(name, question.entry.name()))
        || is_listed(&classes.names, name)
    {
        Some(0)
    } else if is_in_groups(question, name, &classes.groups) {
        Some(1)
    } else if is_in_subtrees(&classes.subtrees, name) {
        Some(2)
    } else {
        all_users(classes)
    }
}

// The rank of allUsers, where it is listed.
fn all_users(classes: &UserClasses) -> Option<u8>
    ensures exact { result ≡ class_of_all classes.now.all }
{
    if classes.all { Some(3) } else { None }
}

/// The rank of the most specific class in which the requester is: 0 for name and thisEntry, 1 for userGroup, 2 for
/// subtree, 3 for allUsers; None exactly where it is in none. No memory is taken.
pub fn class_of(question: &Question<'_>, classes: &UserClasses) -> Option<u8>
    requires { AreMemberships (entries_of question.now.tree.now) question.now.who.now.name question.now.known.now }
    ensures exact { result ≡ least_class
        (ranks_of (entries_of question.now.tree.now) question.now.entry.now (classes_of classes.now) question.now.who.now.name) }
{
    match &question.who.name {
        Some(name) => class_of_name(question, name, classes),
        None => all_users(classes),
    }
}

// Whether there is a name.
fn has_some(names: &[Dn]) -> bool
    ensures exact { result ≡ is_filled names.now }
{
    !names.is_empty()
}

// Whether there is a subtree.
fn has_subtree(subtrees: &[Spec]) -> bool
    ensures exact { result ≡ is_filled (map subtree_of subtrees.now) }
{
    !subtrees.is_empty()
}

// Whether single users are listed.
fn has_users(classes: &UserClasses) -> bool
    ensures exact { result ≡ (classes.now.this_entry || is_filled classes.now.names.items) }
{
    classes.this_entry || has_some(&classes.names)
}

// The rank of the first class that is listed.
fn first_rank(users: bool, groups: bool, subtrees: bool) -> u8
    ensures exact { result ≡ first_rank users groups subtrees }
{
    if users {
        0
    } else if groups {
        1
    } else if subtrees {
        2
    } else {
        3
    }
}

/// The rank of the most specific class that is listed; 3 where none is.
pub fn listed_class(classes: &UserClasses) -> u8
    ensures exact { result ≡ least (listed_ranks (classes_of classes.now)) }
{
    first_rank(
        has_users(classes),
        has_some(&classes.groups),
        has_subtree(&classes.subtrees),
    )
}
