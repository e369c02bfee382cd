//! What is noted of access control items.

ghost use Rattle.std.specs.Prelude.{◌≡◌, ◌++◌, OnOk, IfOk, map, flat_map, option_map, string_bytes};
ghost use Rattle.dir_tree.specs.tree.Numbered.{entries_of};
ghost use Rattle.dir_tree.specs.tree.Trees.{has_name};
ghost use Rattle.subtree_spec.specs.Subtrees.{subtree_of};
ghost use Rattle.aci_item.specs.AciText.{item_of};
ghost use Rattle.aci_item.specs.item.Views.{classes_of, first_of, item_of_code, item_permission_of};
ghost use Rattle.data_advice.specs.Noting.{place_of};
ghost use Rattle.data_advice.specs.ItemNotes.{name_note, subtree_note, classes_note, classes_in, item_note, text_note};

use crate::noting::{NoMemory, Spot, put_named};
use crate::subtrees::holds_some;
use aci_item::{AciItem, BadText, First, ItemPermission, UserClasses, read};
use dir_tree::Tree;
use dir_tree::dn_names::Dn;
use std::alloc::{AllocError, Global};
use subtree_spec::Spec;

// Whether an entry has the name.
fn has_name(tree: &Tree, name: &Dn) -> bool
    ensures exact { result ≡ has_name name.now (entries_of tree.now) }
{
    match tree.find(name) {
        Some(_) => true,
        None => false,
    }
}

// Writes that no entry has the name, where none has.
fn put_name(
    alloc: Global,
    tree: &Tree,
    spot: &Spot<'_>,
    name: &Dn,
    out: &mut String,
) -> Result<(), NoMemory>
    ensures ok { OnOk result (string_bytes out.new
        ≡ string_bytes out.old ++ name_note (entries_of tree.now) (place_of spot.now) name.now) }
{
    if has_name(tree, name) {
        Ok(())
    } else {
        put_named(alloc, spot, "no entry ", name, "\n", out)
    }
}

// Writes which of the names no entry has.
fn put_names(
    alloc: Global,
    tree: &Tree,
    spot: &Spot<'_>,
    names: &[Dn],
    out: &mut String,
) -> Result<(), NoMemory>
    ensures ok { OnOk result (string_bytes out.new
        ≡ string_bytes out.old ++ flat_map (name_note (entries_of tree.now) (place_of spot.now)) names.now) }
{
    for name in names {
        put_name(alloc, tree, spot, name, out)?;
    }
    Ok(())
}

// Writes that a subtree of users has no entry, where it has none.
fn put_subtree(
    alloc: Global,
    tree: &Tree,
    spot: &Spot<'_>,
    subtree: &Spec,
    out: &mut String,
) -> Result<(), NoMemory>
    ensures ok { OnOk result (string_bytes out.new ≡ string_bytes out.old
        ++ subtree_note (entries_of tree.now) (place_of spot.now) (subtree_of subtree.now)) }
{
    if holds_some(tree, subtree) {
        return Ok(());
    }
    put_named(
        alloc,
        spot,
        "a subtree of users has no entry, of base \"",
        &subtree.base,
        "\"\n",
        out,
    )
}

// Writes which of the subtrees of users have no entry.
fn put_subtrees(
    alloc: Global,
    tree: &Tree,
    spot: &Spot<'_>,
    subtrees: &[Spec],
    out: &mut String,
) -> Result<(), NoMemory>
    ensures ok { OnOk result (string_bytes out.new ≡ string_bytes out.old
        ++ flat_map (subtree_note (entries_of tree.now) (place_of spot.now)) (map subtree_of subtrees.now)) }
{
    for subtree in subtrees {
        put_subtree(alloc, tree, spot, subtree, out)?;
    }
    Ok(())
}

// Writes what is noted of user classes.
fn put_classes(
    alloc: Global,
    tree: &Tree,
    spot: &Spot<'_>,
    classes: &UserClasses,
    out: &mut String,
) -> Result<(), NoMemory>
    ensures ok { OnOk result (string_bytes out.new ≡ string_bytes out.old
        ++ classes_note (entries_of tree.now) (place_of spot.now) (classes_of classes.now)) }
{
    put_names(alloc, tree, spot, &classes.names, out)?;
    put_names(alloc, tree, spot, &classes.groups, out)?;
    put_subtrees(alloc, tree, spot, &classes.subtrees, out)
}

// Writes what is noted of the users of item permissions.
fn put_permissions(
    alloc: Global,
    tree: &Tree,
    spot: &Spot<'_>,
    permissions: &[ItemPermission],
    out: &mut String,
) -> Result<(), NoMemory>
    ensures ok { OnOk result (string_bytes out.new ≡ string_bytes out.old
        ++ flat_map (classes_note (entries_of tree.now) (place_of spot.now))
        (map (λ permission. permission.classes) (map item_permission_of permissions.now))) }
{
    for permission in permissions {
        put_classes(alloc, tree, spot, &permission.classes, out)?;
    }
    Ok(())
}

// Writes what is noted of the users that an item begins with, or has behind its protected items.
fn put_first(
    alloc: Global,
    tree: &Tree,
    spot: &Spot<'_>,
    first: &First,
    out: &mut String,
) -> Result<(), NoMemory>
    ensures ok { OnOk result (string_bytes out.new ≡ string_bytes out.old
        ++ flat_map (classes_note (entries_of tree.now) (place_of spot.now)) (classes_in (first_of first.now))) }
{
    match first {
        First::ItemFirst(_, permissions) => put_permissions(alloc, tree, spot, permissions, out),
        First::UserFirst(classes, _) => put_classes(alloc, tree, spot, classes, out),
    }
}

// The item of a text, where it has one.
#[tactic(auto, unfolding(aci_item::specs::AciText::item_of))]
fn item_of(alloc: Global, text: &[u8]) -> Result<Option<AciItem>, NoMemory>
    ensures ok { IfOk result (λ item. option_map item_of_code item ≡ item_of text.now) }
{
    match read(alloc, text) {
        Ok(item) => Ok(Some(item)),
        Err(BadText::NoMemory) => Err(AllocError),
        Err(BadText::Text) => Ok(None),
        Err(BadText::Part { .. }) => Ok(None),
    }
}

/// Writes what is noted of the item of a text.
#[tactic(auto, unfolding(crate::specs::ItemNotes::text_note))]
pub(crate) fn put_text(
    alloc: Global,
    tree: &Tree,
    spot: &Spot<'_>,
    text: &[u8],
    out: &mut String,
) -> Result<(), NoMemory>
    ensures ok { OnOk result (string_bytes out.new
        ≡ string_bytes out.old ++ text_note (entries_of tree.now) (place_of spot.now) text.now) }
{
    match item_of(alloc, text)? {
        Some(item) => put_first(alloc, tree, spot, &item.first, out),
        None => Ok(()),
    }
}
