//! Items as text.

ghost use Rattle.std.specs.Prelude.{◌≡◌, [], ◌∷◌, ◌++◌, IfOk, OnOk, OnErr, true, codes, map, option_map, string_bytes};
ghost use Rattle.gser_tree.specs.Writing.{text_of, print_braces, print_word, print_component, print_filled, print_flag, print_number, print_optional, PutsMembers};
ghost use Rattle.subtree_spec.specs.Subtrees.{subtree_of};
ghost use Rattle.subtree_spec.specs.SubtreePrinted.{print_subtree};
ghost use Rattle.aci_item.specs.ItemPrinted.{print_bits, print_classes, print_first, print_item, print_item_first, print_item_permission, print_items, print_level, print_precedence, print_set, print_user, print_user_first, print_user_permission, print_value};
ghost use Rattle.aci_item.specs.item.Views.{classes_of, first_of, item_of_code, item_permission_of, items_of, user_permission_of};

use crate::bits::{Bits, put_bits};
use crate::classes::UserClasses;
use crate::item::{AciItem, First, ItemPermission, UserPermission};
use crate::kind_printing::{put_attribute, put_kinds, put_max_value_counts, put_restricted_values};
use crate::level::{Level, level_name};
use crate::protected::{AttributeTypeAndValue, ProtectedItems};
use dir_tree::dn_names::Dn;
use gser_tree::{put_end, put_kind, put_name, put_number, put_separator, put_string};
use std::alloc::{AllocError, Global};
use subtree_spec::Spec;

// Writes a component without a value of its own, where it is there.
fn put_flag(out: &mut String, first: bool, name: &str, here: bool) -> Result<bool, AllocError>
    ensures ok { IfOk result (λ next. PutsMembers (string_bytes out.old) (string_bytes out.new) first next (print_flag name.now here)) }
{
    if !here {
        return Ok(first);
    }
    put_name(out, first, name)?;
    out.push_str("NULL")?;
    Ok(false)
}

/// Writes a user.
pub(crate) fn put_user(alloc: Global, out: &mut String, name: &Dn) -> Result<(), AllocError>
    ensures ok { OnOk result (string_bytes out.new ≡ string_bytes out.old ++ text_of (print_user name.now)) }
{
    let mut text = String::new(alloc);
    dir_tree::dn_names::print(alloc, name, &mut text)?;
    put_name(out, true, "dn")?;
    put_string(out, text.as_str())?;
    put_end(out, false)?;
    Ok(())
}

// Writes users in braces.
fn put_user_set(alloc: Global, out: &mut String, users: &[Dn]) -> Result<(), AllocError>
    ensures ok { OnOk result (string_bytes out.new ≡ string_bytes out.old ++ text_of (print_braces (map print_user users.now))) }
{
    let mut first = true;
    for user in users {
        put_separator(out, first)?;
        put_user(alloc, out, user)?;
        first = false;
    }
    put_end(out, first)?;
    Ok(())
}

// Writes a component of users, where there are some.
fn put_users(
    alloc: Global,
    out: &mut String,
    first: bool,
    name: &str,
    users: &[Dn],
) -> Result<bool, AllocError>
    ensures ok { IfOk result (λ next. PutsMembers (string_bytes out.old) (string_bytes out.new) first next
        (print_optional name.now (print_filled (map print_user users.now)))) }
{
    if users.is_empty() {
        return Ok(first);
    }
    put_name(out, first, name)?;
    put_user_set(alloc, out, users)?;
    Ok(false)
}

// Writes subtrees in braces.
fn put_subtree_set(alloc: Global, out: &mut String, subtrees: &[Spec]) -> Result<(), AllocError>
    ensures ok { OnOk result (string_bytes out.new ≡ string_bytes out.old ++ text_of (print_braces (map print_subtree (map subtree_of subtrees.now)))) }
{
    let mut first = true;
    for spec in subtrees {
        put_separator(out, first)?;
        subtree_spec::print(alloc, spec, out)?;
        first = false;
    }
    put_end(out, first)?;
    Ok(())
}

// Writes a component of subtrees, where there are some.
fn put_subtrees(
    alloc: Global,
    out: &mut String,
    first: bool,
    subtrees: &[Spec],
) -> Result<bool, AllocError>
    ensures ok { IfOk result (λ next. PutsMembers (string_bytes out.old) (string_bytes out.new) first next
        (print_optional (codes "subtree") (print_filled (map print_subtree (map subtree_of subtrees.now))))) }
{
    if subtrees.is_empty() {
        return Ok(first);
    }
    put_name(out, first, "subtree")?;
    put_subtree_set(alloc, out, subtrees)?;
    Ok(false)
}

// Writes user classes.
#[tactic(auto, unfolding(crate::specs::ItemPrinted::print_classes))]
fn put_classes(alloc: Global, out: &mut String, classes: &UserClasses) -> Result<(), AllocError>
    ensures ok { OnOk result (string_bytes out.new ≡ string_bytes out.old ++ text_of (print_classes (classes_of classes.now))) }
{
    let first = put_flag(out, true, "allUsers", classes.all)?;
    let first = put_flag(out, first, "thisEntry", classes.this_entry)?;
    let first = put_users(alloc, out, first, "name", &classes.names)?;
    let first = put_users(alloc, out, first, "userGroup", &classes.groups)?;
    let first = put_subtrees(alloc, out, first, &classes.subtrees)?;
    put_end(out, first)?;
    Ok(())
}

/// Writes a type with a value.
pub(crate) fn put_value(out: &mut String, pair: &AttributeTypeAndValue) -> Result<(), AllocError>
    ensures ok { OnOk result (string_bytes out.new ≡ string_bytes out.old ++ text_of (print_value pair.now)) }
{
    put_name(out, true, "type")?;
    put_attribute(out, pair.kind())?;
    put_name(out, false, "value")?;
    put_string(out, pair.text())?;
    put_end(out, false)?;
    Ok(())
}

// Writes types with values in braces.
fn put_value_set(out: &mut String, values: &[AttributeTypeAndValue]) -> Result<(), AllocError>
    ensures ok { OnOk result (string_bytes out.new ≡ string_bytes out.old ++ text_of (print_braces (map print_value values.now))) }
{
    let mut first = true;
    for pair in values {
        put_separator(out, first)?;
        put_value(out, pair)?;
        first = false;
    }
    put_end(out, first)?;
    Ok(())
}

// Writes a component of types with values, where there are some.
fn put_values(
    out: &mut String,
    first: bool,
    values: &[AttributeTypeAndValue],
) -> Result<bool, AllocError>
    ensures ok { IfOk result (λ next. PutsMembers (string_bytes out.old) (string_bytes out.new) first next
        (print_optional (codes "attributeValue") (print_filled (map print_value values.now)))) }
{
    if values.is_empty() {
        return Ok(first);
    }
    put_name(out, first, "attributeValue")?;
    put_value_set(out, values)?;
    Ok(false)
}

// Writes protected items.
#[tactic(auto, unfolding(crate::specs::ItemPrinted::print_items))]
fn put_items(out: &mut String, items: &ProtectedItems) -> Result<(), AllocError>
    ensures ok { OnOk result (string_bytes out.new ≡ string_bytes out.old ++ text_of (print_items (items_of items.now))) }
{
    let first = put_flag(out, true, "entry", items.entry)?;
    let first = put_flag(out, first, "allUserAttributeTypes", items.all_kinds)?;
    let first = put_kinds(out, first, "attributeType", &items.kinds)?;
    let first = put_kinds(out, first, "allAttributeValues", &items.all_values)?;
    let first = put_flag(
        out,
        first,
        "allUserAttributeTypesAndValues",
        items.all_kinds_and_values,
    )?;
    let first = put_values(out, first, &items.values)?;
    let first = put_kinds(out, first, "selfValue", &items.self_values)?;
    let first = put_max_value_counts(out, first, &items.max_counts)?;
    let first = put_restricted_values(out, first, &items.restricted)?;
    put_end(out, first)?;
    Ok(())
}

// Writes the precedence of a permission, where there is one.
fn put_precedence(out: &mut String, precedence: Option<u8>) -> Result<bool, AllocError>
    ensures ok { IfOk result (λ next. PutsMembers (string_bytes out.old) (string_bytes out.new) true next
        (print_precedence precedence)) }
{
    match precedence {
        None => Ok(true),
        Some(precedence) => {
            put_name(out, true, "precedence")?;
            put_number(out, u32::from(precedence))?;
            Ok(false)
        }
    }
}

/// Writes an item permission.
#[tactic(auto, unfolding(crate::specs::ItemPrinted::print_item_permission))]
pub(crate) fn put_item_permission(
    alloc: Global,
    out: &mut String,
    permission: &ItemPermission,
) -> Result<(), AllocError>
    ensures ok { OnOk result (string_bytes out.new ≡ string_bytes out.old ++ text_of (print_item_permission (item_permission_of permission.now))) }
{
    let first = put_precedence(out, permission.precedence)?;
    put_name(out, first, "userClasses")?;
    put_classes(alloc, out, &permission.classes)?;
    put_name(out, false, "grantsAndDenials")?;
    put_bits(out, &permission.bits)?;
    put_end(out, false)?;
    Ok(())
}

/// Writes a user permission.
#[tactic(auto, unfolding(crate::specs::ItemPrinted::print_user_permission))]
pub(crate) fn put_user_permission(
    out: &mut String,
    permission: &UserPermission,
) -> Result<(), AllocError>
    ensures ok { OnOk result (string_bytes out.new ≡ string_bytes out.old ++ text_of (print_user_permission (user_permission_of permission.now))) }
{
    let first = put_precedence(out, permission.precedence)?;
    put_name(out, first, "protectedItems")?;
    put_items(out, &permission.items)?;
    put_name(out, false, "grantsAndDenials")?;
    put_bits(out, &permission.bits)?;
    put_end(out, false)?;
    Ok(())
}

// Writes item permissions in braces.
fn put_item_permission_set(
    alloc: Global,
    out: &mut String,
    permissions: &[ItemPermission],
) -> Result<(), AllocError>
    ensures ok { OnOk result (string_bytes out.new ≡ string_bytes out.old ++ text_of (print_braces (map print_item_permission (map item_permission_of permissions.now)))) }
{
    let mut first = true;
    for permission in permissions {
        put_separator(out, first)?;
        put_item_permission(alloc, out, permission)?;
        first = false;
    }
    put_end(out, first)?;
    Ok(())
}

// Writes user permissions in braces.
fn put_user_permission_set(
    out: &mut String,
    permissions: &[UserPermission],
) -> Result<(), AllocError>
    ensures ok { OnOk result (string_bytes out.new ≡ string_bytes out.old ++ text_of (print_braces (map print_user_permission (map user_permission_of permissions.now)))) }
{
    let mut first = true;
    for permission in permissions {
        put_separator(out, first)?;
        put_user_permission(out, permission)?;
        first = false;
    }
    put_end(out, first)?;
    Ok(())
}

// Writes protected items and the permissions to them.
fn put_item_first(
    alloc: Global,
    out: &mut String,
    items: &ProtectedItems,
    permissions: &[ItemPermission],
) -> Result<(), AllocError>
    ensures ok { OnOk result (string_bytes out.new ≡ string_bytes out.old
        ++ text_of (print_item_first (items_of items.now) (map item_permission_of permissions.now))) }
{
    put_kind(out, "itemFirst")?;
    put_name(out, true, "protectedItems")?;
    put_items(out, items)?;
    put_name(out, false, "itemPermissions")?;
    put_item_permission_set(alloc, out, permissions)?;
    put_end(out, false)?;
    Ok(())
}

// Writes users and their permissions.
fn put_user_first(
    alloc: Global,
    out: &mut String,
    classes: &UserClasses,
    permissions: &[UserPermission],
) -> Result<(), AllocError>
    ensures ok { OnOk result (string_bytes out.new ≡ string_bytes out.old
        ++ text_of (print_user_first (classes_of classes.now) (map user_permission_of permissions.now))) }
{
    put_kind(out, "userFirst")?;
    put_name(out, true, "userClasses")?;
    put_classes(alloc, out, classes)?;
    put_name(out, false, "userPermissions")?;
    put_user_permission_set(out, permissions)?;
    put_end(out, false)?;
    Ok(())
}

// Writes what an item begins with.
#[tactic(auto, unfolding(crate::specs::ItemPrinted::print_first))]
fn put_first(alloc: Global, out: &mut String, first: &First) -> Result<(), AllocError>
    ensures ok { OnOk result (string_bytes out.new ≡ string_bytes out.old ++ text_of (print_first (first_of first.now))) }
{
    match first {
        First::ItemFirst(items, permissions) => put_item_first(alloc, out, items, permissions)?,
        First::UserFirst(classes, permissions) => put_user_first(alloc, out, classes, permissions)?,
    }
    Ok(())
}

// Writes a level.
fn put_level(out: &mut String, level: Level) -> Result<(), AllocError>
    ensures ok { OnOk result (string_bytes out.new ≡ string_bytes out.old ++ text_of (print_level level)) }
{
    put_kind(out, "basicLevels")?;
    put_name(out, true, "level")?;
    out.push_str(level_name(level))?;
    put_end(out, false)?;
    Ok(())
}

// Writes an item.
#[tactic(auto, unfolding(crate::specs::ItemPrinted::print_item))]
fn put_item(alloc: Global, out: &mut String, item: &AciItem) -> Result<(), AllocError>
    ensures ok { OnOk result (string_bytes out.new ≡ string_bytes out.old ++ text_of (print_item (item_of_code item.now))) }
{
    put_name(out, true, "identificationTag")?;
    put_string(out, item.tag.as_str())?;
    put_name(out, false, "precedence")?;
    put_number(out, u32::from(item.precedence))?;
    put_name(out, false, "authenticationLevel")?;
    put_level(out, item.level)?;
    put_name(out, false, "itemOrUserFirst")?;
    put_first(alloc, out, &item.first)?;
    put_end(out, false)?;
    Ok(())
}

/// Appends the item as text (X.501 18.4.2, RFC 3641) in its one printed form. The error comes where memory is refused;
/// `out` is then as before.
pub fn print(alloc: Global, item: &AciItem, out: &mut String) -> Result<(), AllocError>
    ensures ok { OnOk result (string_bytes out.new ≡ string_bytes out.old ++ text_of (print_item (item_of_code item.now))) }
    ensures err { OnErr result (string_bytes out.new ≡ string_bytes out.old) }
{
    let mut text = String::new(alloc);
    put_item(alloc, &mut text, item)?;
    out.push_str(text.as_str())
}
