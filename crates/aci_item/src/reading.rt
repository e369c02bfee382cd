//! Items from their texts.

ghost use Rattle.std.specs.Prelude.{◌≡◌, ◌≤◌, None, Ok, Err, codes, map, option_map, IfOk, string_bytes};
ghost use Rattle.dir_tree.specs.plain_values.Answers.{Answers};
ghost use Rattle.gser_tree.specs.looking.Shapes.{Shape, nest};
ghost use Rattle.gser_tree.specs.TextOf.{IsTextOf};
ghost use Rattle.gser_tree.specs.Tree.{shape_of};
ghost use Rattle.gser_tree.specs.Reading.{Reads, optional};
ghost use Rattle.gser_tree.specs.Writing.{text_of};
ghost use Rattle.subtree_spec.specs.declared.error.BadText.TheVariants as fault;
ghost use Rattle.subtree_spec.specs.SubtreeText.{there, judged, fault_of};
ghost use Rattle.aci_item.specs.item.Items.{Item};
ghost use Rattle.aci_item.specs.ItemPrinted.{print_item_permission, print_user_permission};
ghost use Rattle.aci_item.specs.AciText.{sorted_set, classes, items, precedence, item_permission, user_permission, item_first, user_first, first, tag, aci_item, AciText, read_item};
ghost use Rattle.aci_item.specs.item.Views.{classes_of, items_of, item_permission_of, user_permission_of, first_of, item_of_code};
ghost use Rattle.aci_item.specs.members.Gathering.{behind};

use crate::bits::Bits;
use crate::classes::UserClasses;
use crate::item::{AciItem, First, ItemPermission, UserPermission};
use crate::limits::{max_value_counts, restricted_values};
use crate::members::{kinds, subtrees, users, values};
use crate::parts::{bits, flagged, is_end, level};
use crate::printing::{put_item_permission, put_user_permission};
use crate::protected::ProtectedItems;
use crate::sets::{Printed, into_values, put};
use dir_tree::plain_values::Text;
use gser_tree::{Bad, Stop, Tree, component, number, read_tree};
use std::alloc::{AllocError, Global};
use std::rc::Rc;
use subtree_spec::BadText;

const MOST: u32 = 255;

// User classes.
#[tactic(auto, using(crate::proofs::parts::PartLemmas::left_misfits), unfolding(crate::specs::AciText::classes))]
fn classes(alloc: Global, tree: &Tree, bad: &mut Bad) -> Result<UserClasses, Stop>
    ensures read { Reads classes_of result bad.new.first (classes (shape_of tree.now) bad.old.first) }
{
    let trees = tree.members().ok_or(Stop::Misfit)?;
    let (all, trees) = flagged("allUsers", trees);
    let (this_entry, trees) = flagged("thisEntry", trees);
    let (names, trees) = users(alloc, "name", trees, bad)?;
    let (groups, trees) = users(alloc, "userGroup", trees, bad)?;
    let (subtrees, trees) = subtrees(alloc, trees, bad)?;
    let classes = UserClasses {
        all,
        this_entry,
        names,
        groups,
        subtrees,
    };
    if !is_end(trees) {
        return Err(Stop::Misfit);
    }
    Ok(classes)
}

// Protected items.
#[tactic(auto, using(crate::proofs::parts::PartLemmas::left_misfits), unfolding(crate::specs::AciText::items))]
fn items(alloc: Global, tree: &Tree, bad: &mut Bad) -> Result<ProtectedItems, Stop>
    ensures read { Reads items_of result bad.new.first (items (shape_of tree.now) bad.old.first) }
{
    let trees = tree.members().ok_or(Stop::Misfit)?;
    let (entry, trees) = flagged("entry", trees);
    let (all_kinds, trees) = flagged("allUserAttributeTypes", trees);
    let (some_kinds, trees) = kinds(alloc, "attributeType", trees, bad)?;
    let (all_values, trees) = kinds(alloc, "allAttributeValues", trees, bad)?;
    let (all_kinds_and_values, trees) = flagged("allUserAttributeTypesAndValues", trees);
    let (values, trees) = values(alloc, trees, bad)?;
    let (self_values, trees) = kinds(alloc, "selfValue", trees, bad)?;
    let (max_counts, trees) = max_value_counts(alloc, trees, bad)?;
    let (restricted, trees) = restricted_values(alloc, trees, bad)?;
    let items = ProtectedItems {
        entry,
        all_kinds,
        kinds: some_kinds,
        all_values,
        all_kinds_and_values,
        values,
        self_values,
        max_counts,
        restricted,
    };
    if !is_end(trees) {
        return Err(Stop::Misfit);
    }
    Ok(items)
}

// A precedence.
fn precedence(tree: &Tree, bad: &mut Bad) -> Result<u8, Stop>
    ensures read { Reads (λ value. value) result bad.new.first
        (precedence (shape_of tree.now) bad.old.first) }
{
    let value = number(tree, MOST, bad)?;
    Ok(value as u8)
}

// The precedence of a permission, and the members behind it.
fn own_precedence<'a>(trees: &'a [Tree], bad: &mut Bad) -> Result<(Option<u8>, &'a [Tree]), Stop>
    ensures read { Reads (behind (λ value. value)) result bad.new.first
        (optional (codes "precedence") None (there precedence) (map shape_of trees.now) bad.old.first) }
{
    match component("precedence", trees) {
        Some((value, rest)) => Ok((Some(precedence(value, bad)?), rest)),
        None => Ok((None, trees)),
    }
}

// An item permission.
#[tactic(auto, using(crate::proofs::parts::PartLemmas::left_misfits), unfolding(crate::specs::AciText::item_permission))]
fn item_permission(alloc: Global, tree: &Tree, bad: &mut Bad) -> Result<ItemPermission, Stop>
    ensures read { Reads item_permission_of result bad.new.first
        (item_permission (shape_of tree.now) bad.old.first) }
{
    let trees = tree.members().ok_or(Stop::Misfit)?;
    let (precedence, trees) = own_precedence(trees, bad)?;
    let (value, trees) = component("userClasses", trees).ok_or(Stop::Misfit)?;
    let users = classes(alloc, value, bad)?;
    let (value, trees) = component("grantsAndDenials", trees).ok_or(Stop::Misfit)?;
    let bits = bits(value, bad)?;
    let permission = ItemPermission {
        precedence,
        classes: Rc::new(alloc, users)?,
        bits,
    };
    if !is_end(trees) {
        return Err(Stop::Misfit);
    }
    Ok(permission)
}

// A user permission.
#[tactic(auto, using(crate::proofs::parts::PartLemmas::left_misfits), unfolding(crate::specs::AciText::user_permission))]
fn user_permission(alloc: Global, tree: &Tree, bad: &mut Bad) -> Result<UserPermission, Stop>
    ensures read { Reads user_permission_of result bad.new.first
        (user_permission (shape_of tree.now) bad.old.first) }
{
    let trees = tree.members().ok_or(Stop::Misfit)?;
    let (precedence, trees) = own_precedence(trees, bad)?;
    let (value, trees) = component("protectedItems", trees).ok_or(Stop::Misfit)?;
    let protected = items(alloc, value, bad)?;
    let (value, trees) = component("grantsAndDenials", trees).ok_or(Stop::Misfit)?;
    let bits = bits(value, bad)?;
    let permission = UserPermission {
        precedence,
        items: Rc::new(alloc, protected)?,
        bits,
    };
    if !is_end(trees) {
        return Err(Stop::Misfit);
    }
    Ok(permission)
}

// An item permission with its printed text.
fn printed_item_permission(
    alloc: Global,
    value: ItemPermission,
) -> Result<Printed<ItemPermission>, AllocError>
    ensures ok { IfOk result
        (λ m. (m.value ≡ value) × (m.text ≡ text_of (print_item_permission (item_permission_of value)))) }
{
    let mut text = String::new(alloc);
    put_item_permission(alloc, &mut text, &value)?;
    Ok(Printed {
        text: Text::from_string(text),
        value,
    })
}

// The item permissions of a set.
fn item_permissions(alloc: Global, tree: &Tree, bad: &mut Bad) -> Result<Vec<ItemPermission>, Stop>
    ensures read { Reads (λ permissions. map item_permission_of permissions.items) result bad.new.first
        (sorted_set print_item_permission item_permission (shape_of tree.now) bad.old.first) }
{
    let trees = tree.members().ok_or(Stop::Misfit)?;
    let mut seen = Vec::new(alloc);
    for tree in trees {
        let value = item_permission(alloc, tree, bad)?;
        put(&mut seen, printed_item_permission(alloc, value)?)?;
    }
    Ok(into_values(alloc, seen)?)
}

// A user permission with its printed text.
fn printed_user_permission(
    alloc: Global,
    value: UserPermission,
) -> Result<Printed<UserPermission>, AllocError>
    ensures ok { IfOk result
        (λ m. (m.value ≡ value) × (m.text ≡ text_of (print_user_permission (user_permission_of value)))) }
{
    let mut text = String::new(alloc);
    put_user_permission(&mut text, &value)?;
    Ok(Printed {
        text: Text::from_string(text),
        value,
    })
}

// The user permissions of a set.
fn user_permissions(alloc: Global, tree: &Tree, bad: &mut Bad) -> Result<Vec<UserPermission>, Stop>
    ensures read { Reads (λ permissions. map user_permission_of permissions.items) result bad.new.first
        (sorted_set print_user_permission user_permission (shape_of tree.now) bad.old.first) }
{
    let trees = tree.members().ok_or(Stop::Misfit)?;
    let mut seen = Vec::new(alloc);
    for tree in trees {
        let value = user_permission(alloc, tree, bad)?;
        put(&mut seen, printed_user_permission(alloc, value)?)?;
    }
    Ok(into_values(alloc, seen)?)
}

// The alternative itemFirst.
#[tactic(auto, using(crate::proofs::parts::PartLemmas::left_misfits), unfolding(crate::specs::AciText::item_first))]
fn item_first(alloc: Global, tree: &Tree, bad: &mut Bad) -> Result<First, Stop>
    ensures read { Reads first_of result bad.new.first (item_first (shape_of tree.now) bad.old.first) }
{
    let trees = tree.members().ok_or(Stop::Misfit)?;
    let (value, trees) = component("protectedItems", trees).ok_or(Stop::Misfit)?;
    let protected = items(alloc, value, bad)?;
    let (value, trees) = component("itemPermissions", trees).ok_or(Stop::Misfit)?;
    let permissions = item_permissions(alloc, value, bad)?;
    let first = First::ItemFirst(Rc::new(alloc, protected)?, permissions);
    if !is_end(trees) {
        return Err(Stop::Misfit);
    }
    Ok(first)
}

// The alternative userFirst.
#[tactic(auto, using(crate::proofs::parts::PartLemmas::left_misfits), unfolding(crate::specs::AciText::user_first))]
fn user_first(alloc: Global, tree: &Tree, bad: &mut Bad) -> Result<First, Stop>
    ensures read { Reads first_of result bad.new.first (user_first (shape_of tree.now) bad.old.first) }
{
    let trees = tree.members().ok_or(Stop::Misfit)?;
    let (value, trees) = component("userClasses", trees).ok_or(Stop::Misfit)?;
    let users = classes(alloc, value, bad)?;
    let (value, trees) = component("userPermissions", trees).ok_or(Stop::Misfit)?;
    let permissions = user_permissions(alloc, value, bad)?;
    let first = First::UserFirst(Rc::new(alloc, users)?, permissions);
    if !is_end(trees) {
        return Err(Stop::Misfit);
    }
    Ok(first)
}

// What an item begins with.
#[tactic(auto, unfolding(crate::specs::AciText::first))]
fn first(alloc: Global, tree: &Tree, bad: &mut Bad) -> Result<First, Stop>
    ensures read { Reads first_of result bad.new.first (first (shape_of tree.now) bad.old.first) }
{
    let (kind, value) = tree.chosen().ok_or(Stop::Misfit)?;
    if kind.text.as_str() == "itemFirst" {
        item_first(alloc, value, bad)
    } else if kind.text.as_str() == "userFirst" {
        user_first(alloc, value, bad)
    } else {
        Err(Stop::Misfit)
    }
}

// The tag of an item.
fn tag(alloc: Global, tree: &Tree, bad: &Bad) -> Result<String, Stop>
    ensures read { Reads (λ tag. string_bytes tag) result bad.now.first
        (tag (shape_of tree.now) bad.now.first) }
{
    let string = tree.string().ok_or(Stop::Misfit)?;
    Ok(String::from_str(alloc, string.text.as_str())?)
}

// The item that a value is.
#[tactic(auto, using(crate::proofs::parts::PartLemmas::left_misfits), unfolding(crate::specs::AciText::aci_item))]
fn item(alloc: Global, tree: &Tree, bad: &mut Bad) -> Result<AciItem, Stop>
    ensures read { Reads item_of_code result bad.new.first (aci_item (shape_of tree.now) bad.old.first) }
{
    let trees = tree.members().ok_or(Stop::Misfit)?;
    let (value, trees) = component("identificationTag", trees).ok_or(Stop::Misfit)?;
    let tag = tag(alloc, value, bad)?;
    let (value, trees) = component("precedence", trees).ok_or(Stop::Misfit)?;
    let precedence = precedence(value, bad)?;
    let (value, trees) = component("authenticationLevel", trees).ok_or(Stop::Misfit)?;
    let level = level(value, bad)?;
    let (value, trees) = component("itemOrUserFirst", trees).ok_or(Stop::Misfit)?;
    let first = first(alloc, value, bad)?;
    let item = AciItem {
        tag,
        precedence,
        level,
        first,
    };
    if !is_end(trees) {
        return Err(Stop::Misfit);
    }
    Ok(item)
}

/// Reads an access control item (X.501 18.4.2, RFC 3641), in the full spelling or the short one: components without a
/// value of their own alone, a level by its word, a user by a string.
///
/// `Text` comes for octets that are not in the grammar, else `Part` for the first part that breaks its rule: a
/// precedence above 255, a number of values above 2147483647, an attribute type that is not in the table, in `valuesIn`
/// one of another syntax, a value that is not of its type's syntax, a subtree of users with a refinement, a name that
/// is none. `NoMemory` may come in place of any answer.
pub fn read(alloc: Global, text: &[u8]) -> Result<AciItem, BadText>
    ensures ok { IfOk result (λ item. AciText (item_of_code item) text.now) }
    ensures given { (item : Item) → AciText item text.now → Answers item_of_code fault_of result (Ok item) }
    ensures only { (shape : Shape) → IsTextOf shape text.now → nest shape ≤ 100
        → Answers item_of_code fault_of result (judged (aci_item shape None)) }
    ensures outside { ((shape : Shape) → IsTextOf shape text.now → ⊥)
        → Answers item_of_code fault_of result (Err fault.Text) }
    ensures exact { Answers item_of_code fault_of result (read_item text.now) }
{
    read_all(alloc, text)
}

// As `read`, by the function of the text.
#[tactic(auto, unfolding(crate::specs::AciText::read_item))]
fn read_all(alloc: Global, text: &[u8]) -> Result<AciItem, BadText>
    ensures exact { Answers item_of_code fault_of result (read_item text.now) }
{
    let tree = match read_tree(alloc, text)? {
        Some(tree) => tree,
        None => return Err(BadText::Text),
    };
    let mut bad = Bad::none();
    match item(alloc, &tree, &mut bad) {
        Ok(item) => match bad.first {
            Some(place) => Err(BadText::Part { place }),
            None => Ok(item),
        },
        Err(Stop::Misfit) => Err(BadText::Text),
        Err(Stop::NoMemory) => Err(BadText::NoMemory),
    }
}
