//! The sets of items from their texts.

ghost use Rattle.std.specs.Prelude.{◌≡◌, [], IfOk, codes, map, string_bytes};
ghost use Rattle.gser_tree.specs.Tree.{shape_of};
ghost use Rattle.gser_tree.specs.Reading.{Reads, optional};
ghost use Rattle.gser_tree.specs.Writing.{text_of};
ghost use Rattle.subtree_spec.specs.Subtrees.{subtree_of};
ghost use Rattle.subtree_spec.specs.SubtreePrinted.{print_subtree};
ghost use Rattle.aci_item.specs.members.ItemParts.{user, kind, kind_and_value, class_subtree};
ghost use Rattle.aci_item.specs.ItemPrinted.{print_user, print_kind, print_value};
ghost use Rattle.aci_item.specs.AciText.{sorted_set, kinds};
ghost use Rattle.aci_item.specs.members.Gathering.{behind};

use crate::kind_printing::put_attribute;
use crate::parts::{class_subtree, kind, kind_and_value, user};
use crate::printing::{put_user, put_value};
use crate::protected::AttributeTypeAndValue;
use crate::sets::{Printed, into_values, put};
use dir_tree::dn_names::Dn;
use dir_tree::plain_values::Text;
use dir_tree::schema_tables::AttrId;
use gser_tree::{Bad, Stop, Tree, component};
use std::alloc::{AllocError, Global};
use subtree_spec::Spec;

// A user with its printed text.
fn printed_user(alloc: Global, value: Dn) -> Result<Printed<Dn>, AllocError>
    ensures ok { IfOk result (λ m. (m.value ≡ value) × (m.text ≡ text_of (print_user value))) }
{
    let mut text = String::new(alloc);
    put_user(alloc, &mut text, &value)?;
    Ok(Printed {
        text: Text::from_string(text),
        value,
    })
}

// The users of a set.
fn users_of(alloc: Global, tree: &Tree, bad: &mut Bad) -> Result<Vec<Dn>, Stop>
    ensures read { Reads (λ names. names.items) result bad.new.first
        (sorted_set print_user user (shape_of tree.now) bad.old.first) }
{
    let trees = tree.members().ok_or(Stop::Misfit)?;
    let mut seen = Vec::new(alloc);
    for tree in trees {
        let value = user(alloc, tree, bad)?;
        put(&mut seen, printed_user(alloc, value)?)?;
    }
    Ok(into_values(alloc, seen)?)
}

/// The users of a component, and the members behind it.
pub(crate) fn users<'a>(
    alloc: Global,
    name: &str,
    trees: &'a [Tree],
    bad: &mut Bad,
) -> Result<(Vec<Dn>, &'a [Tree]), Stop>
    ensures read { Reads (behind (λ names. names.items)) result bad.new.first
        (optional name.now [] (sorted_set print_user user) (map shape_of trees.now) bad.old.first) }
{
    match component(name, trees) {
        Some((value, rest)) => Ok((users_of(alloc, value, bad)?, rest)),
        None => Ok((Vec::new(alloc), trees)),
    }
}

// A subtree with its printed text.
fn printed_subtree(alloc: Global, value: Spec) -> Result<Printed<Spec>, AllocError>
    ensures ok { IfOk result
        (λ m. (m.value ≡ value) × (m.text ≡ text_of (print_subtree (subtree_of value)))) }
{
    let mut text = String::new(alloc);
    subtree_spec::print(alloc, &value, &mut text)?;
    Ok(Printed {
        text: Text::from_string(text),
        value,
    })
}

// The subtrees of a set.
fn subtrees_of(alloc: Global, tree: &Tree, bad: &mut Bad) -> Result<Vec<Spec>, Stop>
    ensures read { Reads (λ subtrees. map subtree_of subtrees.items) result bad.new.first
        (sorted_set print_subtree class_subtree (shape_of tree.now) bad.old.first) }
{
    let trees = tree.members().ok_or(Stop::Misfit)?;
    let mut seen = Vec::new(alloc);
    for tree in trees {
        let value = class_subtree(alloc, tree, bad)?;
        put(&mut seen, printed_subtree(alloc, value)?)?;
    }
    Ok(into_values(alloc, seen)?)
}

/// The subtrees of a component, and the members behind it.
pub(crate) fn subtrees<'a>(
    alloc: Global,
    trees: &'a [Tree],
    bad: &mut Bad,
) -> Result<(Vec<Spec>, &'a [Tree]), Stop>
    ensures read { Reads (behind (λ subtrees. map subtree_of subtrees.items)) result bad.new.first
        (optional (codes "subtree") [] (sorted_set print_subtree class_subtree)
        (map shape_of trees.now) bad.old.first) }
{
    match component("subtree", trees) {
        Some((value, rest)) => Ok((subtrees_of(alloc, value, bad)?, rest)),
        None => Ok((Vec::new(alloc), trees)),
    }
}

// An attribute type with its printed text.
fn printed_kind(alloc: Global, value: AttrId) -> Result<Printed<AttrId>, AllocError>
    ensures ok { IfOk result (λ m. (m.value ≡ value) × (m.text ≡ text_of (print_kind value.0))) }
{
    let mut text = String::new(alloc);
    put_attribute(&mut text, value)?;
    Ok(Printed {
        text: Text::from_string(text),
        value,
    })
}

// The attribute types of a set.
fn kinds_of(alloc: Global, tree: &Tree, bad: &mut Bad) -> Result<Vec<AttrId>, Stop>
    ensures read { Reads (λ kinds. map (λ kind. kind.0) kinds.items) result bad.new.first
        (kinds (shape_of tree.now) bad.old.first) }
{
    let trees = tree.members().ok_or(Stop::Misfit)?;
    let mut seen = Vec::new(alloc);
    for tree in trees {
        let value = kind(tree, bad)?;
        put(&mut seen, printed_kind(alloc, value)?)?;
    }
    Ok(into_values(alloc, seen)?)
}

/// The attribute types of a component, and the members behind it.
pub(crate) fn kinds<'a>(
    alloc: Global,
    name: &str,
    trees: &'a [Tree],
    bad: &mut Bad,
) -> Result<(Vec<AttrId>, &'a [Tree]), Stop>
    ensures read { Reads (behind (λ kinds. map (λ kind. kind.0) kinds.items)) result bad.new.first
        (optional name.now [] kinds (map shape_of trees.now) bad.old.first) }
{
    match component(name, trees) {
        Some((value, rest)) => Ok((kinds_of(alloc, value, bad)?, rest)),
        None => Ok((Vec::new(alloc), trees)),
    }
}

// A type with a value, and its printed text.
fn printed_value(
    alloc: Global,
    value: AttributeTypeAndValue,
) -> Result<Printed<AttributeTypeAndValue>, AllocError>
    ensures ok { IfOk result (λ m. (m.value ≡ value) × (m.text ≡ text_of (print_value value))) }
{
    let mut text = String::new(alloc);
    put_value(&mut text, &value)?;
    Ok(Printed {
        text: Text::from_string(text),
        value,
    })
}

// The types with values of a set.
fn values_of(alloc: Global, tree: &Tree, bad: &mut Bad) -> Result<Vec<AttributeTypeAndValue>, Stop>
    ensures read { Reads (λ values. values.items) result bad.new.first
        (sorted_set print_value kind_and_value (shape_of tree.now) bad.old.first) }
{
    let trees = tree.members().ok_or(Stop::Misfit)?;
    let mut seen = Vec::new(alloc);
    for tree in trees {
        let value = kind_and_value(alloc, tree, bad)?;
        put(&mut seen, printed_value(alloc, value)?)?;
    }
    Ok(into_values(alloc, seen)?)
}

/// The types with values of a component, and the members behind it.
pub(crate) fn values<'a>(
    alloc: Global,
    trees: &'a [Tree],
    bad: &mut Bad,
) -> Result<(Vec<AttributeTypeAndValue>, &'a [Tree]), Stop>
    ensures read { Reads (behind (λ values. values.items)) result bad.new.first
        (optional (codes "attributeValue") [] (sorted_set print_value kind_and_value)
        (map shape_of trees.now) bad.old.first) }
{
    match component("attributeValue", trees) {
        Some((value, rest)) => Ok((values_of(alloc, value, bad)?, rest)),
        None => Ok((Vec::new(alloc), trees)),
    }
}
