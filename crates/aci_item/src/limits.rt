//! The limits of protected items on values, from their texts.

ghost use Rattle.std.specs.Prelude.{◌≡◌, [], IfOk, codes, map, option_and_then, option_map};
ghost use Rattle.dir_tree.specs.schema_tables.Attributes.{attr_of, syntax_of};
ghost use Rattle.gser_tree.specs.Tree.{shape_of};
ghost use Rattle.gser_tree.specs.Reading.{Reads, optional};
ghost use Rattle.gser_tree.specs.Writing.{text_of};
ghost use Rattle.aci_item.specs.item.Views.{max_value_count_of, restricted_value_of};
ghost use Rattle.aci_item.specs.members.Limits.{syntax_place, are_same, have_same_syntax, of_same_syntax, kind_alike, max_value_count, restricted_value};
ghost use Rattle.aci_item.specs.ItemPrinted.{print_max_value_count, print_restricted_value};
ghost use Rattle.aci_item.specs.AciText.{sorted_set};
ghost use Rattle.aci_item.specs.members.Gathering.{behind};

use crate::kind_printing::{put_max_value_count, put_restricted_value};
use crate::parts::{is_end, kind};
use crate::protected::{MaxValueCount, RestrictedValue};
use crate::sets::{Printed, into_values, put};
use dir_tree::plain_values::Text;
use dir_tree::schema_tables::{AttrId, Syntax, attr, row};
use gser_tree::{Bad, Stop, Tree, component, number};
use std::alloc::{AllocError, Global};
use subtree_spec::oid;

const MOST: u32 = 2_147_483_647;

// The place of a syntax among them all.
fn syntax_place(syntax: Syntax) -> u8
    ensures exact { result ≡ syntax_place syntax }
{
    match syntax {
        Syntax::Text => 0,
        Syntax::Ascii => 1,
        Syntax::Phone => 2,
        Syntax::Country => 3,
        Syntax::Octets => 4,
        Syntax::Oid => 5,
        Syntax::Name => 6,
        Syntax::Subtree => 7,
        Syntax::Aci => 8,
    }
}

// The syntax of the values of an attribute type.
fn syntax_of(kind: AttrId) -> Option<Syntax>
    ensures exact { result ≡ syntax_of kind.0 }
{
    match row(kind) {
        Some(row) => Some(row.syntax),
        None => None,
    }
}

// Whether both are there, and are the same syntax.
fn are_same(one: Option<Syntax>, other: Option<Syntax>) -> bool
    ensures exact { result ≡ are_same one other }
{
    match (one, other) {
        (Some(one), Some(other)) => syntax_place(one) == syntax_place(other),
        (Some(_), None) => false,
        (None, _) => false,
    }
}

// The attribute type of a name, where it has the syntax of another.
fn named_alike(kind: AttrId, text: &str) -> Option<AttrId>
    ensures exact { option_map (λ other. other.0) result ≡ option_and_then (of_same_syntax kind.0) (attr_of text.now) }
{
    let other = attr(text)?;
    if are_same(syntax_of(kind), syntax_of(other)) {
        Some(other)
    } else {
        None
    }
}

// An attribute type of the same syntax as another; of one that is not in the table, or has another syntax, the place is
// bad, and objectClass stands for it.
#[tactic(auto, unfolding(crate::specs::members::Limits::kind_alike))]
fn kind_alike(kind: AttrId, tree: &Tree, bad: &mut Bad) -> Result<AttrId, Stop>
    ensures read { Reads (λ other. other.0) result bad.new.first
        (kind_alike kind.0 (shape_of tree.now) bad.old.first) }
{
    let word = oid(tree, bad)?;
    match named_alike(kind, word.text.as_str()) {
        Some(other) => Ok(other),
        None => {
            bad.note(word.place);
            Ok(AttrId::OBJECT_CLASS)
        }
    }
}

// How many values an attribute type has at most.
#[tactic(auto, using(crate::proofs::parts::PartLemmas::left_misfits), unfolding(crate::specs::members::Limits::max_value_count))]
fn max_value_count(tree: &Tree, bad: &mut Bad) -> Result<MaxValueCount, Stop>
    ensures read { Reads max_value_count_of result bad.new.first
        (max_value_count (shape_of tree.now) bad.old.first) }
{
    let trees = tree.members().ok_or(Stop::Misfit)?;
    let (value, trees) = component("type", trees).ok_or(Stop::Misfit)?;
    let kind = kind(value, bad)?;
    let (value, trees) = component("maxCount", trees).ok_or(Stop::Misfit)?;
    let max_count = number(value, MOST, bad)?;
    if !is_end(trees) {
        return Err(Stop::Misfit);
    }
    Ok(MaxValueCount { kind, max_count })
}

// The attribute type whose values those of another are among.
#[tactic(auto, using(crate::proofs::parts::PartLemmas::left_misfits), unfolding(crate::specs::members::Limits::restricted_value))]
fn restricted_value(tree: &Tree, bad: &mut Bad) -> Result<RestrictedValue, Stop>
    ensures read { Reads restricted_value_of result bad.new.first
        (restricted_value (shape_of tree.now) bad.old.first) }
{
    let trees = tree.members().ok_or(Stop::Misfit)?;
    let (value, trees) = component("type", trees).ok_or(Stop::Misfit)?;
    let kind = kind(value, bad)?;
    let (value, trees) = component("valuesIn", trees).ok_or(Stop::Misfit)?;
    let values_in = kind_alike(kind, value, bad)?;
    if !is_end(trees) {
        return Err(Stop::Misfit);
    }
    Ok(RestrictedValue { kind, values_in })
}

// A limit on the number of values with its printed text.
fn printed_max_value_count(
    alloc: Global,
    value: MaxValueCount,
) -> Result<Printed<MaxValueCount>, AllocError>
    ensures ok { IfOk result
        (λ m. (m.value ≡ value) × (m.text ≡ text_of (print_max_value_count (max_value_count_of value)))) }
{
    let mut text = String::new(alloc);
    put_max_value_count(&mut text, value)?;
    Ok(Printed {
        text: Text::from_string(text),
        value,
    })
}

// The limits of a set on the numbers of values.
fn max_value_counts_of(
    alloc: Global,
    tree: &Tree,
    bad: &mut Bad,
) -> Result<Vec<MaxValueCount>, Stop>
    ensures read { Reads (λ limits. map max_value_count_of limits.items) result bad.new.first
        (sorted_set print_max_value_count max_value_count (shape_of tree.now) bad.old.first) }
{
    let trees = tree.members().ok_or(Stop::Misfit)?;
    let mut seen = Vec::new(alloc);
    for tree in trees {
        let value = max_value_count(tree, bad)?;
        put(&mut seen, printed_max_value_count(alloc, value)?)?;
    }
    Ok(into_values(alloc, seen)?)
}

/// The limits of a component on the numbers of values, and the members behind it.
pub(crate) fn max_value_counts<'a>(
    alloc: Global,
    trees: &'a [Tree],
    bad: &mut Bad,
) -> Result<(Vec<MaxValueCount>, &'a [Tree]), Stop>
    ensures read { Reads (behind (λ limits. map max_value_count_of limits.items)) result bad.new.first
        (optional (codes "maxValueCount") [] (sorted_set print_max_value_count max_value_count)
        (map shape_of trees.now) bad.old.first) }
{
    match component("maxValueCount", trees) {
        Some((value, rest)) => Ok((max_value_counts_of(alloc, value, bad)?, rest)),
        None => Ok((Vec::new(alloc), trees)),
    }
}

// A restriction of values with its printed text.
fn printed_restricted_value(
    alloc: Global,
    value: RestrictedValue,
) -> Result<Printed<RestrictedValue>, AllocError>
    ensures ok { IfOk result
        (λ m. (m.value ≡ value) × (m.text ≡ text_of (print_restricted_value (restricted_value_of value)))) }
{
    let mut text = String::new(alloc);
    put_restricted_value(&mut text, value)?;
    Ok(Printed {
        text: Text::from_string(text),
        value,
    })
}

// The restrictions of a set.
fn restricted_values_of(
    alloc: Global,
    tree: &Tree,
    bad: &mut Bad,
) -> Result<Vec<RestrictedValue>, Stop>
    ensures read { Reads (λ limits. map restricted_value_of limits.items) result bad.new.first
        (sorted_set print_restricted_value restricted_value (shape_of tree.now) bad.old.first) }
{
    let trees = tree.members().ok_or(Stop::Misfit)?;
    let mut seen = Vec::new(alloc);
    for tree in trees {
        let value = restricted_value(tree, bad)?;
        put(&mut seen, printed_restricted_value(alloc, value)?)?;
    }
    Ok(into_values(alloc, seen)?)
}

/// The restrictions of a component, and the members behind it.
pub(crate) fn restricted_values<'a>(
    alloc: Global,
    trees: &'a [Tree],
    bad: &mut Bad,
) -> Result<(Vec<RestrictedValue>, &'a [Tree]), Stop>
    ensures read { Reads (behind (λ limits. map restricted_value_of limits.items)) result bad.new.first
        (optional (codes "restrictedBy") [] (sorted_set print_restricted_value restricted_value)
        (map shape_of trees.now) bad.old.first) }
{
    match component("restrictedBy", trees) {
        Some((value, rest)) => Ok((restricted_values_of(alloc, value, bad)?, rest)),
        None => Ok((Vec::new(alloc), trees)),
    }
}
