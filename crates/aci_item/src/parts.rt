//! The parts of items: levels, bits, users, attribute types and values, subtrees.

ghost use Rattle.std.specs.Prelude.{◌≡◌, [], ◌∷◌, codes, IfOk, IfSome, true, length, map, option_map, ◌==◌, min, if◌then◌else◌};
ghost use Rattle.std.specs.Str.{is_utf8};
ghost use Rattle.dir_tree.specs.schema_tables.Attributes.{IsAttrId};
ghost use Rattle.dir_tree.specs.dn_names.NameValues.{value_of};
ghost use Rattle.gser_tree.specs.Tree.{shape_of};
ghost use Rattle.gser_tree.specs.looking.Looking.{flag};
ghost use Rattle.gser_tree.specs.Reading.{Reads, part, required};
ghost use Rattle.subtree_spec.specs.Parts.{name};
ghost use Rattle.subtree_spec.specs.Subtrees.{subtree_of};
ghost use Rattle.aci_item.specs.members.ItemParts.{level_word, basic_levels, level_by, level, bit, bits, named_user, user_by, user, kind, no_octets, assertion, kind_and_value, filter_place, least, class_subtree, flag_by};
ghost use Rattle.aci_item.specs.Rows.{bit_of};
ghost use Rattle.aci_item.specs.members.Gathering.{behind};

use crate::bits::{Bits, bit_named};
use crate::level::{Level, level_named};
use crate::permission::Permission;
use crate::protected::AttributeTypeAndValue;
use dir_tree::dn_names::{Dn, Value, make_value};
use dir_tree::match_rules::PrepareFault;
use dir_tree::schema_tables::{AttrId, attr};
use gser_tree::{Bad, Part, Stop, Tree, component, flag};
use std::alloc::{AllocError, Global};
use subtree_spec::{Spec, name, oid, subtree};

/// Whether no member is left.
pub(crate) fn is_end(trees: &[Tree]) -> bool
    ensures exact { result ≡ (length trees.now == 0) }
{
    trees.is_empty()
}

/// A component without a value of its own, and the members behind it.
pub(crate) fn flagged<'a>(name: &str, trees: &'a [Tree]) -> (bool, &'a [Tree])
    ensures exact { behind (λ here. here) result
        ≡ flag_by (map shape_of trees.now) (flag name.now (map shape_of trees.now)) }
{
    match flag(name, trees) {
        Some(rest) => (true, rest),
        None => (false, trees),
    }
}

// The word of a level.
#[tactic(auto, unfolding(crate::specs::members::ItemParts::level_word))]
fn level_word(tree: &Tree, bad: &Bad) -> Result<Level, Stop>
    ensures read { Reads (λ level. level) result bad.now.first
        (level_word (shape_of tree.now) bad.now.first) }
{
    let word = tree.word().ok_or(Stop::Misfit)?;
    level_named(word.text.as_str()).ok_or(Stop::Misfit)
}

// The level of basicLevels.
#[tactic(auto, unfolding(crate::specs::members::ItemParts::basic_levels))]
fn basic_levels(tree: &Tree, bad: &Bad) -> Result<Level, Stop>
    ensures read { Reads (λ level. level) result bad.now.first
        (basic_levels (shape_of tree.now) bad.now.first) }
{
    let trees = tree.members().ok_or(Stop::Misfit)?;
    let (value, trees) = component("level", trees).ok_or(Stop::Misfit)?;
    let level = level_word(value, bad)?;
    match trees {
        [] => Ok(level),
        [_, ..] => Err(Stop::Misfit),
    }
}

/// An authentication level.
#[tactic(auto, unfolding(crate::specs::members::ItemParts::level))]
pub(crate) fn level(tree: &Tree, bad: &Bad) -> Result<Level, Stop>
    ensures read { Reads (λ level. level) result bad.now.first (level (shape_of tree.now) bad.now.first) }
{
    match tree.chosen() {
        Some((kind, value)) if kind.text.as_str() == "basicLevels" => basic_levels(value, bad),
        Some(_) => Err(Stop::Misfit),
        None => level_word(tree, bad),
    }
}

// A bit.
#[tactic(auto, unfolding(crate::specs::members::ItemParts::bit))]
fn bit(tree: &Tree, bad: &Bad) -> Result<(Permission, bool), Stop>
    ensures read { Reads bit_of result bad.now.first (bit (shape_of tree.now) bad.now.first) }
{
    let word = tree.word().ok_or(Stop::Misfit)?;
    bit_named(word.text.as_str()).ok_or(Stop::Misfit)
}

/// Grants and denials.
#[tactic(auto, unfolding(crate::specs::members::ItemParts::bits))]
pub(crate) fn bits(tree: &Tree, bad: &Bad) -> Result<Bits, Stop>
    ensures read { Reads (λ bits. bits) result bad.now.first (bits (shape_of tree.now) bad.now.first) }
{
    let trees = tree.members().ok_or(Stop::Misfit)?;
    let mut seen = Bits::none();
    for tree in trees {
        let (permission, grants) = bit(tree, bad)?;
        seen = seen.with(permission, grants);
    }
    Ok(seen)
}

// The name of a sequence.
#[tactic(auto, unfolding(crate::specs::members::ItemParts::named_user))]
fn named_user(alloc: Global, trees: &[Tree], bad: &mut Bad) -> Result<Dn, Stop>
    ensures read { Reads (λ name. name) result bad.new.first
        (named_user (map shape_of trees.now) bad.old.first) }
{
    let (value, trees) = component("dn", trees).ok_or(Stop::Misfit)?;
    let user = name(alloc, value, bad)?;
    match trees {
        [] => Ok(user),
        [_, ..] => Err(Stop::Misfit),
    }
}

/// A user or a group.
#[tactic(auto, unfolding(crate::specs::members::ItemParts::user))]
pub(crate) fn user(alloc: Global, tree: &Tree, bad: &mut Bad) -> Result<Dn, Stop>
    ensures read { Reads (λ name. name) result bad.new.first (user (shape_of tree.now) bad.old.first) }
{
    match tree.members() {
        Some(trees) => named_user(alloc, trees, bad),
        None => name(alloc, tree, bad),
    }
}

/// An attribute type; of one that is not in the table the place is bad, and objectClass stands for it.
#[tactic(auto, unfolding(crate::specs::members::ItemParts::kind))]
pub(crate) fn kind(tree: &Tree, bad: &mut Bad) -> Result<AttrId, Stop>
    ensures read { Reads (λ kind. kind.0) result bad.new.first (kind (shape_of tree.now) bad.old.first) }
    ensures fits { IfOk result (λ kind. IsAttrId kind.0) }
{
    let word = oid(tree, bad)?;
    match attr(word.text.as_str()) {
        Some(kind) => Ok(kind),
        None => {
            bad.note(word.place);
            Ok(AttrId::OBJECT_CLASS)
        }
    }
}

// The value of no octets.
fn no_value(alloc: Global) -> Result<Value, AllocError>
    ensures ok { IfOk result (λ value. value ≡ no_octets) }
{
    match make_value(alloc, AttrId::USER_PASSWORD, Vec::new(alloc)) {
        Ok(value) => Ok(value),
        Err(_) => Err(AllocError),
    }
}

// The value of a type that a text is; None where it is not of the type's syntax.
fn value_of(alloc: Global, kind: AttrId, text: &str) -> Result<Option<Value>, AllocError>
    requires { IsAttrId kind.0 }
    ensures ok { IfOk result (λ found. found ≡ value_of kind.0 text.now) }
    ensures text { IfOk result (λ found. IfSome found (λ value. is_utf8 value.octets ≡ true)) }
{
    let octets = String::from_str(alloc, text)?.into_bytes();
    match make_value(alloc, kind, octets) {
        Ok(value) => Ok(Some(value)),
        Err(PrepareFault::NotOfSyntax) => Ok(None),
        Err(PrepareFault::NoMemory) => Err(AllocError),
    }
}

// A value of a type; of a text that is not of its syntax the place is bad, and no octets stand for it.
#[tactic(auto, unfolding(crate::specs::members::ItemParts::assertion))]
fn assertion(alloc: Global, kind: AttrId, tree: &Tree, bad: &mut Bad) -> Result<Value, Stop>
    requires { IsAttrId kind.0 }
    ensures read { Reads (λ value. value) result bad.new.first
        (assertion kind.0 (shape_of tree.now) bad.old.first) }
    ensures text { IfOk result (λ value. is_utf8 value.octets ≡ true) }
{
    let string = tree.string().ok_or(Stop::Misfit)?;
    match value_of(alloc, kind, string.text.as_str())? {
        Some(value) => Ok(value),
        None => {
            bad.note(string.place);
            Ok(no_value(alloc)?)
        }
    }
}

/// A type with a value.
#[tactic(auto, using(crate::proofs::parts::PartLemmas::left_misfits), unfolding(crate::specs::members::ItemParts::kind_and_value))]
pub(crate) fn kind_and_value(
    alloc: Global,
    tree: &Tree,
    bad: &mut Bad,
) -> Result<AttributeTypeAndValue, Stop>
    ensures read { Reads (λ pair. pair) result bad.new.first
        (kind_and_value (shape_of tree.now) bad.old.first) }
{
    let trees = tree.members().ok_or(Stop::Misfit)?;
    let (value, trees) = component("type", trees).ok_or(Stop::Misfit)?;
    let kind = kind(value, bad)?;
    let (value, trees) = component("value", trees).ok_or(Stop::Misfit)?;
    let value = assertion(alloc, kind, value, bad)?;
    if !is_end(trees) {
        return Err(Stop::Misfit);
    }
    Ok(AttributeTypeAndValue::new(kind, value))
}

// The place of the refinement of a subtree specification.
#[tactic(auto, unfolding(crate::specs::members::ItemParts::filter_place))]
fn filter_place(tree: &Tree) -> Option<usize>
    ensures exact { result ≡ filter_place (shape_of tree.now) }
{
    let last = tree.members()?.last()?;
    let (_, value) = last.named()?;
    let (kind, _) = value.chosen()?;
    Some(kind.place)
}

// The first of two places.
fn least(bad: Option<usize>, place: Option<usize>) -> Option<usize>
    ensures exact { result ≡ least bad place }
{
    match (bad, place) {
        (bad, None) => bad,
        (None, Some(place)) => Some(place),
        (Some(first), Some(place)) => Some(first.min(place)),
    }
}

/// A subtree of users; the place of a refinement is bad.
#[tactic(auto, unfolding(crate::specs::members::ItemParts::class_subtree))]
pub(crate) fn class_subtree(alloc: Global, tree: &Tree, bad: &mut Bad) -> Result<Spec, Stop>
    ensures read { Reads subtree_of result bad.new.first (class_subtree (shape_of tree.now) bad.old.first) }
{
    let spec = subtree(alloc, tree, bad)?;
    if spec.filter.is_some() {
        bad.first = least(bad.first, filter_place(tree));
    }
    Ok(spec)
}
