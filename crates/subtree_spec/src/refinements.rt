//! Refinements from their texts.

ghost use Rattle.std.specs.Prelude.{◌≡◌, map, option_map, string_bytes};
ghost use Rattle.gser_tree.specs.Tree.{shape_of};
ghost use Rattle.gser_tree.specs.Reading.{Reads};
ghost use Rattle.subtree_spec.specs.Parts.{class_oid, set_of};
ghost use Rattle.subtree_spec.specs.SubtreeText.{item, alternative, refinement};
ghost use Rattle.subtree_spec.specs.Subtrees.{choice_of};

use crate::parts::oid;
use crate::spec::Refinement;
use gser_tree::{Bad, Part, Stop, Tree};
use schema_tables::{class, class_oid, is_dotted_oid};
use std::alloc::Global;

// The dotted object identifier of a class, or of no class that is known.
#[tactic(auto, unfolding(crate::specs::Parts::class_oid))]
fn class_oid_of(text: &str) -> Option<&str>
    ensures exact { option_map (λ oid. oid.now) result ≡ class_oid text.now }
{
    if is_dotted_oid(text.as_bytes()) {
        return Some(text);
    }
    match class(text) {
        Some(class) => class_oid(class),
        None => None,
    }
}

// The object identifier of a class; where it has none its place is bad.
#[tactic(auto, unfolding(crate::specs::SubtreeText::item))]
fn item(alloc: Global, tree: &Tree, bad: &mut Bad) -> Result<String, Stop>
    ensures read { Reads (λ oid. string_bytes oid) result bad.new.first (item (shape_of tree.now) bad.old.first) }
{
    let word = oid(tree, bad)?;
    match class_oid_of(word.text.as_str()) {
        Some(oid) => Ok(String::from_str(alloc, oid)?),
        None => {
            bad.note(word.place);
            Ok(String::new(alloc))
        }
    }
}

/// A refinement at most so deep.
#[tactic(auto, using(crate::proofs::refinements::RefinementLemmas::no_level, crate::proofs::refinements::RefinementLemmas::one_level))]
#[cycle(refinement)]
pub(crate) fn refinement(
    alloc: Global,
    tree: &Tree,
    depth: usize,
    bad: &mut Bad,
) -> Result<Refinement, Stop>
    ensures read { Reads choice_of result bad.new.first (refinement depth (shape_of tree.now) bad.old.first) }
{
    if depth == 0 {
        return Err(Stop::Misfit);
    }
    let (kind, value) = tree.chosen().ok_or(Stop::Misfit)?;
    Ok(alternative(alloc, kind, value, depth - 1, bad)?)
}

// An alternative whose members are at most so deep.
#[cycle(refinement)]
fn alternative(
    alloc: Global,
    kind: &Part,
    value: &Tree,
    depth: usize,
    bad: &mut Bad,
) -> Result<Refinement, Stop>
    ensures read { Reads choice_of result bad.new.first
        (alternative (refinement depth) kind.now.text (shape_of value.now) bad.old.first) }
{
    let kind = kind.text.as_str();
    if kind == "item" {
        Ok(Refinement::Item(item(alloc, value, bad)?))
    } else if kind == "and" {
        Ok(Refinement::And(refinements(alloc, value, depth, bad)?))
    } else if kind == "or" {
        Ok(Refinement::Or(refinements(alloc, value, depth, bad)?))
    } else if kind == "not" {
        let member = refinement(alloc, value, depth, bad)?;
        Ok(Refinement::Not(Box::new(alloc, member)?))
    } else {
        Err(Stop::Misfit)
    }
}

// The refinements of a set, each at most so deep.
#[cycle(refinement)]
fn refinements(
    alloc: Global,
    tree: &Tree,
    depth: usize,
    bad: &mut Bad,
) -> Result<Vec<Refinement>, Stop>
    ensures read { Reads (λ members. map choice_of members.items) result bad.new.first
        (set_of (refinement depth) (shape_of tree.now) bad.old.first) }
{
    let trees = tree.members().ok_or(Stop::Misfit)?;
    let mut members = Vec::new(alloc);
    for tree in trees {
        members.push(refinement(alloc, tree, depth, bad)?)?;
    }
    Ok(members)
}
