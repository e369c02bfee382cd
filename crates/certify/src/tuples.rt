//! The lines of tuples.

ghost use Rattle.std.specs.Prelude.{◌≡◌, ◌++◌, ◌∷◌, [], IfOk, OnOk, codes, decimal, flat_map, fold, map, string_bytes};
ghost use Rattle.acdf_filters.specs.gser_tree.Writing.{text_of, print_string};
ghost use Rattle.acdf_filters.specs.aci_item.item.Views.{tuple_of};
ghost use Rattle.acdf_filters.specs.Standing.{initial};
ghost use Rattle.acdf_filters.specs.weighing.Weighing.{KnowsGroups, tagged_of, weighed_for};
ghost use Rattle.explanation.specs.Texts.{effect};
ghost use Rattle.certify.specs.Lines.{line_of};
ghost use Rattle.certify.specs.Certificate.{tuple_text};
ghost use Rattle.certify.specs.Making.{tuple_line_for, item_lines, tuples_in};

use crate::lasting::last_filter;
use crate::lines::{Line, put_whole};
use acdf_filters::aci_item::AciTuple;
use acdf_filters::gser_tree::put_string;
use acdf_filters::{Question, Standing, TaggedTuples, weigh};
use dir_tree::NoMemory;
use explanation::effect;
use line_text::put_escaped;
use std::alloc::Global;

// The state with tuples weighed.
fn weigh_tuples(question: &Question<'_>, tuples: &[AciTuple], seen: Standing) -> Standing
    requires { KnowsGroups question.now }
    ensures exact { result ≡ fold (weighed_for question.now) seen (map tuple_of tuples.now) }
{
    let mut seen = seen;
    for tuple in tuples {
        seen = weigh(question, tuple, seen);
    }
    seen
}

/// The state with the tuples of all items weighed.
pub(crate) fn weigh_items(question: &Question<'_>, items: &[TaggedTuples]) -> Standing
    requires { KnowsGroups question.now }
    ensures exact { result
        ≡ fold (weighed_for question.now) initial (tuples_in (map tagged_of items.now)) }
{
    let mut seen = Standing::new();
    for item in items {
        seen = weigh_tuples(question, &item.tuples, seen);
    }
    seen
}

// The quoted tag, as explanations have it.
fn quoted(alloc: Global, tag: &str) -> Result<String, NoMemory>
    ensures ok { IfOk result (λ text. string_bytes text ≡ text_of (print_string tag.now)) }
{
    let mut text = String::new(alloc);
    put_string(&mut text, tag)?;
    Ok(text)
}

// The front of the line of a tuple.
fn tuple_front(alloc: Global, number: u8, grants: bool) -> Result<String, NoMemory>
    ensures ok { IfOk result (λ text. string_bytes text
        ≡ codes "tuple " ++ (decimal number ++ (codes " " ++ (effect grants ++ codes " ")))) }
{
    let effect = effect(grants);
    let mut text = String::new(alloc);
    write!(text, "tuple {number} {effect} ")?;
    Ok(text)
}

// The line of a tuple.
fn tuple_text(alloc: Global, number: u8, grants: bool, tag: &str) -> Result<Vec<u8>, NoMemory>
    ensures ok { IfOk result (λ text. text.items ≡ tuple_text number grants tag.now) }
{
    let tag = quoted(alloc, tag)?;
    let mut text = tuple_front(alloc, number, grants)?.into_bytes();
    put_escaped(tag.as_bytes(), &mut text)?;
    Ok(text)
}

// Puts the line of a tuple of an item of this tag at the end.
fn put_tuple(
    question: &Question<'_>,
    seen: Standing,
    tag: &str,
    tuple: &AciTuple,
    lines: &mut Vec<Line>,
) -> Result<(), NoMemory>
    requires { KnowsGroups question.now }
    ensures ok { OnOk result (map line_of lines.new.items ≡ map line_of lines.old.items
        ++ tuple_line_for question.now seen tag.now (tuple_of tuple.now) ∷ []) }
{
    let number = last_filter(question, seen, tuple);
    let text = tuple_text(*lines.allocator(), number, tuple.grants, tag)?;
    put_whole(text, lines)
}

// Puts those of tuples of it at the end.
fn put_tuples(
    question: &Question<'_>,
    seen: Standing,
    tag: &str,
    tuples: &[AciTuple],
    lines: &mut Vec<Line>,
) -> Result<(), NoMemory>
    requires { KnowsGroups question.now }
    ensures ok { OnOk result (map line_of lines.new.items ≡ map line_of lines.old.items
        ++ map (tuple_line_for question.now seen tag.now) (map tuple_of tuples.now)) }
{
    for tuple in tuples {
        put_tuple(question, seen, tag, tuple, lines)?;
    }
    Ok(())
}

// Puts those of an item at the end.
fn put_item(
    question: &Question<'_>,
    seen: Standing,
    item: &TaggedTuples,
    lines: &mut Vec<Line>,
) -> Result<(), NoMemory>
    requires { KnowsGroups question.now }
    ensures ok { OnOk result (map line_of lines.new.items ≡ map line_of lines.old.items
        ++ item_lines question.now seen (tagged_of item.now)) }
{
    put_tuples(question, seen, &item.tag, &item.tuples, lines)
}

/// Puts the lines of the tuples of all items at the end, by the state in which they left the decision.
pub(crate) fn put_items(
    question: &Question<'_>,
    seen: Standing,
    items: &[TaggedTuples],
    lines: &mut Vec<Line>,
) -> Result<(), NoMemory>
    requires { KnowsGroups question.now }
    ensures ok { OnOk result (map line_of lines.new.items ≡ map line_of lines.old.items
        ++ flat_map (item_lines question.now seen) (map tagged_of items.now)) }
{
    for item in items {
        put_item(question, seen, item, lines)?;
    }
    Ok(())
}
