//! The lines of the access control subentries below an entry's points.

ghost use Rattle.std.specs.Prelude.{◌≡◌, ◌==◌, ◌+◌, ◌++◌, ◌∷◌, [], Some, IfOk, OnOk, flat_map, length, map};
ghost use Rattle.std.specs.Option.{option_map_or};
ghost use Rattle.dir_tree.specs.Scope.{is_child};
ghost use Rattle.dir_tree.specs.tree.Numbered.{entry_of, entries_of, entries_at};
ghost use Rattle.acdf_filters.specs.admin_scope.InForce.{subtree_holds};
ghost use Rattle.certify.specs.Lines.{line_of};
ghost use Rattle.certify.specs.Certificate.{scope_word, scope_line, scope_lines_at, scope_lines};
ghost use Rattle.certify.specs.Making.{scope_line_below, scope_line_at};

use crate::lines::{Line, put_before};
use acdf_filters::Question;
use admin_scope::{areas, holds, subtree};
use dir_tree::dn_names::{Dn, is_prefix};
use dir_tree::{Entry, EntryNo, NoMemory};
use std::alloc::Global;

// Whether the name has one RDN more than the point's.
fn is_one_longer(point: &Dn, name: &Dn) -> bool
    ensures exact { result ≡ (length name.now == length point.now + 1) }
{
    name.len() > point.len() && name.len() - point.len() == 1
}

// Whether the entry stands immediately below the point.
fn is_child(point: &Entry, entry: &Entry) -> bool
    ensures exact { result ≡ is_child point.now.name entry.now }
{
    is_one_longer(point.name(), entry.name()) && is_prefix(point.name(), entry.name())
}

// Whether the subtree of the subentry, read from the point on, holds the entry.
#[tactic(auto, unfolding(admin_scope::specs::InForce::subtree_holds))]
fn is_held(alloc: Global, point: &Entry, subentry: &Entry, entry: &Entry) -> Result<bool, NoMemory>
    ensures ok { IfOk result (λ held. held ≡ subtree_holds point.now subentry.now entry.now) }
{
    match subtree(alloc, subentry)? {
        Some(spec) => Ok(holds(&spec, point.name(), entry)),
        None => Ok(false),
    }
}

// The word for it.
fn scope_word(held: bool) -> &'static str
    ensures exact { result.now ≡ scope_word held }
{
    if held { "in " } else { "out " }
}

// Puts the line of a subentry below the point at the end.
fn put_scope_line(
    alloc: Global,
    entry: &Entry,
    point: &Entry,
    subentry: &Entry,
    lines: &mut Vec<Line>,
) -> Result<(), NoMemory>
    ensures ok { OnOk result (map line_of lines.new.items
        ≡ map line_of lines.old.items ++ scope_line entry.now point.now subentry.now ∷ []) }
{
    let held = is_held(alloc, point, subentry, entry)?;
    put_before(scope_word(held), subentry.name(), lines)
}

// Puts that of a subentry at the end, where it stands immediately below the point.
fn put_line_below(
    alloc: Global,
    entry: &Entry,
    point: &Entry,
    subentry: &Entry,
    lines: &mut Vec<Line>,
) -> Result<(), NoMemory>
    ensures ok { OnOk result (map line_of lines.new.items
        ≡ map line_of lines.old.items ++ scope_line_below entry.now point.now subentry.now) }
{
    if is_child(point, subentry) {
        put_scope_line(alloc, entry, point, subentry, lines)
    } else {
        Ok(())
    }
}

// The same of the subentry of the number.
fn put_line_at(
    alloc: Global,
    question: &Question<'_>,
    point: &Entry,
    number: EntryNo,
    lines: &mut Vec<Line>,
) -> Result<(), NoMemory>
    ensures ok { OnOk result (map line_of lines.new.items
        ≡ map line_of lines.old.items ++ scope_line_at question.now.tree.now question.now.entry.now point.now number.0) }
{
    match question.tree.at(number) {
        Some(subentry) => put_line_below(alloc, question.entry, point, subentry, lines),
        None => Ok(()),
    }
}

// Puts the lines of the subentries of the numbers below the point at the end.
fn put_lines_at(
    alloc: Global,
    question: &Question<'_>,
    point: &Entry,
    numbers: &[EntryNo],
    lines: &mut Vec<Line>,
) -> Result<(), NoMemory>
    ensures ok { OnOk result (map line_of lines.new.items ≡ map line_of lines.old.items
        ++ flat_map (scope_line_at question.now.tree.now question.now.entry.now point.now) (map (λ no. no.0) numbers.now)) }
{
    for number in numbers {
        put_line_at(alloc, question, point, *number, lines)?;
    }
    Ok(())
}

// Puts those of all access control subentries below the point at the end.
fn put_point(
    alloc: Global,
    question: &Question<'_>,
    point: &Entry,
    lines: &mut Vec<Line>,
) -> Result<(), NoMemory>
    ensures ok { OnOk result (map line_of lines.new.items ≡ map line_of lines.old.items
        ++ scope_lines_at (entries_of question.now.tree.now) question.now.entry.now point.now) }
{
    question.tree.entries_form_a_tree();
    put_lines_at(
        alloc,
        question,
        point,
        question.tree.access_subentries(),
        lines,
    )
}

// Those below the point of the number.
fn put_point_at(
    alloc: Global,
    question: &Question<'_>,
    number: EntryNo,
    lines: &mut Vec<Line>,
) -> Result<(), NoMemory>
    ensures ok { OnOk result (map line_of lines.new.items ≡ map line_of lines.old.items
        ++ option_map_or (scope_lines_at (entries_of question.now.tree.now) question.now.entry.now)
        (entry_of number.0 question.now.tree.now) []) }
{
    match question.tree.at(number) {
        Some(point) => put_point(alloc, question, point, lines),
        None => Ok(()),
    }
}

// Those below the points of the numbers.
fn put_points(
    alloc: Global,
    question: &Question<'_>,
    numbers: &[EntryNo],
    lines: &mut Vec<Line>,
) -> Result<(), NoMemory>
    ensures ok { OnOk result (map line_of lines.new.items ≡ map line_of lines.old.items
        ++ flat_map (scope_lines_at (entries_of question.now.tree.now) question.now.entry.now)
        (entries_at question.now.tree.now (map (λ no. no.0) numbers.now))) }
{
    for number in numbers {
        put_point_at(alloc, question, *number, lines)?;
    }
    Ok(())
}

/// Puts the lines of the subentries below the points of the entry of the question, which has the number, at the end.
pub(crate) fn put_scopes(
    alloc: Global,
    question: &Question<'_>,
    number: EntryNo,
    lines: &mut Vec<Line>,
) -> Result<(), NoMemory>
    requires { entry_of number.0 question.now.tree.now ≡ Some question.now.entry.now }
    ensures ok { OnOk result (map line_of lines.new.items ≡ map line_of lines.old.items
        ++ scope_lines (entries_of question.now.tree.now) question.now.entry.now) }
{
    if question.entry.is_subentry() {
        return Ok(());
    }
    let points = areas(alloc, question.tree, number)?;
    put_points(alloc, question, &points, lines)
}
