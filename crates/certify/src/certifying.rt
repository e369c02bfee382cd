//! Decisions, certified.

ghost use Rattle.std.specs.Prelude.{◌≡◌, ◌++◌, ◌∷◌, [], Some, IfOk, OnOk, flat_map, map};
ghost use Rattle.dir_tree.specs.tree.Numbered.{entry_of, entries_of, entries_at};
ghost use Rattle.acdf_filters.specs.admin_scope.InForce.{in_force};
ghost use Rattle.acdf_filters.specs.weighing.Weighing.{KnowsGroups, asked_of, is_granted, tagged_of};
ghost use Rattle.certify.specs.Lines.{line_of, whole};
ghost use Rattle.certify.specs.Certificate.{outcome_word, question_lines, scope_lines};
ghost use Rattle.certify.specs.Making.{IsCertified, item_lines};

use crate::gathering::gather;
use crate::lines::{Line, put_text};
use crate::questions::put_question;
use crate::scopes::put_scopes;
use crate::tuples::{put_items, weigh_items};
use acdf_filters::{Question, Standing, TaggedTuples};
use dir_tree::{EntryNo, NoMemory};
use std::alloc::Global;

/// A decision with its certificate.
#[derive(Drop)]
pub(crate) struct Certified {
    pub lines: Vec<Line>,
    /// Whether access is granted.
    pub granted: bool,
}

// The word of what is decided.
fn outcome_word(granted: bool) -> &'static str
    ensures exact { result.now ≡ outcome_word granted }
{
    if granted { "granted" } else { "refused" }
}

// Puts its line at the end.
fn put_outcome(granted: bool, lines: &mut Vec<Line>) -> Result<(), NoMemory>
    ensures ok { OnOk result
        (map line_of lines.new.items ≡ map line_of lines.old.items ++ whole (outcome_word granted) ∷ []) }
{
    put_text(outcome_word(granted), lines)
}

// Puts the lines of the tuples and of what is decided at the end.
fn put_decision(
    question: &Question<'_>,
    seen: Standing,
    items: &[TaggedTuples],
    lines: &mut Vec<Line>,
) -> Result<(), NoMemory>
    requires { KnowsGroups question.now }
    ensures ok { OnOk result (map line_of lines.new.items ≡ map line_of lines.old.items
        ++ (flat_map (item_lines question.now seen) (map tagged_of items.now)
        ++ whole (outcome_word (is_granted seen)) ∷ [])) }
{
    put_items(question, seen, items, lines)?;
    put_outcome(seen.is_granted(), lines)
}

// The lines up to those of the tuples.
fn first_lines(
    alloc: Global,
    question: &Question<'_>,
    number: EntryNo,
) -> Result<Vec<Line>, NoMemory>
    requires { entry_of number.0 question.now.tree.now ≡ Some question.now.entry.now }
    ensures ok { IfOk result (λ lines. map line_of lines.items
        ≡ question_lines question.now.entry.now (asked_of question.now)
        ++ scope_lines (entries_of question.now.tree.now) question.now.entry.now) }
{
    let mut lines = Vec::new(alloc);
    put_question(question, &mut lines)?;
    put_scopes(alloc, question, number, &mut lines)?;
    Ok(lines)
}

/// The decision on the question, on the entry of the number, for which the subentries of the numbers are in force, with its
/// certificate. All items are read again from the values. The error comes where memory is wanted.
pub(crate) fn certify(
    alloc: Global,
    question: &Question<'_>,
    number: EntryNo,
    numbers: &[EntryNo],
) -> Result<Certified, NoMemory>
    requires groups { KnowsGroups question.now }
    requires entry { entry_of number.0 question.now.tree.now ≡ Some question.now.entry.now }
    requires in_force { entries_at question.now.tree.now (map (λ no. no.0) numbers.now)
        ≡ in_force (entries_of question.now.tree.now) question.now.entry.now }
    ensures ok { IfOk result (IsCertified question.now.tree.now question.now.entry.now (asked_of question.now)) }
{
    let items = gather(alloc, question, number, numbers)?;
    let seen = weigh_items(question, &items);
    let mut lines = first_lines(alloc, question, number)?;
    put_decision(question, seen, &items, &mut lines)?;
    Ok(Certified {
        lines,
        granted: seen.is_granted(),
    })
}
