//! The text of a decision.

ghost use Rattle.std.specs.Prelude.{◌≡◌, Some, IfOk, string_bytes};
ghost use Rattle.dir_tree.specs.Entry.{EntryInformation};
ghost use Rattle.dir_tree.specs.tree.Numbered.{entry_of, entries_of};
ghost use Rattle.acdf_filters.specs.Asking.{protected_of, asked_on};
ghost use Rattle.explanation.specs.Questions.{question_view};
ghost use Rattle.explanation.specs.Texts.{entry_text, explained_text, text_explained};

use crate::lines::{outcome_line, put_all_kept, put_counts, put_subentries};
use crate::{AskedDecision, explain};
use acdf_filters::aci_item::Permission;
use acdf_filters::{Item, Requester};
use dir_tree::dn_names::Dn;
use dir_tree::{EntryNo, NoMemory};
use directory::Dir;
use std::alloc::Global;

// The text of the decision on the entry of the number.
fn entry_text<D: Dir>(
    alloc: Global,
    dir: &D,
    who: &Requester,
    number: EntryNo,
    item: Item<'_>,
    permission: Permission,
) -> Result<String, NoMemory>
    ensures ok { (entry : EntryInformation) → entry_of number.0 (D.rows dir.now) ≡ Some entry
        → IfOk result (λ text. string_bytes text ≡ entry_text (entries_of (D.rows dir.now)) entry
        (asked_on who.now entry (protected_of item.entry) permission)) }
{
    let steps = explain(alloc, dir, who, number, item, permission)?;
    let mut text = String::new(alloc);
    put_subentries(alloc, dir.tree(), dir.in_force(number), &mut text)?;
    put_counts(&steps.counts, &mut text)?;
    put_all_kept(alloc, dir.tree(), &steps.kept, &mut text)?;
    text.push_str(outcome_line(steps.granted))?;
    Ok(text)
}

// The text of the decision on the item of the entry of the name.
fn target_text<D: Dir>(
    alloc: Global,
    dir: &D,
    who: &Requester,
    target: &Dn,
    item: Item<'_>,
    permission: Permission,
) -> Result<String, NoMemory>
    ensures ok { IfOk result (λ text. string_bytes text ≡ explained_text (entries_of (D.rows dir.now)) who.now
        target.now (protected_of item.entry) permission) }
{
    dir.tree().entries_form_a_tree();
    match dir.tree().find(target) {
        Some(number) => entry_text(alloc, dir, who, number, item, permission),
        None => String::from_str(alloc, "absent\n"),
    }
}

/// The text of the access control decision that the question asks for (X.501 18.8): the subentries in force for the entry,
/// how many tuples count for it and how many are left by each filter, those that are left at the end, and whether access
/// is granted; `absent` where no entry has the name. Each line ends in LF. The error comes where memory is wanted.
pub fn explain_text<D: Dir>(
    alloc: Global,
    dir: &D,
    question: &AskedDecision,
) -> Result<String, NoMemory>
    ensures ok { IfOk result (λ text. string_bytes text ≡ text_explained (entries_of (D.rows dir.now)) (question_view question.now)) }
{
    let item = question.item.item();
    target_text(
        alloc,
        dir,
        &question.who,
        &question.target,
        item,
        question.permission,
    )
}
