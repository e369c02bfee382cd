//! Decisions, explained.

ghost use Rattle.std.specs.Prelude.{◌≡◌, ◌++◌, ◌∷◌, [], Some, None, IfOk, OnOk, map};
ghost use Rattle.std.specs.List.{list_all};
ghost use Rattle.dir_tree.specs.Entry.{EntryInformation};
ghost use Rattle.dir_tree.specs.tree.Numbered.{Numbered, entry_of, entries_of, entries_at};
ghost use Rattle.acdf_filters.specs.admin_scope.InForce.{in_force};
ghost use Rattle.acdf_filters.specs.Asking.{protected_of, asked_on};
ghost use Rattle.acdf_filters.specs.weighing.Weighing.{KnowsGroups, asked_of};
ghost use Rattle.explanation.specs.Explained.{IsExplained, IsNothing, kept_at};
ghost use Rattle.explanation.specs.Candidates.{kept_from, all_grant};

use crate::candidates::{Candidate, list_candidates};
use crate::filters::keep_deciding;
use crate::steps::{Counts, KeptTuple, Steps};
use acdf_filters::aci_item::Permission;
use acdf_filters::{Item, Question, Requester};
use dir_tree::{EntryNo, NoMemory};
use directory::{Asking, Dir, Target};
use std::alloc::Global;

// What is said of those that are left.
fn kept_tuples(alloc: Global, candidates: Vec<Candidate>) -> Result<Vec<KeptTuple>, NoMemory>
    ensures ok { IfOk result (λ kept. kept.items ≡ map kept_from candidates.items) }
{
    let mut kept = Vec::new(alloc);
    for one in candidates {
        kept.push(KeptTuple {
            source: one.source,
            tag: one.tag,
            grants: one.facts.grants,
        })?;
    }
    Ok(kept)
}

// Whether all of them grant.
fn each_grants(kept: &[KeptTuple]) -> bool
    ensures exact { result ≡ list_all (λ one. one.grants) kept.now }
{
    kept.iter().all(|one| one.grants)
}

// Whether access is granted by those that are left: there is one, and all grant.
fn all_grant(kept: &[KeptTuple]) -> bool
    ensures exact { result ≡ all_grant kept.now }
{
    match kept {
        [] => false,
        [_, ..] => each_grants(kept),
    }
}

// The question on the entry of the number, for which the subentries of the numbers are in force.
fn explain_question(
    alloc: Global,
    question: &Question<'_>,
    number: EntryNo,
    numbers: &[EntryNo],
) -> Result<Steps, NoMemory>
    requires groups { KnowsGroups question.now }
    requires entry { entry_of number.0 question.now.tree.now ≡ Some question.now.entry.now }
    requires in_force { entries_at question.now.tree.now (map (λ no. no.0) numbers.now)
        ≡ in_force (entries_of question.now.tree.now) question.now.entry.now }
    ensures ok { IfOk result (IsExplained question.now.tree.now question.now.entry.now (asked_of question.now)) }
{
    let mut candidates = list_candidates(alloc, question, number, numbers)?;
    let counts = keep_deciding(&mut candidates);
    let kept = kept_tuples(alloc, candidates)?;
    let granted = all_grant(&kept);
    Ok(Steps {
        counts,
        kept,
        granted,
    })
}

// The decision on the item of the entry.
fn explain_target<D: Dir>(
    alloc: Global,
    target: &Target<'_, '_, D>,
    item: Item<'_>,
    permission: Permission,
) -> Result<Steps, NoMemory>
    ensures ok { IfOk result (IsExplained (D.rows target.now.asking.now.dir.now) target.now.entry.now
        (asked_on target.now.asking.now.who.now target.now.entry.now (protected_of item.entry) permission)) }
{
    let question = target.question(item, permission);
    let numbers = target.asking.dir.in_force(target.number);
    explain_question(alloc, &question, target.number, numbers)
}

// Where there is no entry, nothing counts.
fn no_steps(alloc: Global) -> Steps
    ensures { IsNothing result }
{
    Steps {
        counts: Counts {
            listed: 0,
            users: 0,
            item: 0,
            permission: 0,
            precedence: 0,
            class: 0,
            explicit: 0,
        },
        kept: Vec::new(alloc),
        granted: false,
    }
}

/// The access control decision on the item of the entry of the number (X.501 18.8), filter by filter: how many tuples
/// count for the entry, how many each filter leaves, which those of the last one are, and whether access is granted. The
/// items are read again from the values. A value that is added is added alone. Nothing counts, and access is refused, where the number is not in use. The error comes where memory is
/// wanted.
pub fn explain<D: Dir>(
    alloc: Global,
    dir: &D,
    who: &Requester,
    number: EntryNo,
    item: Item<'_>,
    permission: Permission,
) -> Result<Steps, NoMemory>
    ensures ok { (entry : EntryInformation) → entry_of number.0 (D.rows dir.now) ≡ Some entry
        → IfOk result (IsExplained (D.rows dir.now) entry
        (asked_on who.now entry (protected_of item.entry) permission)) }
    ensures absent { entry_of number.0 (D.rows dir.now) ≡ None → IfOk result (λ steps. IsNothing steps) }
{
    let asking = Asking::new(alloc, dir, who)?;
    match asking.at(number) {
        Some(target) => explain_target(alloc, &target, item, permission),
        None => Ok(no_steps(alloc)),
    }
}
