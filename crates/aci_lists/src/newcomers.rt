//! The decision on an entry that is to be added, by what is kept.

ghost use Rattle.std.specs.Prelude.{◌≡◌, IfOk, fold, map, option_map};
ghost use Rattle.dir_tree.specs.tree.Numbered.{entries_of, find_name};
ghost use Rattle.dir_tree.specs.tree.Trees.{superior_name};
ghost use Rattle.acdf_filters.specs.admin_scope.Finding.{AreSubtrees};
ghost use Rattle.acdf_filters.specs.Filters.{decided};
ghost use Rattle.acdf_filters.specs.Granted.{placed_new};
ghost use Rattle.acdf_filters.specs.Standing.{initial};
ghost use Rattle.acdf_filters.specs.weighing.Weighing.{KnowsGroups, asked_of, weighed_for};
ghost use Rattle.acdf_filters.specs.admin_scope.InForce.{AreInForce};
ghost use Rattle.aci_lists.specs.kept.Lists.{IsKept, tuples_below};

use crate::decision::weigh_subentries;
use crate::kept::{Kept, below_at};
use crate::weigh_in_order;
use acdf_filters::admin_scope::{AccessSubentry, in_force_by};
use acdf_filters::{Question, Standing};
use dir_tree::{Entry, EntryNo, NoMemory, Tree};
use std::alloc::Global;

/// The numbers of the access control subentries in force for an entry that is to be added (X.501 18.3), by the subtrees
/// of the tree's subentries. The error comes where memory is wanted.
pub fn in_force_new_by(
    alloc: Global,
    tree: &Tree,
    subtrees: &[AccessSubentry],
    entry: &Entry,
) -> Result<Vec<EntryNo>, NoMemory>
    requires subtrees { AreSubtrees subtrees.now tree.now }
    ensures ok { IfOk result (λ found. AreInForce tree.now entry.now (map (λ no. no.0) found.items)) }
{
    in_force_by(alloc, tree, subtrees, entry)
}

// The number of the entry above the name of the entry.
fn above(question: &Question<'_>) -> Option<EntryNo>
    ensures exact { option_map (λ no. no.0) result
        ≡ find_name (superior_name question.now.entry.now.name) question.now.tree.now }
{
    let name = question.entry.name();
    question
        .tree
        .find_prefix(name, name.len().saturating_sub(1))
}

// The state with the tuples weighed that a subentry has from the entry above its name.
fn weigh_above(question: &Question<'_>, kept: &[Kept]) -> Standing
    requires { KnowsGroups question.now }
    ensures exact { result ≡ fold (weighed_for question.now) initial
        (tuples_below kept.now (find_name (superior_name question.now.entry.now.name) question.now.tree.now)) }
{
    match above(question) {
        Some(number) => weigh_in_order(question, below_at(kept, number), Standing::new()),
        None => Standing::new(),
    }
}

/// Whether the requester has the permission for the item of the entry, which is to be added (X.501 18.8), by the numbers
/// of the subentries in force for it: its own items do not count. No memory is taken.
pub fn decide_new_by(question: &Question<'_>, kept: &[Kept], in_force: &[EntryNo]) -> bool
    requires known { KnowsGroups question.now }
    requires kept { IsKept kept.now question.now.tree.now }
    requires in_force { AreInForce question.now.tree.now question.now.entry.now (map (λ no. no.0) in_force.now) }
    ensures exact { result ≡ decided (asked_of question.now)
        (placed_new (entries_of question.now.tree.now) question.now.who.now question.now.entry.now) }
{
    question.tree.entries_form_a_tree();
    if question.entry.is_subentry() {
        weigh_above(question, kept).is_granted()
    } else {
        weigh_subentries(question, kept, in_force, Standing::new()).is_granted()
    }
}
