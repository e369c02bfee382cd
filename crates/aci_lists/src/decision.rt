//! The decision by what is kept.

ghost use Rattle.std.specs.Prelude.{◌≡◌, Some, map, fold};
ghost use Rattle.dir_tree.specs.Entry.{EntryInformation};
ghost use Rattle.dir_tree.specs.tree.Numbered.{entry_of, entries_of, superior_of};
ghost use Rattle.acdf_filters.specs.Filters.{decided};
ghost use Rattle.acdf_filters.specs.Granted.{placed_of};
ghost use Rattle.acdf_filters.specs.Standing.{initial};
ghost use Rattle.acdf_filters.specs.weighing.Weighing.{KnowsGroups, asked_of, weighed_for, is_granted};
ghost use Rattle.aci_lists.specs.kept.Lists.{IsKept, lists_at, tuples_at, tuples_below, tuples_inherited, tuples_kept};

use crate::kept::{Kept, below_at, in_force_at, own_at, prescriptive_at};
use crate::weigh_in_order;
use acdf_filters::{Question, Standing};
use dir_tree::EntryNo;

/// The state with the tuples of the subentries of the numbers weighed.
pub(crate) fn weigh_subentries(
    question: &Question<'_>,
    kept: &[Kept],
    numbers: &[EntryNo],
    seen: Standing,
) -> Standing
    requires { KnowsGroups question.now }
    ensures exact { result ≡ fold (weighed_for question.now) seen (tuples_at kept.now (map (λ no. no.0) numbers.now)) }
{
    let mut now = seen;
    for number in numbers {
        now = weigh_in_order(question, prescriptive_at(kept, *number), now);
    }
    now
}

// The state with the tuples weighed that a subentry has from the entry above it.
fn weigh_below(question: &Question<'_>, kept: &[Kept], number: EntryNo) -> Standing
    requires { KnowsGroups question.now }
    ensures exact { result ≡ fold (weighed_for question.now) initial
        (tuples_below kept.now (superior_of number.0 question.now.tree.now)) }
{
    match question.tree.superior(number) {
        Some(above) => weigh_in_order(question, below_at(kept, above), Standing::new()),
        None => Standing::new(),
    }
}

// The state with the tuples weighed that the entry has from others.
fn weigh_inherited(question: &Question<'_>, kept: &[Kept], number: EntryNo) -> Standing
    requires { KnowsGroups question.now }
    ensures exact { result ≡ fold (weighed_for question.now) initial
        (tuples_inherited kept.now number.0 question.now.entry.now question.now.tree.now) }
{
    if question.entry.is_subentry() {
        weigh_below(question, kept, number)
    } else {
        weigh_subentries(question, kept, in_force_at(kept, number), Standing::new())
    }
}

/// Whether the requester has the permission for the item of the entry of the number (X.501 18.8): the access control
/// decision. No memory is taken.
pub fn decide_by(question: &Question<'_>, kept: &[Kept], number: EntryNo) -> bool
    requires known { KnowsGroups question.now }
    requires kept { IsKept kept.now question.now.tree.now }
    requires entry { entry_of number.0 question.now.tree.now ≡ Some question.now.entry.now }
    ensures exact { result ≡ decided (asked_of question.now)
        (placed_of (entries_of question.now.tree.now) question.now.who.now question.now.entry.now) }
{
    question.tree.entries_form_a_tree();
    let seen = weigh_inherited(question, kept, number);
    weigh_in_order(question, own_at(kept, number), seen).is_granted()
}
