//! Tuples, weighed one after the other.

ghost use Rattle.std.specs.Prelude.{◌≡◌};
ghost use Rattle.aci_item.specs.item.Views.{tuple_of};
ghost use Rattle.acdf_filters.specs.Standing.{with_one};
ghost use Rattle.acdf_filters.specs.weighing.Weighing.{KnowsGroups, asked_of, asked_ranks, alone_at, by_class, with_class_of, with_limits_of, with_item_of, with_permission_of, weighed_for};

use crate::covering::{covers, is_explicit};
use crate::limits::is_barred;
use crate::question::Question;
use crate::standing::Standing;
use crate::users::{class_of, listed_class};
use aci_item::AciTuple;

/// The tuples of an access control item, with the item's tag.
#[derive(Drop)]
pub struct TaggedTuples {
    pub tag: String,
    pub tuples: Vec<AciTuple>,
}

// The state of a tuple alone, whose class has this rank.
fn alone(question: &Question<'_>, tuple: &AciTuple, rank: u8) -> Standing
    ensures exact { result ≡ alone_at (asked_of question.now) (tuple_of tuple.now) rank }
{
    Standing {
        filled: true,
        precedence: tuple.precedence,
        rank,
        explicit: is_explicit(&question.who.name, &question.item, &tuple.items),
        grants: tuple.grants,
    }
}

// The state with a tuple, of this rank, that stays.
fn with_tuple(question: &Question<'_>, tuple: &AciTuple, rank: u8, seen: Standing) -> Standing
    ensures exact { result ≡ with_one (alone_at (asked_of question.now) (tuple_of tuple.now) rank) seen }
{
    seen.with_one(alone(question, tuple, rank))
}

// The state with a tuple that passes the second and third filter, by the class in which the requester is.
fn with_class(
    question: &Question<'_>,
    tuple: &AciTuple,
    class: Option<u8>,
    seen: Standing,
) -> Standing
    ensures exact { result ≡ by_class (asked_of question.now) seen (tuple_of tuple.now) class }
{
    let above = tuple.level.is_above(question.who.level);
    match class {
        Some(rank) => {
            if tuple.grants && above {
                seen
            } else {
                with_tuple(question, tuple, rank, seen)
            }
        }
        None => {
            if tuple.grants || !above {
                seen
            } else {
                with_tuple(question, tuple, listed_class(&tuple.classes), seen)
            }
        }
    }
}

// The same, whatever that class is.
fn weigh_class(question: &Question<'_>, tuple: &AciTuple, seen: Standing) -> Standing
    requires { KnowsGroups question.now }
    ensures exact { result ≡ with_class_of (asked_of question.now) seen (tuple_of tuple.now)
        (asked_ranks question.now (tuple_of tuple.now)) }
{
    with_class(question, tuple, class_of(question, &tuple.classes), seen)
}

// The state with a tuple that covers the item and has the permission.
fn weigh_limits(question: &Question<'_>, tuple: &AciTuple, seen: Standing) -> Standing
    requires { KnowsGroups question.now }
    ensures exact { result ≡ with_limits_of (asked_of question.now) seen (tuple_of tuple.now)
        (asked_ranks question.now (tuple_of tuple.now)) }
{
    if is_barred(question, tuple) {
        seen
    } else {
        weigh_class(question, tuple, seen)
    }
}

// The state with a tuple that has the permission.
fn weigh_item(question: &Question<'_>, tuple: &AciTuple, seen: Standing) -> Standing
    requires { KnowsGroups question.now }
    ensures exact { result ≡ with_item_of (asked_of question.now) seen (tuple_of tuple.now)
        (asked_ranks question.now (tuple_of tuple.now)) }
{
    if covers(&question.who.name, &question.item, &tuple.items) {
        weigh_limits(question, tuple, seen)
    } else {
        seen
    }
}

// The state with a tuple of any kind.
fn weigh_permission(question: &Question<'_>, tuple: &AciTuple, seen: Standing) -> Standing
    requires { KnowsGroups question.now }
    ensures exact { result ≡ with_permission_of (asked_of question.now) seen (tuple_of tuple.now)
        (asked_ranks question.now (tuple_of tuple.now)) }
{
    if tuple.has(question.permission) {
        weigh_item(question, tuple, seen)
    } else {
        seen
    }
}

/// The state with a tuple weighed. What costs least is asked first: a tuple of a lower precedence than those seen, or
/// without the permission, is not looked at further, limits of values are looked at only where a value is added, and
/// members of groups come last. No memory is taken.
pub fn weigh(question: &Question<'_>, tuple: &AciTuple, seen: Standing) -> Standing
    requires { KnowsGroups question.now }
    ensures exact { result ≡ weighed_for question.now seen (tuple_of tuple.now) }
{
    if tuple.precedence < seen.precedence {
        seen
    } else {
        weigh_permission(question, tuple, seen)
    }
}
