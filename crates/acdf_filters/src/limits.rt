//! How maxValueCount and restrictedBy limit what a grant lets a requester add.

ghost use Rattle.std.specs.Prelude.{◌≡◌, length, map};
ghost use Rattle.std.specs.List.{list_any};
ghost use Rattle.dir_tree.specs.Entry.{values_of, has_key};
ghost use Rattle.dir_tree.specs.attributes.Changes.{with_value};
ghost use Rattle.aci_item.specs.declared.permission.Permission.TheVariants.{Add};
ghost use Rattle.aci_item.specs.Permission.{is_same};
ghost use Rattle.aci_item.specs.item.Views.{items_of, max_value_count_of, restricted_value_of, tuple_of};
ghost use Rattle.acdf_filters.specs.Limits.{is_past, is_outside, exceeds, bars, is_barred};
ghost use Rattle.acdf_filters.specs.weighing.Weighing.{asked_of, left_with};

use crate::asking::Item;
use crate::question::Question;
use aci_item::{AciTuple, MaxValueCount, Permission, ProtectedItems, RestrictedValue};
use dir_tree::Entry;
use dir_tree::dn_names::Value;
use dir_tree::schema_tables::AttrId;

// The number of values of the type that the entry has with the value.
fn count_with(entry: &Entry, kind: AttrId, value: &Value) -> usize
    ensures exact { result ≡ length (values_of kind.0 (with_value kind.0 value.now entry.now).attributes) }
{
    let count = entry.values(kind).len();
    if entry.has_value(kind, value.key()) {
        count
    } else {
        count + 1
    }
}

// The same of the entry that the change would leave.
fn count_left(question: &Question<'_>, kind: AttrId, value: &Value) -> usize
    ensures exact { result ≡ length (values_of kind.0 (left_with question.now kind.0 value.now).attributes) }
{
    match question.after {
        Some(after) => after.values(kind).len(),
        None => count_with(question.entry, kind, value),
    }
}

// Whether the entry has an equal value of the other type, once it has the value.
fn has_with(entry: &Entry, kind: AttrId, value: &Value, other: AttrId) -> bool
    ensures exact { result
        ≡ has_key value.now.key (values_of other.0 (with_value kind.0 value.now entry.now).attributes) }
{
    kind.0 == other.0 || entry.has_value(other, value.key())
}

// The same of the entry that the change would leave.
fn has_left(question: &Question<'_>, kind: AttrId, value: &Value, other: AttrId) -> bool
    ensures exact { result
        ≡ has_key value.now.key (values_of other.0 (left_with question.now kind.0 value.now).attributes) }
{
    match question.after {
        Some(after) => after.has_value(other, value.key()),
        None => has_with(question.entry, kind, value, other),
    }
}

// Whether the entry would have more values of the type than the limit for it allows.
fn is_past(question: &Question<'_>, kind: AttrId, value: &Value, limit: &MaxValueCount) -> bool
    ensures exact { result
        ≡ is_past kind.0 (left_with question.now kind.0 value.now) (max_value_count_of limit.now) }
{
    kind.0 == limit.kind.0 && (limit.max_count as usize) < count_left(question, kind, value)
}

// Whether it would be so by one of the limits.
fn is_any_past(
    question: &Question<'_>,
    kind: AttrId,
    value: &Value,
    limits: &[MaxValueCount],
) -> bool
    ensures exact { result ≡ list_any (is_past kind.0 (left_with question.now kind.0 value.now))
        (map max_value_count_of limits.now) }
{
    for limit in limits {
        if is_past(question, kind, value, limit) {
            return true;
        }
    }
    false
}

// Whether the type is restricted to the values of another, of which the entry would have none equal to the value.
fn is_outside(question: &Question<'_>, kind: AttrId, value: &Value, limit: &RestrictedValue) -> bool
    ensures exact { result
        ≡ is_outside kind.0 value.now (left_with question.now kind.0 value.now) (restricted_value_of limit.now) }
{
    kind.0 == limit.kind.0 && !has_left(question, kind, value, limit.values_in)
}

// Whether it is so by one of the restrictions.
fn is_any_outside(
    question: &Question<'_>,
    kind: AttrId,
    value: &Value,
    limits: &[RestrictedValue],
) -> bool
    ensures exact { result ≡ list_any (is_outside kind.0 value.now (left_with question.now kind.0 value.now))
        (map restricted_value_of limits.now) }
{
    for limit in limits {
        if is_outside(question, kind, value, limit) {
            return true;
        }
    }
    false
}

// Whether the value is beyond what the items allow, in the entry that the change would leave.
#[tactic(auto, unfolding(crate::specs::Limits::exceeds))]
fn exceeds(question: &Question<'_>, kind: AttrId, value: &Value, items: &ProtectedItems) -> bool
    ensures exact { result
        ≡ exceeds (items_of items.now) kind.0 value.now (left_with question.now kind.0 value.now) }
{
    is_any_past(question, kind, value, &items.max_counts)
        || is_any_outside(question, kind, value, &items.restricted)
}

// Whether the permission is that for adding.
fn is_add(permission: Permission) -> bool
    ensures exact { result ≡ is_same permission Add }
{
    match permission {
        Permission::Add => true,
        _ => false,
    }
}

// Whether the tuple grants, and the value is beyond what its items allow.
fn bars(question: &Question<'_>, tuple: &AciTuple, kind: AttrId, value: &Value) -> bool
    ensures exact { result
        ≡ bars (tuple_of tuple.now) kind.0 value.now (left_with question.now kind.0 value.now) }
{
    tuple.grants && exceeds(question, kind, value, &tuple.items)
}

/// Whether the tuple does not extend to the value that is added: it grants, and its maxValueCount or restrictedBy does not
/// allow the value in the entry that the change would leave. It extends to all else. No memory is taken.
pub fn is_barred(question: &Question<'_>, tuple: &AciTuple) -> bool
    ensures exact { result ≡ is_barred (asked_of question.now) (tuple_of tuple.now) }
{
    match question.item {
        Item::Value(kind, value) => {
            is_add(question.permission) && bars(question, tuple, kind, value)
        }
        Item::Entry | Item::Kind(_) => false,
    }
}
