//! Why a change isn't made. No memory is taken.

ghost use Rattle.std.specs.Prelude.{◌≡◌, ◌++◌, [], map, length};
ghost use Rattle.dir_tree.specs.Entry.{values_of, has_key};
ghost use Rattle.acdf_filters.specs.Asking.{protected_of};
ghost use Rattle.ldap_msg.specs.plain_values.Refusals.{first_some};
ghost use Rattle.entry_changes.specs.Change.{are_none, withheld, exists_already, delete_value_refusal, delete_refusal, has_octets, goes_refusal, comes_refusal, replace_refusal};
ghost use Rattle.entry_changes.specs.Steps.{add_row, add_rows, add_table, staying};

use crate::ask::Ask;
use acdf_filters::Item;
use acdf_filters::aci_item::Permission;
use dir_tree::Entry;
use dir_tree::dn_names::Value;
use dir_tree::schema_tables::AttrId;
use ldap_msg::ResultCode;
use value_lists::Values;

/// Whether there are no values.
pub(crate) fn are_none(values: &[Value]) -> bool
    ensures exact { result ≡ are_none values.now }
{
    values.is_empty()
}

// Whether one of the values has the value's octets.
fn has_octets(value: &Value, values: &[Value]) -> bool
    ensures exact { result ≡ has_octets value.now values.now }
{
    values.iter().any(|other| value.octets() == other.octets())
}

// The code where the item may not be removed.
fn withheld<A: Ask>(asker: &A, item: Item<'_>) -> ResultCode
    ensures exact { result ≡ withheld (A.asks asker.now) (protected_of item.entry) }
{
    if asker.asks(item, Permission::DiscloseOnError) {
        ResultCode::InsufficientAccessRights
    } else {
        ResultCode::NoSuchAttribute
    }
}

// The code where the value is there already.
fn exists_already<A: Ask>(asker: &A, kind: AttrId, value: &Value) -> ResultCode
    ensures exact { result ≡ exists_already (A.asks asker.now) kind.0 value.now }
{
    if asker.asks(Item::Value(kind, value), Permission::DiscloseOnError)
        || asker.asks(Item::Value(kind, value), Permission::Add)
    {
        ResultCode::AttributeOrValueExists
    } else {
        ResultCode::InsufficientAccessRights
    }
}

// Why the value is not added beside the old ones, by whether it is there.
fn add_value_refusal<A: Ask>(
    asker: &A,
    kind: AttrId,
    there: bool,
    value: &Value,
) -> Option<ResultCode>
    ensures exact { result ≡ add_row (A.asks asker.now) kind.0 there value.now }
{
    if there {
        Some(exists_already(asker, kind, value))
    } else if !asker.asks(Item::Value(kind, value), Permission::Add) {
        Some(ResultCode::InsufficientAccessRights)
    } else {
        None
    }
}

// Why the values are not added, each by itself.
fn add_values_refusal<A: Ask>(
    asker: &A,
    kind: AttrId,
    there: &[bool],
    values: &[Value],
) -> Option<ResultCode>
    requires same_length { length there.now ≡ length values.now }
    ensures exact { result ≡ first_some (add_rows (A.asks asker.now) kind.0 there.now values.now) }
{
    for index in 0..values.len() {
        if let Some(code) = add_value_refusal(asker, kind, there[index], &values[index]) {
            return Some(code);
        }
    }
    None
}

/// Why the values are not added, by whether their type is absent and whether each of them is there.
pub(crate) fn add_refusal<A: Ask>(
    asker: &A,
    kind: AttrId,
    absent: bool,
    there: &[bool],
    values: &[Value],
) -> Option<ResultCode>
    requires same_length { length there.now ≡ length values.now }
    ensures exact { result ≡ add_table (A.asks asker.now) kind.0 absent there.now values.now }
{
    if absent && !asker.asks(Item::Kind(kind), Permission::Add) {
        return Some(ResultCode::InsufficientAccessRights);
    }
    add_values_refusal(asker, kind, there, values)
}

// Whether the entry has the value, and it is none of those that go.
fn is_left(kind: AttrId, entry: &Entry, gone: &Values, value: &Value) -> bool
    ensures exact { result ≡ has_key value.now.key (staying gone.now (values_of kind.0 entry.now.attributes)) }
{
    entry.has_value(kind, value.key()) && !gone.has_key(value.key())
}

// Why the value is not deleted.
fn delete_value_refusal<A: Ask>(
    asker: &A,
    kind: AttrId,
    entry: &Entry,
    gone: &Values,
    value: &Value,
) -> Option<ResultCode>
    ensures exact { result ≡ delete_value_refusal (A.asks asker.now) kind.0
        (staying gone.now (values_of kind.0 entry.now.attributes)) value.now }
{
    if !asker.asks(Item::Value(kind, value), Permission::Remove) {
        Some(withheld(asker, Item::Value(kind, value)))
    } else if !is_left(kind, entry, gone, value) {
        Some(ResultCode::NoSuchAttribute)
    } else {
        None
    }
}

/// Why the values are not deleted, each by itself, from an entry without those that are gone already.
pub(crate) fn delete_values_refusal<A: Ask>(
    asker: &A,
    kind: AttrId,
    entry: &Entry,
    gone: &Values,
    values: &[Value],
) -> Option<ResultCode>
    ensures exact { result
        ≡ first_some (map (delete_value_refusal (A.asks asker.now) kind.0
        (staying gone.now (values_of kind.0 entry.now.attributes))) values.now) }
{
    for value in values {
        if let Some(code) = delete_value_refusal(asker, kind, entry, gone, value) {
            return Some(code);
        }
    }
    None
}

/// Why the attribute is not deleted.
#[tactic(auto, unfolding(crate::specs::Change::delete_refusal))]
pub(crate) fn delete_kind_refusal<A: Ask>(
    asker: &A,
    kind: AttrId,
    old: &[Value],
) -> Option<ResultCode>
    ensures exact { result ≡ delete_refusal (A.asks asker.now) kind.0 old.now [] }
{
    if !asker.asks(Item::Kind(kind), Permission::Remove) {
        Some(withheld(asker, Item::Kind(kind)))
    } else if are_none(old) {
        Some(ResultCode::NoSuchAttribute)
    } else {
        None
    }
}

// Why the old value is not replaced by the values.
fn goes_refusal<A: Ask>(
    asker: &A,
    kind: AttrId,
    values: &[Value],
    value: &Value,
) -> Option<ResultCode>
    ensures exact { result ≡ goes_refusal (A.asks asker.now) kind.0 values.now value.now }
{
    if !has_octets(value, values) && !asker.asks(Item::Value(kind, value), Permission::Remove) {
        Some(withheld(asker, Item::Value(kind, value)))
    } else {
        None
    }
}

// Why the old values are not replaced by the values, each by itself.
fn all_go_refusal<A: Ask>(
    asker: &A,
    kind: AttrId,
    old: &[Value],
    values: &[Value],
) -> Option<ResultCode>
    ensures exact { result ≡ first_some (map (goes_refusal (A.asks asker.now) kind.0 values.now) old.now) }
{
    for value in old {
        if let Some(code) = goes_refusal(asker, kind, values, value) {
            return Some(code);
        }
    }
    None
}

// Why the value does not take the place of the old ones.
fn comes_refusal<A: Ask>(
    asker: &A,
    kind: AttrId,
    old: &[Value],
    value: &Value,
) -> Option<ResultCode>
    ensures exact { result ≡ comes_refusal (A.asks asker.now) kind.0 old.now value.now }
{
    if !has_octets(value, old) && !asker.asks(Item::Value(kind, value), Permission::Add) {
        Some(ResultCode::InsufficientAccessRights)
    } else {
        None
    }
}

// Why the values do not take the place of the old ones, each by itself.
fn all_come_refusal<A: Ask>(
    asker: &A,
    kind: AttrId,
    old: &[Value],
    values: &[Value],
) -> Option<ResultCode>
    ensures exact { result ≡ first_some (map (comes_refusal (A.asks asker.now) kind.0 old.now) values.now) }
{
    for value in values {
        if let Some(code) = comes_refusal(asker, kind, old, value) {
            return Some(code);
        }
    }
    None
}

// Why the old values do not go, or the others do not come.
fn values_refusal<A: Ask>(
    asker: &A,
    kind: AttrId,
    old: &[Value],
    values: &[Value],
) -> Option<ResultCode>
    ensures exact { result ≡ first_some (map (goes_refusal (A.asks asker.now) kind.0 values.now) old.now
        ++ map (comes_refusal (A.asks asker.now) kind.0 old.now) values.now) }
{
    match all_go_refusal(asker, kind, old, values) {
        Some(code) => Some(code),
        None => all_come_refusal(asker, kind, old, values),
    }
}

/// Why the values don't take the place of the old ones.
#[tactic(auto, unfolding(crate::specs::Change::replace_refusal))]
pub(crate) fn replace_refusal<A: Ask>(
    asker: &A,
    kind: AttrId,
    old: &[Value],
    values: &[Value],
) -> Option<ResultCode>
    ensures exact { result ≡ replace_refusal (A.asks asker.now) kind.0 old.now values.now }
{
    if are_none(old) && (!are_none(values) && !asker.asks(Item::Kind(kind), Permission::Add)) {
        Some(ResultCode::InsufficientAccessRights)
    } else if !are_none(old)
        && (are_none(values) && !asker.asks(Item::Kind(kind), Permission::Remove))
    {
        Some(withheld(asker, Item::Kind(kind)))
    } else {
        values_refusal(asker, kind, old, values)
    }
}
