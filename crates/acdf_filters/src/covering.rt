//! What protected items cover.

ghost use Rattle.std.specs.Prelude.{◌≡◌, map};
ghost use Rattle.dir_tree.specs.dn_names.Printing.{name_key};
ghost use Rattle.aci_item.specs.item.Views.{items_of};
ghost use Rattle.acdf_filters.specs.Asking.{protected_of};
ghost use Rattle.acdf_filters.specs.Covering.{has_type, is_user_attribute, is_equal, has_equal, is_name_syntax, has_names, is_self, is_explicit, covers_type, covers_value, covers};

use crate::asking::Item;
use crate::users::is_key;
use aci_item::{AttributeTypeAndValue, ProtectedItems};
use dir_tree::dn_names::{Dn, Value};
use dir_tree::schema_tables::{AttrId, Syntax, row};

// Whether the type is listed.
fn has_type(kind: AttrId, kinds: &[AttrId]) -> bool
    ensures exact { result ≡ has_type kind.0 (map (λ other. other.0) kinds.now) }
{
    for other in kinds {
        if kind.0 == other.0 {
            return true;
        }
    }
    false
}

// Whether the type is that of a user attribute.
fn is_user_attribute(kind: AttrId) -> bool
    ensures exact { result ≡ is_user_attribute kind.0 }
{
    match row(kind) {
        Some(row) => !row.operational,
        None => false,
    }
}

// Whether values of the syntax are names.
fn is_name_syntax(syntax: Syntax) -> bool
    ensures exact { result ≡ is_name_syntax syntax }
{
    match syntax {
        Syntax::Name => true,
        _ => false,
    }
}

// Whether values of the type are names.
#[tactic(auto, unfolding(crate::specs::Covering::has_names))]
fn has_names(kind: AttrId) -> bool
    ensures exact { result ≡ has_names kind.0 }
{
    match row(kind) {
        Some(row) => is_name_syntax(row.syntax),
        None => false,
    }
}

// Whether the pair is of the type and its value equal to the value.
fn is_equal(kind: AttrId, value: &Value, pair: &AttributeTypeAndValue) -> bool
    ensures exact { result ≡ is_equal kind.0 value.now pair.now }
{
    kind.0 == pair.kind().0 && value.key() == pair.value().key()
}

// Whether an equal value of the type is listed.
fn has_equal(kind: AttrId, value: &Value, pairs: &[AttributeTypeAndValue]) -> bool
    ensures exact { result ≡ has_equal kind.0 value.now pairs.now }
{
    pairs.iter().any(|pair| is_equal(kind, value, pair))
}

// Whether the value is the requester's name, of a type that is listed, whose values are names.
fn is_self(name: &Option<Dn>, kind: AttrId, value: &Value, kinds: &[AttrId]) -> bool
    ensures exact { result ≡ is_self name.now kind.0 value.now (map (λ other. other.0) kinds.now) }
{
    match name {
        Some(name) => has_type(kind, kinds) && has_names(kind) && is_key(name, value.key()),
        None => false,
    }
}

/// Whether the protected items name what is asked for explicitly: a type by attributeType, a value by attributeValue or
/// selfValue. No memory is taken.
#[tactic(auto, unfolding(crate::specs::Covering::is_explicit))]
pub fn is_explicit(name: &Option<Dn>, item: &Item<'_>, items: &ProtectedItems) -> bool
    ensures exact { result ≡ is_explicit name.now (protected_of item.now) (items_of items.now) }
{
    match item {
        Item::Entry => false,
        Item::Kind(kind) => has_type(*kind, &items.kinds),
        Item::Value(kind, value) => {
            has_equal(*kind, value, &items.values)
                || is_self(name, *kind, value, &items.self_values)
        }
    }
}

/// Whether the protected items cover what is asked for (X.501 18.4.2.6). No memory is taken.
#[tactic(auto, unfolding(crate::specs::Covering::covers))]
pub fn covers(name: &Option<Dn>, item: &Item<'_>, items: &ProtectedItems) -> bool
    ensures exact { result ≡ covers name.now (protected_of item.now) (items_of items.now) }
{
    match item {
        Item::Entry => items.entry,
        Item::Kind(kind) => covers_type(*kind, items),
        Item::Value(kind, value) => covers_value(name, *kind, value, items),
    }
}

// Whether they cover the type.
fn covers_type(kind: AttrId, items: &ProtectedItems) -> bool
    ensures exact { result ≡ covers_type kind.0 (items_of items.now) }
{
    has_type(kind, &items.kinds)
        || (is_user_attribute(kind) && (items.all_kinds || items.all_kinds_and_values))
}

// Whether they cover the value of the type.
fn covers_value(name: &Option<Dn>, kind: AttrId, value: &Value, items: &ProtectedItems) -> bool
    ensures exact { result ≡ covers_value name.now kind.0 value.now (items_of items.now) }
{
    has_type(kind, &items.all_values)
        || has_equal(kind, value, &items.values)
        || is_self(name, kind, value, &items.self_values)
        || (is_user_attribute(kind) && items.all_kinds_and_values)
}
