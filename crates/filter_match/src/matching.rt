//! Values that match what is asserted.

ghost use Rattle.std.specs.Prelude.{◌≡◌, ◌&&◌, map};
ghost use Rattle.std.specs.List.{list_any};
ghost use Rattle.std.specs.Str.{bytes_eq};
ghost use Rattle.dir_tree.specs.Entry.{values_of};
ghost use Rattle.dir_tree.specs.EntryClasses.{own_oid, oids_of, oids_of_listed};
ghost use Rattle.filter_match.specs.Asked.{assertion_asked};
ghost use Rattle.filter_match.specs.Judging.{has_value};
ghost use Rattle.filter_match.specs.Substrings.{is_substring};
ghost use Rattle.filter_match.specs.Truth.{matches, has_match};

use crate::allow::Allow;
use crate::asked::Asserted;
use dir_tree::Entry;
use dir_tree::dn_names::Value;
use dir_tree::match_rules::{order, substring};
use dir_tree::schema_tables::{AttrId, ClassId, class_oid, class_with, superior};

/// Whether the class has the object identifier.
fn has_oid(class: ClassId, oid: &[u8]) -> bool
    ensures exact { result ≡ list_any (bytes_eq oid.now) (own_oid class.0) }
{
    match class_oid(class) {
        Some(own) => oid == own.as_bytes(),
        None => false,
    }
}

/// Whether the object identifier is that of the class, or of a class above it.
fn is_below(class: ClassId, oid: &[u8]) -> bool
    ensures exact { result ≡ list_any (bytes_eq oid.now) (oids_of class.0) }
{
    if has_oid(class, oid) {
        return true;
    }
    match superior(class) {
        Some(above) => is_below(above, oid),
        None => false,
    }
}

/// Whether the object identifier is that of the class listed here, or of a class above it.
fn is_kind_of(listed: &[u8], oid: &[u8]) -> bool
    ensures exact { result ≡ list_any (bytes_eq oid.now) (oids_of_listed listed.now) }
{
    if oid == listed {
        return true;
    }
    match class_with(listed) {
        Some(found) => is_below(found, oid),
        None => false,
    }
}

/// Whether the key has the parts.
fn has_parts(key: &[u8], first: &[u8], middle: &[Vec<u8>], last: &[u8]) -> bool
    ensures exact { result ≡ is_substring key.now first.now (map (λ part. part.items) middle.now) last.now }
{
    substring(key, first, middle, last)
}

/// Whether the value is as asserted.
#[tactic(auto, unfolding(crate::specs::Truth::matches))]
fn matches(asserted: &Asserted, value: &Value) -> bool
    ensures exact { result ≡ matches (assertion_asked asserted.now) value.now }
{
    match asserted {
        Asserted::HasKey(other) => other.key() == value.key(),
        Asserted::IsClass(class) => is_kind_of(value.key(), class.key()),
        Asserted::IsAtLeast(key) => order(value.key(), key).is_ge(),
        Asserted::IsAtMost(key) => order(value.key(), key).is_le(),
        Asserted::HasParts(first, middle, last) => has_parts(value.key(), first, middle, last),
    }
}

/// Whether the entry has a value of the type that is as asserted, permitted or not.
pub(crate) fn has_possible(asserted: &Asserted, kind: AttrId, entry: &Entry) -> bool
    ensures exact { result ≡ has_value entry.now kind.0 (assertion_asked asserted.now) }
{
    entry
        .values(kind)
        .iter()
        .any(|value| matches(asserted, value))
}

/// Whether the value is as asserted, and permitted; permission is asked only of a value that is.
fn is_match<A: Allow>(asserted: &Asserted, kind: AttrId, value: &Value, allow: &A) -> bool
    ensures exact { result ≡ (matches (assertion_asked asserted.now) value.now && (A.permits allow.now).value kind.0 value.now) }
{
    matches(asserted, value) && allow.value(kind, value)
}

/// Whether the entry has a value of the type that is as asserted, and permitted.
#[tactic(auto, unfolding(crate::specs::Truth::has_match))]
pub(crate) fn has_match<A: Allow>(
    asserted: &Asserted,
    kind: AttrId,
    entry: &Entry,
    allow: &A,
) -> bool
    ensures exact { result ≡ has_match (A.permits allow.now) entry.now kind.0 (assertion_asked asserted.now) }
{
    entry
        .values(kind)
        .iter()
        .any(|value| is_match(asserted, kind, value, allow))
}
