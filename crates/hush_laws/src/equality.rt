//! Whether entries are the same, octets and keys.

ghost use Rattle.std.specs.Prelude.{◌≡◌, ◌<◌, ◌+◌, ◌&&◌, length, drop};
ghost use Rattle.std.specs.Cmp.Lexicographic.{pointwise};
ghost use Rattle.hush_laws.specs.Equality.{are_equal_values, are_equal_pairs, are_equal_names, are_equal_attributes, are_equal_entries};

use dir_tree::Entry;
use dir_tree::dn_names::{Dn, Pair, Value};

// Whether the values are.
fn are_equal_values(one: &Value, other: &Value) -> bool
    ensures exact { result ≡ are_equal_values one.now other.now }
{
    one.octets() == other.octets() && one.key() == other.key()
}

// Whether two lists of values are.
fn are_all_values(one: &[Value], other: &[Value]) -> bool
    ensures exact { result ≡ pointwise are_equal_values one.now other.now }
{
    let mut left = one;
    let mut right = other;
    while let Some((first, rest)) = left.split_first() {
        let Some((second, more)) = right.split_first() else {
            return false;
        };
        if !are_equal_values(first, second) {
            return false;
        }
        left = rest;
        right = more;
    }
    right.is_empty()
}

// Whether the pairs are.
fn are_equal_pairs(one: &Pair, other: &Pair) -> bool
    ensures exact { result ≡ are_equal_pairs one.now other.now }
{
    one.kind().0 == other.kind().0 && are_equal_values(one.value(), other.value())
}

// Whether two RDNs are.
fn are_all_pairs(one: &[Pair], other: &[Pair]) -> bool
    ensures exact { result ≡ pointwise are_equal_pairs one.now other.now }
{
    let mut left = one;
    let mut right = other;
    while let Some((first, rest)) = left.split_first() {
        let Some((second, more)) = right.split_first() else {
            return false;
        };
        if !are_equal_pairs(first, second) {
            return false;
        }
        left = rest;
        right = more;
    }
    right.is_empty()
}

// Whether the names have the same RDN at the place; both have one there.
fn are_equal_at(one: &Dn, other: &Dn, index: usize) -> bool
    requires one { index < length one.now }
    requires other { index < length other.now }
    ensures exact { pointwise (pointwise are_equal_pairs) (drop index one.now) (drop index other.now)
        ≡ (result && pointwise (pointwise are_equal_pairs) (drop (index + 1) one.now) (drop (index + 1) other.now)) }
{
    let Some(rdn) = one.rdn(index) else {
        return false;
    };
    let Some(second) = other.rdn(index) else {
        return false;
    };
    are_all_pairs(rdn, second)
}

// Whether the names are.
fn are_equal_names(one: &Dn, other: &Dn) -> bool
    ensures exact { result ≡ are_equal_names one.now other.now }
{
    let len = one.len();
    if len != other.len() {
        return false;
    }
    for index in 0..len {
        if !are_equal_at(one, other, index) {
            return false;
        }
    }
    true
}

// Whether the attributes are.
fn are_all_attributes(one: &Entry, other: &Entry) -> bool
    ensures exact { result ≡ pointwise are_equal_attributes one.now.attributes other.now.attributes }
{
    let mut left = one.attributes();
    let mut right = other.attributes();
    while let Some((kind, values)) = left.next() {
        let Some((second, more)) = right.next() else {
            return false;
        };
        if kind.0 != second.0 || !are_all_values(values, more) {
            return false;
        }
    }
    right.next().is_none()
}

/// Whether the entries are the same: their names with all types and values, and their attributes in their order, octets
/// and keys. Takes no memory.
pub(crate) fn are_equal_entries(one: &Entry, other: &Entry) -> bool
    ensures exact { result ≡ are_equal_entries one.now other.now }
{
    are_equal_names(one.name(), other.name()) && are_all_attributes(one, other)
}
