//! What the values of an attribute have to keep, whatever the classes of the entry.

ghost use Rattle.std.specs.Prelude.{◌≡◌, ◌≤◌, ◌+◌, ◌&&◌, [], false, length, min, nat_lt, slice_get, sum_by, is_err, IfOk};
ghost use Rattle.std.specs.Option.{option_map_or};
ghost use Rattle.dir_tree.specs.schema_tables.Attributes.{is_single, syntax_of};
ghost use Rattle.aci_item.specs.AciText.{read_item};
ghost use Rattle.aci_item.specs.subtree_spec.SubtreeText.{read_subtree};
ghost use Rattle.aci_item.specs.Rules.{is_unread, has_unread_of, has_unread_value, has_unread, has_two_values, octets_in};

use crate::broken::NoMemory;
use aci_item::subtree_spec::BadText;
use dir_tree::Entry;
use dir_tree::dn_names::Value;
use dir_tree::schema_tables::{AttrId, Syntax, row};
use std::alloc::{AllocError, Global};

/// Whether there is a value that is none of its syntax.
pub(crate) fn has_unread(alloc: Global, entry: &Entry) -> Result<bool, NoMemory>
    ensures exact { IfOk result (λ found. found ≡ has_unread entry.now) }
{
    for index in 0..entry.kinds() {
        let unread = has_unread_at(alloc, entry, index)?;
        if unread {
            return Ok(true);
        }
    }
    Ok(false)
}

// Whether there is an attribute at the place, and one of its values is none of its syntax.
fn has_unread_at(alloc: Global, entry: &Entry, index: usize) -> Result<bool, NoMemory>
    ensures exact { IfOk result (λ found.
        found ≡ option_map_or has_unread_value (slice_get entry.now.attributes index) false) }
{
    match entry.kind_at(index) {
        Some(kind) => has_unread_value(alloc, kind, values_at(entry, index)),
        None => Ok(false),
    }
}

// Whether one of the values is none of the type's syntax.
fn has_unread_value(alloc: Global, kind: AttrId, values: &[Value]) -> Result<bool, NoMemory>
    ensures exact { IfOk result (λ found.
        found ≡ option_map_or (has_unread_of values.now) (syntax_of kind.0) false) }
{
    match row(kind) {
        Some(row) => has_unread_of(alloc, values, row.syntax),
        None => Ok(false),
    }
}

// Whether one of the values is none of the syntax.
fn has_unread_of(alloc: Global, values: &[Value], syntax: Syntax) -> Result<bool, NoMemory>
    ensures exact { IfOk result (λ found. found ≡ has_unread_of values.now syntax) }
{
    for value in values {
        if is_unread(alloc, syntax, value.octets())? {
            return Ok(true);
        }
    }
    Ok(false)
}

// Whether the octets are no value of the syntax.
fn is_unread(alloc: Global, syntax: Syntax, octets: &[u8]) -> Result<bool, NoMemory>
    ensures exact { IfOk result (λ found. found ≡ is_unread syntax octets.now) }
{
    match syntax {
        Syntax::Subtree => is_no_subtree(alloc, octets),
        Syntax::Aci => is_no_item(alloc, octets),
        _ => Ok(false),
    }
}

// Whether the octets are no subtree specification.
fn is_no_subtree(alloc: Global, octets: &[u8]) -> Result<bool, NoMemory>
    ensures exact { IfOk result (λ found. found ≡ is_err (read_subtree octets.now)) }
{
    match aci_item::subtree_spec::read(alloc, octets) {
        Ok(_) => Ok(false),
        Err(BadText::NoMemory) => Err(AllocError),
        Err(BadText::Text) => Ok(true),
        Err(BadText::Part { .. }) => Ok(true),
    }
}

// Whether the octets are no access control item.
fn is_no_item(alloc: Global, octets: &[u8]) -> Result<bool, NoMemory>
    ensures exact { IfOk result (λ found. found ≡ is_err (read_item octets.now)) }
{
    match aci_item::read(alloc, octets) {
        Ok(_) => Ok(false),
        Err(BadText::NoMemory) => Err(AllocError),
        Err(BadText::Part { .. } | BadText::Text) => Ok(true),
    }
}

/// Whether a single-valued attribute has two values.
pub(crate) fn has_two_values(entry: &Entry) -> bool
    ensures exact { result ≡ has_two_values entry.now }
{
    for index in 0..entry.kinds() {
        if is_doubled_at(entry, index) {
            return true;
        }
    }
    false
}

// Whether there is an attribute at the place, its type is single-valued, and it has two values.
fn is_doubled_at(entry: &Entry, index: usize) -> bool
    ensures exact { result
        ≡ option_map_or (λ attribute. is_single attribute.kind && nat_lt 1 (length attribute.values))
        (slice_get entry.now.attributes index) false }
{
    match entry.kind_at(index) {
        Some(kind) => is_single(kind) && values_at(entry, index).len() > 1,
        None => false,
    }
}

// Whether the type is single-valued.
fn is_single(kind: AttrId) -> bool
    ensures exact { result ≡ is_single kind.0 }
{
    match row(kind) {
        Some(row) => row.single,
        None => false,
    }
}

// The values of the attribute at the place, or none past the last attribute.
fn values_at(entry: &Entry, index: usize) -> &[Value]
    ensures exact { result.now
        ≡ option_map_or (λ attribute. attribute.values) (slice_get entry.now.attributes index) [] }
{
    entry.is_good();
    match entry.kind_at(index) {
        Some(kind) => entry.values(kind),
        None => &[],
    }
}

/// How many octets the values of one entry may have together.
pub(crate) const MOST_OCTETS: usize = 67_108_864;

/// How many octets the values have together, or one more than they may have.
pub(crate) fn octets_in(entry: &Entry) -> usize
    ensures exact { result ≡ min 67108865 (octets_in entry.now) }
{
    let mut total = 0;
    for index in 0..entry.kinds() {
        total = add_octets(total, values_at(entry, index));
    }
    total
}

// The sum with the octets of the values, or one more than there may be.
fn add_octets(total: usize, values: &[Value]) -> usize
    requires fits { total ≤ 67108865 }
    ensures exact { result ≡ min 67108865 (total + sum_by (λ value. length value.octets) values.now) }
{
    let mut sum = total;
    for value in values {
        sum = add_up_to_limit(sum, value.octets().len());
    }
    sum
}

// The sum, or one more than there may be.
fn add_up_to_limit(total: usize, more: usize) -> usize
    requires fits { total ≤ 67108865 }
    ensures exact { result ≡ min 67108865 (total + more) }
{
    if more > MOST_OCTETS + 1 - total {
        MOST_OCTETS + 1
    } else {
        total + more
    }
}
