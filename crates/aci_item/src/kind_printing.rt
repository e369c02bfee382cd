//! Attribute types as text, alone and with limits on their values.

ghost use Rattle.std.specs.Prelude.{◌≡◌, ◌++◌, IfOk, OnOk, codes, map, string_bytes};
ghost use Rattle.gser_tree.specs.Writing.{text_of, print_braces, print_filled, print_optional, PutsMembers};
ghost use Rattle.aci_item.specs.ItemPrinted.{print_kind, print_max_value_count, print_restricted_value};
ghost use Rattle.aci_item.specs.item.Views.{max_value_count_of, restricted_value_of};

use crate::protected::{MaxValueCount, RestrictedValue};
use dir_tree::schema_tables::{AttrId, row};
use gser_tree::{put_end, put_name, put_number, put_separator};
use std::alloc::AllocError;

/// Writes the name of an attribute type.
pub(crate) fn put_attribute(out: &mut String, kind: AttrId) -> Result<(), AllocError>
    ensures ok { OnOk result (string_bytes out.new ≡ string_bytes out.old ++ text_of (print_kind kind.0)) }
{
    match row(kind) {
        Some(row) => out.push_str(row.name)?,
        None => {}
    }
    Ok(())
}

// Writes attribute types in braces.
fn put_kind_set(out: &mut String, kinds: &[AttrId]) -> Result<(), AllocError>
    ensures ok { OnOk result (string_bytes out.new ≡ string_bytes out.old ++ text_of (print_braces (map print_kind (map (λ kind. kind.0) kinds.now)))) }
{
    let mut first = true;
    for kind in kinds {
        put_separator(out, first)?;
        put_attribute(out, *kind)?;
        first = false;
    }
    put_end(out, first)?;
    Ok(())
}

/// Writes a component of attribute types, where there are some.
pub(crate) fn put_kinds(
    out: &mut String,
    first: bool,
    name: &str,
    kinds: &[AttrId],
) -> Result<bool, AllocError>
    ensures ok { IfOk result (λ next. PutsMembers (string_bytes out.old) (string_bytes out.new) first next
        (print_optional name.now (print_filled (map print_kind (map (λ kind. kind.0) kinds.now))))) }
{
    if kinds.is_empty() {
        return Ok(first);
    }
    put_name(out, first, name)?;
    put_kind_set(out, kinds)?;
    Ok(false)
}

/// Writes how many values an attribute type has at most.
pub(crate) fn put_max_value_count(out: &mut String, limit: MaxValueCount) -> Result<(), AllocError>
    ensures ok { OnOk result (string_bytes out.new ≡ string_bytes out.old ++ text_of (print_max_value_count (max_value_count_of limit))) }
{
    put_name(out, true, "type")?;
    put_attribute(out, limit.kind)?;
    put_name(out, false, "maxCount")?;
    put_number(out, limit.max_count)?;
    put_end(out, false)?;
    Ok(())
}

// Writes limits on the numbers of values in braces.
fn put_max_value_count_set(out: &mut String, limits: &[MaxValueCount]) -> Result<(), AllocError>
    ensures ok { OnOk result (string_bytes out.new ≡ string_bytes out.old
        ++ text_of (print_braces (map print_max_value_count (map max_value_count_of limits.now)))) }
{
    let mut first = true;
    for limit in limits {
        put_separator(out, first)?;
        put_max_value_count(out, *limit)?;
        first = false;
    }
    put_end(out, first)?;
    Ok(())
}

/// Writes a component of limits on the numbers of values, where there are some.
pub(crate) fn put_max_value_counts(
    out: &mut String,
    first: bool,
    limits: &[MaxValueCount],
) -> Result<bool, AllocError>
    ensures ok { IfOk result (λ next. PutsMembers (string_bytes out.old) (string_bytes out.new) first next
        (print_optional (codes "maxValueCount") (print_filled (map print_max_value_count (map max_value_count_of limits.now))))) }
{
    if limits.is_empty() {
        return Ok(first);
    }
    put_name(out, first, "maxValueCount")?;
    put_max_value_count_set(out, limits)?;
    Ok(false)
}

/// Writes of which attribute type the values of one are values too.
pub(crate) fn put_restricted_value(
    out: &mut String,
    limit: RestrictedValue,
) -> Result<(), AllocError>
    ensures ok { OnOk result (string_bytes out.new ≡ string_bytes out.old ++ text_of (print_restricted_value (restricted_value_of limit))) }
{
    put_name(out, true, "type")?;
    put_attribute(out, limit.kind)?;
    put_name(out, false, "valuesIn")?;
    put_attribute(out, limit.values_in)?;
    put_end(out, false)?;
    Ok(())
}

// Writes restrictions of values in braces.
fn put_restricted_value_set(out: &mut String, limits: &[RestrictedValue]) -> Result<(), AllocError>
    ensures ok { OnOk result (string_bytes out.new ≡ string_bytes out.old
        ++ text_of (print_braces (map print_restricted_value (map restricted_value_of limits.now)))) }
{
    let mut first = true;
    for limit in limits {
        put_separator(out, first)?;
        put_restricted_value(out, *limit)?;
        first = false;
    }
    put_end(out, first)?;
    Ok(())
}

/// Writes a component of restrictions of values, where there are some.
pub(crate) fn put_restricted_values(
    out: &mut String,
    first: bool,
    limits: &[RestrictedValue],
) -> Result<bool, AllocError>
    ensures ok { IfOk result (λ next. PutsMembers (string_bytes out.old) (string_bytes out.new) first next
        (print_optional (codes "restrictedBy") (print_filled (map print_restricted_value (map restricted_value_of limits.now))))) }
{
    if limits.is_empty() {
        return Ok(first);
    }
    put_name(out, first, "restrictedBy")?;
    put_restricted_value_set(out, limits)?;
    Ok(false)
}
