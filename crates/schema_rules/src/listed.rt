//! Which classes an entry may list together (X.501 8.3 and 13.3).

ghost use Rattle.std.specs.Prelude.{◌≡◌, false};
ghost use Rattle.std.specs.List.{list_any};
ghost use Rattle.std.specs.Option.{option_map_or};
ghost use Rattle.dir_tree.specs.schema_tables.classes.Classes.{class_with};
ghost use Rattle.aci_item.specs.Listed.{is_structural};
ghost use Rattle.schema_rules.specs.Classes.{is_apart, is_apart_from};
ghost use Rattle.aci_item.specs.Rules.{lists_none, lists_unknown, lists_no_structural, lists_two_lines, lists_access_alone};

use crate::classes::{are_in_line, is_structural};
use dir_tree::Entry;
use dir_tree::dn_names::Value;
use dir_tree::schema_tables::{AttrId, ClassId, class_with};

/// Whether no class is listed.
pub(crate) fn lists_none(entry: &Entry) -> bool
    ensures exact { result ≡ lists_none entry.now }
{
    entry.values(AttrId::OBJECT_CLASS).is_empty()
}

/// Whether a class is listed that isn't in the table.
pub(crate) fn lists_unknown(entry: &Entry) -> bool
    ensures exact { result ≡ lists_unknown entry.now }
{
    let listed = entry.values(AttrId::OBJECT_CLASS);
    listed.iter().any(|value| class_with(value.key()).is_none())
}

/// Whether no structural class is listed.
pub(crate) fn lists_no_structural(entry: &Entry) -> bool
    ensures exact { result ≡ lists_no_structural entry.now }
{
    !has_structural(entry.values(AttrId::OBJECT_CLASS))
}

// Whether one of the values is of a structural class.
fn has_structural(listed: &[Value]) -> bool
    ensures exact { result
        ≡ list_any (λ value. option_map_or is_structural (class_with value.key) false) listed.now }
{
    listed.iter().any(|value| is_of_structural(value.key()))
}

// Whether the object identifier is that of a structural class.
fn is_of_structural(oid: &[u8]) -> bool
    ensures exact { result ≡ option_map_or is_structural (class_with oid.now) false }
{
    match class_with(oid) {
        Some(class) => is_structural(class),
        None => false,
    }
}

/// Whether two structural classes are listed that are not in one line of superclasses.
pub(crate) fn lists_two_lines(entry: &Entry) -> bool
    ensures exact { result ≡ lists_two_lines entry.now }
{
    has_two_lines(entry.values(AttrId::OBJECT_CLASS))
}

// Whether two of the structural classes are not in line.
fn has_two_lines(listed: &[Value]) -> bool
    ensures exact { result ≡ list_any (λ value. is_apart_from listed.now value.key) listed.now }
{
    listed
        .iter()
        .any(|value| is_apart_from(listed, value.key()))
}

// Whether the object identifier is that of a structural class not in line with one of the others.
fn is_apart_from(listed: &[Value], oid: &[u8]) -> bool
    ensures exact { result ≡ is_apart_from listed.now oid.now }
{
    match class_with(oid) {
        Some(one) => is_structural(one) && has_apart(one, listed),
        None => false,
    }
}

// Whether one of the values is of a structural class that is not in line with the class.
fn has_apart(one: ClassId, listed: &[Value]) -> bool
    ensures exact { result ≡ list_any (λ value. is_apart one.0 value.key) listed.now }
{
    listed.iter().any(|value| is_apart(one, value.key()))
}

// Whether the object identifier is that of a structural class that is not in line with the class.
fn is_apart(one: ClassId, oid: &[u8]) -> bool
    ensures exact { result ≡ is_apart one.0 oid.now }
{
    match class_with(oid) {
        Some(other) => is_structural(other) && !are_in_line(one, other),
        None => false,
    }
}

/// Whether the class of access control subentries is listed without that of subentries.
pub(crate) fn lists_access_alone(entry: &Entry) -> bool
    ensures exact { result ≡ lists_access_alone entry.now }
{
    entry.has_class("2.5.17.1") && !entry.has_class("2.5.17.0")
}
