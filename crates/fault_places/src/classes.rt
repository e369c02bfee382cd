//! What is broken in the classes of an entry, and in the numbers of its values.

ghost use Rattle.std.specs.Prelude.{◌≡◌, ◌++◌, ◌&&◌, ◌||◌, OnOk, Some, None, false, not, nat_lt, length, map, filter, find, flat_map, is_none, option_map, codes, string_bytes, if◌then◌else◌};
ghost use Rattle.std.specs.List.{list_any};
ghost use Rattle.std.specs.Option.{option_map_or};
ghost use Rattle.dir_tree.specs.schema_tables.Attributes.{is_single, name_of};
ghost use Rattle.dir_tree.specs.schema_tables.classes.Classes.{class_with};
ghost use Rattle.dir_tree.specs.Entry.{values_of, has_kind};
ghost use Rattle.aci_item.specs.Listed.{is_structural, are_in_line};
ghost use Rattle.aci_item.specs.Rules.{lists_none, lists_access_alone, is_permitted_besides};
ghost use Rattle.text_stops.specs.Stops.{shown};
ghost use Rattle.fault_places.specs.Saying.{said};
ghost use Rattle.fault_places.specs.LineFaults.{first_line};
ghost use Rattle.fault_places.specs.ClassFaults.{all_kinds, listed, unknown_class, lists_structural, quoted_class, are_apart, is_apart, structural_said, is_required_by, is_permitted_by, missing_said, unpermitted_said, kind_said, alone_said, listed_said, classes_said, doubled_said, values_said};

use crate::saying::{NoMemory, put_said, put_said_both, put_said_kind, put_said_shown};
use crate::superclasses::{is_permitted_by, is_required_by};
use crate::values::first_line;
use dir_tree::Entry;
use dir_tree::dn_names::Value;
use dir_tree::schema_tables::{
    AttrId, ClassId, ClassKind, class_kind, class_with, is_or_above, row,
};
use ldif_records::Record;
use text_stops::put_shown;

#[rattlefmt::skip]
static KINDS: [AttrId; 35] = [
    AttrId(0), AttrId(1), AttrId(2), AttrId(3), AttrId(4), AttrId(5), AttrId(6), AttrId(7), AttrId(8),
    AttrId(9), AttrId(10), AttrId(11), AttrId(12), AttrId(13), AttrId(14), AttrId(15), AttrId(16),
    AttrId(17), AttrId(18), AttrId(19), AttrId(20), AttrId(21), AttrId(22), AttrId(23), AttrId(24),
    AttrId(25), AttrId(26), AttrId(27), AttrId(28), AttrId(29), AttrId(30), AttrId(31), AttrId(32),
    AttrId(33), AttrId(34),
];

// Each attribute type of the table.
#[tactic(auto, unfolding(crate::specs::ClassFaults::all_kinds))]
fn kinds() -> &'static [AttrId]
    ensures exact { map (λ kind. kind.0) result.now ≡ all_kinds }
{
    &KINDS
}

// The classes that the entry lists.
fn listed(entry: &Entry) -> &[Value]
    ensures exact { result.now ≡ listed entry.now }
{
    entry.values(AttrId::OBJECT_CLASS)
}

// Writes that there is no class of the value, where there is none.
fn put_unknown(line: u64, value: &Value, out: &mut String) -> Result<(), NoMemory>
    ensures ok { OnOk result (string_bytes out.new ≡ string_bytes out.old ++ unknown_class line value.now) }
{
    match class_with(value.key()) {
        Some(_) => Ok(()),
        None => put_said_shown(line, "no class ", value.octets(), "\n", out),
    }
}

// Writes which of the classes are not in the table.
fn put_all_unknown(line: u64, values: &[Value], out: &mut String) -> Result<(), NoMemory>
    ensures ok { OnOk result (string_bytes out.new ≡ string_bytes out.old ++ flat_map (unknown_class line) values.now) }
{
    for value in values {
        put_unknown(line, value, out)?;
    }
    Ok(())
}

// Whether the class is structural.
fn is_structural(class: ClassId) -> bool
    ensures exact { result ≡ is_structural class.0 }
{
    match class_kind(class) {
        Some(ClassKind::Structural) => true,
        _ => false,
    }
}

// Whether one of the two is the other, or a superclass of it.
fn are_in_line(one: ClassId, other: ClassId) -> bool
    ensures exact { result ≡ are_in_line one.0 other.0 }
{
    is_or_above(one, other) || is_or_above(other, one)
}

// Whether the class of the value is structural.
fn lists_structural(value: &Value) -> bool
    ensures exact { result ≡ lists_structural value.now }
{
    match class_with(value.key()) {
        Some(class) => is_structural(class),
        None => false,
    }
}

// Whether both are structural classes, and not in one line of superclasses.
fn are_apart(one: Option<ClassId>, other: Option<ClassId>) -> bool
    ensures exact { result ≡ are_apart (option_map (λ class. class.0) one) (option_map (λ class. class.0) other) }
{
    match (one, other) {
        (Some(one), Some(other)) => {
            is_structural(one) && is_structural(other) && !are_in_line(one, other)
        }
        _ => false,
    }
}

// Whether the classes of the two values are so.
fn is_apart_from(one: &Value, other: &Value) -> bool
    ensures exact { result ≡ are_apart (class_with one.now.key) (class_with other.now.key) }
{
    are_apart(class_with(one.key()), class_with(other.key()))
}

// Whether the class of the value and that of one of the others are so.
fn is_apart(values: &[Value], value: &Value) -> bool
    ensures exact { result ≡ is_apart values.now value.now }
{
    values.iter().any(|other| is_apart_from(value, other))
}

// Writes the classes that are apart from others.
fn put_apart(values: &[Value], out: &mut String) -> Result<(), NoMemory>
    ensures ok { OnOk result (string_bytes out.new
        ≡ string_bytes out.old ++ flat_map quoted_class (filter (is_apart values.now) values.now)) }
{
    for value in values {
        if is_apart(values, value) {
            out.push_str(" ")?;
            put_shown(value.octets(), out)?;
        }
    }
    Ok(())
}

// Writes what is wrong at a line, and the classes that are apart from others.
fn put_said_apart(line: u64, text: &str, values: &[Value], out: &mut String) -> Result<(), NoMemory>
    ensures ok { OnOk result (string_bytes out.new ≡ string_bytes out.old
        ++ said line (text.now ++ (flat_map quoted_class (filter (is_apart values.now) values.now) ++ codes "\n"))) }
{
    put_said(line, text, out)?;
    put_apart(values, out)?;
    out.push_str("\n")
}

// Whether one of the classes is structural.
fn has_structural(values: &[Value]) -> bool
    ensures exact { result ≡ list_any lists_structural values.now }
{
    values.iter().any(|value| lists_structural(value))
}

// Whether one of the classes is apart from another.
fn has_apart(values: &[Value]) -> bool
    ensures exact { result ≡ list_any (is_apart values.now) values.now }
{
    values.iter().any(|value| is_apart(values, value))
}

// Writes that there is no structural class, or that two are not in one line, where it is so.
fn put_structural(line: u64, values: &[Value], out: &mut String) -> Result<(), NoMemory>
    ensures ok { OnOk result (string_bytes out.new ≡ string_bytes out.old ++ structural_said line values.now) }
{
    if !has_structural(values) {
        put_said(line, "no structural class is listed\n", out)
    } else if has_apart(values) {
        put_said_apart(
            line,
            "structural classes in more than one line of superclasses:",
            values,
            out,
        )
    } else {
        Ok(())
    }
}

// The first of the classes that requires the type.
fn requiring<'a>(kind: AttrId, values: &'a [Value]) -> Option<&'a Value>
    ensures exact { option_map (λ value. value.now) result ≡ find (is_required_by kind.0) values.now }
{
    values.iter().find(|value| is_required_by(kind, value))
}

// Writes that a type is missing, which the class requires.
fn put_missing(line: u64, kind: AttrId, value: &Value, out: &mut String) -> Result<(), NoMemory>
    ensures ok { OnOk result (string_bytes out.new ≡ string_bytes out.old ++ missing_said line kind.0 (Some value.now)) }
{
    put_said_both(
        line,
        kind,
        " is missing, which ",
        value.octets(),
        " requires\n",
        out,
    )
}

// Whether the attribute is an operational one that the entry may have whatever its classes.
fn is_permitted_besides(entry: &Entry, kind: AttrId) -> bool
    ensures exact { result ≡ is_permitted_besides kind.0 entry.now }
{
    match kind {
        AttrId(33) => true,
        AttrId(29 | 31 | 34) => !entry.is_subentry(),
        _ => false,
    }
}

// Whether one of the classes permits the type.
fn is_permitted(kind: AttrId, values: &[Value]) -> bool
    ensures exact { result ≡ list_any (is_permitted_by kind.0) values.now }
{
    values.iter().any(|value| is_permitted_by(kind, value))
}

// Writes that no class allows the type, where it is so.
fn put_unpermitted(
    given: &Record,
    entry: &Entry,
    kind: AttrId,
    out: &mut String,
) -> Result<(), NoMemory>
    ensures ok { OnOk result (string_bytes out.new ≡ string_bytes out.old ++ unpermitted_said given.now entry.now kind.0) }
{
    if is_permitted(kind, listed(entry)) || is_permitted_besides(entry, kind) {
        Ok(())
    } else {
        put_said_kind(
            first_line(kind, given),
            "no listed class allows ",
            kind,
            "\n",
            out,
        )
    }
}

// Writes what is wrong with the type.
fn put_kind(given: &Record, entry: &Entry, kind: AttrId, out: &mut String) -> Result<(), NoMemory>
    ensures ok { OnOk result (string_bytes out.new ≡ string_bytes out.old ++ kind_said given.now entry.now kind.0) }
{
    if entry.has_kind(kind) {
        put_unpermitted(given, entry, kind, out)
    } else {
        match requiring(kind, listed(entry)) {
            Some(value) => put_missing(given.line, kind, value, out),
            None => Ok(()),
        }
    }
}

// Writes what is wrong with each of the types.
fn put_kinds(
    given: &Record,
    entry: &Entry,
    kinds: &[AttrId],
    out: &mut String,
) -> Result<(), NoMemory>
    ensures ok { OnOk result (string_bytes out.new ≡ string_bytes out.old
        ++ flat_map (kind_said given.now entry.now) (map (λ kind. kind.0) kinds.now)) }
{
    for kind in kinds {
        put_kind(given, entry, *kind, out)?;
    }
    Ok(())
}

// Writes that the class of access control subentries is listed without that of subentries, where it is so.
fn put_alone(line: u64, entry: &Entry, out: &mut String) -> Result<(), NoMemory>
    ensures ok { OnOk result (string_bytes out.new ≡ string_bytes out.old ++ alone_said line entry.now) }
{
    if entry.has_class("2.5.17.1") && !entry.has_class("2.5.17.0") {
        put_said(
            line,
            "accessControlSubentry is listed without subentry\n",
            out,
        )
    } else {
        Ok(())
    }
}

// Writes all that is broken in the classes that are listed.
#[tactic(auto, unfolding(crate::specs::ClassFaults::listed_said))]
fn put_listed(given: &Record, entry: &Entry, out: &mut String) -> Result<(), NoMemory>
    ensures ok { OnOk result (string_bytes out.new ≡ string_bytes out.old ++ listed_said given.now entry.now) }
{
    put_all_unknown(given.line, listed(entry), out)?;
    put_structural(given.line, listed(entry), out)?;
    put_kinds(given, entry, kinds(), out)?;
    put_alone(given.line, entry, out)
}

/// Writes all that is broken in the classes of an entry.
pub(crate) fn put_classes(given: &Record, entry: &Entry, out: &mut String) -> Result<(), NoMemory>
    ensures ok { OnOk result (string_bytes out.new ≡ string_bytes out.old ++ classes_said given.now entry.now) }
{
    if listed(entry).is_empty() {
        put_said(given.line, "objectClass is missing\n", out)
    } else {
        put_listed(given, entry, out)
    }
}

// Whether the type is single-valued.
fn is_single(kind: AttrId) -> bool
    ensures exact { result ≡ is_single kind.0 }
{
    match row(kind) {
        Some(row) => row.single,
        None => false,
    }
}

// Writes that a type has too many values, where it is so.
fn put_doubled(
    given: &Record,
    entry: &Entry,
    kind: AttrId,
    out: &mut String,
) -> Result<(), NoMemory>
    ensures ok { OnOk result (string_bytes out.new ≡ string_bytes out.old ++ doubled_said given.now entry.now kind.0) }
{
    if is_single(kind) && entry.values(kind).len() > 1 {
        put_said_kind(
            first_line(kind, given),
            "",
            kind,
            " may have one value, and has more\n",
            out,
        )
    } else {
        Ok(())
    }
}

// Writes which of the types have too many values.
fn put_all_doubled(
    given: &Record,
    entry: &Entry,
    kinds: &[AttrId],
    out: &mut String,
) -> Result<(), NoMemory>
    ensures ok { OnOk result (string_bytes out.new ≡ string_bytes out.old
        ++ flat_map (doubled_said given.now entry.now) (map (λ kind. kind.0) kinds.now)) }
{
    for kind in kinds {
        put_doubled(given, entry, *kind, out)?;
    }
    Ok(())
}

/// Writes which single-valued types have more values.
#[tactic(auto, unfolding(crate::specs::ClassFaults::values_said))]
pub(crate) fn put_values(given: &Record, entry: &Entry, out: &mut String) -> Result<(), NoMemory>
    ensures ok { OnOk result (string_bytes out.new ≡ string_bytes out.old ++ values_said given.now entry.now) }
{
    put_all_doubled(given, entry, kinds(), out)
}
