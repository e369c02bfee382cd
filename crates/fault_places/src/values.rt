//! The values of a record: which of them stands at a line, and what is wrong with it.

ghost use Rattle.std.specs.Prelude.{◌≡◌, ◌==◌, ◌&&◌, ◌++◌, nat_le, IfOk, OnOk, Some, find, flat_map, option_map, codes, string_bytes};
ghost use Rattle.std.specs.List.{count_by};
ghost use Rattle.std.specs.Option.{option_map_or};
ghost use Rattle.dir_tree.specs.schema_tables.Attributes.{attr_of, syntax_of};
ghost use Rattle.fault_places.specs.Saying.{said, value_at};
ghost use Rattle.fault_places.specs.LineFaults.{is_of, number_of, first_line, unknown_type, syntax_said, value_said, kind_fault, line_fault, record_line_fault, stopped, place_by, unread_of, unread_said};

use crate::names::{put_name_fault, put_record_name};
use crate::saying::{
    NoMemory, item_place, put_place, put_said, put_shown_behind, put_value_at, subtree_place,
};
use dir_tree::dn_names::MOST_OCTETS;
use dir_tree::schema_tables::{AttrId, Syntax, attr_named, row};
use ldif_load::LoadCause;
use ldif_records::{Record, RecordLine};
use std::alloc::Global;

// The syntax of the type.
fn syntax_of(kind: AttrId) -> Option<Syntax>
    ensures exact { result ≡ syntax_of kind.0 }
{
    match row(kind) {
        Some(row) => Some(row.syntax),
        None => None,
    }
}

// The type of the line.
fn kind_of(line: &RecordLine) -> Option<AttrId>
    ensures exact { option_map (λ kind. kind.0) result ≡ attr_of line.now.kind }
{
    attr_named(line.kind.as_slice())
}

// Whether the line is of the type.
fn is_of(kind: AttrId, line: &RecordLine) -> bool
    ensures exact { result ≡ is_of kind.0 line.now }
{
    match kind_of(line) {
        Some(other) => other.0 == kind.0,
        None => false,
    }
}

// Whether the line is of the type, and its number is at most this one.
fn is_of_up_to(kind: AttrId, number: u64, line: &RecordLine) -> bool
    ensures exact { result ≡ (nat_le line.now.line number && is_of kind.0 line.now) }
{
    line.line <= number && is_of(kind, line)
}

/// The number of a line's value among those of its type, counted from 1.
pub(crate) fn number_of(kind: AttrId, line: u64, lines: &[RecordLine]) -> usize
    ensures exact { result ≡ number_of kind.0 line lines.now }
{
    lines
        .iter()
        .filter(|other| is_of_up_to(kind, line, other))
        .count()
}

// The first line of the type.
fn line_of<'a>(kind: AttrId, lines: &'a [RecordLine]) -> Option<&'a RecordLine>
    ensures exact { option_map (λ line. line.now) result ≡ find (is_of kind.0) lines.now }
{
    lines.iter().find(|line| is_of(kind, line))
}

/// The line of the first value of the type; of one that the name alone has, the line of the name.
pub(crate) fn first_line(kind: AttrId, given: &Record) -> u64
    ensures exact { result ≡ first_line kind.0 given.now }
{
    match line_of(kind, given.lines.as_slice()) {
        Some(line) => line.line,
        None => given.line,
    }
}

// Writes what is said of a type that is not in the table.
fn put_unknown_type(kind: &[u8], out: &mut String) -> Result<(), NoMemory>
    ensures ok { OnOk result (string_bytes out.new ≡ string_bytes out.old ++ unknown_type kind.now) }
{
    if kind == b"dn".as_slice() {
        out.push_str("an empty line is missing before \"dn\"")
    } else {
        put_shown_behind("no attribute type ", kind, out)
    }
}

// Writes that the line's type is not in the table.
fn put_unknown_line(line: &RecordLine, out: &mut String) -> Result<(), NoMemory>
    ensures ok { OnOk result (string_bytes out.new
        ≡ string_bytes out.old ++ said line.now.line (unknown_type line.now.kind ++ codes "\n")) }
{
    put_said(line.line, "", out)?;
    put_unknown_type(line.kind.as_slice(), out)?;
    out.push_str("\n")
}

// Writes why octets are no value of a syntax.
fn put_syntax_fault(
    alloc: Global,
    octets: &[u8],
    syntax: Syntax,
    out: &mut String,
) -> Result<(), NoMemory>
    ensures ok { OnOk result (string_bytes out.new ≡ string_bytes out.old ++ syntax_said octets.now (Some syntax)) }
{
    match syntax {
        Syntax::Text => out.push_str(": it is empty, or no text"),
        Syntax::Ascii => out.push_str(": it is empty, or no text of ASCII"),
        Syntax::Phone => out.push_str(": it is no telephone number"),
        Syntax::Country => out.push_str(": it is no code of a country"),
        Syntax::Oid => put_shown_behind(": the schema has nothing of the name ", octets, out),
        Syntax::Name => put_name_fault(alloc, octets, out),
        Syntax::Octets | Syntax::Subtree | Syntax::Aci => Ok(()),
    }
}

// Writes why octets are no value of a type.
fn put_value_fault(
    alloc: Global,
    kind: AttrId,
    octets: &[u8],
    out: &mut String,
) -> Result<(), NoMemory>
    ensures ok { OnOk result (string_bytes out.new ≡ string_bytes out.old ++ value_said kind.0 octets.now) }
{
    if octets.len() > MOST_OCTETS {
        return out.push_str(": it has more than 65536 octets");
    }
    match syntax_of(kind) {
        Some(syntax) => put_syntax_fault(alloc, octets, syntax, out),
        None => Ok(()),
    }
}

// Writes the line, the type and the number of a line's value.
fn put_value_of(
    lines: &[RecordLine],
    line: &RecordLine,
    kind: AttrId,
    out: &mut String,
) -> Result<(), NoMemory>
    ensures ok { OnOk result (string_bytes out.new ≡ string_bytes out.old
        ++ value_at line.now.line kind.0 (number_of kind.0 line.now.line lines.now)) }
{
    put_value_at(line.line, kind, number_of(kind, line.line, lines), out)
}

// Writes what is wrong with the value of a line of the type.
fn put_kind_fault(
    alloc: Global,
    lines: &[RecordLine],
    line: &RecordLine,
    kind: AttrId,
    cause: LoadCause,
    out: &mut String,
) -> Result<(), NoMemory>
    ensures ok { OnOk result (string_bytes out.new ≡ string_bytes out.old ++ kind_fault lines.now line.now (Some kind.0) cause) }
{
    put_value_of(lines, line, kind, out)?;
    match cause {
        LoadCause::Twice => out.push_str(": the entry has the value before\n"),
        _ => {
            put_value_fault(alloc, kind, line.value.as_slice(), out)?;
            out.push_str("\n")
        }
    }
}

// Writes what is wrong with an attribute line.
fn put_line_fault(
    alloc: Global,
    lines: &[RecordLine],
    line: &RecordLine,
    cause: LoadCause,
    out: &mut String,
) -> Result<(), NoMemory>
    ensures ok { OnOk result (string_bytes out.new
        ≡ string_bytes out.old ++ kind_fault lines.now line.now (attr_of line.now.kind) cause) }
{
    match kind_of(line) {
        Some(kind) => put_kind_fault(alloc, lines, line, kind, cause, out),
        None => put_unknown_line(line, out),
    }
}

// The line of the number.
fn line_at<'a>(number: u64, lines: &'a [RecordLine]) -> Option<&'a RecordLine>
    ensures exact { option_map (λ line. line.now) result ≡ find (λ line. line.line == number) lines.now }
{
    lines.iter().find(|line| line.line == number)
}

// Writes what is wrong with the attribute line of the number.
fn put_fault_at(
    alloc: Global,
    lines: &[RecordLine],
    number: u64,
    cause: LoadCause,
    out: &mut String,
) -> Result<(), NoMemory>
    ensures ok { OnOk result (string_bytes out.new ≡ string_bytes out.old
        ++ line_fault lines.now (find (λ line. line.line == number) lines.now) cause) }
{
    match line_at(number, lines) {
        Some(line) => put_line_fault(alloc, lines, line, cause, out),
        None => Ok(()),
    }
}

/// Writes what is wrong with the line of the number: the name, or an attribute line.
pub(crate) fn put_record_line_fault(
    alloc: Global,
    given: &Record,
    number: u64,
    cause: LoadCause,
    out: &mut String,
) -> Result<(), NoMemory>
    ensures ok { OnOk result (string_bytes out.new ≡ string_bytes out.old ++ record_line_fault given.now number cause) }
{
    match cause {
        LoadCause::Name => put_record_name(alloc, given.line, given.name.as_slice(), out),
        _ => put_fault_at(alloc, given.lines.as_slice(), number, cause, out),
    }
}

// Where reading the value stops as a text of its rules; None where it is one, or is to be none.
fn place_of(alloc: Global, kind: AttrId, octets: &[u8]) -> Result<Option<Option<usize>>, NoMemory>
    ensures ok { IfOk result (λ place. place ≡ place_by octets.now (syntax_of kind.0)) }
{
    match syntax_of(kind) {
        Some(Syntax::Subtree) => subtree_place(alloc, octets),
        Some(Syntax::Aci) => item_place(alloc, octets),
        _ => Ok(None),
    }
}

// Writes where reading the value of a line of the type stops, where it does.
fn put_unread_of(
    alloc: Global,
    lines: &[RecordLine],
    line: &RecordLine,
    kind: AttrId,
    out: &mut String,
) -> Result<(), NoMemory>
    ensures ok { OnOk result (string_bytes out.new ≡ string_bytes out.old ++ unread_of lines.now line.now (Some kind.0)) }
{
    let Some(place) = place_of(alloc, kind, line.value.as_slice())? else {
        return Ok(());
    };
    put_value_of(lines, line, kind, out)?;
    put_place(line.value.as_slice(), place, out)?;
    out.push_str("\n")
}

// Writes the same of a line.
fn put_unread_line(
    alloc: Global,
    lines: &[RecordLine],
    line: &RecordLine,
    out: &mut String,
) -> Result<(), NoMemory>
    ensures ok { OnOk result (string_bytes out.new
        ≡ string_bytes out.old ++ unread_of lines.now line.now (attr_of line.now.kind)) }
{
    match kind_of(line) {
        Some(kind) => put_unread_of(alloc, lines, line, kind, out),
        None => Ok(()),
    }
}

/// Writes each value of the lines that is no text of its rules, with the place where reading it stops.
pub(crate) fn put_unread(
    alloc: Global,
    lines: &[RecordLine],
    out: &mut String,
) -> Result<(), NoMemory>
    ensures ok { OnOk result (string_bytes out.new ≡ string_bytes out.old ++ unread_said lines.now) }
{
    for line in lines {
        put_unread_line(alloc, lines, line, out)?;
    }
    Ok(())
}
