//! The lines of a record, each put in an entry.

ghost use Rattle.std.specs.Prelude.{◌≡◌, Some, Ok, IfErr, OnOk};
ghost use Rattle.dir_tree.specs.schema_tables.Attributes.{IsAttrId};
ghost use Rattle.dir_tree.specs.dn_names.parsing.NameText.{read_name};
ghost use Rattle.dir_tree.specs.plain_values.Answers.{Answers, IsFaultOf};
ghost use Rattle.ldif_load.specs.load.Loading.{fault_of, named, loaded_value, with_new_kind, with_new_value, with_line, with_lines};
ghost use Rattle.ldif_load.specs.Steps.{value_or_fault};

use crate::fault::{LoadCause, LoadFault, bad_at};
use dir_tree::Entry;
use dir_tree::dn_names::{BadName, Dn, MOST_OCTETS, Value, make_value, parse};
use dir_tree::match_rules::PrepareFault;
use dir_tree::schema_tables::{AttrId, attr_named};
use ldif_records::RecordLine;
use std::alloc::Global;

/// The name that the octets of the `dn` line are. `Name` comes exactly where they are none, or the empty one.
pub(crate) fn named(alloc: Global, line: u64, octets: &[u8]) -> Result<Dn, LoadFault>
    ensures exact { Answers (λ name. name) fault_of result (named line (read_name octets.now)) }
{
    match parse(alloc, octets) {
        Ok(name) => not_empty(line, name),
        Err(BadName::NoMemory) => Err(LoadFault::NoMemory),
        Err(_) => Err(bad_at(line, LoadCause::Name)),
    }
}

// The name, where it isn't empty.
fn not_empty(line: u64, name: Dn) -> Result<Dn, LoadFault>
    ensures exact { Answers (λ name. name) fault_of result (named line (Ok name)) }
{
    if name.len() == 0 {
        Err(bad_at(line, LoadCause::Name))
    } else {
        Ok(name)
    }
}

// The value of the line, of the type. `Value` comes exactly where it is not of the syntax, or too long.
fn value_of(alloc: Global, kind: AttrId, line: RecordLine) -> Result<Value, LoadFault>
    requires { IsAttrId kind.0 }
    ensures exact { Answers (λ value. value) fault_of result
        (value_or_fault line.line (loaded_value kind.0 line.value)) }
{
    let number = line.line;
    if line.value.len() > MOST_OCTETS {
        return Err(bad_at(number, LoadCause::Value));
    }
    match make_value(alloc, kind, line.value.into_vec()) {
        Ok(value) => Ok(value),
        Err(PrepareFault::NoMemory) => Err(LoadFault::NoMemory),
        Err(PrepareFault::NotOfSyntax) => Err(bad_at(number, LoadCause::Value)),
    }
}

// Adds the value. `Twice` comes exactly where the entry has an equal one of the type.
fn add_value(entry: &mut Entry, line: u64, kind: AttrId, value: Value) -> Result<(), LoadFault>
    ensures ok { OnOk result (with_new_value entry.old line kind.0 (Some value) ≡ Ok entry.new) }
    ensures bad { IfErr result (λ fault.
        IsFaultOf (fault_of fault) (with_new_value entry.old line kind.0 (Some value))) }
{
    if entry.push(kind, value)? {
        Ok(())
    } else {
        Err(bad_at(line, LoadCause::Twice))
    }
}

// Adds the value of the line, of the type.
fn add_of_kind(
    alloc: Global,
    entry: &mut Entry,
    line: RecordLine,
    kind: AttrId,
) -> Result<(), LoadFault>
    requires { IsAttrId kind.0 }
    ensures ok { OnOk result (with_new_kind entry.old line (Some kind.0) ≡ Ok entry.new) }
    ensures bad { IfErr result (λ fault.
        IsFaultOf (fault_of fault) (with_new_kind entry.old line (Some kind.0))) }
{
    let number = line.line;
    let value = value_of(alloc, kind, line)?;
    add_value(entry, number, kind, value)
}

// Adds what an attribute line says.
fn add_line(alloc: Global, entry: &mut Entry, line: RecordLine) -> Result<(), LoadFault>
    ensures ok { OnOk result (with_line entry.old line ≡ Ok entry.new) }
    ensures bad { IfErr result (λ fault. IsFaultOf (fault_of fault) (with_line entry.old line)) }
{
    match attr_named(line.kind.as_slice()) {
        Some(kind) => add_of_kind(alloc, entry, line, kind),
        None => Err(bad_at(line.line, LoadCause::Kind)),
    }
}

/// Adds what attribute lines say, in order. The first bad one decides: `Kind`, `Value` and `Twice` are tried in it.
/// After a fault the entry has the lines before it.
pub(crate) fn add_lines(
    alloc: Global,
    entry: &mut Entry,
    lines: Vec<RecordLine>,
) -> Result<(), LoadFault>
    ensures ok { OnOk result (with_lines entry.old lines.items ≡ Ok entry.new) }
    ensures bad { IfErr result (λ fault.
        IsFaultOf (fault_of fault) (with_lines entry.old lines.items)) }
{
    for line in lines {
        add_line(alloc, entry, line)?;
    }
    Ok(())
}
