//! The entry that a record makes.

ghost use Rattle.std.specs.Prelude.{◌≡◌, ℕ, [], Ok, IfOk, option_map};
ghost use Rattle.std.specs.Result.{result_ok};
ghost use Rattle.dir_tree.specs.schema_tables.Attributes.{IsAttrId, attr_of};
ghost use Rattle.dir_tree.specs.dn_names.parsing.NameText.{read_name};
ghost use Rattle.ldif_load.specs.load.Loading.{named, loaded_value, with_new_value, with_new_kind, with_line, with_own_values, entry_of_record};
ghost use Rattle.fault_places.specs.Making.{with_all, taken};

use crate::saying::NoMemory;
use dir_tree::Entry;
use dir_tree::dn_names::{BadName, Dn, MOST_OCTETS, Value, make_value, parse};
use dir_tree::match_rules::PrepareFault;
use dir_tree::schema_tables::{AttrId, attr_named};
use ldif_load::add_own_values;
use ldif_records::{Record, RecordLine};
use std::alloc::{AllocError, Global};

// The name, where it isn't empty.
fn not_empty(name: Dn) -> Option<Dn>
    ensures exact { (line : ℕ) → result ≡ result_ok (named line (Ok name)) }
{
    if name.len() == 0 { None } else { Some(name) }
}

// The name of a record, where it has one.
fn name_of(alloc: Global, octets: &[u8]) -> Result<Option<Dn>, NoMemory>
    ensures ok { IfOk result (λ name. (line : ℕ) → name ≡ result_ok (named line (read_name octets.now))) }
{
    match parse(alloc, octets) {
        Ok(name) => Ok(not_empty(name)),
        Err(BadName::NoMemory) => Err(AllocError),
        Err(BadName::Text { .. } | BadName::Part { .. } | BadName::TooMany) => Ok(None),
    }
}

// The value of the type that the octets are.
fn value_of(alloc: Global, kind: AttrId, octets: &[u8]) -> Result<Option<Value>, NoMemory>
    requires { IsAttrId kind.0 }
    ensures ok { IfOk result (λ value. value ≡ loaded_value kind.0 octets.now) }
{
    if octets.len() > MOST_OCTETS {
        return Ok(None);
    }
    match make_value(alloc, kind, octets.to_vec(alloc)?) {
        Ok(value) => Ok(Some(value)),
        Err(PrepareFault::NoMemory) => Err(AllocError),
        Err(PrepareFault::NotOfSyntax) => Ok(None),
    }
}

// Adds the value of the line, if there is one and the entry has no equal one; whether it was added.
fn add_value(entry: &mut Entry, kind: AttrId, value: Option<Value>) -> Result<bool, NoMemory>
    ensures ok { IfOk result (λ added. (line : ℕ) → taken added entry.new ≡ result_ok (with_new_value entry.old line kind.0 value)) }
{
    match value {
        Some(value) => Ok(entry.push(kind, value)?),
        None => Ok(false),
    }
}

// Adds what an attribute line says; whether it was added.
fn add_line(alloc: Global, entry: &mut Entry, line: &RecordLine) -> Result<bool, NoMemory>
    ensures ok { IfOk result (λ added. taken added entry.new ≡ result_ok (with_line entry.old line.now)) }
{
    match attr_named(line.kind.as_slice()) {
        Some(kind) => {
            let value = value_of(alloc, kind, line.value.as_slice())?;
            add_value(entry, kind, value)
        }
        None => Ok(false),
    }
}

// Adds what attribute lines say; whether all were added.
fn add_lines(alloc: Global, entry: &mut Entry, lines: &[RecordLine]) -> Result<bool, NoMemory>
    ensures ok { IfOk result (λ added. taken added entry.new ≡ with_all entry.old lines.now) }
{
    for line in lines {
        if !add_line(alloc, entry, line)? {
            return Ok(false);
        }
    }
    Ok(true)
}

// The entry of the name and the lines, where all are good.
fn entry_of(alloc: Global, name: Dn, given: &Record) -> Result<Option<Entry>, NoMemory>
    ensures ok { IfOk result (λ entry. entry
        ≡ option_map with_own_values (with_all (record { name = name; attributes = [] }) given.now.lines)) }
{
    let mut entry = Entry::new(alloc, name)?;
    if !add_lines(alloc, &mut entry, given.lines.as_slice())? {
        return Ok(None);
    }
    add_own_values(alloc, &mut entry)?;
    Ok(Some(entry))
}

/// The entry of a record, wherever it will stand; None where its name or one of its lines is refused.
pub(crate) fn entry_of_record(alloc: Global, given: &Record) -> Result<Option<Entry>, NoMemory>
    ensures ok { IfOk result (λ entry. entry ≡ result_ok (entry_of_record given.now)) }
{
    match name_of(alloc, given.name.as_slice())? {
        Some(name) => entry_of(alloc, name, given),
        None => Ok(None),
    }
}
