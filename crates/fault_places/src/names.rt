//! Why octets are no name.

ghost use Rattle.std.specs.Prelude.{◌≡◌, ◌+◌, ◌++◌, [], OnOk, codes, decimal, string_bytes};
ghost use Rattle.dir_tree.specs.dn_names.parsing.NameText.{read_name};
ghost use Rattle.fault_places.specs.Saying.{why_at};
ghost use Rattle.fault_places.specs.LineFaults.{name_said};

use crate::saying::{NoMemory, put_at, put_place};
use dir_tree::dn_names::{BadName, Dn, parse};
use std::alloc::{AllocError, Global};

// Writes that a name is empty, where it is.
fn put_empty(name: &Dn, out: &mut String) -> Result<(), NoMemory>
    ensures ok { OnOk result (string_bytes out.new ≡ string_bytes out.old ++ name_said [] (Ok name.now)) }
{
    if name.len() == 0 {
        out.push_str(": the name is empty")
    } else {
        Ok(())
    }
}

// Writes which part of a name names nothing.
fn put_part(index: usize, out: &mut String) -> Result<(), NoMemory>
    ensures ok { OnOk result (string_bytes out.new ≡ string_bytes out.old ++ (codes ": part "
        ++ (decimal (index + 1) ++ codes " has a type that names nothing, or no value of it"))) }
{
    let number = index as u128 + 1;
    write!(
        out,
        ": part {number} has a type that names nothing, or no value of it"
    )
}

/// Writes why the octets are no name, where they are none, or the empty one.
pub(crate) fn put_name_fault(alloc: Global, text: &[u8], out: &mut String) -> Result<(), NoMemory>
    ensures ok { OnOk result (string_bytes out.new ≡ string_bytes out.old ++ name_said text.now (read_name text.now)) }
{
    match parse(alloc, text) {
        Ok(name) => put_empty(&name, out),
        Err(BadName::Text { place }) => put_place(text, Some(place), out),
        Err(BadName::Part { index }) => put_part(index, out),
        Err(BadName::TooMany) => out.push_str(": it has more than 64 parts"),
        Err(BadName::NoMemory) => Err(AllocError),
    }
}

/// Writes the same of the name of a record.
pub(crate) fn put_record_name(
    alloc: Global,
    line: u64,
    name: &[u8],
    out: &mut String,
) -> Result<(), NoMemory>
    ensures ok { OnOk result (string_bytes out.new ≡ string_bytes out.old
        ++ (why_at line ++ (codes ", dn" ++ (name_said name.now (read_name name.now) ++ codes "\n")))) }
{
    put_at(line, out)?;
    out.push_str(", dn")?;
    put_name_fault(alloc, name, out)?;
    out.push_str("\n")
}
