//! The written form of an entry.

ghost use Rattle.std.specs.Prelude.{◌≡◌, ◌++◌, codes, OnOk, OnErr, take};
ghost use Rattle.std.specs.List.{list_all};
ghost use Rattle.dir_tree.specs.schema_tables.Attributes.{name_of};
ghost use Rattle.dir_tree.specs.dn_names.Printing.{print_name};
ghost use Rattle.ldif_records.specs.writing.Written.{is_plain_octet, ends_with_space, is_plain, written_value, written_line, written_values, written_attributes, written_entry, AreInTable};

use crate::lines::begins_with;
use crate::types::NoMemory;
use base64::engine::general_purpose::STANDARD;
use dir_tree::Entry;
use dir_tree::dn_names::{Dn, Value, print};
use dir_tree::schema_tables::{AttrId, row};

// Whether the octet may stand as it is.
fn is_plain_octet(octet: u8) -> bool
    ensures { result ≡ is_plain_octet octet }
{
    octet > 0 && octet < 128 && octet != b'\n' && octet != b'\r'
}

// Whether each octet may.
fn are_plain_octets(octets: &[u8]) -> bool
    ensures { result ≡ list_all is_plain_octet octets.now }
{
    octets.iter().all(|octet| is_plain_octet(*octet))
}

// Whether the last octet is a space.
fn ends_with_space(octets: &[u8]) -> bool
    ensures { result ≡ ends_with_space octets.now }
{
    !octets.is_empty() && octets[octets.len() - 1] == b' '
}

// Whether the value may stand as it is.
#[tactic(auto, unfolding(crate::specs::writing::Written::is_plain))]
fn is_plain(value: &[u8]) -> bool
    ensures { result ≡ is_plain value.now }
{
    are_plain_octets(value)
        && !begins_with(value, b' ')
        && !begins_with(value, b':')
        && !begins_with(value, b'<')
        && !ends_with_space(value)
}

// Writes what stands after the type.
#[tactic(auto, unfolding(crate::specs::writing::Written::written_value))]
fn put_value(out: &mut Vec<u8>, value: &[u8]) -> Result<(), NoMemory>
    ensures { OnOk result (out.new.items ≡ out.old.items ++ written_value value.now) }
{
    if is_plain(value) {
        out.extend_from_slice(b": ")?;
        return out.extend_from_slice(value);
    }
    let text = STANDARD.encode(*out.allocator(), value)?;
    out.extend_from_slice(b":: ")?;
    out.extend_from_slice(text.as_bytes())
}

/// Appends a line of a type and a value, as `put_entry` writes each: the type, the value as it stands or in base64, and LF.
///
/// The error comes where memory is refused; of the line a part may then stand.
pub fn put_line(out: &mut Vec<u8>, kind: &[u8], value: &[u8]) -> Result<(), NoMemory>
    ensures { OnOk result (out.new.items ≡ out.old.items ++ written_line kind.now value.now) }
{
    out.extend_from_slice(kind)?;
    put_value(out, value)?;
    out.extend_from_slice(b"\n")
}

// Writes the line of the name.
fn put_name(out: &mut Vec<u8>, name: &Dn) -> Result<(), NoMemory>
    ensures { OnOk result
        (out.new.items ≡ out.old.items ++ written_line (codes "dn") (print_name name.now)) }
{
    let alloc = *out.allocator();
    let mut text = String::new(alloc);
    print(alloc, name, &mut text)?;
    put_line(out, b"dn", text.as_bytes())
}

// The type's name as the table spells it.
fn kind_name(kind: AttrId) -> &'static str
    ensures { result.now ≡ name_of kind.0 }
{
    match row(kind) {
        Some(row) => row.name,
        None => "",
    }
}

// Writes a line for each value.
fn put_values(out: &mut Vec<u8>, kind: &[u8], values: &[Value]) -> Result<(), NoMemory>
    ensures { OnOk result (out.new.items ≡ out.old.items ++ written_values kind.now values.now) }
{
    for value in values {
        put_line(out, kind, value.octets())?;
    }
    Ok(())
}

// Writes the lines of the attributes.
fn put_attributes(out: &mut Vec<u8>, entry: &Entry) -> Result<(), NoMemory>
    ensures { OnOk result
        (out.new.items ≡ out.old.items ++ written_attributes entry.now.attributes) }
{
    entry.is_good();
    for index in 0..entry.kinds() {
        if let Some(kind) = entry.kind_at(index) {
            put_values(out, kind_name(kind).as_bytes(), entry.values(kind))?;
        }
    }
    Ok(())
}

/// Appends the record of an entry (RFC 2849): a line `dn` with the printed name, and a line for each value in their
/// order. Lines end in LF and are not folded. A SAFE-STRING that does not end in a space stands as it is, after a colon
/// and a space: ASCII with no NUL, LF and CR, and none of space, colon and `<` in front; it may be empty. Any other
/// value stands in padded base64, after two colons and a space.
///
/// The entry's types are all in the table. The error comes where memory is refused; `out` is then as before. The empty
/// line between records is not written.
#[tactic(auto, unfolding(crate::specs::writing::Written::written_entry))]
pub fn put_entry(out: &mut Vec<u8>, entry: &Entry) -> Result<(), NoMemory>
    requires { AreInTable entry.now.attributes }
    ensures ok { OnOk result (out.new.items ≡ out.old.items ++ written_entry entry.now) }
    ensures err { OnErr result (out.new.items ≡ out.old.items) }
{
    let mut text = Vec::new(*out.allocator());
    put_name(&mut text, entry.name())?;
    put_attributes(&mut text, entry)?;
    out.extend_from_slice(&text)
}
