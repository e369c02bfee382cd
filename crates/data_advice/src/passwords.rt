//! What is noted of passwords.

ghost use Rattle.std.specs.Prelude.{◌≡◌, ◌++◌, ◌==◌, OnOk, take, codes, string_bytes};
ghost use Rattle.std.specs.Str.{bytes_eq};
ghost use Rattle.dir_tree.specs.Entry.{values_of};
ghost use Rattle.data_advice.specs.Noting.{numbered};
ghost use Rattle.data_advice.specs.EntryNotes.{is_schemed, accepts_none, password_note};

use crate::noting::{NoMemory, Spot, put_noted};
use dir_tree::Entry;
use dir_tree::dn_names::Value;
use dir_tree::schema_tables::AttrId;
use std::alloc::Global;

const SCHEME: &[u8] = b"{SHA256}";

// Whether the value begins as one of a scheme does.
fn is_schemed(octets: &[u8]) -> bool
    ensures exact { result ≡ is_schemed octets.now }
{
    match octets.first() {
        Some(first) => *first == b'{',
        None => false,
    }
}

// Whether the value begins with the one scheme of which a password is accepted.
fn has_scheme(octets: &[u8]) -> bool
    ensures exact { result ≡ bytes_eq (take 8 octets.now) (codes "{SHA256}") }
{
    octets.split_at(octets.len().min(8)).0 == SCHEME
}

// Whether no password is accepted, for the scheme of the value.
fn accepts_none(octets: &[u8]) -> bool
    ensures exact { result ≡ accepts_none octets.now }
{
    is_schemed(octets) && !has_scheme(octets)
}

// Writes that a value accepts no password, where it is so.
fn put_password(
    alloc: Global,
    entry: &Entry,
    number: usize,
    value: &Value,
    out: &mut String,
) -> Result<(), NoMemory>
    ensures ok { OnOk result (string_bytes out.new ≡ string_bytes out.old ++ password_note entry.now number value.now) }
{
    if !accepts_none(value.octets()) {
        return Ok(());
    }
    let spot = Spot {
        name: entry.name(),
        kind: AttrId::USER_PASSWORD,
        number,
    };
    put_noted(
        alloc,
        &spot,
        "no password is accepted, whose scheme is another than {SHA256}\n",
        out,
    )
}

// Writes which of the values accept no password.
fn put_values(
    alloc: Global,
    entry: &Entry,
    values: &[Value],
    out: &mut String,
) -> Result<(), NoMemory>
    ensures ok { OnOk result (string_bytes out.new
        ≡ string_bytes out.old ++ numbered (password_note entry.now) 1 values.now) }
{
    for (index, value) in values.iter().enumerate() {
        put_password(alloc, entry, index + 1, value, out)?;
    }
    Ok(())
}

/// Writes which passwords of the entry accept none.
pub(crate) fn put_passwords(alloc: Global, entry: &Entry, out: &mut String) -> Result<(), NoMemory>
    ensures ok { OnOk result (string_bytes out.new
        ≡ string_bytes out.old ++ numbered (password_note entry.now) 1 (values_of 18 entry.now.attributes)) }
{
    put_values(alloc, entry, entry.values(AttrId::USER_PASSWORD), out)
}
