//! Names as text.

ghost use Rattle.std.specs.Prelude.{◌≡◌, ◌++◌, ◌==◌, List, [], ◌∷◌, ℕ, true, false, length, drop, reverse, IfOk, OnOk, OnErr, IsUtf8, string_bytes, if◌then◌else◌};
ghost use Rattle.dn_names.specs.Classes.{class_of};
ghost use Rattle.dn_names.specs.name.Names.{TypeAndValue, rdns_of};
ghost use Rattle.dn_names.specs.Printing.{is_escaped, print_octet, print_from, print_value, join_from, print_pair, print_rdn, shown_of, print_by, print_name, name_key};
ghost use Rattle.dn_names.specs.name.Names.{IsTextRdn, IsTextName};
ghost use Rattle.std.specs.Str.{is_utf8};
ghost use Rattle.schema_tables.specs.Attributes.{name_of};

use crate::classes::{Class, classify};
use crate::name::{Dn, Pair, Rdn};
use schema_tables::{AttrId, row};
use std::alloc::{AllocError, Global};
use std::str;

/// Whether a backslash stands before the octet.
pub(crate) fn is_escaped(octet: u8, first: bool, last: bool) -> bool
    ensures exact { result ≡ is_escaped first last (class_of octet) }
{
    match classify(octet) {
        Class::Space => first || last,
        Class::Hash => first,
        Class::Mark | Class::Plus | Class::Comma | Class::Backslash => true,
        _ => false,
    }
}

// Writes an octet of a value.
fn put_octet(out: &mut Vec<u8>, octet: u8, first: bool, last: bool) -> Result<(), AllocError>
    ensures ok { OnOk result (out.new.items ≡ out.old.items ++ print_octet first last octet) }
{
    if is_escaped(octet, first, last) {
        out.extend_from_slice(&[b'\\', octet])
    } else if octet == 0 {
        out.extend_from_slice(b"\\00")
    } else {
        out.extend_from_slice(&[octet])
    }
}

/// Writes a value.
#[tactic(auto, unfolding(crate::specs::Printing::print_value))]
pub(crate) fn put_value(out: &mut Vec<u8>, octets: &[u8]) -> Result<(), AllocError>
    ensures ok { OnOk result (out.new.items ≡ out.old.items ++ print_value octets.now) }
{
    for (index, octet) in octets.iter().enumerate() {
        put_octet(out, *octet, index == 0, index == octets.len() - 1)?;
    }
    Ok(())
}

/// What is printed of a value.
#[derive(Clone, Copy)]
pub(crate) enum Shown {
    Octets,
    Key,
}

fn shown_octets(pair: &Pair, shown: Shown) -> &[u8]
    ensures exact { result.now ≡ shown_of shown pair.now }
    ensures text { is_utf8 pair.now.value.octets ≡ true }
{
    match shown {
        Shown::Octets => pair.value.octets(),
        Shown::Key => pair.value.key(),
    }
}

/// The type's name as the table spells it.
pub(crate) fn type_name(kind: AttrId) -> &'static str
    ensures exact { result.now ≡ name_of kind.0 }
{
    match row(kind) {
        Some(row) => row.name,
        None => "",
    }
}

// Writes a pair.
fn put_pair(out: &mut Vec<u8>, pair: &Pair, shown: Shown) -> Result<(), AllocError>
    ensures ok { OnOk result (out.new.items ≡ out.old.items ++ print_pair (shown_of shown) pair.now) }
    ensures text { OnOk result (is_utf8 pair.now.value.octets ≡ true) }
{
    out.extend_from_slice(type_name(pair.kind()).as_bytes())?;
    out.push(b'=')?;
    put_value(out, shown_octets(pair, shown))
}

// Writes the mark before all but the first.
fn put_mark(out: &mut Vec<u8>, mark: u8, first: bool) -> Result<(), AllocError>
    ensures ok { OnOk result (out.new.items ≡ out.old.items ++ (if first then [] else mark ∷ [])) }
{
    if first {
        Ok(())
    } else {
        out.extend_from_slice(&[mark])
    }
}

// Writes an RDN.
fn put_rdn(out: &mut Vec<u8>, rdn: &[Pair], shown: Shown) -> Result<(), AllocError>
    ensures ok { OnOk result (out.new.items ≡ out.old.items ++ print_rdn (shown_of shown) rdn.now) }
    ensures text { OnOk result (IsTextRdn rdn.now) }
{
    for (index, pair) in rdn.iter().enumerate() {
        put_mark(out, b'+', index == 0)?;
        put_pair(out, pair, shown)?;
    }
    Ok(())
}

// Writes a name, the last RDN first.
#[tactic(auto, unfolding(crate::specs::Printing::print_by))]
fn put_rdns(out: &mut Vec<u8>, rdns: &[Rdn], shown: Shown) -> Result<(), AllocError>
    ensures ok { OnOk result (out.new.items ≡ out.old.items ++ print_by (shown_of shown) (rdns_of rdns.now)) }
    ensures text { OnOk result (IsTextName (reverse (rdns_of rdns.now))) }
{
    for index in 0..rdns.len() {
        put_mark(out, b',', index == 0)?;
        put_rdn(out, rdns[rdns.len() - 1 - index].as_slice(), shown)?;
    }
    Ok(())
}

// A name as octets, and that its values are texts.
fn printed(alloc: Global, name: &Dn, shown: Shown) -> Result<Vec<u8>, AllocError>
    ensures ok { IfOk result (λ text. text.items ≡ print_by (shown_of shown) name.now) }
    ensures text { IfOk result (λ _. IsTextName (reverse name.now)) }
{
    let mut out = Vec::new(alloc);
    put_rdns(&mut out, &name.rdns, shown)?;
    Ok(out)
}

/// The key of a name: its printed form, with keys where the values stand.
#[tactic(auto, unfolding(crate::specs::Printing::name_key))]
pub(crate) fn make_name_key(alloc: Global, name: &Dn) -> Result<Vec<u8>, AllocError>
    ensures ok { IfOk result (λ key. key.items ≡ name_key name.now) }
{
    printed(alloc, name, Shown::Key)
}

fn as_text(octets: &[u8]) -> &str
    requires { IsUtf8 octets.now }
    ensures { result.now ≡ octets.now }
{
    str::from_utf8(octets).unwrap()
}

/// Appends the name as text (RFC 4514 section 2). The error comes where memory is refused; `out` is then as
/// before.
#[tactic(auto, unfolding(crate::specs::Printing::print_name))]
pub fn print(alloc: Global, name: &Dn, out: &mut String) -> Result<(), AllocError>
    ensures ok { OnOk result (string_bytes out.new ≡ string_bytes out.old ++ print_name name.now) }
    ensures err { OnErr result (string_bytes out.new ≡ string_bytes out.old) }
{
    let text = printed(alloc, name, Shown::Octets)?;
    out.push_str(as_text(&text))
}
