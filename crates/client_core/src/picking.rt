//! What the lines of a record say.

ghost use Rattle.std.specs.Prelude.{◌≡◌, ◌++◌, ◌∷◌, [], IfOk, OnOk, option_map, codes};
ghost use Rattle.client_core.specs.Picks.{value_of, values_of, text_of, scope_named, limit_number, subentries_control, truth_octets};

use crate::limits::limit_in;
use crate::types::NoMemory;
use ldap_msg::plain_values::{Octets, OneOrMany};
use ldap_msg::{Control, SearchScope};
use ldif_records::RecordLine;
use std::alloc::Global;

/// The value of the first line of the type.
pub(crate) fn value_of<'a>(kind: &[u8], lines: &'a [RecordLine]) -> Option<&'a [u8]>
    ensures exact { option_map (λ value. value.now) result ≡ value_of kind.now lines.now }
{
    match lines.iter().find(|line| line.kind.as_slice() == kind) {
        Some(line) => Some(line.value.as_slice()),
        None => None,
    }
}

/// The value of the first line of the type, empty where there is none.
pub(crate) fn text_of<'a>(kind: &[u8], lines: &'a [RecordLine]) -> &'a [u8]
    ensures exact { result.now ≡ text_of kind.now lines.now }
{
    match value_of(kind, lines) {
        Some(text) => text,
        None => b"",
    }
}

/// The octets in memory of their own.
pub(crate) fn octets_of(alloc: Global, octets: &[u8]) -> Result<Octets, NoMemory>
    ensures ok { IfOk result (λ copy. copy ≡ octets.now) }
{
    Ok(Octets::from_vec(octets.to_vec(alloc)?))
}

/// The value of the first line of the type, if there is one, in memory of its own.
pub(crate) fn octets_at(
    alloc: Global,
    kind: &[u8],
    lines: &[RecordLine],
) -> Result<Option<Octets>, NoMemory>
    ensures ok { IfOk result (λ value. value ≡ value_of kind.now lines.now) }
{
    match value_of(kind, lines) {
        Some(value) => Ok(Some(octets_of(alloc, value)?)),
        None => Ok(None),
    }
}

// Appends the value of the line, where it is of the type.
fn push_value(
    alloc: Global,
    values: &mut Vec<Octets>,
    kind: &[u8],
    line: &RecordLine,
) -> Result<(), NoMemory>
    ensures ok { OnOk result (values.new.items ≡ values.old.items ++ values_of kind.now (line.now ∷ [])) }
{
    if line.kind.as_slice() == kind {
        values.push(octets_of(alloc, line.value.as_slice())?)?;
    }
    Ok(())
}

/// The values of all lines of the type.
pub(crate) fn values_of(
    alloc: Global,
    kind: &[u8],
    lines: &[RecordLine],
) -> Result<OneOrMany<Octets>, NoMemory>
    ensures ok { IfOk result (λ values. values ≡ values_of kind.now lines.now) }
{
    let mut values = Vec::new(alloc);
    for line in lines {
        push_value(alloc, &mut values, kind, line)?;
    }
    Ok(OneOrMany::from_vec(values))
}

/// The scope of a word; the base object where none is given.
pub(crate) fn scope_named(text: &[u8]) -> SearchScope
    ensures exact { result ≡ scope_named text.now }
{
    if text == b"one".as_slice() {
        SearchScope::SingleLevel
    } else if text == b"sub".as_slice() {
        SearchScope::WholeSubtree
    } else {
        SearchScope::BaseObject
    }
}

/// The most entries to be sent, 0 for no limit.
pub(crate) fn limit_number(text: &[u8]) -> u32
    ensures exact { result ≡ limit_number text.now }
{
    match limit_in(text) {
        Some(limit) => limit,
        None => 0,
    }
}

// The octets of a BOOLEAN.
fn truth_octets(alloc: Global, text: &[u8]) -> Result<Octets, NoMemory>
    ensures ok { IfOk result (λ octets. octets ≡ truth_octets text.now) }
{
    let content = if text == b"TRUE".as_slice() { 255 } else { 0 };
    octets_of(alloc, &[1, 1, content])
}

// The control of subentries with a truth value.
fn subentries(alloc: Global, text: &[u8]) -> Result<Control, NoMemory>
    ensures ok { IfOk result (λ control. control ∷ [] ≡ subentries_control (Some text.now)) }
{
    let kind = octets_of(alloc, b"1.3.6.1.4.1.4203.1.10.1")?;
    let value = truth_octets(alloc, text)?;
    Ok(Control {
        kind,
        critical: true,
        value: Some(value),
    })
}

/// The critical control of subentries, where a truth value is given.
pub(crate) fn subentries_control(
    alloc: Global,
    lines: &[RecordLine],
) -> Result<OneOrMany<Control>, NoMemory>
    ensures ok { IfOk result (λ controls. controls ≡ subentries_control (value_of (codes "subentries") lines.now)) }
{
    match value_of(b"subentries", lines) {
        Some(text) => Ok(OneOrMany::one(subentries(alloc, text)?)),
        None => Ok(OneOrMany::from_vec(Vec::new(alloc))),
    }
}
